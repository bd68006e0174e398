//! Laws of a history beside the rounds of a state.
ghost use Rattle.al_history.specs.Laws.{HistoryBegins, HistoryGrows, HistoryIsPruned, HistoryShrinks};

/// What the accounts are in round 0 is the history of that round.
pub fn history_begins()
    ensures { HistoryBegins }
{}

/// A history with the changes and the level of the next round is that of one round more.
pub fn history_grows()
    ensures { HistoryGrows }
{}

/// A history that was pruned tells the last round and the 320 before it as it did.
pub fn history_is_pruned()
    ensures { HistoryIsPruned }
{}

/// A history is also that of fewer rounds before its last one.
pub fn history_shrinks()
    ensures { HistoryShrinks }
{}
