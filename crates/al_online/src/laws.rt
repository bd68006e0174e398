//! Laws of a memory beside a state.
ghost use Rattle.al_online.specs.Laws.{ShowsBefore, ShowsFrom, ShowsNext};

/// A memory that shows the rounds of a state shows them after a push, after the last round was
/// taken back, and after it was pruned.
pub fn memory_shows()
    ensures next { ShowsNext }
    ensures before { ShowsBefore }
    ensures from { ShowsFrom }
{}
