//! Laws of the definitions.
ghost use Rattle.al_eval.specs.Grouped.{GroupsAreItems, ItemsAreGrouped};
ghost use Rattle.al_eval.specs.State.{ChangesLead, StepKeepsLast};
ghost use Rattle.al_eval.specs.Sound.{RowsFollow, StartIsCounted, StartIsSound, StartKeepsLast, StepIsSound};

/// What a block changes leads from the rows before to those after.
pub fn changes_lead()
    ensures { ChangesLead }
{}

/// A genesis begins a sound state.
pub fn start_is_sound()
    ensures { StartIsSound }
{}

/// A genesis's totals are those of its rows, and fit into 64 bits.
pub fn start_is_counted()
    ensures { StartIsCounted }
{}

/// A block that is taken leads from a consistent state to a consistent state, and none is refused
/// because a balance or a holding would pass the most. From a sound state all its money stays, and
/// none is refused because the pool could not pay; the state after it is sound where no application
/// that there is, or that comes next, has the sink or the pool as its account.
pub fn step_is_sound()
    ensures { StepIsSound }
{}

/// What a block of a consistent state changes, put over the rows before it, gives the rows after it,
/// each with the round of its last change: those that differ have the block's round, all others
/// theirs.
pub fn rows_follow()
    ensures { RowsFollow }
{}

/// Transactions in order are cut into groups in one way: each group is one transaction, or some with
/// one group id that is not zero, and no transaction of a group would join the group behind it.
pub fn items_are_grouped()
    ensures { ItemsAreGrouped }
{}

/// The transactions of a block, which the step takes one by one, do what its groups do in order: each
/// is looked at as a whole, then its members come, and then the groups behind it.
pub fn groups_are_items()
    ensures { GroupsAreItems }
{}

/// The state of a genesis, and each state after a block, keeps what consensus may ask of its round:
/// the reward level, and what it knows of the accounts that are online.
pub fn snaps_are_kept()
    ensures start { StartKeepsLast }
    ensures step { StepKeepsLast }
{}
