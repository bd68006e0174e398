//! The step of a block over rows, and the state that a genesis begins.
#![tactic(auto)]

mod before;
mod expiry;
mod group;
mod header;
mod laws;
mod lent;
mod numbers;
mod pool;
mod run;
mod start;
mod transact;

pub use al_genesis::{Genesis, GenesisFault, GenesisRow, GenesisRows};
pub use al_tail::{Entry, Tail};
pub use before::{Before, EvalRefusal};
pub use laws::{
    changes_lead, groups_are_items, items_are_grouped, rows_follow, snaps_are_kept,
    start_is_counted, start_is_sound, step_is_sound,
};
pub use run::{Evaluated, eval, eval_by_value, eval_with_entries};
pub use start::{start_online, start_rows, start_totals};
