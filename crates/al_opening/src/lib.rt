//! What a ledger begins from, when it is opened over a keeper of tables and a keeper of blocks.
#![tactic(auto)]

mod counting;
mod opening;
mod past;
mod refusal;

pub use counting::count_totals;
pub use opening::{Gap, Opening, plan, plan_fits};
pub use past::{Past, read_block, read_past};
pub use refusal::StartRefusal;
