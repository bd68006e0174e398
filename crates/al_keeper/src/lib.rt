//! Where the tables and the blocks of a ledger are kept.
#![tactic(auto)]

mod blocks;
mod calls;
mod counted;
mod creators;
mod fault;
mod keeper;
mod lists;
mod newest;
mod planned;
mod room;
mod rows;
mod sure;

pub use blocks::{MemBlocks, SureBlocks};
pub use counted::{Counted, Fault, KeepRefusal, Tallies, Tally};
pub use fault::{KeepFault, MayFail};
pub use keeper::{BlockKeeper, TableKeeper};
pub use planned::MemTables;
pub use sure::SureTables;
