//! Tables and blocks in databases.
//!
//! [`SqlTables`] keeps the tables of a round in a database, [`SqlBlocks`] the blocks in another.
//! Neither tells what it holds: what is proved of them is that they are safe, that each failure was
//! counted, and what holds of their answers whatever the database gave. All that the database gives
//! is checked; what is wrong makes the call fail.
#![tactic(auto)]

mod blocks;
mod online;
mod reading;
mod tables;
mod trouble;
mod writing;

pub use blocks::SqlBlocks;
pub use tables::SqlTables;
