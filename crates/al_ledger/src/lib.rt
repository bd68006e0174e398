//! The ledger over a keeper of tables and a keeper of blocks.
#![tactic(auto)]

mod accepting;
mod evaluating;
mod flushing;
mod keeping;
mod looking;
mod lookups;
mod recent;
mod repeating;
mod shown;
mod view;

pub use accepting::{AcceptRefusal, Accepted};
pub use evaluating::evaluate;
pub use flushing::{FlushRefusal, Flushed, target};
pub use looking::{
    CirculationAnswer, CreatorAnswer, LookRefusal, RowAnswer, StakeAnswer, StatusAnswer,
    SupplyAnswer,
};
pub use recent::Recent;
pub use repeating::repeated;
pub use shown::{creator_after, row_after};
pub use view::Seen;
