//! The states of the ledger, one after each block, and the answers that they give.
#![tactic(auto)]

mod accepting;
mod answering;
mod catching;
mod keeping;
mod looking;
mod lookups;
mod making;
mod opening;
mod replies;
mod states;
mod told;

pub use accepting::{AcceptRefusal, Accepted};
pub use looking::{
    CirculationAnswer, CreatorAnswer, LookRefusal, RowAnswer, StakeAnswer, StatusAnswer,
    SupplyAnswer,
};
pub use opening::OpenFault;
pub use states::States;
pub use told::Told;
