//! Changed rows over a view: what is held of them, who created what, amounts that flow, and why a
//! call stops.
#![tactic(auto)]

mod creator;
mod flow;
mod held;
mod rule;
mod share;

pub use creator::{Creators, First, creator_noted, creator_over, creator_viewed, set_noted};
pub use flow::{Flow, flow_row};
pub use held::{Held, account_held, hold_account, row_held, viewed};
pub use rule::{Rule, Stop};
pub use share::share_of;
