//! Rewards by the Algorand ledger specification. A unit is a whole Algo of a balance.
//!
//! [`RewardsState::next`] moves the reward level, by which each unit earns what the pool pays.
//! [`pending`] is what one account has earned and not yet been given. [`Totals`] are the money and
//! the units of all accounts: [`Totals::raise`] follows the level, [`Totals::change`] an account,
//! and [`encode_totals`] spells them, in one way ([`totals_laws`]).
#![tactic(auto)]

mod share;
mod state;
mod totals;
mod totals_record;

pub use share::{REWARD_UNIT, Share, pending};
pub use state::RewardsState;
pub use totals::{Count, Totals};
pub use totals_record::{encode_totals, totals_laws};
