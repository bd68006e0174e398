//! Moves of algos over changed rows.
#![tactic(auto)]

mod laws;
mod minimum;
mod resource;
mod totals;
mod work;

pub use al_overlay::{Rule, Stop, share_of};
pub use al_rows::{Change, Changes};
pub use laws::{
    counts_follow, keys_are_fair, money_is_counted, moves_are_fair, rise_is_counted, rise_is_earned,
};
pub use work::Work;
