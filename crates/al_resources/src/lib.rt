//! What transactions make of assets and applications: their parameters, holdings, local states and
//! boxes.
//!
//! [`configure`], [`transfer`] and [`freeze`] are the bodies of the transactions on assets, and
//! [`apply_effects`] is that of a call of an application, over the rows changed so far: the rows
//! after each are those of the definition, or the first rule that is broken is.
#![tactic(auto)]

mod app;
mod apps;
mod asset;
mod boxes;
mod configuration;
mod effects;
mod freezes;
mod held;
mod laws;
mod transfers;
mod units;

pub use app::Made;
pub use asset::Issued;
pub use configuration::configure;
pub use effects::apply_effects;
pub use freezes::freeze;
pub use laws::{assets_are_sound, calls_are_sound, payments_are_sound};
pub use transfers::transfer;
