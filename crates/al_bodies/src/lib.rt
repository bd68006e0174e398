//! What transactions do: data and records of bodies and of the effects beside a call.
//!
//! A body is the part of a transaction that its type alone has. [`pay_of`], [`keyreg_of`],
//! [`move_of`] and [`freeze_of`] read it from a record that has passed its checks; the parameters
//! of an asset have a record of their own ([`read_params`]). Of a call of an application all
//! fields but its number are kept as they stand ([`kept`], [`write_merged`]). An effect is the record of
//! one thing that a call did, by its number `e`.
#![tactic(auto)]

mod body;
mod body_record;
mod call_fields;
mod effect;
mod effect_record;
mod inner;
mod params;
mod ranges;

pub use body::{AppCall, AssetMove, Body, Config, Freeze, KeyReg, Pay};
pub use body_record::{freeze_of, keyreg_of, move_of, pay_of};
pub use call_fields::{is_kept, kept, write_merged};
pub use effect::{Effect, Effects, Inner};
pub use params::{count_params, read_params, write_params};
pub use ranges::{decoded_in_range, range_laws};
