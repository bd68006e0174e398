//! Transactions and what they do: data, records, ids.
//!
//! A transaction's record is a map with the transaction's `type` (`pay`, `keyreg`, `acfg`, `axfer`,
//! `afrz` or `appl`), the fields that all types share, and its type's own; fields with their zero
//! value are left out. An entry of a payset is a map with `txn` and, beside a call of an
//! application, the list `fx` of what the call did. [`decode_item`] reads an entry, or finds its
//! first fault; [`txn_laws`] says that each record determines its value. Ids are digests of
//! spellings: [`txid`], [`group_id`].
#![tactic(auto)]

mod call;
mod chain;
mod common;
mod configuration;
mod form;
mod freezing;
mod id;
mod item;
mod laws;
mod payment;
mod ranges;
mod record;
mod registration;
mod transfer;
mod txn;

pub use al_bodies::{
    AppCall, AssetMove, Body, Config, Effect, Effects, Freeze, Inner, KeyReg, Pay,
};
pub use chain::Chain;
pub use form::{Ill, well_formed};
pub use id::{encode_txn, group_id, txid};
pub use item::{ItemFault, decode_item, write_with_id};
pub use laws::txn_laws;
pub use ranges::{decoded_item_in_range, item_range_laws, txn_range_laws};
pub use txn::{Item, Items, Txn};
