//! The records of rows.
//!
//! Each kind of row has a table of fields: accounts (names `a` to `s`), assets and applications
//! (the kind `x`, the flag of each part with that part's fields) and boxes (`v`). [`encode_row`]
//! appends the spelling of a row's record, [`decode_row`] reads the row of a key back, or finds the
//! first fault. [`element`] gives the bytes by which a row stands in the hash trie.
#![tactic(auto)]

mod account_record;
mod app_record;
mod asset_record;
mod box_record;
mod decoding;
mod elements;
mod laws;
mod row_record;

pub use decoding::{RowFault, decode_row, encode_row};
pub use elements::element;
pub use laws::{element_laws, row_record_laws};
