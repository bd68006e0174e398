//! Blocks: headers, paysets, records and hashes.
//!
//! A block's record is a map with the header `b` and the list `t` of payset entries.
//! [`decode_block`] reads a block from its spelling, or finds the first fault; [`encode_block`]
//! gives the spelling back; [`block_laws`] says that bytes spell at most one block.
#![tactic(auto)]

mod block;
mod block_record;
mod decoding;
mod hashing;
mod header;
mod header_record;
mod laws;
mod payset;
mod ranges;

pub use block::Block;
pub use decoding::{BlockFault, MOST_BYTES, decode_block, encode_block};
pub use hashing::{group_end, header_hash, payset_hash};
pub use header::{Field, Header};
pub use header_record::read_header;
pub use laws::{block_laws, decoded_is_within};
pub use payset::{PaysetHashes, payset_hashes};
pub use ranges::{block_range_laws, header_range_laws};
