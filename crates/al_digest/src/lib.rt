//! Digests by prefix, and the texts of digests and addresses.
#![tactic(auto)]

mod base32;
mod counting;
mod hashing;
mod texts;

pub use counting::Steps;
pub use hashing::{Prefix, digest, node_digest};
pub use texts::{TextFault, address_text, hash_text, parse_address, parse_hash};
