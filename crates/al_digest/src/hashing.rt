//! SHA-512/256 of a prefix and the bytes behind it.
ghost use Rattle.std.specs.Prelude.{◌≡◌, ◌+◌, codes, length};
ghost use Rattle.al_digest.specs.Digests.{prefix_of, digest_of, node_digest_of, bare_digest_of};

use crate::Steps;
use al_base::Hash;
use sha2::{Digest, Sha512_256};
use std::sync::ledger::Ledger;

/// What a digest is taken of.
#[derive(Clone, Copy, Debug, PartialEq, Eq)]
pub enum Prefix {
    /// A transaction: its id.
    Tx,
    /// A list of transactions: a group's id.
    Group,
    /// A block's header: the block's hash.
    Header,
    /// The list of a block's entries.
    Payset,
    /// An application's number: its account's address.
    App,
    /// A genesis record: the genesis hash.
    Genesis,
    /// A row with its key.
    Row,
    /// What stands at the root of the trie of rows.
    Root,
    /// What a catchpoint's label commits to.
    Label,
}

fn prefix_bytes(prefix: Prefix) -> &'static [u8]
    ensures { result.now ≡ prefix_of prefix }
{
    match prefix {
        Prefix::Tx => b"TX",
        Prefix::Group => b"TG",
        Prefix::Header => b"BH",
        Prefix::Payset => b"PL",
        Prefix::App => b"appID",
        Prefix::Genesis => b"GE",
        Prefix::Row => b"RW",
        Prefix::Root => b"TR",
        Prefix::Label => b"CL",
    }
}

/// The SHA-512/256 digest of a prefix and the bytes behind it.
pub fn digest(prefix: Prefix, parts: &[u8]) -> Hash
    ensures value { result ≡ digest_of prefix parts.now }
    ensures size { length result ≡ 32 }
{
    let mut hasher = Sha512_256::new();
    hasher.update(prefix_bytes(prefix));
    hasher.update(parts);
    hasher.finalize()
}

/// The digest of a node of the trie of rows. It counts one step.
pub fn node_digest<L: Ledger>(bytes: &[u8], steps: &mut Steps<L>) -> Hash
    ensures value { result ≡ node_digest_of bytes.now }
    ensures size { length result ≡ 32 }
    ensures cost { steps.new ≡ steps.old + 1 }
{
    steps.tick();
    let mut hasher = Sha512_256::new();
    hasher.update(b"TN");
    hasher.update(bytes);
    hasher.finalize()
}

/// The digest of bytes without a prefix.
pub(crate) fn bare_digest(bytes: &[u8]) -> Hash
    ensures value { result ≡ bare_digest_of bytes.now }
    ensures size { length result ≡ 32 }
{
    let mut hasher = Sha512_256::new();
    hasher.update(bytes);
    hasher.finalize()
}
