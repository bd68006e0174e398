//! The elements of rows: how they stand in the hash trie.
ghost use Rattle.std.specs.Prelude.{◌≡◌, ◌++◌, ◌∷◌, ◌%◌, ◌^◌, length, take, IfOk};
ghost use Rattle.al_msgpack.specs.Grammar.{digits};
ghost use Rattle.al_row_records.specs.Element.{element_of, kind_of, row_string};

use crate::decoding::encode_row;
use al_base::{Hash, Key};
use al_digest::{Prefix, digest};
use al_rows::{Row, Stored};
use std::alloc::{AllocError, Global};

/// The 36 bytes by which a row stands in the hash trie, numbers most significant byte first.
///
/// - 4 bytes: the low 32 bits of the round that changed the row last.
/// - 1 byte: the kind of the row, 0 an account, 1 an asset, 2 an application, 3 a box.
/// - 31 bytes: the first of the digest with the prefix of rows, which is taken of the length of the
///   key's bytes in 2 bytes, these bytes, and what [`encode_row`] appends.
///
/// The error is want of memory: what the digest is taken of is held in memory meanwhile.
#[tactic(auto, unfolding(crate::specs::Element::element_of))]
pub fn element(alloc: Global, key: &Key, stored: &Stored) -> Result<[u8; 36], AllocError>
    ensures value { IfOk result (λ e. e ≡ element_of key.now stored.now) }
    ensures size { IfOk result (λ e. length e ≡ 36) }
{
    let string = hashed(alloc, key, &stored.row)?;
    Ok(joined(
        stored.changed,
        kind(&stored.row),
        &digest(Prefix::Row, &string),
    ))
}

/// What the digest of a row is taken of.
#[tactic(auto, unfolding(crate::specs::Element::row_string))]
fn hashed(alloc: Global, key: &Key, row: &Row) -> Result<Vec<u8>, AllocError>
    ensures { IfOk result (λ s. s.items ≡ row_string key.now row.now) }
{
    let held = key.bytes();
    let bytes = held.as_slice();
    let mut out = Vec::new(alloc);
    out.extend_from_slice(&two_bytes(bytes.len() as u16))?;
    out.extend_from_slice(bytes)?;
    encode_row(row, &mut out)?;
    Ok(out)
}

/// The number of a row's kind.
fn kind(row: &Row) -> u8
    ensures { result ≡ kind_of row.now }
{
    match row {
        Row::Account(_) => 0,
        Row::Asset(_) => 1,
        Row::App(_) => 2,
        Row::Box(_) => 3,
    }
}

/// The two bytes of a number.
#[tactic(auto, using(al_msgpack::proofs::Written::be_2))]
fn two_bytes(n: u16) -> [u8; 2]
    ensures { result ≡ digits 2 n }
{
    n.to_be_bytes()
}

/// The four bytes of a number's low 32 bits.
#[tactic(auto, using(al_msgpack::proofs::Written::be_4))]
fn low_bytes(n: u64) -> [u8; 4]
    ensures value { result ≡ digits 4 (n % 2 ^ 32) }
    ensures size { length result ≡ 4 }
{
    ((n % (1 << 32)) as u32).to_be_bytes()
}

/// An element of its parts.
fn joined(changed: u64, kind: u8, digest: &Hash) -> [u8; 36]
    ensures { result ≡ digits 4 (changed % 2 ^ 32) ++ kind ∷ take 31 digest.now }
{
    let mut element = [0; 36];
    element[..4].copy_from_slice(&low_bytes(changed));
    element[4] = kind;
    element[5..].copy_from_slice(&digest[..31]);
    element
}
