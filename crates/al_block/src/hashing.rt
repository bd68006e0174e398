//! The hashes of blocks, and their groups.
ghost use Rattle.std.specs.Prelude.{◌≡◌, ◌+◌, ◌<◌, ◌≤◌, drop, length, IfOk};
ghost use Rattle.al_block.specs.Hashes.{header_hash_of, payset_hash_of, group_size, run};

use crate::{Block, Header};
use al_base::Hash;
use al_digest::{Prefix, digest};
use al_record::{Record, write_list_of};
use al_txn::Item;
use std::alloc::{AllocError, Global};

/// Room for the spelling of a header without expired accounts.
const USUAL_BYTES: usize = 512;

/// The hash of a block: SHA-512/256 of `BH` and its header's spelling.
pub fn header_hash(alloc: Global, h: &Header) -> Result<Hash, AllocError>
    ensures { IfOk result (λ hash. hash ≡ header_hash_of h.now) }
{
    let mut bytes = Vec::with_capacity(alloc, USUAL_BYTES)?;
    h.write(&mut bytes)?;
    Ok(digest(Prefix::Header, bytes.as_slice()))
}

/// SHA-512/256 of `PL` and the spelling of the list of the block's entries, which the header's
/// `payset` has to be.
pub fn payset_hash(alloc: Global, b: &Block) -> Result<Hash, AllocError>
    ensures { IfOk result (λ hash. hash ≡ payset_hash_of b.now.items) }
{
    let mut bytes = Vec::new(alloc);
    write_list_of(b.items.as_slice(), &mut bytes)?;
    Ok(digest(Prefix::Payset, bytes.as_slice()))
}

/// The end of the group that begins at a place: of the longest run of entries with one group id
/// that is not zero, or of one entry with group zero.
pub fn group_end(b: &Block, from: usize) -> usize
    requires { from < length b.now.items }
    ensures value { result ≡ from + group_size (drop from b.now.items) }
    ensures some { from < result }
    ensures within { result ≤ length b.now.items }
{
    let items = b.items.as_slice();
    let first = &items[from];
    if first.txn.group == [0; 32] {
        return from + 1;
    }
    from + run(&first.txn.group, items.split_at(from).1)
}

/// How many entries at the front have this group id.
fn run(group: &Hash, items: &[Item]) -> usize
    ensures value { result ≡ run group.now items.now }
    ensures within { result ≤ length items.now }
{
    let mut n = 0;
    for item in items {
        if item.txn.group != *group {
            return n;
        }
        n += 1;
    }
    n
}
