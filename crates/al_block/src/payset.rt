//! The digest of a payset with the ids of its transactions.
ghost use Rattle.std.specs.Prelude.{◌≡◌, ◌++◌, map, IfOk};
ghost use Rattle.al_msgpack.specs.declared.val.Val.TheVariants as values;
ghost use Rattle.al_msgpack.specs.Spelled.{all_spelled};
ghost use Rattle.al_txn.specs.Ids.{txid_of};
ghost use Rattle.al_txn.specs.Item.{item};
ghost use Rattle.al_block.specs.Hashes.{payset_hash_of};

use crate::Block;
use al_base::Hash;
use al_digest::{Prefix, digest};
use al_msgpack::write_list_head;
use al_txn::{Item, write_with_id};
use std::alloc::{AllocError, Global};

/// Room for the spelling of an entry with a payment.
const USUAL_BYTES: usize = 288;

/// The digest of a block's payset and the ids of its transactions.
#[derive(Debug, Drop)]
pub struct PaysetHashes {
    /// What the header's `payset` has to be.
    pub payset: Hash,
    /// The id of each transaction, in order.
    pub ids: Vec<Hash>,
}

/// The digest of a block's payset and the ids of its transactions, each transaction spelled once.
pub fn payset_hashes(alloc: Global, b: &Block) -> Result<PaysetHashes, AllocError>
    ensures payset { IfOk result (λ h. h.payset ≡ payset_hash_of b.now.items) }
    ensures ids { IfOk result (λ h. h.ids.items ≡ map (λ i. txid_of i.txn) b.now.items) }
{
    let room = b.items.len().saturating_mul(USUAL_BYTES);
    let mut bytes = Vec::with_capacity(alloc, room)?;
    write_list_head(b.items.len(), &mut bytes)?;
    let ids = write_items(alloc, b.items.as_slice(), &mut bytes)?;
    let payset = digest(Prefix::Payset, bytes.as_slice());
    Ok(PaysetHashes { payset, ids })
}

/// Appends the entries one behind the other, and gives the ids of the transactions.
fn write_items(alloc: Global, items: &[Item], out: &mut Vec<u8>) -> Result<Vec<Hash>, AllocError>
    ensures bytes { IfOk result (λ _. out.new.items ≡ out.old.items ++ all_spelled (map (λ es. values.Map es) (map item.write items.now))) }
    ensures ids { IfOk result (λ ids. ids.items ≡ map (λ i. txid_of i.txn) items.now) }
{
    let mut ids = Vec::with_capacity(alloc, items.len())?;
    for member in items {
        ids.push(write_with_id(member, out)?)?;
    }
    Ok(ids)
}
