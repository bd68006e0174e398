//! The spellings of transactions, and the ids of transactions and groups.
ghost use Rattle.std.specs.Prelude.{◌≡◌, ◌++◌, ℕ, List, IfOk, OnErr, OnOk};
ghost use Rattle.al_msgpack.specs.declared.val.Val.TheVariants as values;
ghost use Rattle.al_msgpack.specs.Places.{IsSpelling};
ghost use Rattle.al_msgpack.specs.Spelled.{spelled};
ghost use Rattle.al_txn.specs.Txn.{txn};
ghost use Rattle.al_txn.specs.Ids.{txid_of, group_id_of, ungrouped};

use crate::record::write_in_group;
use crate::{Item, Txn};
use al_base::{Bytes, Hash};
use al_digest::{Prefix, digest};
use al_msgpack::{Entries, Val, Vals, write};
use al_record::{Record, encode_record, put_list};
use std::alloc::{AllocError, Global};

/// Room for the spelling of a payment.
const USUAL_BYTES: usize = 288;

/// Appends the spelling of a transaction's record: the very bytes that it was read from. Nothing is
/// appended where memory is short.
pub fn encode_txn(t: &Txn, out: &mut Vec<u8>) -> Result<(), AllocError>
    ensures bytes { OnOk result (out.new.items ≡ out.old.items ++ spelled (values.Map (txn.write t.now))) }
    ensures back { (input : List ℕ) → IsSpelling (values.Map (txn.write t.now)) input → OnOk result (out.new.items ≡ out.old.items ++ input) }
    ensures err { OnErr result (out.new.items ≡ out.old.items) }
{
    encode_record(t, out)
}

/// The id of a transaction: SHA-512/256 of `TX` and its spelling. Effects beside it do not count.
pub fn txid(alloc: Global, t: &Txn) -> Result<Hash, AllocError>
    ensures { IfOk result (λ h. h ≡ txid_of t.now) }
{
    let mut bytes = Vec::with_capacity(alloc, USUAL_BYTES)?;
    t.write(&mut bytes)?;
    Ok(digest(Prefix::Tx, bytes.as_slice()))
}

/// The id that a transaction has outside of its group.
fn lone_txid(alloc: Global, t: &Txn) -> Result<Hash, AllocError>
    ensures { IfOk result (λ h. h ≡ txid_of (ungrouped t.now)) }
{
    let mut bytes = Vec::with_capacity(alloc, USUAL_BYTES)?;
    write_in_group(t, &[0; 32], &mut bytes)?;
    Ok(digest(Prefix::Tx, bytes.as_slice()))
}

/// The id of a group with these members: SHA-512/256 of `TG` and the spelling of the map with the
/// one field `txlist`, the list of the members' ids, each taken with group zero.
pub fn group_id(alloc: Global, items: &[Item]) -> Result<Hash, AllocError>
    ensures { IfOk result (λ h. h ≡ group_id_of items.now) }
{
    let mut ids = Vals::new(alloc);
    for item in items {
        let id = lone_txid(alloc, &item.txn)?;
        ids.push(Val::Bin(Bytes::of(alloc, &id)?))?;
    }
    let mut entries = Entries::new(alloc);
    put_list(alloc, &mut entries, "txlist", ids)?;
    let mut bytes = Vec::new(alloc);
    write(&Val::Map(entries), &mut bytes)?;
    Ok(digest(Prefix::Group, bytes.as_slice()))
}
