//! The records of a payset's entries.
ghost use Rattle.std.specs.Prelude.{◌≡◌, ◌++◌, ◌∷◌, [], suc, IsTrue, IfErr, IfOk, OnErr, OnOk};
ghost use Rattle.al_msgpack.specs.declared.val.Val.TheVariants as values;
ghost use Rattle.al_msgpack.specs.Spelled.{IsFront, spelled};
ghost use Rattle.al_record.specs.Code.{count_some};
ghost use Rattle.al_record.specs.Canonical.{canonical, are_canonical};
ghost use Rattle.al_txn.specs.Ids.{txid_of};
ghost use Rattle.al_txn.specs.Item.{ReadsItem, effects_put, item, item_front, most_effects};

use crate::record::read_txn;
use crate::{Effect, Item};
use al_base::{Bytes, Hash};
use al_digest::{Prefix, digest};
use al_msgpack::{Entry, Val, write_map_head, write_string};
use al_record::{
    Column, Fault, ReadError, Record, Shape, check_fields, find, list, map, range, read_all,
    read_member, write_records,
};
use std::alloc::{AllocError, Global};

const ITEM: [Column; 2] = [Column("fx", Shape::List), Column("txn", Shape::Map)];

/// Why a value is no entry of a payset.
#[derive(Debug, Drop)]
pub enum ItemFault {
    /// A field that is unknown, of the wrong family, or present with its zero value.
    Field { name: Bytes },
    /// A field outside its range.
    Range { name: Bytes },
    /// Want of memory.
    Memory,
}

/// How many effects may stand beside the transaction.
fn most_effects(entries: &[Entry]) -> usize
    ensures { result ≡ most_effects entries.now }
{
    match find(map(entries, "txn"), "type") {
        Some(Val::Str(kind)) => {
            if kind.as_slice() == b"appl".as_slice() {
                256
            } else {
                0
            }
        }
        _ => 0,
    }
}

impl Record for Item {
    ghost use Rattle.al_txn.specs.Item.{item};

    ghost format = { item };

    fn read(alloc: Global, entries: &[Entry]) -> Result<Item, ReadError> {
        check_fields(alloc, entries, &ITEM)?;
        let vals = list(entries, "fx");
        if vals.len() > most_effects(entries) {
            return Err(range(alloc, "fx"));
        }
        let effects = read_all::<Effect>(alloc, vals)?;
        let txn = read_txn(alloc, map(entries, "txn"))?;
        Ok(Item { txn, effects })
    }

    fn write(&self, out: &mut Vec<u8>) -> Result<(), AllocError> {
        write_front(self.effects.as_slice(), out)?;
        self.txn.write(out)
    }
}

/// How many fields the record of an entry with these effects has.
fn count_fields(effects: &[Effect]) -> usize
    ensures { result ≡ suc (count_some (effects_put effects.now ∷ [])) }
{
    if effects.is_empty() {
        return 1;
    }
    2
}

/// Appends what stands before the transaction in the record of an entry.
fn write_front(effects: &[Effect], out: &mut Vec<u8>) -> Result<(), AllocError>
    ensures bytes { OnOk result (out.new.items ≡ out.old.items ++ item_front effects.now) }
    ensures front { OnErr result (IsFront out.old.items out.new.items) }
{
    write_map_head(count_fields(effects), out)?;
    write_records("fx", effects, out)?;
    write_string(b"txn", out)
}

/// Appends the record of an entry, and gives the id of its transaction.
pub fn write_with_id(member: &Item, out: &mut Vec<u8>) -> Result<Hash, AllocError>
    ensures bytes { IfOk result (λ _. out.new.items ≡ out.old.items ++ spelled (values.Map (item.write member.now))) }
    ensures id { IfOk result (λ id. id ≡ txid_of member.now.txn) }
    ensures front { IfErr result (λ _. IsFront out.old.items out.new.items) }
{
    write_front(member.effects.as_slice(), out)?;
    let start = out.len();
    member.txn.write(out)?;
    Ok(digest(Prefix::Tx, &out[start..]))
}

/// The entry of a payset whose record a value is, or the first fault of that record.
///
/// Fields are checked in byte order of their names: first all for `Field` (an unknown name, another
/// family, the zero value), then all for `Range`; an inner record is checked at its field's place
/// in the second pass. A field that names a kind (`type`, `e`) comes before all others of its
/// record. A value that is no map is `Field` of the empty name. `fx` stands beside the type `appl`
/// alone, with at most 256 effects, else it is `Range` of `fx`.
pub fn decode_item(alloc: Global, v: &Val) -> Result<Item, ItemFault>
    requires { IsTrue (canonical v.now) }
    ensures { ReadsItem v.now result }
{
    match read_member::<Item>(alloc, v) {
        Ok(item) => Ok(item),
        Err(ReadError::Fault(Fault::Field { name })) => Err(ItemFault::Field { name }),
        Err(ReadError::Fault(Fault::Range { name })) => Err(ItemFault::Range { name }),
        Err(ReadError::Memory) => Err(ItemFault::Memory),
    }
}
