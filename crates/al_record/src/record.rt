//! Lists of records.
ghost use Rattle.std.specs.Prelude.{◌≡◌, ◌++◌, [], map, IsTrue, OnErr, OnOk};
ghost use Rattle.std.specs.List.{list_all};
ghost use Rattle.al_msgpack.specs.Spelled.{IsFront, spelled, all_spelled, entries_spelled};
ghost use Rattle.al_record.specs.Columns.{Reads, ReadsOne, ReadsAll, is_empty, list_put, map_put, with_entry};
ghost use Rattle.al_msgpack.specs.Rising.{canonical, are_canonical};

use crate::fault::ReadError;
use crate::kind::field;
use al_msgpack::{Entry, Val, write_list_head, write_string};
use sqlite_items::Items;
use std::alloc::{AllocError, Global};

/// A kind of record that stands in lists.
pub trait Record: Drop {
    ghost use Rattle.al_record.specs.Columns.{Format};

    // What is written, and the first fault of what is there.
    ghost format: { Format Self };

    /// The value of a record, or its first fault.
    fn read(alloc: Global, entries: &[Entry]) -> Result<Self, ReadError>
        requires { IsTrue (are_canonical entries.now) }
        ensures { Reads format entries.now result };

    /// Appends the record. Where memory is short, a part may stay behind what stood there.
    fn write(&self, out: &mut Vec<u8>) -> Result<(), AllocError>
        ensures bytes { OnOk result (out.new.items ≡ out.old.items ++ spelled (Val.Map (format.write self.now))) }
        ensures front { OnErr result (IsFront out.old.items out.new.items) };
}

/// A kind of record that stands in a field of another, which is left out where the record has no
/// field.
pub trait InnerRecord: Record {
    /// Whether the record has no field.
    fn is_empty(&self) -> bool
        ensures { result ≡ is_empty (Self.format.write self.now) };
}

/// The values of a list of records, or the first fault, record by record. A member that is no map
/// is a Field fault of the empty name.
pub fn read_all<R: Record>(alloc: Global, vals: &[Val]) -> Result<Items<R>, ReadError>
    requires { IsTrue (list_all canonical vals.now) }
    ensures { ReadsAll R.format vals.now result }
{
    let mut out = Items::new(alloc);
    for v in vals {
        let value = read_member::<R>(alloc, v)?;
        out.push(value)?;
    }
    Ok(out)
}

/// The value of one record, or its first fault.
pub fn read_member<R: Record>(alloc: Global, v: &Val) -> Result<R, ReadError>
    requires { IsTrue (canonical v.now) }
    ensures { ReadsOne R.format v.now result }
{
    match v {
        Val::Map(entries) => R::read(alloc, entries.as_slice()),
        _ => Err(field(alloc, "")),
    }
}

/// Appends the records one behind the other.
fn write_members<R: Record>(values: &[R], out: &mut Vec<u8>) -> Result<(), AllocError>
    ensures bytes { OnOk result (out.new.items ≡ out.old.items ++ all_spelled (map (λ es. Val.Map es) (map R.format.write values.now))) }
    ensures front { OnErr result (IsFront out.old.items out.new.items) }
{
    for value in values {
        value.write(out)?;
    }
    Ok(())
}

/// Appends the list of the values' records.
pub fn write_list_of<R: Record>(values: &[R], out: &mut Vec<u8>) -> Result<(), AllocError>
    ensures bytes { OnOk result (out.new.items ≡ out.old.items ++ spelled (Val.List (map (λ es. Val.Map es) (map R.format.write values.now)))) }
    ensures front { OnErr result (IsFront out.old.items out.new.items) }
{
    write_list_head(values.len(), out)?;
    write_members(values, out)
}

/// Appends a field with a record, unless that is empty.
pub fn write_record<R: InnerRecord>(
    name: &str,
    value: &R,
    out: &mut Vec<u8>,
) -> Result<(), AllocError>
    ensures bytes { OnOk result (out.new.items ≡ out.old.items ++ entries_spelled (with_entry name.now (map_put (R.format.write value.now)) [])) }
    ensures front { OnErr result (IsFront out.old.items out.new.items) }
{
    if value.is_empty() {
        return Ok(());
    }
    write_string(name.as_bytes(), out)?;
    value.write(out)
}

/// Appends a field with a list of records, unless that is empty.
pub fn write_records<R: Record>(
    name: &str,
    values: &[R],
    out: &mut Vec<u8>,
) -> Result<(), AllocError>
    ensures bytes { OnOk result (out.new.items ≡ out.old.items ++ entries_spelled (with_entry name.now (list_put (map (λ es. Val.Map es) (map R.format.write values.now))) [])) }
    ensures front { OnErr result (IsFront out.old.items out.new.items) }
{
    if values.is_empty() {
        return Ok(());
    }
    write_string(name.as_bytes(), out)?;
    write_list_of(values, out)
}

/// Appends the record. Nothing is appended where memory is short.
pub fn encode_record<R: Record>(value: &R, out: &mut Vec<u8>) -> Result<(), AllocError>
    ensures bytes { OnOk result (out.new.items ≡ out.old.items ++ spelled (Val.Map (R.format.write value.now))) }
    ensures err { OnErr result (out.new.items ≡ out.old.items) }
{
    let start = out.len();
    match value.write(out) {
        Ok(()) => Ok(()),
        Err(error) => {
            out.truncate(start);
            Err(error)
        }
    }
}
