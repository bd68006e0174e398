//! The two passes over a record.
ghost use Rattle.std.specs.Prelude.{◌≡◌, map};
ghost use Rattle.al_record.specs.Columns.{Passes, heads, field_fault, range_fault, first_fault, fitting};
ghost use Rattle.al_record.specs.Code.{table_of};

use crate::fault::{Fault, ReadError};
use crate::lookup::find;
use crate::shape::Column;
use al_base::Bytes;
use al_msgpack::Entry;
use std::alloc::Global;

/// The first pass: the first entry that is unknown, of the wrong family, or present with its zero
/// value is a Field fault.
pub fn check_fields(alloc: Global, entries: &[Entry], columns: &[Column]) -> Result<(), ReadError>
    ensures { Passes (field_fault (heads (table_of columns.now)) entries.now) result }
{
    for e in entries {
        if !fitting(e, columns) {
            let name = e.key.copy(alloc)?;
            return Err(ReadError::Fault(Fault::Field { name }));
        }
    }
    Ok(())
}

/// A field of the table, of its family and not zero.
pub fn fitting(e: &Entry, columns: &[Column]) -> bool
    ensures { result ≡ fitting (heads (table_of columns.now)) e.now }
{
    for c in columns {
        if c.0.as_bytes() == e.key.as_slice() {
            return c.1.fits(&e.val);
        }
    }
    false
}

/// The second pass: the first field of the table that is outside its range is a Range fault.
pub fn check_ranges(alloc: Global, entries: &[Entry], columns: &[Column]) -> Result<(), ReadError>
    ensures { Passes (range_fault (table_of columns.now) entries.now) result }
{
    for c in columns {
        if !c.1.holds(find(entries, c.0)) {
            let name = Bytes::of(alloc, c.0.as_bytes())?;
            return Err(ReadError::Fault(Fault::Range { name }));
        }
    }
    Ok(())
}

/// Both passes. A table with inner records takes [`check_fields`] alone, and then, in the order of
/// the fields, [`check_ranges`] on the runs between them.
pub fn check(alloc: Global, entries: &[Entry], columns: &[Column]) -> Result<(), ReadError>
    ensures { Passes (first_fault (table_of columns.now) entries.now) result }
{
    check_fields(alloc, entries, columns)?;
    check_ranges(alloc, entries, columns)
}
