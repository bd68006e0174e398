//! The record of a box row.
ghost use Rattle.std.specs.Prelude.{◌≡◌, ◌++◌, IsTrue, OnErr, OnOk};
ghost use Rattle.al_msgpack.specs.declared.val.Val.TheVariants as values;
ghost use Rattle.al_msgpack.specs.Spelled.{IsFront, spelled};
ghost use Rattle.al_record.specs.Canonical.{are_canonical};
ghost use Rattle.al_record.specs.Columns.{Reads};
ghost use Rattle.al_row_records.specs.Tables.{box};

use al_msgpack::Entry;
use al_record::{Column, Content, ReadError, Shape, bytes, check, write_listed};
use al_rows::BoxRow;
use std::alloc::{AllocError, Global};

const BOX: [Column; 1] = [Column(
    "v",
    Shape::Bytes {
        least: 0,
        most: 32768,
    },
)];

/// The box row of a record, or the first fault.
pub(crate) fn read_box(alloc: Global, entries: &[Entry]) -> Result<BoxRow, ReadError>
    requires { IsTrue (are_canonical entries.now) }
    ensures { Reads box entries.now result }
{
    check(alloc, entries, &BOX)?;
    Ok(BoxRow {
        value: bytes(alloc, entries, "v")?,
    })
}

/// Appends the record of a box row.
pub(crate) fn write_box(b: &BoxRow, out: &mut Vec<u8>) -> Result<(), AllocError>
    ensures bytes { OnOk result (out.new.items ≡ out.old.items ++ spelled (values.Map (box.write b.now))) }
    ensures front { OnErr result (IsFront out.old.items out.new.items) }
{
    write_listed(&BOX, &[Content::Bytes(&b.value)], out)
}
