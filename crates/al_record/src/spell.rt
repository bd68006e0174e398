//! Writing the fields of a record straight into an output.
ghost use Rattle.std.specs.Prelude.{◌≡◌, ◌++◌, [], length, map, IfOk, OnErr, OnOk, is_none};
ghost use Rattle.al_msgpack.specs.declared.val.Val.TheVariants as values;
ghost use Rattle.al_msgpack.specs.Spelled.{IsFront, spelled, all_spelled, entries_spelled};
ghost use Rattle.al_record.specs.Columns.{array_put, with_entry, map_put};
ghost use Rattle.al_record.specs.Code.{count_some, listed, put_of, table_of, val_of};

use crate::shape::Column;
use crate::write::Content;
use al_base::Address;
use al_msgpack::{
    write_bytes, write_flag, write_list_head, write_map_head, write_number, write_string,
};
use std::alloc::AllocError;

impl<'a> Content<'a> {
    /// Whether nothing is written.
    pub fn is_zero(&self) -> bool
        ensures { result ≡ is_none (put_of self.now) }
    {
        match self {
            Content::Number(n) => *n == 0,
            Content::Flag(flag) => !*flag,
            Content::Word(word) => word.is_empty(),
            Content::Text(b) => b.len() == 0,
            Content::Bytes(b) => b.len() == 0,
            Content::Slice(b) => b.is_empty(),
            Content::Array(b) => is_zero_array(b),
            Content::Wide(b) => is_zero_array(b),
            Content::Addresses(list) => list.is_empty(),
        }
    }

    /// Appends the value, zero or not.
    fn write(&self, out: &mut Vec<u8>) -> Result<(), AllocError>
        ensures bytes { OnOk result (out.new.items ≡ out.old.items ++ spelled (val_of self.now)) }
        ensures front { OnErr result (IsFront out.old.items out.new.items) }
    {
        match self {
            Content::Number(n) => write_number(*n, out),
            Content::Flag(flag) => write_flag(*flag, out),
            Content::Word(word) => write_string(word.as_bytes(), out),
            Content::Text(b) => write_string(b.as_slice(), out),
            Content::Bytes(b) => write_bytes(b.as_slice(), out),
            Content::Slice(b) => write_bytes(b, out),
            Content::Array(b) => write_bytes(b.as_slice(), out),
            Content::Wide(b) => write_bytes(b.as_slice(), out),
            Content::Addresses(list) => write_addresses(list, out),
        }
    }
}

/// Whether an array is left out.
fn is_zero_array<const N: usize>(b: &[u8; N]) -> bool
    ensures { result ≡ is_none (array_put N b.now) }
{
    *b == [0; N]
}

/// Appends a list of addresses.
fn write_addresses(list: &[Address], out: &mut Vec<u8>) -> Result<(), AllocError>
    ensures bytes { OnOk result (out.new.items ≡ out.old.items ++ spelled (values.List (map (λ a. values.Bin a) (map (λ a. a.0) list.now)))) }
    ensures front { OnErr result (IsFront out.old.items out.new.items) }
{
    write_list_head(list.len(), out)?;
    write_members(list, out)
}

/// Appends addresses one behind the other.
fn write_members(list: &[Address], out: &mut Vec<u8>) -> Result<(), AllocError>
    ensures bytes { OnOk result (out.new.items ≡ out.old.items ++ all_spelled (map (λ a. values.Bin a) (map (λ a. a.0) list.now))) }
    ensures front { OnErr result (IsFront out.old.items out.new.items) }
{
    for a in list {
        write_address(a, out)?;
    }
    Ok(())
}

/// Appends an address.
fn write_address(a: &Address, out: &mut Vec<u8>) -> Result<(), AllocError>
    ensures bytes { OnOk result (out.new.items ≡ out.old.items ++ spelled (values.Bin a.now.0)) }
    ensures front { OnErr result (IsFront out.old.items out.new.items) }
{
    write_bytes(&a.0, out)
}

/// How many of the contents are written.
pub fn count_written(contents: &[Content]) -> usize
    ensures { result ≡ count_some (map put_of contents.now) }
{
    let mut n = 0;
    for content in contents {
        if !content.is_zero() {
            n += 1;
        }
    }
    n
}

/// Appends a field, unless its content is zero.
pub fn write_field(name: &str, content: &Content, out: &mut Vec<u8>) -> Result<(), AllocError>
    ensures bytes { OnOk result (out.new.items ≡ out.old.items ++ entries_spelled (with_entry name.now (put_of content.now) [])) }
    ensures front { OnErr result (IsFront out.old.items out.new.items) }
{
    if content.is_zero() {
        return Ok(());
    }
    write_string(name.as_bytes(), out)?;
    content.write(out)
}

/// Appends the fields of these contents, one for each column, without the head of their map.
pub fn write_fields(
    columns: &[Column],
    contents: &[Content],
    out: &mut Vec<u8>,
) -> Result<(), AllocError>
    requires { length columns.now ≡ length contents.now }
    ensures bytes { OnOk result (out.new.items ≡ out.old.items ++ entries_spelled (listed (table_of columns.now) (map put_of contents.now))) }
    ensures front { OnErr result (IsFront out.old.items out.new.items) }
{
    for (column, content) in columns.iter().zip(contents) {
        write_field(column.0, content, out)?;
    }
    Ok(())
}

/// Appends the record of these contents, one for each column of the table.
pub fn write_listed(
    columns: &[Column],
    contents: &[Content],
    out: &mut Vec<u8>,
) -> Result<(), AllocError>
    requires { length columns.now ≡ length contents.now }
    ensures bytes { OnOk result (out.new.items ≡ out.old.items ++ spelled (values.Map (listed (table_of columns.now) (map put_of contents.now)))) }
    ensures front { OnErr result (IsFront out.old.items out.new.items) }
{
    write_map_head(count_written(contents), out)?;
    write_fields(columns, contents, out)
}

/// Appends a field with the record of these contents, unless that is empty.
pub fn write_inner(
    name: &str,
    columns: &[Column],
    contents: &[Content],
    out: &mut Vec<u8>,
) -> Result<(), AllocError>
    requires { length columns.now ≡ length contents.now }
    ensures bytes { OnOk result (out.new.items ≡ out.old.items ++ entries_spelled (with_entry name.now (map_put (listed (table_of columns.now) (map put_of contents.now))) [])) }
    ensures front { OnErr result (IsFront out.old.items out.new.items) }
{
    if count_written(contents) == 0 {
        return Ok(());
    }
    write_string(name.as_bytes(), out)?;
    write_listed(columns, contents, out)
}
