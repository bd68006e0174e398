//! Writing the fields of a record. A field with its zero value is left out.
ghost use Rattle.std.specs.Prelude.{◌≡◌, ◌++◌, [], ◌∷◌, ℕ, length, map, IfOk, OnOk, Some};
ghost use Rattle.al_record.specs.Columns.{with_entry, array_put, map_put, list_put};
ghost use Rattle.al_record.specs.Code.{table_of, put_of, listed};

use crate::shape::{Column, is_zero};
use al_base::{Address, Bytes};
use al_msgpack::{Entries, Entry, Val, Vals};
use std::alloc::{AllocError, Global};

/// What is written under a field's name. Nothing is, where it is zero.
#[derive(Clone, Copy)]
pub enum Content<'a> {
    Number(u64),
    Flag(bool),
    /// A string that the format fixes, as the word of a kind.
    Word(&'static str),
    /// A string.
    Text(&'a Bytes),
    /// A byte string.
    Bytes(&'a Bytes),
    /// A byte string.
    Slice(&'a [u8]),
    /// 32 bytes.
    Array(&'a [u8; 32]),
    /// 64 bytes.
    Wide(&'a [u8; 64]),
    Addresses(&'a [Address]),
}

impl<'a> Content<'a> {
    /// The value, unless it is zero.
    pub fn put(&self, alloc: Global) -> Result<Option<Val>, AllocError>
        ensures { IfOk result (λ o. o ≡ put_of self.now) }
    {
        match self {
            Content::Number(0) => Ok(None),
            Content::Number(n) => Ok(Some(Val::Num(*n))),
            Content::Flag(false) => Ok(None),
            Content::Flag(true) => Ok(Some(Val::Flag(true))),
            Content::Word(word) => {
                if word.is_empty() {
                    return Ok(None);
                }
                Ok(Some(Val::Str(Bytes::of(alloc, word.as_bytes())?)))
            }
            Content::Text(b) => {
                if b.len() == 0 {
                    return Ok(None);
                }
                Ok(Some(Val::Str(b.copy(alloc)?)))
            }
            Content::Bytes(b) => {
                if b.len() == 0 {
                    return Ok(None);
                }
                Ok(Some(Val::Bin(b.copy(alloc)?)))
            }
            Content::Slice(b) => {
                if b.is_empty() {
                    return Ok(None);
                }
                Ok(Some(Val::Bin(Bytes::of(alloc, b)?)))
            }
            Content::Array(b) => array_val(alloc, b),
            Content::Wide(b) => array_val(alloc, b),
            Content::Addresses(list) => {
                if list.is_empty() {
                    return Ok(None);
                }
                Ok(Some(Val::List(address_vals(alloc, list)?)))
            }
        }
    }
}

/// A byte string, unless all its bytes are zero.
fn array_val<const N: usize>(alloc: Global, b: &[u8; N]) -> Result<Option<Val>, AllocError>
    ensures { IfOk result (λ o. o ≡ array_put N b.now) }
{
    if is_zero(b.as_slice()) {
        return Ok(None);
    }
    Ok(Some(Val::Bin(Bytes::of(alloc, b.as_slice())?)))
}

/// The addresses as byte strings.
fn address_vals(alloc: Global, list: &[Address]) -> Result<Vals, AllocError>
    ensures { IfOk result (λ vs. vs ≡ map (λ a. Val.Bin a) (map (λ a. a.0) list.now)) }
{
    let mut out = Vals::new(alloc);
    for a in list {
        out.push(Val::Bin(Bytes::of(alloc, &a.0)?))?;
    }
    Ok(out)
}

/// Appends a field, whatever its value.
pub fn put(alloc: Global, out: &mut Entries, name: &str, val: Val) -> Result<(), AllocError>
    ensures { OnOk result (out.new ≡ out.old ++ with_entry name.now (Some val) []) }
{
    let key = Bytes::of(alloc, name.as_bytes())?;
    out.push(Entry { key, val })?;
    Ok(())
}

/// Appends a field, unless its content is zero.
fn put_content(
    alloc: Global,
    out: &mut Entries,
    name: &str,
    content: &Content,
) -> Result<(), AllocError>
    ensures { OnOk result (out.new ≡ out.old ++ with_entry name.now (put_of content.now) []) }
{
    if let Some(val) = content.put(alloc)? {
        put(alloc, out, name, val)?;
    }
    Ok(())
}

/// The record with these contents, one for each column of the table.
pub fn listed(
    alloc: Global,
    columns: &[Column],
    contents: &[Content],
) -> Result<Entries, AllocError>
    requires { length columns.now ≡ length contents.now }
    ensures { IfOk result (λ es. es ≡ listed (table_of columns.now) (map put_of contents.now)) }
{
    let mut out = Entries::new(alloc);
    for (column, content) in columns.iter().zip(contents) {
        put_content(alloc, &mut out, column.0, content)?;
    }
    Ok(out)
}

/// Appends an inner record, unless it is empty.
pub fn put_map(
    alloc: Global,
    out: &mut Entries,
    name: &str,
    inner: Entries,
) -> Result<(), AllocError>
    ensures { OnOk result (out.new ≡ out.old ++ with_entry name.now (map_put inner) []) }
{
    if inner.is_empty() {
        return Ok(());
    }
    put(alloc, out, name, Val::Map(inner))
}

/// Appends a list, unless it is empty.
pub fn put_list(alloc: Global, out: &mut Entries, name: &str, vals: Vals) -> Result<(), AllocError>
    ensures { OnOk result (out.new ≡ out.old ++ with_entry name.now (list_put vals) []) }
{
    if vals.is_empty() {
        return Ok(());
    }
    put(alloc, out, name, Val::List(vals))
}
