//! The field that names a record's kind. It is checked before all others: of another family or
//! with its zero value it is a Field fault, and absent it is a Range fault.
ghost use Rattle.std.specs.Prelude.{◌≡◌, IfErr, Some};
ghost use Rattle.al_record.specs.Columns.{Fails};
ghost use Rattle.al_record.specs.Kinds.{Gives, text_kind, number_kind};

use crate::fault::{Fault, ReadError};
use crate::lookup::find;
use al_base::Bytes;
use al_msgpack::{Entry, Val};
use std::alloc::Global;

/// The kind, where a string names it.
pub fn text_kind<'a>(alloc: Global, entries: &'a [Entry], name: &str) -> Result<&'a [u8], ReadError>
    ensures { Gives (λ k. k.now) result (text_kind name.now entries.now) }
{
    match find(entries, name) {
        None => Err(range(alloc, name)),
        Some(Val::Str(b)) => {
            if b.len() == 0 {
                return Err(field(alloc, name));
            }
            Ok(b.as_slice())
        }
        Some(_) => Err(field(alloc, name)),
    }
}

/// The kind, where a number names it.
pub fn number_kind(alloc: Global, entries: &[Entry], name: &str) -> Result<u64, ReadError>
    ensures { Gives (λ k. k) result (number_kind name.now entries.now) }
{
    match find(entries, name) {
        None => Err(range(alloc, name)),
        Some(Val::Num(n)) => {
            if *n == 0 {
                return Err(field(alloc, name));
            }
            Ok(*n)
        }
        Some(_) => Err(field(alloc, name)),
    }
}

/// The Field fault of a name, or want of memory for it.
pub fn field(alloc: Global, name: &str) -> ReadError
    ensures { Fails result (Some (Fault.Field name.now)) }
{
    match Bytes::of(alloc, name.as_bytes()) {
        Ok(name) => ReadError::Fault(Fault::Field { name }),
        Err(_) => ReadError::Memory,
    }
}

/// The Range fault of a name, or want of memory for it.
pub fn range(alloc: Global, name: &str) -> ReadError
    ensures { Fails result (Some (Fault.Range name.now)) }
{
    match Bytes::of(alloc, name.as_bytes()) {
        Ok(name) => ReadError::Fault(Fault::Range { name }),
        Err(_) => ReadError::Memory,
    }
}
