//! The values of a record's fields. They are those of the record once it has passed its checks;
//! what is absent or of another family reads as the family's zero value.
ghost use Rattle.std.specs.Prelude.{◌≡◌, IfOk, map};
ghost use Rattle.std.specs.Option.{option_copied};
ghost use Rattle.al_record.specs.Columns.{value_at};
ghost use Rattle.al_record.specs.Columns.{number_of, flag_of, text_of, bytes_of, array_of, list_of, map_of, address_in};

use crate::family::{bytes_of, flag_of, list_of, map_of, number_of, text_of};
use crate::shape::address;
use al_base::{Address, Addresses, Bytes};
use al_msgpack::{Entry, Val};
use std::alloc::{AllocError, Global};

/// The value under a name, the first one of that name.
pub fn find<'a>(entries: &'a [Entry], name: &str) -> Option<&'a Val>
    ensures { option_copied result ≡ value_at name.now entries.now }
{
    for e in entries {
        if name.as_bytes() == e.key.as_slice() {
            return Some(&e.val);
        }
    }
    None
}

/// The number under a name, or 0.
pub fn number(entries: &[Entry], name: &str) -> u64
    ensures { result ≡ number_of (value_at name.now entries.now) }
{
    number_of(find(entries, name))
}

/// The flag under a name, or false.
pub fn flag(entries: &[Entry], name: &str) -> bool
    ensures { result ≡ flag_of (value_at name.now entries.now) }
{
    flag_of(find(entries, name))
}

/// The string under a name, or the empty one.
pub fn text(alloc: Global, entries: &[Entry], name: &str) -> Result<Bytes, AllocError>
    ensures { IfOk result (λ b. b ≡ text_of (value_at name.now entries.now)) }
{
    Bytes::of(alloc, text_of(find(entries, name)))
}

/// The bytes under a name, or none.
pub fn bytes(alloc: Global, entries: &[Entry], name: &str) -> Result<Bytes, AllocError>
    ensures { IfOk result (λ b. b ≡ bytes_of (value_at name.now entries.now)) }
{
    Bytes::of(alloc, bytes_of(find(entries, name)))
}

/// The `N` bytes under a name, or zeros where no byte string of that length stands there.
pub fn array<const N: usize>(entries: &[Entry], name: &str) -> [u8; N]
    ensures { result ≡ array_of N (value_at name.now entries.now) }
{
    let mut out = [0; N];
    if let Some(Val::Bin(b)) = find(entries, name) {
        if b.len() == N {
            out.copy_from_slice(b.as_slice());
        }
    }
    out
}

/// The members of the list under a name, or none.
pub fn list<'a>(entries: &'a [Entry], name: &str) -> &'a [Val]
    ensures { result.now ≡ list_of (value_at name.now entries.now) }
{
    list_of(find(entries, name))
}

/// The entries of the inner record under a name, or none.
pub fn map<'a>(entries: &'a [Entry], name: &str) -> &'a [Entry]
    ensures { result.now ≡ map_of (value_at name.now entries.now) }
{
    map_of(find(entries, name))
}

/// The addresses of the list under a name. A member that is none reads as the zero address.
pub fn addresses(alloc: Global, entries: &[Entry], name: &str) -> Result<Addresses, AllocError>
    ensures { IfOk result (λ r. map (λ a. a.0) r ≡ map address_in (list_of (value_at name.now entries.now))) }
{
    let mut out = Addresses::new(alloc);
    for v in list(entries, name) {
        out.push(Address(address(v)))?;
    }
    Ok(out)
}
