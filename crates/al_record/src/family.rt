//! What stands in a value of each family, or the family's zero value.
ghost use Rattle.std.specs.Prelude.{◌≡◌, ℕ};
ghost use Rattle.std.specs.Option.{option_copied};
ghost use Rattle.al_record.specs.Columns.{number_of, flag_of, text_of, bytes_of, list_of, map_of};

use al_msgpack::{Entry, Val};

/// The number, or 0.
pub fn number_of(v: Option<&Val>) -> u64
    ensures { result ≡ number_of (option_copied v.entry) }
{
    match v {
        Some(Val::Num(n)) => *n,
        _ => 0,
    }
}

/// The flag, or false.
pub fn flag_of(v: Option<&Val>) -> bool
    ensures { result ≡ flag_of (option_copied v.entry) }
{
    match v {
        Some(Val::Flag(b)) => *b,
        _ => false,
    }
}

/// The string's bytes, or none.
pub fn text_of<'a>(v: Option<&'a Val>) -> &'a [u8]
    ensures { result.now ≡ text_of (option_copied v.entry) }
{
    match v {
        Some(Val::Str(b)) => b.as_slice(),
        _ => &[],
    }
}

/// The byte string's bytes, or none.
pub fn bytes_of<'a>(v: Option<&'a Val>) -> &'a [u8]
    ensures { result.now ≡ bytes_of (option_copied v.entry) }
{
    match v {
        Some(Val::Bin(b)) => b.as_slice(),
        _ => &[],
    }
}

/// The list's members, or none.
pub fn list_of<'a>(v: Option<&'a Val>) -> &'a [Val]
    ensures { result.now ≡ list_of (option_copied v.entry) }
{
    match v {
        Some(Val::List(items)) => items.as_slice(),
        _ => &[],
    }
}

/// The map's entries, or none.
pub fn map_of<'a>(v: Option<&'a Val>) -> &'a [Entry]
    ensures { result.now ≡ map_of (option_copied v.entry) }
{
    match v {
        Some(Val::Map(entries)) => entries.as_slice(),
        _ => &[],
    }
}
