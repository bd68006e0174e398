//! What stands under a field's name.
ghost use Rattle.std.specs.Prelude.{◌≡◌, ◌==◌, map};
ghost use Rattle.std.specs.List.{list_all, list_any};
ghost use Rattle.std.specs.Str.{bytes_eq};
ghost use Rattle.std.specs.Option.{option_copied};
ghost use Rattle.al_record.specs.Columns.{fits, in_range, is_zero_array, are_addresses, is_address, address_in, no_doubles};

use crate::family::{bytes_of, list_of, number_of};
use al_base::Bytes;
use al_msgpack::Val;

/// The family of a field's values, with its range.
#[derive(Clone, Copy, Debug, PartialEq, Eq)]
pub enum Shape {
    /// Any number.
    Number,
    /// A number of at most so much.
    UpTo { most: u64 },
    /// True; false is left out.
    Flag,
    /// A string of any bytes.
    Text,
    /// A byte string whose length lies in these bounds.
    Bytes { least: usize, most: usize },
    /// A byte string of exactly this length, zero where all its bytes are.
    Array { len: usize },
    /// A list of at most so many addresses of 32 bytes, no two alike.
    Addresses { most: usize },
    /// A list of records, whose members have checks of their own.
    List,
    /// An inner record, with checks of its own.
    Map,
}

/// A field of a record: its name, and what stands there.
#[derive(Clone, Copy, Debug)]
pub struct Column(pub &'static str, pub Shape);

/// A number of at most 2^62, as rounds and ids are.
pub const COUNT: Shape = Shape::UpTo { most: 1 << 62 };

/// Bytes of any length.
pub const ANY_BYTES: Shape = Shape::Bytes {
    least: 0,
    most: usize::MAX,
};

/// 32 bytes: a hash, a key or an address.
pub const HASH: Shape = Shape::Array { len: 32 };

impl Shape {
    /// A value of this family, and not its zero value.
    pub fn fits(&self, v: &Val) -> bool
        ensures { result ≡ fits self.now v.now }
    {
        match (self, v) {
            (Shape::Number, Val::Num(n)) => *n != 0,
            (Shape::UpTo { most: _ }, Val::Num(n)) => *n != 0,
            (Shape::Flag, Val::Flag(b)) => *b,
            (Shape::Text, Val::Str(b)) => b.len() != 0,
            (Shape::Bytes { least: _, most: _ }, Val::Bin(b)) => b.len() != 0,
            (Shape::Array { len }, Val::Bin(b)) => !is_zero_array(b, *len),
            (Shape::Addresses { most: _ }, Val::List(items)) => !items.is_empty(),
            (Shape::List, Val::List(items)) => !items.is_empty(),
            (Shape::Map, Val::Map(entries)) => !entries.is_empty(),
            _ => false,
        }
    }

    /// Within the range. An absent field has its zero value.
    pub fn holds(&self, v: Option<&Val>) -> bool
        ensures { result ≡ in_range self.now (option_copied v.entry) }
    {
        match self {
            Shape::UpTo { most } => number_of(v) <= *most,
            Shape::Bytes { least, most } => {
                let len = bytes_of(v).len();
                *least <= len && len <= *most
            }
            Shape::Array { len } => v.is_none() || bytes_of(v).len() == *len,
            Shape::Addresses { most } => are_addresses(list_of(v), *most),
            _ => true,
        }
    }
}

/// `len` bytes, all of them zero.
fn is_zero_array(b: &Bytes, len: usize) -> bool
    ensures { result ≡ is_zero_array len b.now }
{
    if b.len() != len {
        return false;
    }
    is_zero(b.as_slice())
}

/// Zeros only.
pub fn is_zero(bytes: &[u8]) -> bool
    ensures { result ≡ list_all (λ b. b == 0) bytes.now }
{
    bytes.iter().all(|b| *b == 0)
}

/// At most so many addresses, no two alike.
fn are_addresses(vs: &[Val], most: usize) -> bool
    ensures { result ≡ are_addresses most vs.now }
{
    vs.len() <= most && all_addresses(vs) && no_doubles(vs)
}

/// Addresses only.
fn all_addresses(vs: &[Val]) -> bool
    ensures { result ≡ list_all is_address vs.now }
{
    vs.iter().all(|v| is_address(v))
}

/// A byte string of 32 bytes.
fn is_address(v: &Val) -> bool
    ensures { result ≡ is_address v.now }
{
    match v {
        Val::Bin(b) => b.len() == 32,
        _ => false,
    }
}

/// The 32 bytes of an address, or zeros where the value is none.
pub fn address(v: &Val) -> [u8; 32]
    ensures { result ≡ address_in v.now }
{
    let mut out = [0; 32];
    if let Val::Bin(b) = v {
        if b.len() == 32 {
            out.copy_from_slice(b.as_slice());
        }
    }
    out
}

/// No address twice.
fn no_doubles(vs: &[Val]) -> bool
    ensures { result ≡ no_doubles (map address_in vs.now) }
{
    let mut left = vs;
    while let [first, rest @ ..] = left {
        if has_address(rest, &address(first)) {
            return false;
        }
        left = rest;
    }
    true
}

/// The address stands among these.
fn has_address(vs: &[Val], a: &[u8; 32]) -> bool
    ensures { result ≡ list_any (λ b. bytes_eq a.now b) (map address_in vs.now) }
{
    for v in vs {
        if a.as_slice() == address(v).as_slice() {
            return true;
        }
    }
    false
}
