//! The encoder.

ghost use Rattle.std.specs.Prelude.{◌≡◌, ◌++◌, ◌∷◌, [], List, ℕ, length, OnErr, OnOk};
ghost use Rattle.al_msgpack.specs.Grammar.{digits};
ghost use Rattle.al_msgpack.specs.Canonical.{IsCanonical};
ghost use Rattle.al_msgpack.specs.Places.{IsSpelling};
ghost use Rattle.al_msgpack.specs.Spelled.{IsFront, flag_spelled, num_spelled, string_head, bytes_head, list_head, map_head, spelled, all_spelled, entries_spelled};

use crate::val::{Entry, Val};
use std::alloc::AllocError;

/// A head, and a number in two bytes.
#[tactic(auto, using(crate::proofs::Written::be_2))]
fn put_2(head: u8, n: u16, out: &mut Vec<u8>) -> Result<(), AllocError>
    ensures bytes { OnOk result (out.new.items ≡ out.old.items ++ head ∷ digits 2 n) }
    ensures err { OnErr result (out.new.items ≡ out.old.items) }
{
    let [a, b] = n.to_be_bytes();
    out.extend_from_slice(&[head, a, b])
}

/// A head, and a number in four bytes.
#[tactic(auto, using(crate::proofs::Written::be_4))]
fn put_4(head: u8, n: u32, out: &mut Vec<u8>) -> Result<(), AllocError>
    ensures bytes { OnOk result (out.new.items ≡ out.old.items ++ head ∷ digits 4 n) }
    ensures err { OnErr result (out.new.items ≡ out.old.items) }
{
    let [a, b, c, d] = n.to_be_bytes();
    out.extend_from_slice(&[head, a, b, c, d])
}

/// A head, and a number in eight bytes.
#[tactic(auto, using(crate::proofs::Written::be_8))]
fn put_8(head: u8, n: u64, out: &mut Vec<u8>) -> Result<(), AllocError>
    ensures bytes { OnOk result (out.new.items ≡ out.old.items ++ head ∷ digits 8 n) }
    ensures err { OnErr result (out.new.items ≡ out.old.items) }
{
    let [a, b, c, d, e, f, g, h] = n.to_be_bytes();
    out.extend_from_slice(&[head, a, b, c, d, e, f, g, h])
}

/// A head, and a number in one byte.
fn put_1(head: u8, n: u8, out: &mut Vec<u8>) -> Result<(), AllocError>
    ensures bytes { OnOk result (out.new.items ≡ out.old.items ++ head ∷ n ∷ []) }
    ensures err { OnErr result (out.new.items ≡ out.old.items) }
{
    out.extend_from_slice(&[head, n])
}

/// A number in its shortest form.
pub fn write_number(n: u64, out: &mut Vec<u8>) -> Result<(), AllocError>
    ensures bytes { OnOk result (out.new.items ≡ out.old.items ++ num_spelled n) }
    ensures err { OnErr result (out.new.items ≡ out.old.items) }
{
    if n < 128 {
        return Ok(out.push(n as u8)?);
    }
    if n < 0x100 {
        return put_1(0xcc, n as u8, out);
    }
    if n < 0x10000 {
        return put_2(0xcd, n as u16, out);
    }
    if n < 0x1_0000_0000 {
        return put_4(0xce, n as u32, out);
    }
    put_8(0xcf, n, out)
}

/// The head of a string of `n` bytes.
fn string_head(n: usize, out: &mut Vec<u8>) -> Result<(), AllocError>
    ensures bytes { OnOk result (out.new.items ≡ out.old.items ++ string_head n) }
    ensures err { OnErr result (out.new.items ≡ out.old.items) }
{
    if n < 32 {
        return Ok(out.push(0xa0 + n as u8)?);
    }
    if n < 0x100 {
        return put_1(0xd9, n as u8, out);
    }
    if n < 0x10000 {
        return put_2(0xda, n as u16, out);
    }
    put_4(0xdb, (n % 0x1_0000_0000) as u32, out)
}

/// The head of a byte string of `n` bytes.
fn bytes_head(n: usize, out: &mut Vec<u8>) -> Result<(), AllocError>
    ensures bytes { OnOk result (out.new.items ≡ out.old.items ++ bytes_head n) }
    ensures err { OnErr result (out.new.items ≡ out.old.items) }
{
    if n < 0x100 {
        return put_1(0xc4, n as u8, out);
    }
    if n < 0x10000 {
        return put_2(0xc5, n as u16, out);
    }
    put_4(0xc6, (n % 0x1_0000_0000) as u32, out)
}

/// The head of a list of `n` members.
pub fn write_list_head(n: usize, out: &mut Vec<u8>) -> Result<(), AllocError>
    ensures bytes { OnOk result (out.new.items ≡ out.old.items ++ list_head n) }
    ensures err { OnErr result (out.new.items ≡ out.old.items) }
{
    if n < 16 {
        return Ok(out.push(0x90 + n as u8)?);
    }
    if n < 0x10000 {
        return put_2(0xdc, n as u16, out);
    }
    put_4(0xdd, (n % 0x1_0000_0000) as u32, out)
}

/// The head of a map of `n` entries.
pub fn write_map_head(n: usize, out: &mut Vec<u8>) -> Result<(), AllocError>
    ensures bytes { OnOk result (out.new.items ≡ out.old.items ++ map_head n) }
    ensures err { OnErr result (out.new.items ≡ out.old.items) }
{
    if n < 16 {
        return Ok(out.push(0x80 + n as u8)?);
    }
    if n < 0x10000 {
        return put_2(0xde, n as u16, out);
    }
    put_4(0xdf, (n % 0x1_0000_0000) as u32, out)
}

/// Appends a string, as a key is one.
pub fn write_string(bytes: &[u8], out: &mut Vec<u8>) -> Result<(), AllocError>
    ensures bytes { OnOk result (out.new.items ≡ out.old.items ++ (string_head (length bytes.now) ++ bytes.now)) }
    ensures front { OnErr result (IsFront out.old.items out.new.items) }
{
    string_head(bytes.len(), out)?;
    out.extend_from_slice(bytes)
}

/// Appends a byte string.
pub fn write_bytes(bytes: &[u8], out: &mut Vec<u8>) -> Result<(), AllocError>
    ensures bytes { OnOk result (out.new.items ≡ out.old.items ++ (bytes_head (length bytes.now) ++ bytes.now)) }
    ensures front { OnErr result (IsFront out.old.items out.new.items) }
{
    bytes_head(bytes.len(), out)?;
    out.extend_from_slice(bytes)
}

/// Appends true or false.
pub fn write_flag(flag: bool, out: &mut Vec<u8>) -> Result<(), AllocError>
    ensures bytes { OnOk result (out.new.items ≡ out.old.items ++ flag_spelled flag) }
    ensures err { OnErr result (out.new.items ≡ out.old.items) }
{
    Ok(out.push(if flag { 0xc3 } else { 0xc2 })?)
}

/// Appends the one spelling of a canonical value: the bytes that `decode` reads back as this value.
/// Nothing is appended where memory is short.
pub fn encode(v: &Val, out: &mut Vec<u8>) -> Result<(), AllocError>
    requires { IsCanonical 16 v.now }
    ensures spelling { OnOk result ((b : List ℕ) × IsSpelling v.now b × (out.new.items ≡ out.old.items ++ b)) }
    ensures bytes { OnOk result (out.new.items ≡ out.old.items ++ spelled v.now) }
    ensures err { OnErr result (out.new.items ≡ out.old.items) }
{
    let start = out.len();
    match write(v, out) {
        Ok(()) => Ok(()),
        Err(error) => {
            out.truncate(start);
            Err(error)
        }
    }
}

/// Appends bytes for any value, canonical or not: its one spelling where it is canonical. What is
/// only hashed and never decoded needs no more. Where memory is short, a part may stay behind what
/// stood there.
#[cycle(write)]
pub fn write(v: &Val, out: &mut Vec<u8>) -> Result<(), AllocError>
    ensures bytes { OnOk result (out.new.items ≡ out.old.items ++ spelled v.now) }
    ensures front { OnErr result (IsFront out.old.items out.new.items) }
{
    match v {
        Val::Num(n) => write_number(*n, out),
        Val::Flag(flag) => write_flag(*flag, out),
        Val::Str(s) => write_string(s.as_slice(), out),
        Val::Bin(s) => write_bytes(s.as_slice(), out),
        Val::List(items) => {
            write_list_head(items.len(), out)?;
            write_all(items.as_slice(), out)
        }
        Val::Map(entries) => {
            write_map_head(entries.len(), out)?;
            write_entries(entries.as_slice(), out)
        }
    }
}

/// Appends values one behind the other.
#[cycle(write)]
pub fn write_all(items: &[Val], out: &mut Vec<u8>) -> Result<(), AllocError>
    ensures bytes { OnOk result (out.new.items ≡ out.old.items ++ all_spelled items.now) }
    ensures front { OnErr result (IsFront out.old.items out.new.items) }
{
    for v in items {
        write(v, out)?;
    }
    Ok(())
}

/// Appends keys and values one behind the other.
#[cycle(write)]
pub fn write_entries(entries: &[Entry], out: &mut Vec<u8>) -> Result<(), AllocError>
    ensures bytes { OnOk result (out.new.items ≡ out.old.items ++ entries_spelled entries.now) }
    ensures front { OnErr result (IsFront out.old.items out.new.items) }
{
    for e in entries {
        write_string(e.key.as_slice(), out)?;
        write(&e.val, out)?;
    }
    Ok(())
}
