//! JSON objects, by tables of their members.
ghost use Rattle.std.specs.Prelude.{◌≡◌, IfOk, OnOk};
ghost use Rattle.std.specs.Str.{IsUtf8};
ghost use Rattle.serde_json.specs.Data.{object, put};
ghost use Rattle.serde_json.specs.View.{members_view};
ghost use Rattle.al_answers.specs.HeaderFields.{field_text};
ghost use Rattle.al_answers.specs.Json.{address_of, fields_of, hash_of, hex_of, if_known, is_all_zero, json_of, members_of, put_fields, put_json, text, unless_all_zero, unless_empty, unless_false, unless_nobody, unless_zero, whole};

use crate::answer::field_text;
use al_base::{Address, Bytes, Hash};
use al_block::Field;
use al_digest::{address_text, hash_text};
use serde_json::{Map, Value, put};
use std::alloc::{AllocError, Global};

/// An object's members.
pub(crate) type Members = Map<String, Value>;

/// What a line of a table shows.
#[derive(Clone, Copy)]
pub(crate) enum Shown<'a> {
    /// A number.
    Whole(u64),
    /// A number, left out where it is 0.
    UnlessZero(u64),
    /// A number, left out where there is none.
    IfKnown(Option<u64>),
    /// A flag.
    Flag(bool),
    /// A flag, left out where it is false.
    UnlessFalse(bool),
    /// A text.
    Text(&'a str),
    /// The name of a header field, left out where there is none.
    FieldIfKnown(Option<Field>),
    /// Bytes in hexadecimal.
    Hex(&'a [u8]),
    /// Bytes in hexadecimal, left out where there are none.
    UnlessEmpty(&'a Bytes),
    /// Bytes in hexadecimal, left out where all are zero.
    UnlessAllZero(&'a [u8]),
    /// Bytes in hexadecimal, left out where they are not known.
    HexIfKnown(&'a Option<Bytes>),
    /// The text of an address.
    Address(&'a Address),
    /// The text of an address, left out where it is zero.
    UnlessNobody(&'a Address),
    /// The text of an address, left out where there is none.
    AddressIfKnown(&'a Option<Address>),
    /// The letters of a digest.
    Hash(&'a Hash),
    /// The letters of a digest, left out where there is none.
    HashIfKnown(&'a Option<Hash>),
}

fn put_unless_zero(alloc: Global, map: &mut Members, key: &str, n: u64) -> Result<(), AllocError>
    ensures { OnOk result (members_view map.new.entries ≡ put_json key.now (unless_zero n) (members_view map.old.entries)) }
{
    if n == 0 {
        return Ok(());
    }
    put(map, alloc, key, Value::from(n))
}

fn put_number_if_known(
    alloc: Global,
    map: &mut Members,
    key: &str,
    n: Option<u64>,
) -> Result<(), AllocError>
    ensures { OnOk result (members_view map.new.entries ≡ put_json key.now (if_known (λ k. whole k) n) (members_view map.old.entries)) }
{
    match n {
        None => Ok(()),
        Some(n) => put(map, alloc, key, Value::from(n)),
    }
}

fn put_unless_false(
    alloc: Global,
    map: &mut Members,
    key: &str,
    flag: bool,
) -> Result<(), AllocError>
    ensures { OnOk result (members_view map.new.entries ≡ put_json key.now (unless_false flag) (members_view map.old.entries)) }
{
    if flag {
        return put(map, alloc, key, Value::from(true));
    }
    Ok(())
}

fn put_text(alloc: Global, map: &mut Members, key: &str, words: &str) -> Result<(), AllocError>
    ensures { OnOk result (members_view map.new.entries ≡ put_json key.now (text words.now) (members_view map.old.entries)) }
{
    let value = Value::String(words.to_string(alloc)?);
    put(map, alloc, key, value)
}

fn put_field_if_known(
    alloc: Global,
    map: &mut Members,
    key: &str,
    field: Option<Field>,
) -> Result<(), AllocError>
    ensures { OnOk result (members_view map.new.entries ≡ put_json key.now (if_known (λ k. text (field_text k)) field) (members_view map.old.entries)) }
{
    match field {
        None => Ok(()),
        Some(field) => put_text(alloc, map, key, field_text(field)),
    }
}

fn put_hex(alloc: Global, map: &mut Members, key: &str, bytes: &[u8]) -> Result<(), AllocError>
    ensures { OnOk result (members_view map.new.entries ≡ put_json key.now (hex_of bytes.now) (members_view map.old.entries)) }
{
    let digits = hex::encode(alloc, bytes)?;
    put(map, alloc, key, Value::String(digits))
}

fn put_unless_empty(
    alloc: Global,
    map: &mut Members,
    key: &str,
    bytes: &[u8],
) -> Result<(), AllocError>
    ensures { OnOk result (members_view map.new.entries ≡ put_json key.now (unless_empty bytes.now) (members_view map.old.entries)) }
{
    if bytes.is_empty() {
        return Ok(());
    }
    put_hex(alloc, map, key, bytes)
}

fn is_all_zero(bytes: &[u8]) -> bool
    ensures { result ≡ is_all_zero bytes.now }
{
    bytes.iter().all(|b| *b == 0)
}

fn put_unless_all_zero(
    alloc: Global,
    map: &mut Members,
    key: &str,
    bytes: &[u8],
) -> Result<(), AllocError>
    ensures { OnOk result (members_view map.new.entries ≡ put_json key.now (unless_all_zero bytes.now) (members_view map.old.entries)) }
{
    if is_all_zero(bytes) {
        return Ok(());
    }
    put_hex(alloc, map, key, bytes)
}

fn put_hex_if_known(
    alloc: Global,
    map: &mut Members,
    key: &str,
    bytes: &Option<Bytes>,
) -> Result<(), AllocError>
    ensures { OnOk result (members_view map.new.entries ≡ put_json key.now (if_known hex_of bytes.now) (members_view map.old.entries)) }
{
    match bytes {
        None => Ok(()),
        Some(bytes) => put_hex(alloc, map, key, bytes.as_slice()),
    }
}

// Puts a text of UTF-8.
fn put_letters(
    alloc: Global,
    map: &mut Members,
    key: &str,
    letters: &[u8],
) -> Result<(), AllocError>
    requires { IsUtf8 letters.now }
    ensures { OnOk result (members_view map.new.entries ≡ put_json key.now (text letters.now) (members_view map.old.entries)) }
{
    match str::from_utf8(letters) {
        Ok(words) => put_text(alloc, map, key, words),
        Err(_) => unreachable!(),
    }
}

fn put_address(
    alloc: Global,
    map: &mut Members,
    key: &str,
    address: &Address,
) -> Result<(), AllocError>
    ensures { OnOk result (members_view map.new.entries ≡ put_json key.now (address_of address.now) (members_view map.old.entries)) }
{
    let letters = address_text(address);
    put_letters(alloc, map, key, &letters)
}

fn put_unless_nobody(
    alloc: Global,
    map: &mut Members,
    key: &str,
    address: &Address,
) -> Result<(), AllocError>
    ensures { OnOk result (members_view map.new.entries ≡ put_json key.now (unless_nobody address.now) (members_view map.old.entries)) }
{
    if is_all_zero(&address.0) {
        return Ok(());
    }
    put_address(alloc, map, key, address)
}

fn put_address_if_known(
    alloc: Global,
    map: &mut Members,
    key: &str,
    address: &Option<Address>,
) -> Result<(), AllocError>
    ensures { OnOk result (members_view map.new.entries ≡ put_json key.now (if_known address_of address.now) (members_view map.old.entries)) }
{
    match address {
        None => Ok(()),
        Some(address) => put_address(alloc, map, key, address),
    }
}

fn put_hash(alloc: Global, map: &mut Members, key: &str, hash: &Hash) -> Result<(), AllocError>
    ensures { OnOk result (members_view map.new.entries ≡ put_json key.now (hash_of hash.now) (members_view map.old.entries)) }
{
    let letters = hash_text(hash);
    put_letters(alloc, map, key, &letters)
}

fn put_hash_if_known(
    alloc: Global,
    map: &mut Members,
    key: &str,
    hash: &Option<Hash>,
) -> Result<(), AllocError>
    ensures { OnOk result (members_view map.new.entries ≡ put_json key.now (if_known hash_of hash.now) (members_view map.old.entries)) }
{
    match hash {
        None => Ok(()),
        Some(hash) => put_hash(alloc, map, key, hash),
    }
}

// Puts what one line shows.
fn put_line(alloc: Global, map: &mut Members, key: &str, shown: Shown) -> Result<(), AllocError>
    ensures { OnOk result (members_view map.new.entries ≡ put_json key.now (json_of shown.entry) (members_view map.old.entries)) }
{
    match shown {
        Shown::Whole(n) => put(map, alloc, key, Value::from(n)),
        Shown::UnlessZero(n) => put_unless_zero(alloc, map, key, n),
        Shown::IfKnown(n) => put_number_if_known(alloc, map, key, n),
        Shown::Flag(flag) => put(map, alloc, key, Value::from(flag)),
        Shown::UnlessFalse(flag) => put_unless_false(alloc, map, key, flag),
        Shown::Text(words) => put_text(alloc, map, key, words),
        Shown::FieldIfKnown(field) => put_field_if_known(alloc, map, key, field),
        Shown::Hex(bytes) => put_hex(alloc, map, key, bytes),
        Shown::UnlessEmpty(bytes) => put_unless_empty(alloc, map, key, bytes.as_slice()),
        Shown::UnlessAllZero(bytes) => put_unless_all_zero(alloc, map, key, bytes),
        Shown::HexIfKnown(bytes) => put_hex_if_known(alloc, map, key, bytes),
        Shown::Address(address) => put_address(alloc, map, key, address),
        Shown::UnlessNobody(address) => put_unless_nobody(alloc, map, key, address),
        Shown::AddressIfKnown(address) => put_address_if_known(alloc, map, key, address),
        Shown::Hash(hash) => put_hash(alloc, map, key, hash),
        Shown::HashIfKnown(hash) => put_hash_if_known(alloc, map, key, hash),
    }
}

/// Puts what a table shows.
pub(crate) fn put_table(
    alloc: Global,
    map: &mut Members,
    lines: &[(&str, Shown)],
) -> Result<(), AllocError>
    ensures { OnOk result (members_view map.new.entries ≡ put_fields (fields_of lines.now) (members_view map.old.entries)) }
{
    for line in lines {
        put_line(alloc, map, line.0, line.1)?;
    }
    Ok(())
}

/// The members that a table shows.
pub(crate) fn table(alloc: Global, lines: &[(&str, Shown)]) -> Result<Members, AllocError>
    ensures { IfOk result (λ m. members_view m.entries ≡ members_of (fields_of lines.now)) }
{
    let mut map = Map::new(alloc);
    put_table(alloc, &mut map, lines)?;
    Ok(map)
}

/// Puts an object under a key.
pub(crate) fn put_nested(
    alloc: Global,
    map: &mut Members,
    key: &str,
    inner: Members,
) -> Result<(), AllocError>
    ensures { OnOk result (members_view map.new.entries ≡ put key.now (object (members_view inner.entries)) (members_view map.old.entries)) }
{
    put(map, alloc, key, Value::Object(inner))
}
