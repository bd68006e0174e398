//! What the database gives, checked.
ghost use Rattle.std.specs.Prelude.{◌≡◌, ◌<◌, ◌≤◌, ◌^◌, IfOk, IfSome, length};
ghost use Rattle.std.specs.Option.{option_copied};
ghost use Rattle.al_rows.specs.Above.{AreRows, IsStored, is_above};
ghost use Rattle.al_tables.specs.Tables.{AreLevels, AreVersions};

use crate::online::decode_online;
use crate::trouble::Trouble;
use al_base::{Address, History, Key, LevelAt, Levels, OnlineData, Version};
use al_row_records::decode_row;
use al_rows::{Keyed, Rows, Stored};
use sqlite::types::ValueRef;
use sqlite::{Alter, Connection, Error, Row, params};
use std::alloc::Global;

/// The most that a round may be.
const MOST: u64 = 1 << 62;

/// The round of the tables.
pub(crate) fn read_round<S: Alter>(conn: &mut Connection<S>) -> Result<Option<u64>, Trouble> {
    let shown = conn.query_all("SELECT one, at FROM meta LIMIT 2", &[])?;
    match shown.as_slice() {
        [] => Ok(None),
        [row] => only_round(row),
        _ => Err(Trouble::Failed),
    }
}

/// The round of the only row.
fn only_round(row: &Row) -> Result<Option<u64>, Trouble> {
    let one: i64 = row.get(0)?;
    if one != 1 {
        return Err(Trouble::Failed);
    }
    if is_null(row, 1)? {
        return Ok(None);
    }
    Ok(Some(round_at(row, 1)?))
}

/// The row under a key.
pub(crate) fn read_row<S: Alter>(
    conn: &mut Connection<S>,
    alloc: Global,
    key: &Key,
) -> Result<Option<Stored>, Trouble>
    ensures { IfOk result (λ s. IfSome s (IsStored key.now)) }
{
    match find_row(conn, key)? {
        None => Ok(None),
        Some(row) => Ok(Some(stored_at(alloc, key, &row)?)),
    }
}

/// What the database has under a key.
fn find_row<S: Alter>(conn: &mut Connection<S>, key: &Key) -> Result<Option<Row>, Trouble> {
    let k = key.bytes();
    first_of(conn.query_row(
        "SELECT k, v, u FROM kept WHERE k = ?1",
        params![k.as_slice()],
    ))
}

/// The creator of an asset or an application.
pub(crate) fn read_creator<S: Alter>(
    conn: &mut Connection<S>,
    id: u64,
) -> Result<Option<Address>, Trouble> {
    let found = conn.query_row(
        "SELECT who FROM creators WHERE id = ?1",
        params![id.cast_signed()],
    );
    match first_of(found)? {
        None => Ok(None),
        Some(row) => Ok(Some(address_at(&row, 0)?)),
    }
}

/// The row that a query found, or that there is none.
fn first_of(found: Result<Row, Error>) -> Result<Option<Row>, Trouble> {
    match found {
        Ok(row) => Ok(Some(row)),
        Err(Error::QueryReturnedNoRows) => Ok(None),
        Err(error) => Err(Trouble::from(error)),
    }
}

/// The first rows above a key, or of all, in the order of keys: at most so many.
pub(crate) fn read_rows<S: Alter>(
    conn: &mut Connection<S>,
    alloc: Global,
    after: Option<&Key>,
    max: u32,
) -> Result<Rows, Trouble>
    ensures { IfOk result (AreRows (option_copied after.entry) max) }
{
    let after = after.copied();
    let shown = list_rows(conn, &after, max)?;
    rows_of(alloc, shown.as_slice(), after, max)
}

/// What the database has above a key.
fn list_rows<S: Alter>(
    conn: &mut Connection<S>,
    after: &Option<Key>,
    max: u32,
) -> Result<Vec<Row>, Trouble> {
    match after {
        None => Ok(conn.query_all("SELECT k, v, u FROM kept ORDER BY k LIMIT ?1", params![max])?),
        Some(key) => {
            let k = key.bytes();
            Ok(conn.query_all(
                "SELECT k, v, u FROM kept WHERE k > ?1 ORDER BY k LIMIT ?2",
                params![k.as_slice(), max],
            )?)
        }
    }
}

/// The rows that the database gave, where their keys rise from above this one.
fn rows_of(alloc: Global, shown: &[Row], after: Option<Key>, max: u32) -> Result<Rows, Trouble>
    ensures { IfOk result (AreRows after max) }
{
    let mut rows = Rows::new(alloc);
    let mut last = after;
    for row in shown {
        let keyed = keyed_of(alloc, row)?;
        if rows.len() >= max as usize || !is_above(&last, &keyed.key) {
            return Err(Trouble::Failed);
        }
        last = Some(keyed.key);
        rows.push(keyed)?;
    }
    Ok(rows)
}

/// Whether a key stands behind another; every key does where there is none.
fn is_above(after: &Option<Key>, key: &Key) -> bool
    ensures { result ≡ is_above after.now key.now }
{
    match after {
        None => true,
        Some(after) => after.compare(key).is_lt(),
    }
}

/// A row under its key.
fn keyed_of(alloc: Global, row: &Row) -> Result<Keyed, Trouble>
    ensures { IfOk result (λ r. IsStored r.key r.stored) }
{
    let key = key_at(row)?;
    let stored = stored_at(alloc, &key, row)?;
    Ok(Keyed { key, stored })
}

/// The key in the first column.
fn key_at(row: &Row) -> Result<Key, Trouble> {
    Key::of_bytes(blob_at(row, 0)?).ok_or(Trouble::Failed)
}

/// The row that stands under a key, its spelling in the second column and its round in the third.
fn stored_at(alloc: Global, key: &Key, row: &Row) -> Result<Stored, Trouble>
    ensures { IfOk result (IsStored key.now) }
{
    let changed = round_at(row, 2)?;
    let row = decode_row(alloc, key, blob_at(row, 1)?)?;
    Ok(Stored { row, changed })
}

/// The history of online accounts by rounds and, within one, by addresses.
pub(crate) fn read_history<S: Alter>(
    conn: &mut Connection<S>,
    alloc: Global,
) -> Result<History, Trouble>
    ensures { IfOk result AreVersions }
{
    let shown = conn.query_all("SELECT who, at, v FROM history ORDER BY at, who", &[])?;
    versions_of(alloc, shown.as_slice())
}

/// The versions that the database gave.
fn versions_of(alloc: Global, shown: &[Row]) -> Result<History, Trouble>
    ensures { IfOk result AreVersions }
{
    let mut history = History::new(alloc);
    for row in shown {
        history.push(version_of(alloc, row)?)?;
    }
    Ok(history)
}

/// A version.
fn version_of(alloc: Global, row: &Row) -> Result<Version, Trouble>
    ensures { IfOk result (λ v. v.round ≤ 2 ^ 62) }
{
    let address = address_at(row, 0)?;
    let round = round_at(row, 1)?;
    let now = online_at(alloc, row, 2)?;
    Ok(Version {
        address,
        round,
        now,
    })
}

/// The data that a column spells, or that the account was not online.
fn online_at(alloc: Global, row: &Row, at: usize) -> Result<Option<OnlineData>, Trouble> {
    if is_null(row, at)? {
        return Ok(None);
    }
    Ok(Some(decode_online(alloc, blob_at(row, at)?)?))
}

/// The levels by rounds.
pub(crate) fn read_levels<S: Alter>(
    conn: &mut Connection<S>,
    alloc: Global,
) -> Result<Levels, Trouble>
    ensures { IfOk result AreLevels }
{
    let shown = conn.query_all("SELECT at, v FROM levels ORDER BY at", &[])?;
    levels_of(alloc, shown.as_slice())
}

/// The levels that the database gave.
fn levels_of(alloc: Global, shown: &[Row]) -> Result<Levels, Trouble>
    ensures { IfOk result AreLevels }
{
    let mut levels = Levels::new(alloc);
    for row in shown {
        levels.push(level_of(row)?)?;
    }
    Ok(levels)
}

/// A level.
fn level_of(row: &Row) -> Result<LevelAt, Trouble>
    ensures { IfOk result (λ l. l.round ≤ 2 ^ 62) }
{
    let round = round_at(row, 0)?;
    let level = level_at(row)?;
    Ok(LevelAt { round, level })
}

/// The level of 8 bytes in the second column, most significant first.
fn level_at(row: &Row) -> Result<u64, Trouble> {
    match <[u8; 8]>::try_from(blob_at(row, 1)?) {
        Ok(bytes) => Ok(u64::from_be_bytes(bytes)),
        Err(_) => Err(Trouble::Failed),
    }
}

/// The address in a column.
fn address_at(row: &Row, at: usize) -> Result<Address, Trouble> {
    match <[u8; 32]>::try_from(blob_at(row, at)?) {
        Ok(bytes) => Ok(Address(bytes)),
        Err(_) => Err(Trouble::Failed),
    }
}

/// The round in a column, of at most 2^62.
fn round_at(row: &Row, at: usize) -> Result<u64, Trouble>
    ensures { IfOk result (λ n. n ≤ 2 ^ 62) }
{
    let round: u64 = row.get(at)?;
    if round > MOST {
        return Err(Trouble::Failed);
    }
    Ok(round)
}

/// The bytes in a column, fewer than 2^31.
fn blob_at<'a>(row: &'a Row, at: usize) -> Result<&'a [u8], Trouble>
    ensures { IfOk result (λ b. length b.now < 2 ^ 31) }
{
    match row.get_ref(at)? {
        ValueRef::Blob(bytes) => {
            if bytes.len() >= 1 << 31 {
                return Err(Trouble::Failed);
            }
            Ok(bytes)
        }
        _ => Err(Trouble::Failed),
    }
}

/// Whether a column holds nothing.
fn is_null(row: &Row, at: usize) -> Result<bool, Trouble> {
    Ok(matches!(row.get_ref(at)?, ValueRef::Null))
}
