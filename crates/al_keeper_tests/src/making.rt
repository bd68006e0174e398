//! Batches whose rows are boxes, and what rows show.
ghost use Rattle.std.specs.Prelude.{◌≡◌, ◌≤◌, ◌^◌, ℕ, List, All, IfOk, IfSome, length};
ghost use Rattle.al_rows.specs.Above.{IsStored};
ghost use Rattle.al_rows.specs.Rows.{IsKept};
ghost use Rattle.al_tables.specs.Tables.{AreLevels, AreVersions, IsBatch};

use al_base::{Address, BoxName, Bytes, CreatorChange, Key, LevelAt, Version};
use al_rows::{BoxRow, Keyed, Row, Rows, Stored};
use al_tables::{Batch, BatchRow, BatchRows};
use sqlite_items::Items;
use std::alloc::{AllocError, Global};

pub(crate) const A: Address = Address([1; 32]);

pub(crate) const B: Address = Address([2; 32]);

/// The key of an application's box.
#[tactic(auto, unfolding(al_rows::specs::Rows::is_zero))]
pub(crate) fn key(app: u64) -> Key
    ensures { (b : List ℕ) → length b ≤ 32768 → IsKept result (Row.Box (record { value = b })) }
{
    match BoxName::new(b"n") {
        Some(name) => Key::Box(app, name),
        None => unreachable!(),
    }
}

// A row with a box of one byte under its key.
fn keyed(alloc: Global, app: u64, value: u8, changed: u64) -> Result<Keyed, AllocError>
    requires { changed ≤ 2 ^ 62 }
    ensures { IfOk result (λ r. IsStored r.key r.stored) }
{
    let value = Bytes::of(alloc, &[value])?;
    Ok(Keyed {
        key: key(app),
        stored: Stored {
            row: Row::Box(BoxRow { value }),
            changed,
        },
    })
}

// What stands under a key, or that nothing does.
fn batch_row(
    alloc: Global,
    app: u64,
    value: Option<u8>,
    changed: u64,
) -> Result<BatchRow, AllocError>
    requires { changed ≤ 2 ^ 62 }
    ensures { IfOk result (λ r. IfSome r.stored (IsStored r.key)) }
{
    match value {
        Some(value) => {
            let Keyed { key, stored } = keyed(alloc, app, value, changed)?;
            Ok(BatchRow {
                key,
                stored: Some(stored),
            })
        }
        None => Ok(BatchRow {
            key: key(app),
            stored: None,
        }),
    }
}

// The rows of a batch: applications, and what their boxes hold.
fn batch_rows(
    alloc: Global,
    boxes: &[(u64, Option<u8>)],
    changed: u64,
) -> Result<BatchRows, AllocError>
    requires { changed ≤ 2 ^ 62 }
    ensures { IfOk result (All (λ r. IfSome r.stored (IsStored r.key))) }
{
    let mut rows = Items::new(alloc);
    for (app, value) in boxes {
        rows.push(batch_row(alloc, *app, *value, changed)?)?;
    }
    Ok(rows)
}

/// Rows for the stage: applications, and what their boxes hold.
pub(crate) fn staged_rows(
    alloc: Global,
    boxes: &[(u64, u8)],
    changed: u64,
) -> Result<Rows, AllocError>
    requires { changed ≤ 2 ^ 62 }
    ensures { IfOk result (All (λ r. IsStored r.key r.stored)) }
{
    let mut rows = Items::new(alloc);
    for (app, value) in boxes {
        rows.push(keyed(alloc, *app, *value, changed)?)?;
    }
    Ok(rows)
}

/// A batch of these boxes and nothing else.
pub(crate) fn batch(
    alloc: Global,
    from: Option<u64>,
    to: u64,
    boxes: &[(u64, Option<u8>)],
) -> Result<Batch, AllocError>
    requires { to ≤ 2 ^ 62 }
    ensures batch { IfOk result IsBatch }
    ensures from { IfOk result (λ b. b.from ≡ from) }
    ensures to { IfOk result (λ b. b.to ≡ to) }
{
    Ok(Batch {
        from,
        to,
        rows: batch_rows(alloc, boxes, to)?,
        creators: Items::new(alloc),
        history: Items::new(alloc),
        levels: Items::new(alloc),
    })
}

/// The batch with creators, versions and levels.
pub(crate) fn with(
    alloc: Global,
    b: Batch,
    creators: &[CreatorChange],
    history: &[Version],
    levels: &[LevelAt],
) -> Result<Batch, AllocError>
    requires batch { IsBatch b }
    requires versions { AreVersions history.now }
    requires levels { AreLevels levels.now }
    ensures batch { IfOk result IsBatch }
    ensures from { IfOk result (λ r. r.from ≡ b.from) }
    ensures to { IfOk result (λ r. r.to ≡ b.to) }
{
    Ok(Batch {
        from: b.from,
        to: b.to,
        rows: b.rows,
        creators: Items::from_slice(alloc, creators)?,
        history: Items::from_slice(alloc, history)?,
        levels: Items::from_slice(alloc, levels)?,
    })
}

/// A version of an account that is not online.
pub(crate) fn version(address: Address, round: u64) -> Version
    ensures { result.round ≡ round }
{
    Version {
        address,
        round,
        now: None,
    }
}

/// A level of a round.
pub(crate) fn level(round: u64) -> LevelAt
    ensures { result.round ≡ round }
{
    LevelAt { round, level: 7 }
}

/// The byte of a box and the round that changed it, none where there is no row.
pub(crate) fn shown(stored: &Option<Stored>) -> Option<(u8, u64)> {
    match stored {
        Some(stored) => shown_row(stored),
        None => None,
    }
}

// The byte of a box and the round that changed it.
fn shown_row(stored: &Stored) -> Option<(u8, u64)> {
    let Row::Box(held) = &stored.row else {
        return None;
    };
    match held.value.get(0) {
        Some(byte) => Some((*byte, stored.changed)),
        None => None,
    }
}

/// Whether the rows are the boxes of these applications, with these bytes and rounds.
pub(crate) fn are_boxes(rows: &Rows, boxes: &[(u64, u8, u64)]) -> bool {
    if rows.len() != boxes.len() {
        return false;
    }
    for (i, (app, value, changed)) in boxes.iter().enumerate() {
        match rows.get(i) {
            Some(row) => {
                if row.key != key(*app) || shown_row(&row.stored) != Some((*value, *changed)) {
                    return false;
                }
            }
            None => return false,
        }
    }
    true
}
