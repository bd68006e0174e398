//! Rows, versions and batches of the tests.
ghost use Rattle.std.specs.Prelude.{◌≡◌, ◌≤◌, ◌^◌, All, IfOk, IfSome};
ghost use Rattle.al_rows.specs.Above.{IsStored};
ghost use Rattle.al_tables.specs.Tables.{AreLevels, AreVersions, IsBatch};

use al_base::{
    Address, CreatorChange, CreatorChanges, History, Key, LevelAt, Levels, OnlineData, Version,
};
use al_row_records::decode_row;
use al_rows::{Keyed, Rows, Stored};
use al_tables::{Batch, BatchRow, BatchRows};
use std::alloc::{AllocError, Global};

/// An account by the byte that its address is made of, its balance, and the round of its last
/// change; the balance 0 is for no row.
pub(crate) type Line = (u8, u8, u64);

/// What a step of a test gives.
#[derive(Clone, Copy)]
pub(crate) struct Given<'a> {
    pub(crate) rows: &'a [Line],
    /// Ids and creators; 0 for none.
    pub(crate) creators: &'a [(u64, u8)],
    /// Accounts, rounds and balances; 0 for not online.
    pub(crate) history: &'a [(u8, u64, u8)],
    pub(crate) levels: &'a [(u64, u64)],
}

/// The address of these bytes.
pub(crate) fn address(byte: u8) -> Address {
    Address([byte; 32])
}

/// The account's row with this balance, or none.
fn stored(alloc: Global, key: &Key, balance: u8, changed: u64) -> Option<Stored>
    ensures { IfSome result (IsStored key.now) }
{
    if changed > 1 << 62 {
        return None;
    }
    let row = decode_row(alloc, key, &[0x81, 0xa1, b'b', balance]).ok()?;
    Some(Stored { row, changed })
}

/// What a line leaves.
fn batch_row(alloc: Global, line: &Line) -> BatchRow
    ensures { IfSome result.stored (IsStored result.key) }
{
    let key = Key::Account(address(line.0));
    let stored = stored(alloc, &key, line.1, line.2);
    BatchRow { key, stored }
}

/// What the lines leave.
fn batch_rows(alloc: Global, lines: &[Line]) -> Result<BatchRows, AllocError>
    ensures { IfOk result (All (λ r. IfSome r.stored (IsStored r.key))) }
{
    let mut rows = BatchRows::new(alloc);
    for line in lines {
        rows.push(batch_row(alloc, line))?;
    }
    Ok(rows)
}

/// The rows of the lines, up to the first that has none.
pub(crate) fn rows(alloc: Global, lines: &[Line]) -> Result<Rows, AllocError>
    ensures { IfOk result (All (λ r. IsStored r.key r.stored)) }
{
    let mut rows = Rows::new(alloc);
    for line in lines {
        let key = Key::Account(address(line.0));
        let Some(stored) = stored(alloc, &key, line.1, line.2) else {
            return Ok(rows);
        };
        rows.push(Keyed { key, stored })?;
    }
    Ok(rows)
}

/// The creators of ids.
pub(crate) fn creators(alloc: Global, lines: &[(u64, u8)]) -> Result<CreatorChanges, AllocError> {
    let mut changes = CreatorChanges::new(alloc);
    for line in lines {
        let now = if line.1 == 0 {
            None
        } else {
            Some(address(line.1))
        };
        changes.push(CreatorChange { id: line.0, now })?;
    }
    Ok(changes)
}

/// What is known of an account with a balance.
fn online(balance: u8) -> Option<OnlineData> {
    if balance == 0 {
        return None;
    }
    Some(OnlineData {
        balance: balance as u64,
        base: 2,
        first: 3,
        last: 1 << 40,
        dilution: 5,
        vote: [6; 32],
        selection: [7; 32],
    })
}

/// Versions, of which those of a round above 2^62 are left out.
pub(crate) fn history(alloc: Global, lines: &[(u8, u64, u8)]) -> Result<History, AllocError>
    ensures { IfOk result AreVersions }
{
    let mut history = History::new(alloc);
    for line in lines {
        let round = line.1;
        if round <= 1 << 62 {
            let version = Version {
                address: address(line.0),
                round,
                now: online(line.2),
            };
            history.push(version)?;
        }
    }
    Ok(history)
}

/// Levels, of which those of a round above 2^62 are left out.
pub(crate) fn levels(alloc: Global, lines: &[(u64, u64)]) -> Result<Levels, AllocError>
    ensures { IfOk result AreLevels }
{
    let mut levels = Levels::new(alloc);
    for line in lines {
        let round = line.0;
        if round <= 1 << 62 {
            levels.push(LevelAt {
                round,
                level: line.1,
            })?;
        }
    }
    Ok(levels)
}

/// A batch.
pub(crate) fn batch(
    alloc: Global,
    from: Option<u64>,
    to: u64,
    given: &Given<'_>,
) -> Result<Batch, AllocError>
    requires { to ≤ 2 ^ 62 }
    ensures { IfOk result IsBatch }
{
    let rows = batch_rows(alloc, given.rows)?;
    let creators = creators(alloc, given.creators)?;
    let history = history(alloc, given.history)?;
    let levels = levels(alloc, given.levels)?;
    Ok(Batch {
        from,
        to,
        rows,
        creators,
        history,
        levels,
    })
}
