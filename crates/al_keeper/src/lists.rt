//! Lists that a commit copies, and what it keeps of them.
ghost use Rattle.std.specs.Prelude.{◌≡◌, ◌++◌, All, IfOk, IfSome, map, reverse};
ghost use Rattle.al_rows.specs.Above.{IsStored};
ghost use Rattle.al_tables.specs.Tables.{creator_pair, is_kept_level, kept_levels, kept_versions, row_of, staged_of};

use crate::newest::kept_versions;
use al_base::{Address, CreatorChange, CreatorChanges, History, Key, LevelAt, Levels, Version};
use al_rows::{Keyed, Rows, Stored};
use al_tables::{BatchRow, BatchRows};
use sqlite_items::Items;
use std::alloc::{AllocError, Global};

// A copy of a row that may be there.
fn copy_stored(alloc: Global, stored: &Option<Stored>) -> Result<Option<Stored>, AllocError>
    ensures { IfOk result (λ s. s ≡ stored.now) }
{
    match stored {
        Some(stored) => Ok(Some(stored.copy(alloc)?)),
        None => Ok(None),
    }
}

// Copies of what stands under keys.
fn rows_of(alloc: Global, rows: &[BatchRow]) -> Result<Vec<(Key, Option<Stored>)>, AllocError>
    ensures { IfOk result (λ out. out.items ≡ map row_of rows.now) }
{
    let mut out = Vec::new(alloc);
    for row in rows {
        out.push((row.key, copy_stored(alloc, &row.stored)?))?;
    }
    Ok(out)
}

// Copies of rows that are staged.
fn staged_of(alloc: Global, rows: &[Keyed]) -> Result<Vec<(Key, Option<Stored>)>, AllocError>
    ensures { IfOk result (λ out. out.items ≡ map staged_of rows.now) }
{
    let mut out = Vec::new(alloc);
    for row in rows {
        out.push((row.key, Some(row.stored.copy(alloc)?)))?;
    }
    Ok(out)
}

// The same changes, the last first.
fn last_first(mut changes: Vec<(Key, Option<Stored>)>) -> Vec<(Key, Option<Stored>)>
    ensures { result.items ≡ reverse changes.items }
{
    changes.reverse();
    changes
}

// Changes of creators as pairs.
fn creators_of(
    alloc: Global,
    changes: &[CreatorChange],
) -> Result<Vec<(u64, Option<Address>)>, AllocError>
    ensures { IfOk result (λ out. out.items ≡ map creator_pair changes.now) }
{
    let mut out = Vec::new(alloc);
    for change in changes {
        out.push((change.id, change.now))?;
    }
    Ok(out)
}

fn is_kept_level(level: &LevelAt, to: u64) -> bool
    ensures { result ≡ is_kept_level to level.now }
{
    to.saturating_sub(320) <= level.round
}

// The levels that are kept at a round.
fn kept_levels(alloc: Global, levels: &[LevelAt], to: u64) -> Result<Levels, AllocError>
    ensures { IfOk result (λ ls. ls ≡ kept_levels to levels.now) }
{
    let mut out = Items::new(alloc);
    for level in levels {
        if is_kept_level(level, to) {
            out.push(*level)?;
        }
    }
    Ok(out)
}

// The levels of both lists.
fn both_levels(alloc: Global, levels: &[LevelAt], more: &[LevelAt]) -> Result<Levels, AllocError>
    ensures { IfOk result (λ ls. ls ≡ levels.now ++ more.now) }
{
    let mut out = Items::from_slice(alloc, levels)?;
    for level in more {
        out.push(*level)?;
    }
    Ok(out)
}

/// The levels with more of them, as a commit keeps them.
pub(crate) fn more_levels(
    alloc: Global,
    levels: &[LevelAt],
    more: &[LevelAt],
    to: u64,
) -> Result<Levels, AllocError>
    ensures { IfOk result (λ ls. ls ≡ kept_levels to (levels.now ++ more.now)) }
{
    let all = both_levels(alloc, levels, more)?;
    kept_levels(alloc, all.as_slice(), to)
}

// The versions of both lists.
fn both_versions(
    alloc: Global,
    versions: &[Version],
    more: &[Version],
) -> Result<History, AllocError>
    ensures { IfOk result (λ vs. vs ≡ versions.now ++ more.now) }
{
    let mut out = Items::from_slice(alloc, versions)?;
    for version in more {
        out.push(*version)?;
    }
    Ok(out)
}

/// The versions with more of them, as a commit keeps them.
pub(crate) fn more_versions(
    alloc: Global,
    versions: &[Version],
    more: &[Version],
    to: u64,
) -> Result<History, AllocError>
    ensures { IfOk result (λ vs. vs ≡ kept_versions to (versions.now ++ more.now)) }
{
    let all = both_versions(alloc, versions, more)?;
    kept_versions(alloc, all.as_slice(), to)
}

/// Copies of a batch's rows.
pub(crate) fn batch_rows(
    alloc: Global,
    rows: &BatchRows,
) -> Result<Vec<(Key, Option<Stored>)>, AllocError>
    requires { All (λ r. IfSome r.stored (IsStored r.key)) rows.now }
    ensures rows { IfOk result (λ out. out.items ≡ map row_of rows.now) }
    ensures kept { IfOk result (λ out. All (λ c. IfSome c.1 (IsStored c.0)) out.items) }
{
    let out = rows_of(alloc, rows.as_slice())?;
    Ok(out)
}

/// Copies of rows for the stage, the last first.
pub(crate) fn staged_rows(
    alloc: Global,
    rows: &Rows,
) -> Result<Vec<(Key, Option<Stored>)>, AllocError>
    requires { All (λ r. IsStored r.key r.stored) rows.now }
    ensures rows { IfOk result (λ out. out.items ≡ reverse (map staged_of rows.now)) }
    ensures kept { IfOk result (λ out. All (λ c. IfSome c.1 (IsStored c.0)) out.items) }
{
    let out = staged_of(alloc, rows.as_slice())?;
    Ok(last_first(out))
}

/// Changes of creators as pairs.
pub(crate) fn batch_creators(
    alloc: Global,
    changes: &CreatorChanges,
) -> Result<Vec<(u64, Option<Address>)>, AllocError>
    ensures { IfOk result (λ out. out.items ≡ map creator_pair changes.now) }
{
    creators_of(alloc, changes.as_slice())
}
