//! The last changes of blocks together, as a batch of a commit.
ghost use Rattle.std.specs.Prelude.{◌≡◌, ◌++◌, ◌≤◌, ◌^◌, ℕ, All, None, Some, IfOk, OnOk, cond, is_some, map, IfSome};
ghost use Rattle.al_rows.specs.Above.{IsStored};
ghost use Rattle.std.specs.BTreeMap.{IsOrdered, is_at};
ghost use Rattle.std.specs.BTreeMap as tree;
ghost use Rattle.std.specs.Map.{lookup};
ghost use Rattle.std.specs.Option.{option_or};
ghost use Rattle.std.specs.Ordering.{nat_cmp};
ghost use Rattle.al_base.specs.Keys.{key_cmp};
ghost use Rattle.al_tables.specs.Tables.{creator_pair, row_of};
ghost use Rattle.al_deltas.specs.Net.{AreNet, AreNetCreators, IsBatchOf, levels_of, version_of, versions_of};
ghost use Rattle.al_deltas.specs.Queue.{IsKeptDelta, Queue, creator_in, left_of, stored_at, up_to};

use crate::RoundDelta;
use al_base::{
    Address, CreatorChange, CreatorChanges, History, Key, LevelAt, Levels, OnlineChange, Version,
};
use al_rows::{Change, Row, Stored};
use al_tables::{Batch, BatchRow, BatchRows};
use sqlite_items::Items;
use std::alloc::{AllocError, Global};
use std::collections::BTreeMap;

// What stands under keys, or that nothing does.
type NetRows = BTreeMap<Key, Option<Stored>>;

// The creators of ids, or that there is none.
type NetCreators = BTreeMap<u64, Option<Address>>;

// What a change of a round leaves.
fn left_by(alloc: Global, row: &Option<Row>, round: u64) -> Result<Option<Stored>, AllocError>
    ensures { IfOk result (λ s. s ≡ stored_at round row.now) }
{
    match row {
        Some(row) => Ok(Some(Stored {
            row: row.copy(alloc)?,
            changed: round,
        })),
        None => Ok(None),
    }
}

// Whether something is put under a key.
fn has(net: &NetRows, key: &Key) -> bool
    ensures { result ≡ is_some (lookup (is_at (key_cmp key.now)) net.now.entries) }
{
    net.get(key).is_some()
}

// Puts what stands under a key.
fn put(net: &mut NetRows, key: &Key, stored: Option<Stored>) -> Result<(), AllocError>
    ensures { OnOk result ((q : _) → lookup (is_at (key_cmp q)) net.new.entries ≡ cond (is_at (key_cmp key.now) q) (Some stored) (lookup (is_at (key_cmp q)) net.old.entries)) }
{
    match net.insert(*key, stored) {
        Ok(_) => Ok(()),
        Err(_) => Err(AllocError),
    }
}

// Puts what a change of a round leaves, unless a later change of its key is put.
fn put_change(
    alloc: Global,
    net: &mut NetRows,
    change: &Change,
    round: u64,
) -> Result<(), AllocError>
    ensures { OnOk result ((q : _) → lookup (is_at (key_cmp q)) net.new.entries ≡ option_or (lookup (is_at (key_cmp q)) net.old.entries) (cond (is_at (key_cmp change.now.key) q) (Some (stored_at round change.now.row)) None)) }
{
    if has(net, &change.key) {
        return Ok(());
    }
    let stored = left_by(alloc, &change.row, round)?;
    put(net, &change.key, stored)
}

// Puts what the changes of a round leave, where no later one is put.
fn put_changes(
    alloc: Global,
    net: &mut NetRows,
    changes: &[Change],
    round: u64,
) -> Result<(), AllocError>
    ensures { OnOk result ((q : _) → lookup (is_at (key_cmp q)) net.new.entries ≡ option_or (lookup (is_at (key_cmp q)) net.old.entries) (lookup (is_at (key_cmp q)) (map (left_of round) changes.now))) }
{
    for change in changes {
        put_change(alloc, net, change, round)?;
    }
    Ok(())
}

// The last changes of all keys, each of which is copied once.
fn net_rows(alloc: Global, deltas: &[RoundDelta]) -> Result<NetRows, AllocError>
    ensures net { IfOk result (λ net. AreNet deltas.now net.entries) }
    ensures ordered { IfOk result (λ net. IsOrdered key_cmp net) }
{
    let mut net = BTreeMap::new(alloc);
    let mut left = deltas;
    while let Some((last, before)) = left.split_last() {
        put_changes(alloc, &mut net, last.changes.as_slice(), last.round)?;
        left = before;
    }
    let _count = net.len();
    Ok(net)
}

// These as rows of a batch.
fn as_rows(alloc: Global, net: NetRows) -> Result<BatchRows, AllocError>
    ensures { IfOk result (λ rows. map row_of rows ≡ net.entries) }
{
    let mut rows = Items::new(alloc);
    for (key, stored) in net {
        rows.push(BatchRow { key, stored })?;
    }
    Ok(rows)
}

// The last changes of all keys, as rows of a batch.
fn rows_of(alloc: Global, deltas: &[RoundDelta]) -> Result<BatchRows, AllocError>
    requires kept { All IsKeptDelta deltas.now }
    requires low { All (λ d. d.round ≤ 2 ^ 62) deltas.now }
    ensures net { IfOk result (λ rows. AreNet deltas.now (map row_of rows)) }
    ensures stored { IfOk result (λ rows. All (λ r. IfSome r.stored (IsStored r.key)) rows) }
{
    let net = net_rows(alloc, deltas)?;
    as_rows(alloc, net)
}

// Whether the creator of an id is put.
fn has_creator(net: &NetCreators, id: u64) -> bool
    ensures { result ≡ is_some (tree.get nat_cmp net.now id) }
{
    net.get(&id).is_some()
}

// Puts the creator of an id, unless a later change is put.
fn put_creator(net: &mut NetCreators, id: u64, creator: Option<Address>) -> Result<(), AllocError>
    ensures { OnOk result ((q : ℕ) → tree.get nat_cmp net.new q ≡ option_or (tree.get nat_cmp net.old q) (cond (is_at (nat_cmp id) q) (Some creator) None)) }
{
    if has_creator(net, id) {
        return Ok(());
    }
    match net.insert(id, creator) {
        Ok(_) => Ok(()),
        Err(_) => Err(AllocError),
    }
}

// Puts the changed creators of a round, where no later change is put.
fn put_creators(net: &mut NetCreators, changes: &[CreatorChange]) -> Result<(), AllocError>
    ensures { OnOk result ((id : ℕ) → tree.get nat_cmp net.new id ≡ option_or (tree.get nat_cmp net.old id) (creator_in id changes.now)) }
{
    for change in changes {
        put_creator(net, change.id, change.now)?;
    }
    Ok(())
}

// The last changes of all creators.
fn net_creators(alloc: Global, deltas: &[RoundDelta]) -> Result<NetCreators, AllocError>
    ensures { IfOk result (λ net. AreNetCreators deltas.now net.entries) }
{
    let mut net = BTreeMap::new(alloc);
    let mut left = deltas;
    while let Some((last, before)) = left.split_last() {
        put_creators(&mut net, last.creators.as_slice())?;
        left = before;
    }
    Ok(net)
}

// These as changes of a batch.
fn as_creators(alloc: Global, net: NetCreators) -> Result<CreatorChanges, AllocError>
    ensures { IfOk result (λ creators. map creator_pair creators ≡ net.entries) }
{
    let mut creators = Items::new(alloc);
    for (id, now) in net {
        creators.push(CreatorChange { id, now })?;
    }
    Ok(creators)
}

// The last changes of all creators, as changes of a batch.
fn creators_of(alloc: Global, deltas: &[RoundDelta]) -> Result<CreatorChanges, AllocError>
    ensures { IfOk result (λ creators. AreNetCreators deltas.now (map creator_pair creators)) }
{
    let net = net_creators(alloc, deltas)?;
    as_creators(alloc, net)
}

// Appends the versions of accounts that a round changes.
fn push_versions(
    history: &mut History,
    changes: &[OnlineChange],
    round: u64,
) -> Result<(), AllocError>
    ensures { OnOk result (history.new ≡ history.old ++ map (version_of round) changes.now) }
{
    for change in changes {
        history.push(Version {
            address: change.address,
            round,
            now: change.now,
        })?;
    }
    Ok(())
}

// The versions of all accounts that are changed, round by round.
fn history_of(alloc: Global, deltas: &[RoundDelta]) -> Result<History, AllocError>
    ensures { IfOk result (λ history. history ≡ versions_of deltas.now) }
{
    let mut history = Items::new(alloc);
    for delta in deltas {
        push_versions(&mut history, delta.online.as_slice(), delta.round)?;
    }
    Ok(history)
}

// The levels of the rounds.
fn levels_of(alloc: Global, deltas: &[RoundDelta]) -> Result<Levels, AllocError>
    ensures { IfOk result (λ levels. levels ≡ levels_of deltas.now) }
{
    let mut levels = Items::new(alloc);
    for delta in deltas {
        levels.push(LevelAt {
            round: delta.round,
            level: delta.header.level,
        })?;
    }
    Ok(levels)
}

/// The batch of changes that lead from one round to another. Errors: no memory.
pub(crate) fn batch_of(
    alloc: Global,
    from: u64,
    to: u64,
    deltas: &[RoundDelta],
) -> Result<Batch, AllocError>
    requires kept { All IsKeptDelta deltas.now }
    requires low { All (λ d. d.round ≤ 2 ^ 62) deltas.now }
    requires most { to ≤ 2 ^ 62 }
    ensures { (q : Queue) → q.base ≡ from → up_to to q ≡ deltas.now → IfOk result (IsBatchOf to q) }
{
    Ok(Batch {
        from: Some(from),
        to,
        rows: rows_of(alloc, deltas)?,
        creators: creators_of(alloc, deltas)?,
        history: history_of(alloc, deltas)?,
        levels: levels_of(alloc, deltas)?,
    })
}
