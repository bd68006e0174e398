//! What calls change in the database: all of it or nothing, each in one transaction.
use crate::online::encode_online;
use crate::trouble::Trouble;
use al_base::{CreatorChange, CreatorChanges, History, Key, LevelAt, Levels, Version};
use al_row_records::encode_row;
use al_rows::{Keyed, Rows, Stored};
use al_tables::{Batch, BatchRow};
use sqlite::{Alter, Connection, Statement, Transaction, params};
use std::alloc::Global;

/// How many rounds below its own the tables of a round need.
const WINDOW: i64 = 320;

/// Makes the tables, where there are none.
pub(crate) fn make_tables<S: Alter>(conn: &mut Connection<S>) -> Result<(), Trouble> {
    let mut tx = begun(conn)?;
    tx.execute_batch(
        "CREATE TABLE IF NOT EXISTS meta (one INTEGER PRIMARY KEY, at INTEGER);
         CREATE TABLE IF NOT EXISTS kept (k BLOB PRIMARY KEY NOT NULL, v BLOB NOT NULL, u INTEGER NOT NULL);
         CREATE TABLE IF NOT EXISTS staged (k BLOB PRIMARY KEY NOT NULL, v BLOB NOT NULL, u INTEGER NOT NULL);
         CREATE TABLE IF NOT EXISTS creators (id INTEGER PRIMARY KEY, who BLOB NOT NULL);
         CREATE TABLE IF NOT EXISTS history (who BLOB NOT NULL, at INTEGER NOT NULL, v BLOB, PRIMARY KEY (who, at));
         CREATE TABLE IF NOT EXISTS levels (at INTEGER PRIMARY KEY, v BLOB NOT NULL)",
    )?;
    Ok(tx.commit()?)
}

/// Begins a transaction.
fn begun<S: Alter>(conn: &mut Connection<S>) -> Result<Transaction<'_, S>, Trouble> {
    if !conn.is_autocommit() {
        return Err(Trouble::Failed);
    }
    Ok(conn.transaction())
}

/// Makes all changes of a batch.
pub(crate) fn write_batch<S: Alter>(
    conn: &mut Connection<S>,
    alloc: Global,
    b: &Batch,
) -> Result<(), Trouble> {
    let mut tx = begun(conn)?;
    if b.from.is_none() {
        run(&mut tx, "DELETE FROM kept")?;
        run(&mut tx, "DELETE FROM staged")?;
        clear(&mut tx)?;
    }
    put_rows(&mut tx, alloc, b.rows.as_slice())?;
    put_rest(&mut tx, alloc, &b.creators, &b.history, &b.levels)?;
    forget(&mut tx, b.to.cast_signed())?;
    set_round(&mut tx, b.to)?;
    Ok(tx.commit()?)
}

/// Makes the staged rows the tables'.
pub(crate) fn adopt_stage<S: Alter>(
    conn: &mut Connection<S>,
    alloc: Global,
    round: u64,
    h: &History,
    l: &Levels,
    c: &CreatorChanges,
) -> Result<(), Trouble> {
    let mut tx = begun(conn)?;
    run(&mut tx, "DELETE FROM kept")?;
    run(
        &mut tx,
        "INSERT INTO kept (k, v, u) SELECT k, v, u FROM staged",
    )?;
    run(&mut tx, "DELETE FROM staged")?;
    clear(&mut tx)?;
    put_rest(&mut tx, alloc, c, h, l)?;
    set_round(&mut tx, round)?;
    Ok(tx.commit()?)
}

/// Adds rows to the stage.
pub(crate) fn add_to_stage<S: Alter>(
    conn: &mut Connection<S>,
    alloc: Global,
    rows: &Rows,
) -> Result<(), Trouble> {
    let mut tx = begun(conn)?;
    stage_rows(&mut tx, alloc, rows.as_slice())?;
    Ok(tx.commit()?)
}

/// Empties the stage.
pub(crate) fn empty_stage<S: Alter>(conn: &mut Connection<S>) -> Result<(), Trouble> {
    conn.execute("DELETE FROM staged", &[])?;
    Ok(())
}

/// A statement without parameters.
fn run<S: Alter>(tx: &mut Transaction<'_, S>, sql: &str) -> Result<(), Trouble> {
    tx.execute(sql, &[])?;
    Ok(())
}

/// Empties what stands beside the rows.
fn clear<S: Alter>(tx: &mut Transaction<'_, S>) -> Result<(), Trouble> {
    run(tx, "DELETE FROM creators")?;
    run(tx, "DELETE FROM history")?;
    run(tx, "DELETE FROM levels")?;
    run(tx, "DELETE FROM meta")
}

/// The round of the tables.
fn set_round<S: Alter>(tx: &mut Transaction<'_, S>, round: u64) -> Result<(), Trouble> {
    tx.execute(
        "INSERT OR REPLACE INTO meta (one, at) VALUES (1, ?1)",
        params![round.cast_signed()],
    )?;
    Ok(())
}

/// What stands under keys, from the last on, so that the first of a key stands.
fn put_rows<S: Alter>(
    tx: &mut Transaction<'_, S>,
    alloc: Global,
    rows: &[BatchRow],
) -> Result<(), Trouble> {
    let put = tx.prepare("INSERT OR REPLACE INTO kept (k, v, u) VALUES (?1, ?2, ?3)")?;
    let remove = tx.prepare("DELETE FROM kept WHERE k = ?1")?;
    for row in rows.iter().rev() {
        match &row.stored {
            Some(stored) => put_row(tx, &put, alloc, &row.key, stored)?,
            None => remove_row(tx, &remove, &row.key)?,
        }
    }
    Ok(())
}

/// One row under its key, in place of any other.
fn put_row<S: Alter>(
    tx: &mut Transaction<'_, S>,
    put: &Statement,
    alloc: Global,
    key: &Key,
    stored: &Stored,
) -> Result<(), Trouble> {
    let k = key.bytes();
    let mut v = Vec::new(alloc);
    encode_row(&stored.row, &mut v)?;
    tx.execute_prepared(
        put,
        params![k.as_slice(), v.as_slice(), stored.changed.cast_signed()],
    )?;
    Ok(())
}

/// No row under a key.
fn remove_row<S: Alter>(
    tx: &mut Transaction<'_, S>,
    remove: &Statement,
    key: &Key,
) -> Result<(), Trouble> {
    let k = key.bytes();
    tx.execute_prepared(remove, params![k.as_slice()])?;
    Ok(())
}

/// Rows in the stage, of which the last of a key stands.
fn stage_rows<S: Alter>(
    tx: &mut Transaction<'_, S>,
    alloc: Global,
    rows: &[Keyed],
) -> Result<(), Trouble> {
    let put = tx.prepare("INSERT OR REPLACE INTO staged (k, v, u) VALUES (?1, ?2, ?3)")?;
    for row in rows {
        put_row(tx, &put, alloc, &row.key, &row.stored)?;
    }
    Ok(())
}

/// What stands beside the rows.
fn put_rest<S: Alter>(
    tx: &mut Transaction<'_, S>,
    alloc: Global,
    c: &CreatorChanges,
    h: &History,
    l: &Levels,
) -> Result<(), Trouble> {
    put_creators(tx, c.as_slice())?;
    put_versions(tx, alloc, h.as_slice())?;
    put_levels(tx, l.as_slice())
}

/// Creators, from the last on, so that the first of an id stands.
fn put_creators<S: Alter>(
    tx: &mut Transaction<'_, S>,
    changes: &[CreatorChange],
) -> Result<(), Trouble> {
    let put = tx.prepare("INSERT OR REPLACE INTO creators (id, who) VALUES (?1, ?2)")?;
    let remove = tx.prepare("DELETE FROM creators WHERE id = ?1")?;
    for change in changes.iter().rev() {
        put_creator(tx, &put, &remove, change)?;
    }
    Ok(())
}

/// The creator of an id, or that there is none.
fn put_creator<S: Alter>(
    tx: &mut Transaction<'_, S>,
    put: &Statement,
    remove: &Statement,
    change: &CreatorChange,
) -> Result<(), Trouble> {
    let id = change.id.cast_signed();
    match &change.now {
        Some(who) => tx.execute_prepared(put, params![id, who.0.as_slice()])?,
        None => tx.execute_prepared(remove, params![id])?,
    };
    Ok(())
}

/// Versions that are added to the history.
fn put_versions<S: Alter>(
    tx: &mut Transaction<'_, S>,
    alloc: Global,
    versions: &[Version],
) -> Result<(), Trouble> {
    let put = tx.prepare("INSERT OR REPLACE INTO history (who, at, v) VALUES (?1, ?2, ?3)")?;
    for version in versions {
        put_version(tx, &put, alloc, version)?;
    }
    Ok(())
}

/// One version.
fn put_version<S: Alter>(
    tx: &mut Transaction<'_, S>,
    put: &Statement,
    alloc: Global,
    version: &Version,
) -> Result<(), Trouble> {
    let mut spelling = None;
    if let Some(data) = &version.now {
        let mut v = Vec::new(alloc);
        encode_online(data, &mut v)?;
        spelling = Some(v);
    }
    tx.execute_prepared(
        put,
        params![
            version.address.0.as_slice(),
            version.round.cast_signed(),
            &spelling
        ],
    )?;
    Ok(())
}

/// Levels that are added.
fn put_levels<S: Alter>(tx: &mut Transaction<'_, S>, levels: &[LevelAt]) -> Result<(), Trouble> {
    let put = tx.prepare("INSERT OR REPLACE INTO levels (at, v) VALUES (?1, ?2)")?;
    for level in levels {
        put_level(tx, &put, level)?;
    }
    Ok(())
}

/// One level: 8 bytes, most significant first.
fn put_level<S: Alter>(
    tx: &mut Transaction<'_, S>,
    put: &Statement,
    level: &LevelAt,
) -> Result<(), Trouble> {
    let v = level.level.to_be_bytes();
    tx.execute_prepared(put, params![level.round.cast_signed(), v.as_slice()])?;
    Ok(())
}

/// Forgets the versions and levels that no round from 320 below this one on needs.
fn forget<S: Alter>(tx: &mut Transaction<'_, S>, to: i64) -> Result<(), Trouble> {
    let least = to.saturating_sub(WINDOW);
    tx.execute(
        "DELETE FROM history WHERE EXISTS (SELECT 1 FROM history AS later WHERE later.who = history.who AND later.at > history.at AND later.at <= ?1)",
        params![least],
    )?;
    tx.execute("DELETE FROM levels WHERE at < ?1", params![least])?;
    Ok(())
}
