//! Blocks in a database.
ghost use Rattle.std.specs.Prelude.{◌≡◌, ◌+◌, ◌<◌, ◌≤◌, ◌^◌, [], IfOk, IfSome, OnOk, OnErr, length, is_some};
ghost use Rattle.al_keeper.specs.Causes.{HasFault};
ghost use Rattle.al_keeper.specs.Blocks.{Follows, and_round, ends_of, is_within};

use crate::trouble::{Trouble, fault_of};
use al_base::Bytes;
use al_keeper::{BlockKeeper, KeepFault, MayFail};
use sqlite::{Alter, Connection, params};
use std::alloc::Global;

/// Blocks in a database. It tells which rounds it has, and not what they hold.
#[derive(Drop)]
pub struct SqlBlocks<S: Alter> {
    conn: Connection<S>,
    first: u64,
    count: u64,
    faults: u64,
    ghost range: { first + count ≤ 2 ^ 62 + 1 },
}

impl<S: Alter + Drop> SqlBlocks<S> {
    /// The blocks in a database, in which the table is made where it has none. It fails where the
    /// rounds are not consecutive ones from 1 on to at most 2^62.
    pub fn new(_alloc: Global, mut conn: Connection<S>) -> Result<SqlBlocks<S>, KeepFault>
        ensures { IfOk result (λ b. b.faults ≡ 0) }
    {
        match open(&mut conn) {
            Ok((first, count)) => Ok(SqlBlocks {
                conn,
                first,
                count,
                faults: 0,
            }),
            Err(Trouble::Memory) => Err(KeepFault::Memory),
            Err(Trouble::Failed) => Err(KeepFault::Failed),
        }
    }

    /// How many faults it has counted.
    pub fn faults(&self) -> u64
        ensures { result ≡ self.now.faults }
    {
        self.faults
    }
}

/// The most that a round may be.
const MOST: u64 = 1 << 62;

/// The first round and how many there are, once the table is there.
fn open<S: Alter>(conn: &mut Connection<S>) -> Result<(u64, u64), Trouble>
    ensures { IfOk result (λ s. s.0 + s.1 ≤ 2 ^ 62 + 1) }
{
    make(conn)?;
    let count = one(conn, "SELECT count(at) FROM blocks")?;
    if count == 0 {
        return Ok((0, 0));
    }
    let first = one(conn, "SELECT min(at) FROM blocks")?;
    let last = one(conn, "SELECT max(at) FROM blocks")?;
    if first == 0 || last > MOST || last < first || last - first != count - 1 {
        return Err(Trouble::Failed);
    }
    Ok((first, count))
}

/// Makes the table, where there is none.
fn make<S: Alter>(conn: &mut Connection<S>) -> Result<(), Trouble> {
    conn.execute(
        "CREATE TABLE IF NOT EXISTS blocks (at INTEGER PRIMARY KEY, v BLOB NOT NULL)",
        &[],
    )?;
    Ok(())
}

/// The number that a query shows.
fn one<S: Alter>(conn: &mut Connection<S>, query: &str) -> Result<u64, Trouble> {
    Ok(conn.query_row(query, &[])?.get(0)?)
}

/// The bytes of a round.
fn look<S: Alter>(conn: &mut Connection<S>, round: i64) -> Result<Vec<u8>, Trouble> {
    Ok(
        conn.query_row("SELECT v FROM blocks WHERE at = ?1", params![round])?
            .get(0)?,
    )
}

/// The bytes of a round, which are fewer than 2^31.
fn block<S: Alter>(conn: &mut Connection<S>, round: i64) -> Result<Bytes, Trouble>
    ensures { IfOk result (λ b. length b < 2 ^ 31) }
{
    let bytes = look(conn, round)?;
    if bytes.len() >= 1 << 31 {
        return Err(Trouble::Failed);
    }
    Ok(Bytes::from_vec(bytes))
}

/// One row more.
fn put<S: Alter>(conn: &mut Connection<S>, round: i64, bytes: &[u8]) -> Result<(), Trouble> {
    conn.execute(
        "INSERT INTO blocks (at, v) VALUES (?1, ?2)",
        params![round, bytes],
    )?;
    Ok(())
}

/// No row.
fn empty<S: Alter>(conn: &mut Connection<S>) -> Result<(), Trouble> {
    conn.execute("DELETE FROM blocks", &[])?;
    Ok(())
}

impl<S: Alter + Drop> MayFail for SqlBlocks<S> {
    ghost use Rattle.std.specs.Prelude.{true};

    ghost CAN_FAIL = { true };

    const CAN_FAIL: bool = true;
}

impl<S: Alter + Drop> BlockKeeper for SqlBlocks<S> {
    ghost use Rattle.std.specs.Prelude.{[], false};
    ghost use mathlib.Core.Bool.{true≢false, false≢true};

    ghost tells = { λ _. ⊥ };

    ghost steady = { false };

    ghost blocks = { λ _. record { first = 0; list = [] } };

    ghost rounds = { λ b. record { first = b.first; count = b.count } };

    ghost faults = { λ b. b.faults };

    ghost spans = { λ k t. absurd t };

    ghost steadily = { λ k h. absurd (false≢true h) };

    ghost sure = { λ k h. absurd (true≢false h) };

    fn span(&mut self) -> Result<Option<(u64, u64)>, KeepFault> {
        if self.count == 0 {
            return Ok(None);
        }
        Ok(Some((self.first, self.first + self.count - 1)))
    }

    fn get(&mut self, round: u64) -> Result<Option<Bytes>, KeepFault> {
        if round < self.first || round >= self.first + self.count {
            return Ok(None);
        }
        match block(&mut self.conn, round as i64) {
            Ok(bytes) => Ok(Some(bytes)),
            Err(trouble) => Err(fault_of(trouble, &mut self.faults)),
        }
    }

    fn append(&mut self, round: u64, bytes: &[u8]) -> Result<(), KeepFault> {
        match put(&mut self.conn, round as i64, bytes) {
            Ok(()) => {
                if self.count == 0 {
                    self.first = round;
                }
                self.count += 1;
                Ok(())
            }
            Err(trouble) => Err(fault_of(trouble, &mut self.faults)),
        }
    }

    fn clear(&mut self) -> Result<(), KeepFault> {
        match empty(&mut self.conn) {
            Ok(()) => {
                self.count = 0;
                Ok(())
            }
            Err(trouble) => Err(fault_of(trouble, &mut self.faults)),
        }
    }
}
