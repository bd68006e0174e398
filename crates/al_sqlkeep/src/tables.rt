//! Tables in a database.
ghost use Rattle.std.specs.Prelude.{◌≡◌, ◌≤◌, ◌^◌, true, All, IfOk, IfSome, OnOk, OnErr};
ghost use Rattle.std.specs.Option.{option_copied};
ghost use Rattle.std.specs.FinMap.{get};
ghost use Rattle.al_rows.specs.Above.{AreRows, IsStored, rows_above};
ghost use Rattle.al_tables.specs.Tables.{AreLevels, AreVersions, IsBatch, IsFrom, adopted, committed, staged, unstaged};
ghost use Rattle.al_keeper.specs.Causes.{HasFault};

use crate::reading::{read_creator, read_history, read_levels, read_round, read_row, read_rows};
use crate::trouble::{Trouble, fault_of};
use crate::writing::{add_to_stage, adopt_stage, empty_stage, make_tables, write_batch};
use al_base::{Address, CreatorChanges, History, Key, Levels};
use al_keeper::{KeepFault, MayFail, TableKeeper};
use al_rows::{Rows, Stored};
use al_tables::Batch;
use sqlite::{Alter, Connection};
use std::alloc::Global;

/// Tables in a database. It does not tell what they hold.
#[derive(Drop)]
pub struct SqlTables<S: Alter> {
    alloc: Global,
    conn: Connection<S>,
    faults: u64,
}

impl<S: Alter + Drop> SqlTables<S> {
    /// The tables in a database, which are made where it has none.
    pub fn new(alloc: Global, mut conn: Connection<S>) -> Result<SqlTables<S>, KeepFault>
        ensures { IfOk result (λ t. t.faults ≡ 0) }
    {
        match make_tables(&mut conn) {
            Ok(()) => Ok(SqlTables {
                alloc,
                conn,
                faults: 0,
            }),
            Err(Trouble::Memory) => Err(KeepFault::Memory),
            Err(Trouble::Failed) => Err(KeepFault::Failed),
        }
    }

    /// How many faults it has counted.
    pub fn faults(&self) -> u64
        ensures { result ≡ self.now.faults }
    {
        self.faults
    }
}

/// The history and the levels.
fn read_both<S: Alter>(
    conn: &mut Connection<S>,
    alloc: Global,
) -> Result<(History, Levels), Trouble> {
    let history = read_history(conn, alloc)?;
    let levels = read_levels(conn, alloc)?;
    Ok((history, levels))
}

impl<S: Alter + Drop> MayFail for SqlTables<S> {
    ghost use Rattle.std.specs.Prelude.{true};

    ghost CAN_FAIL = { true };

    const CAN_FAIL: bool = true;
}

impl<S: Alter + Drop> TableKeeper for SqlTables<S> {
    ghost use Rattle.std.specs.Prelude.{false};
    ghost use Rattle.al_tables.specs.Tables.{no_tables};
    ghost use mathlib.Core.Bool.{true≢false};

    ghost tells = { false };

    ghost tables = { λ _. no_tables };

    ghost faults = { λ t. t.faults };

    ghost sure = { λ k h. absurd (true≢false h) };

    fn round(&mut self) -> Result<Option<u64>, KeepFault> {
        match read_round(&mut self.conn) {
            Ok(round) => Ok(round),
            Err(trouble) => Err(fault_of(trouble, &mut self.faults)),
        }
    }

    fn row(&mut self, key: &Key) -> Result<Option<Stored>, KeepFault> {
        match read_row(&mut self.conn, self.alloc, key) {
            Ok(row) => Ok(row),
            Err(trouble) => Err(fault_of(trouble, &mut self.faults)),
        }
    }

    fn creator(&mut self, id: u64) -> Result<Option<Address>, KeepFault> {
        match read_creator(&mut self.conn, id) {
            Ok(who) => Ok(who),
            Err(trouble) => Err(fault_of(trouble, &mut self.faults)),
        }
    }

    fn rows_after(&mut self, after: Option<&Key>, max: u32) -> Result<Rows, KeepFault> {
        match read_rows(&mut self.conn, self.alloc, after, max) {
            Ok(rows) => Ok(rows),
            Err(trouble) => Err(fault_of(trouble, &mut self.faults)),
        }
    }

    fn history(&mut self) -> Result<(History, Levels), KeepFault> {
        match read_both(&mut self.conn, self.alloc) {
            Ok(both) => Ok(both),
            Err(trouble) => Err(fault_of(trouble, &mut self.faults)),
        }
    }

    fn commit(&mut self, b: &Batch) -> Result<(), KeepFault> {
        match write_batch(&mut self.conn, self.alloc, b) {
            Ok(()) => Ok(()),
            Err(trouble) => Err(fault_of(trouble, &mut self.faults)),
        }
    }

    fn unstage(&mut self) -> Result<(), KeepFault> {
        match empty_stage(&mut self.conn) {
            Ok(()) => Ok(()),
            Err(trouble) => Err(fault_of(trouble, &mut self.faults)),
        }
    }

    fn stage(&mut self, rows: &Rows) -> Result<(), KeepFault> {
        match add_to_stage(&mut self.conn, self.alloc, rows) {
            Ok(()) => Ok(()),
            Err(trouble) => Err(fault_of(trouble, &mut self.faults)),
        }
    }

    fn adopt(
        &mut self,
        round: u64,
        h: &History,
        l: &Levels,
        c: &CreatorChanges,
    ) -> Result<(), KeepFault> {
        match adopt_stage(&mut self.conn, self.alloc, round, h, l, c) {
            Ok(()) => Ok(()),
            Err(trouble) => Err(fault_of(trouble, &mut self.faults)),
        }
    }
}
