//! Tables in memory, some of whose calls fail.
ghost use Rattle.std.specs.Prelude.{◌≡◌, true, Option, IfOk};
ghost use Rattle.al_keeper.specs.Held.{mem_tables_of};
ghost use Rattle.al_keeper.specs.Calls.{calls_to, mended};
ghost use Rattle.al_tables.specs.Tables.{no_tables};

use crate::calls::Calls;
use crate::{KeepFault, MayFail, SureTables, TableKeeper};
use al_base::{Address, CreatorChanges, History, Key, Levels};
use al_rows::{Rows, Stored};
use al_tables::Batch;
use std::alloc::{AllocError, Global};

/// Tables in memory. Its calls of the planned numbers fail.
#[derive(Drop)]
pub struct MemTables {
    tables: SureTables,
    calls: Calls,
}

impl MemTables {
    /// Tables without a round, which hold nothing. Calls of the numbers in `fails`, counted from 1,
    /// fail.
    ///
    /// # Errors
    ///
    /// Only where memory is short.
    pub fn new(alloc: Global, fails: &[u64]) -> Result<MemTables, AllocError>
        ensures tables { IfOk result (λ t. mem_tables_of t ≡ no_tables) }
        ensures calls { IfOk result (λ t. t.calls ≡ calls_to fails.now) }
    {
        Ok(MemTables {
            tables: SureTables::new(alloc),
            calls: Calls::new(alloc, fails)?,
        })
    }

    /// The same tables and faults. No call fails or is counted any more. It takes no memory.
    pub fn mend(self) -> MemTables
        ensures tables { mem_tables_of result ≡ mem_tables_of self }
        ensures calls { result.calls ≡ mended self.calls }
    {
        MemTables {
            tables: self.tables,
            calls: self.calls.mend(),
        }
    }
}

impl MayFail for MemTables {
    ghost use Rattle.std.specs.Prelude.{true};

    ghost CAN_FAIL = { true };

    const CAN_FAIL: bool = true;
}

impl TableKeeper for MemTables {
    ghost use Rattle.std.specs.Prelude.{true};
    ghost use mathlib.Core.Bool.{true≢false};
    ghost use Rattle.al_keeper.specs.Held.{mem_tables_of};

    ghost tells = { true };

    ghost tables = { mem_tables_of };

    ghost faults = { λ t. t.calls.plan.faults };

    ghost sure = { λ k h. absurd (true≢false h) };

    fn round(&mut self) -> Result<Option<u64>, KeepFault> {
        self.calls.call()?;
        self.tables.round()
    }

    fn row(&mut self, key: &Key) -> Result<Option<Stored>, KeepFault> {
        self.calls.call()?;
        self.tables.row(key)
    }

    fn creator(&mut self, id: u64) -> Result<Option<Address>, KeepFault> {
        self.calls.call()?;
        self.tables.creator(id)
    }

    fn rows_after(&mut self, after: Option<&Key>, max: u32) -> Result<Rows, KeepFault> {
        self.calls.call()?;
        self.tables.rows_after(after, max)
    }

    fn history(&mut self) -> Result<(History, Levels), KeepFault> {
        self.calls.call()?;
        self.tables.history()
    }

    fn commit(&mut self, b: &Batch) -> Result<(), KeepFault> {
        self.calls.call()?;
        self.tables.commit(b)
    }

    fn unstage(&mut self) -> Result<(), KeepFault> {
        self.calls.call()?;
        self.tables.unstage()
    }

    fn stage(&mut self, rows: &Rows) -> Result<(), KeepFault> {
        self.calls.call()?;
        self.tables.stage(rows)
    }

    fn adopt(
        &mut self,
        round: u64,
        h: &History,
        l: &Levels,
        c: &CreatorChanges,
    ) -> Result<(), KeepFault> {
        self.calls.call()?;
        self.tables.adopt(round, h, l, c)
    }
}
