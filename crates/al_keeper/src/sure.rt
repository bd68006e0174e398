//! Tables in memory that never fail.
ghost use Rattle.std.specs.Prelude.{◌≡◌, true, Option, Some, None, All, OnOk, OnErr};
ghost use Rattle.al_keeper.specs.Held.{tables_of};
ghost use Rattle.al_rows.specs.Above.{IsStored};
ghost use Rattle.al_tables.specs.Tables.{IsBatch, added, adopted, committed, no_tables, staged};

use crate::creators::CreatorSlots;
use crate::lists::{batch_creators, batch_rows, more_levels, more_versions, staged_rows};
use crate::rows::RowSlots;
use crate::{KeepFault, MayFail, TableKeeper};
use al_base::{Address, CreatorChanges, History, Key, Levels};
use al_rows::{Rows, Stored};
use al_tables::Batch;
use sqlite_items::Items;
use std::alloc::{AllocError, Global};
use std::mem;

/// Tables in memory that never fail.
#[derive(Drop)]
pub struct SureTables {
    alloc: Global,
    round: Option<u64>,
    rows: RowSlots,
    creators: CreatorSlots,
    history: History,
    levels: Levels,
    stage: RowSlots,
}

impl SureTables {
    /// Tables without a round, which hold nothing.
    pub fn new(alloc: Global) -> SureTables
        ensures { tables_of result ≡ no_tables }
    {
        SureTables {
            alloc,
            round: None,
            rows: RowSlots::new(alloc),
            creators: CreatorSlots::new(alloc),
            history: Items::new(alloc),
            levels: Items::new(alloc),
            stage: RowSlots::new(alloc),
        }
    }

    // Makes the changes of a batch over the tables, or none.
    fn add(&mut self, b: &Batch) -> Result<(), AllocError>
        requires { IsBatch b.now }
        ensures ok { OnOk result (tables_of self.new ≡ added b.now (tables_of self.old)) }
        ensures err { OnErr result (tables_of self.new ≡ tables_of self.old) }
    {
        let rows = batch_rows(self.alloc, &b.rows)?;
        let creators = batch_creators(self.alloc, &b.creators)?;
        let history = more_versions(
            self.alloc,
            self.history.as_slice(),
            b.history.as_slice(),
            b.to,
        )?;
        let levels = more_levels(
            self.alloc,
            self.levels.as_slice(),
            b.levels.as_slice(),
            b.to,
        )?;
        self.rows.make_rooms(&rows)?;
        self.creators.make_rooms(&creators)?;
        self.rows.put_all(rows);
        self.creators.put_all(creators);
        self.rows.sweep(b.rows.as_slice());
        self.creators.sweep(b.creators.as_slice());
        self.history = history;
        self.levels = levels;
        self.round = Some(b.to);
        Ok(())
    }

    // Commits a batch, or changes nothing.
    fn take(&mut self, b: &Batch) -> Result<(), AllocError>
        requires { IsBatch b.now }
        ensures ok { OnOk result (tables_of self.new ≡ committed b.now (tables_of self.old)) }
        ensures err { OnErr result (tables_of self.new ≡ tables_of self.old) }
    {
        match b.from {
            Some(_) => self.add(b),
            None => {
                let mut fresh = SureTables::new(self.alloc);
                fresh.add(b)?;
                *self = fresh;
                Ok(())
            }
        }
    }

    // Adds rows to the stage, or changes nothing.
    fn put_stage(&mut self, rows: &Rows) -> Result<(), AllocError>
        requires { All (λ r. IsStored r.key r.stored) rows.now }
        ensures ok { OnOk result (tables_of self.new ≡ staged rows.now (tables_of self.old)) }
        ensures err { OnErr result (tables_of self.new ≡ tables_of self.old) }
    {
        let rows = staged_rows(self.alloc, rows)?;
        self.stage.make_rooms(&rows)?;
        self.stage.put_all(rows);
        Ok(())
    }

    // Makes the staged rows the tables', or changes nothing.
    fn take_stage(
        &mut self,
        round: u64,
        h: &History,
        l: &Levels,
        c: &CreatorChanges,
    ) -> Result<(), AllocError>
        ensures ok { OnOk result (tables_of self.new ≡ adopted round h.now l.now c.now (tables_of self.old)) }
        ensures err { OnErr result (tables_of self.new ≡ tables_of self.old) }
    {
        let changes = batch_creators(self.alloc, c)?;
        let history = Items::from_slice(self.alloc, h.as_slice())?;
        let levels = Items::from_slice(self.alloc, l.as_slice())?;
        let mut creators = CreatorSlots::new(self.alloc);
        creators.make_rooms(&changes)?;
        creators.put_all(changes);
        creators.sweep(c.as_slice());
        self.rows = mem::replace(&mut self.stage, RowSlots::new(self.alloc));
        self.creators = creators;
        self.history = history;
        self.levels = levels;
        self.round = Some(round);
        Ok(())
    }
}

impl MayFail for SureTables {
    ghost use Rattle.std.specs.Prelude.{false};

    ghost CAN_FAIL = { false };

    const CAN_FAIL: bool = false;
}

impl TableKeeper for SureTables {
    ghost use Rattle.std.specs.Prelude.{true, refl};
    ghost use Rattle.al_keeper.specs.Held.{tables_of};

    ghost tells = { true };

    ghost tables = { tables_of };

    ghost faults = { λ _. 0 };

    ghost sure = { λ k h. refl };

    fn round(&mut self) -> Result<Option<u64>, KeepFault> {
        Ok(self.round)
    }

    fn row(&mut self, key: &Key) -> Result<Option<Stored>, KeepFault> {
        match self.rows.row(self.alloc, key) {
            Ok(row) => Ok(row),
            Err(_) => Err(KeepFault::Memory),
        }
    }

    fn creator(&mut self, id: u64) -> Result<Option<Address>, KeepFault> {
        Ok(self.creators.creator(id))
    }

    fn rows_after(&mut self, after: Option<&Key>, max: u32) -> Result<Rows, KeepFault> {
        match self.rows.after(self.alloc, after, max) {
            Ok(rows) => Ok(rows),
            Err(_) => Err(KeepFault::Memory),
        }
    }

    fn history(&mut self) -> Result<(History, Levels), KeepFault> {
        let history = Items::from_slice(self.alloc, self.history.as_slice())?;
        let levels = Items::from_slice(self.alloc, self.levels.as_slice())?;
        Ok((history, levels))
    }

    fn commit(&mut self, b: &Batch) -> Result<(), KeepFault> {
        match self.take(b) {
            Ok(()) => Ok(()),
            Err(_) => Err(KeepFault::Memory),
        }
    }

    fn unstage(&mut self) -> Result<(), KeepFault> {
        self.stage = RowSlots::new(self.alloc);
        Ok(())
    }

    fn stage(&mut self, rows: &Rows) -> Result<(), KeepFault> {
        match self.put_stage(rows) {
            Ok(()) => Ok(()),
            Err(_) => Err(KeepFault::Memory),
        }
    }

    fn adopt(
        &mut self,
        round: u64,
        h: &History,
        l: &Levels,
        c: &CreatorChanges,
    ) -> Result<(), KeepFault> {
        match self.take_stage(round, h, l, c) {
            Ok(()) => Ok(()),
            Err(_) => Err(KeepFault::Memory),
        }
    }
}
