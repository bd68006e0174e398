//! Which calls of an object in memory fail.
ghost use Rattle.std.specs.Prelude.{◌≡◌, ◌≤◌, ◌↔◌, IfOk, IsErr, Contains, is_err};
ghost use Rattle.al_base.specs.Causes.{HasCause, Rose};
ghost use Rattle.al_base.specs.Plans.{counted, planned, called};

use crate::Failed;
use sqlite_items::Items;
use std::alloc::{AllocError, Global};

/// The numbers of the calls that fail, counted from 1, and counts of calls and of faults, which
/// stand still at a u64's greatest value.
#[derive(Debug, Drop)]
pub struct Plan {
    fails: Items<u64>,
    calls: u64,
    faults: u64,
}

impl Plan {
    /// No call yet. The calls of these numbers, counted from 1, will fail.
    ///
    /// # Errors
    ///
    /// Only where memory is short.
    pub fn new(alloc: Global, fails: &[u64]) -> Result<Plan, AllocError>
        ensures { IfOk result (λ plan. plan ≡ planned fails.now) }
    {
        Ok(Plan {
            fails: Items::from_slice(alloc, fails)?,
            calls: 0,
            faults: 0,
        })
    }

    /// Counts a call.
    ///
    /// # Errors
    ///
    /// `Failed` exactly where its number is in the list; the fault is counted.
    pub fn call(&mut self) -> Result<(), Failed>
        ensures plan { self.new ≡ called (is_err result) self.old }
        ensures fails { IsErr result ↔ Contains self.old.fails (counted self.old.calls) }
        ensures cause { HasCause self.old.faults self.new.faults result }
    {
        self.calls = self.calls.saturating_add(1);
        if self.fails.as_slice().contains(&self.calls) {
            return Err(self.fault());
        }
        Ok(())
    }

    /// Counts a fault.
    pub fn fault(&mut self) -> Failed
        ensures plan { self.new ≡ record self.old { faults = counted self.old.faults } }
        ensures later { self.old.faults ≤ self.new.faults }
        ensures risen { Rose self.old.faults self.new.faults }
    {
        self.faults = self.faults.saturating_add(1);
        Failed
    }
}
