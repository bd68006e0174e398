//! The calls of a keeper in memory, some of which fail.
ghost use Rattle.std.specs.Prelude.{◌≡◌, ◌↔◌, true, false, IfOk, IsErr, Contains, Ok};
ghost use Rattle.al_base.specs.Plans.{counted};
ghost use Rattle.al_keeper.specs.Causes.{HasFault};
ghost use Rattle.al_keeper.specs.Calls.{calls_to, mended};

use crate::KeepFault;
use al_base::Plan;
use std::alloc::{AllocError, Global};

/// Which calls fail, until they are mended.
#[derive(Debug, Drop)]
pub(crate) struct Calls {
    plan: Plan,
    mended: bool,
}

impl Calls {
    /// No call yet. The calls of these numbers, counted from 1, will fail.
    pub(crate) fn new(alloc: Global, fails: &[u64]) -> Result<Calls, AllocError>
        ensures { IfOk result (λ calls. calls ≡ calls_to fails.now) }
    {
        Ok(Calls {
            plan: Plan::new(alloc, fails)?,
            mended: false,
        })
    }

    /// Counts a call, which fails exactly where its number is planned. Once mended, no call fails or
    /// is counted.
    pub(crate) fn call(&mut self) -> Result<(), KeepFault>
        ensures cause { HasFault self.old.plan.faults self.new.plan.faults result }
        ensures fails { self.old.mended ≡ false → IsErr result ↔ Contains self.old.plan.fails (counted self.old.plan.calls) }
        ensures mended { self.old.mended ≡ true → (result ≡ Ok tt) × (self.new ≡ self.old) }
    {
        if self.mended {
            return Ok(());
        }
        match self.plan.call() {
            Ok(()) => Ok(()),
            Err(_) => Err(KeepFault::Failed),
        }
    }

    /// The same counts, and no call fails any more.
    pub(crate) fn mend(self) -> Calls
        ensures { result ≡ mended self }
    {
        Calls {
            plan: self.plan,
            mended: true,
        }
    }
}
