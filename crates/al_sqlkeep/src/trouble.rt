//! Why a step over a database fails, and what it counts as.
ghost use Rattle.std.specs.Prelude.{◌≡◌, ◌≤◌};
ghost use Rattle.al_base.specs.Causes.{Rose};
ghost use Rattle.al_keeper.specs.Causes.{WhereFailed};

use al_keeper::KeepFault;
use al_msgpack::DecodeFault;
use al_record::ReadError;
use al_row_records::RowFault;
use sqlite::{Error, ErrorCode};
use std::alloc::{AllocError, AllocFailed};

/// Why a step fails that is not counted yet.
#[derive(Clone, Copy, Debug, PartialEq, Eq)]
pub(crate) enum Trouble {
    /// The database failed, or gave what may not stand in it.
    Failed,
    /// There is no memory.
    Memory,
}

impl From<Error> for Trouble {
    fn from(error: Error) -> Trouble {
        match error {
            Error::SqliteFailure(ErrorCode::OutOfMemory) => Trouble::Memory,
            _ => Trouble::Failed,
        }
    }
}

impl From<DecodeFault> for Trouble {
    fn from(fault: DecodeFault) -> Trouble {
        match fault {
            DecodeFault::Memory => Trouble::Memory,
            _ => Trouble::Failed,
        }
    }
}

impl From<ReadError> for Trouble {
    fn from(error: ReadError) -> Trouble {
        match error {
            ReadError::Memory => Trouble::Memory,
            ReadError::Fault(_) => Trouble::Failed,
        }
    }
}

impl From<RowFault> for Trouble {
    fn from(fault: RowFault) -> Trouble {
        match fault {
            RowFault::Memory => Trouble::Memory,
            _ => Trouble::Failed,
        }
    }
}

impl From<AllocError> for Trouble {
    fn from(_: AllocError) -> Trouble {
        Trouble::Memory
    }
}

impl<T: Drop> From<AllocFailed<T>> for Trouble {
    fn from(_: AllocFailed<T>) -> Trouble {
        Trouble::Memory
    }
}

/// Counts a failure.
pub(crate) fn fault_of(trouble: Trouble, faults: &mut u64) -> KeepFault
    ensures later { faults.old ≤ faults.new }
    ensures cause { WhereFailed result (Rose faults.old faults.new) }
{
    match trouble {
        Trouble::Memory => KeepFault::Memory,
        Trouble::Failed => {
            *faults = faults.saturating_add(1);
            KeepFault::Failed
        }
    }
}
