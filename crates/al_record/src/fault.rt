//! Why a value is no record.
ghost use Rattle.std.specs.Prelude.{◌≡◌};
ghost use Rattle.al_record.specs.declared.fault.ReadError.TheVariants.{Memory};

use al_base::Bytes;
use std::alloc::{AllocError, AllocFailed};

/// The first fault of a record, with the name of the field. The name is that of the inner field
/// where an inner record is at fault, and empty where a map was to stand and does not.
#[derive(Debug, Drop)]
pub enum Fault {
    /// A field that is unknown, of the wrong family, or present with its zero value.
    Field { name: Bytes },
    /// A field outside its range.
    Range { name: Bytes },
}

/// Why a record is not read.
#[derive(Debug, Drop)]
pub enum ReadError {
    /// The entries are no record of this kind.
    Fault(Fault),
    /// The value does not fit into memory.
    Memory,
}

impl From<AllocError> for ReadError {
    ghost from_gives = { λ _ e. e ≡ Memory };

    fn from(_e: AllocError) -> ReadError {
        ReadError::Memory
    }
}

impl<T: Drop> From<AllocFailed<T>> for ReadError {
    ghost from_gives = { λ _ e. e ≡ Memory };

    fn from(_e: AllocFailed<T>) -> ReadError {
        ReadError::Memory
    }
}
