//! Why bytes are no spelling.
ghost use Rattle.std.specs.Prelude.{◌≡◌};
ghost use Rattle.al_msgpack.specs.declared.fault.ReadError.TheVariants as errors;

use std::alloc::AllocError;
use thiserror::Error;

/// The first fault from left to right.
#[derive(Clone, Copy, Debug, PartialEq, Eq)]
pub enum Fault {
    /// The bytes end inside a spelling.
    Short,
    /// No spelling goes on so: how many bytes are left, the faulty one among them.
    Bad(usize),
}

/// A fault, or want of memory for a value that is read.
#[derive(Clone, Copy, Debug, PartialEq, Eq)]
pub enum ReadError {
    Fault(Fault),
    Memory,
}

impl From<AllocError> for ReadError {
    ghost from_gives = { λ _ e. e ≡ errors.Memory };

    fn from(_: AllocError) -> Self {
        ReadError::Memory
    }
}

impl From<Fault> for ReadError {
    ghost from_gives = { λ f e. e ≡ errors.Fault f };

    fn from(fault: Fault) -> Self {
        ReadError::Fault(fault)
    }
}

/// Why an input is not the spelling of a value. Places count bytes from the input's first, 0.
#[derive(Clone, Copy, Debug, PartialEq, Eq, Error)]
pub enum DecodeFault {
    /// The input ends inside a spelling; the place is its length.
    #[error("the input ends inside a value, after {at} bytes")]
    Truncated { at: usize },
    /// No spelling begins with the bytes up to and with this place.
    #[error("the byte at {at} begins or continues no value")]
    Malformed { at: usize },
    /// A whole spelling of this many bytes stands in front, and more bytes follow.
    #[error("bytes follow the value that ends at {at}")]
    Trailing { at: usize },
    /// The value does not fit into memory.
    #[error("out of memory")]
    Memory,
}
