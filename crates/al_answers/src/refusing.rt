//! Refusals, each with the status of its name.
ghost use Rattle.std.specs.Prelude.{◌≡◌, Some};
ghost use Rattle.al_answers.specs.Answers.{error_status, memory_answer, nothing, refusal};

use crate::answer::{Answer, ErrorName, More};
use al_base::{Bytes, Hash};

impl ErrorName {
    /// The status of the refusals of this name.
    pub fn status(self) -> u64
        ensures { result ≡ error_status self }
    {
        match self {
            ErrorName::BadHead => 400,
            ErrorName::BadLength => 400,
            ErrorName::Coding => 501,
            ErrorName::TooLarge => 413,
            ErrorName::NoRoute => 404,
            ErrorName::Method => 405,
            ErrorName::BadAddress => 400,
            ErrorName::BadId => 400,
            ErrorName::BadBox => 400,
            ErrorName::BadQuery => 400,
            ErrorName::Truncated => 400,
            ErrorName::Malformed => 400,
            ErrorName::Trailing => 400,
            ErrorName::Field => 400,
            ErrorName::Range => 400,
            ErrorName::NoRow => 404,
            ErrorName::TooNew => 404,
            ErrorName::WrongRound => 409,
            ErrorName::Fork => 409,
            ErrorName::WrongPrev => 409,
            ErrorName::BelowFloor => 410,
            ErrorName::BelowLookback => 410,
            ErrorName::Broken => 422,
            ErrorName::Header => 422,
            ErrorName::PoolShort => 422,
            ErrorName::Expired => 422,
            ErrorName::KeeperFault => 503,
            ErrorName::BlockFault => 503,
            ErrorName::Memory => 507,
        }
    }
}

impl More {
    /// The front alone.
    pub fn at_front(front: u64) -> More
        ensures { result ≡ record nothing { front = Some front } }
    {
        More {
            front: Some(front),
            ..More::nothing()
        }
    }

    /// The place of a byte alone.
    pub fn at_byte(at: u64) -> More
        ensures { result ≡ record nothing { at = Some at } }
    {
        More {
            at: Some(at),
            ..More::nothing()
        }
    }

    /// The name of a field alone.
    pub fn named(name: Bytes) -> More
        ensures { result ≡ record nothing { name = Some name } }
    {
        More {
            name: Some(name),
            ..More::nothing()
        }
    }

    /// The front, and the hash of a block that is kept.
    pub fn kept(front: u64, hash: Hash) -> More
        ensures { result ≡ record nothing { front = Some front; kept = Some hash } }
    {
        More {
            front: Some(front),
            kept: Some(hash),
            ..More::nothing()
        }
    }
}

impl Answer {
    /// The refusal of a name, with what it shows.
    pub fn refused(error: ErrorName, more: More) -> Answer
        ensures { result ≡ refusal error more }
    {
        Answer::Refused {
            status: error.status(),
            error,
            more,
        }
    }

    /// There is no memory.
    pub fn memory() -> Answer
        ensures { result ≡ memory_answer }
    {
        Answer::refused(ErrorName::Memory, More::nothing())
    }
}
