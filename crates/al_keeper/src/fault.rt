//! Why a keeper gives no answer.
use std::alloc::AllocError;

/// Why a keeper gives no answer.
#[derive(Clone, Copy, Debug, PartialEq, Eq)]
pub enum KeepFault {
    /// What it keeps in has failed, and it counted that.
    Failed,
    /// There is no memory.
    Memory,
}

impl From<AllocError> for KeepFault {
    ghost use Rattle.std.specs.Prelude.{◌≡◌};
    ghost use Rattle.al_keeper.specs.declared.fault.KeepFault.TheVariants.{Memory};

    ghost from_gives = { λ _ e. e ≡ Memory };

    fn from(_: AllocError) -> KeepFault {
        KeepFault::Memory
    }
}

/// Whether calls may fail for another cause than want of memory.
pub trait MayFail {
    ghost use Rattle.std.specs.Prelude.{Bool};

    ghost CAN_FAIL: { Bool };

    const CAN_FAIL: bool;
}
