//! What a call of an application did, as it stands beside the call.
use crate::{AssetMove, Pay};
use al_base::{Address, BoxName, Bytes};
use sqlite_items::Items;

/// A transaction of the application's own account.
#[derive(Clone, Copy, Debug, PartialEq, Eq)]
pub enum Inner {
    Pay(Pay),
    Move(AssetMove),
}

/// One effect of a call, in the order of their numbers from 1 to 9.
#[derive(Debug, Drop)]
pub enum Effect {
    /// Creates an application.
    Create {
        global_uints: u64,
        global_slices: u64,
        local_uints: u64,
        local_slices: u64,
        extra_pages: u64,
        state: Bytes,
    },
    /// Sets the global state.
    SetState {
        state: Bytes,
    },
    /// Removes the application.
    Remove,
    /// The sender opts in.
    OptIn {
        state: Bytes,
    },
    /// Sets the local state of an account.
    SetLocal {
        who: Address,
        state: Bytes,
    },
    /// The sender opts out.
    OptOut,
    /// Puts a box.
    PutBox {
        name: BoxName,
        value: Bytes,
    },
    /// Removes a box.
    RemoveBox {
        name: BoxName,
    },
    /// A transaction of the application's own account.
    Inner(Inner),
}

/// A list of effects.
pub type Effects = Items<Effect>;
