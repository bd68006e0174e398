//! Why a genesis file opens no ledger.
ghost use Rattle.std.specs.Prelude.{◌≡◌};
ghost use Rattle.al_states.specs.Opening.{fault_of};

use al_eval::GenesisFault;

/// Why a genesis file opens no ledger.
#[derive(Clone, Copy, Debug, PartialEq, Eq)]
pub enum OpenFault {
    /// It holds no genesis, and this is the number of its first fault.
    Genesis { number: u8 },
    /// There was no memory.
    Memory,
}

// What a fault of the reader is shown as.
pub(crate) fn fault_of(fault: &GenesisFault) -> OpenFault
    ensures { result ≡ fault_of fault.now }
{
    match fault {
        GenesisFault::Memory => OpenFault::Memory,
        _ => OpenFault::Genesis {
            number: fault.number(),
        },
    }
}
