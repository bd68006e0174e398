//! The bodies of records that have passed their checks.
ghost use Rattle.al_record.specs.Columns.{AllShown};
ghost use Rattle.al_bodies.specs.Bodies.{pay, keyreg, axfer, afrz};

use crate::{AssetMove, Freeze, KeyReg, Pay};
use al_base::Address;
use al_msgpack::Entry;
use al_record::{array, flag, number};

/// What stands in a record that has passed its checks.
pub fn pay_of(entries: &[Entry]) -> Pay
    ensures { AllShown pay result entries.now }
{
    Pay {
        receiver: Address(array(entries, "rcv")),
        amount: number(entries, "amt"),
        close: Address(array(entries, "close")),
    }
}

/// What stands in a record that has passed its checks.
pub fn keyreg_of(entries: &[Entry]) -> KeyReg
    ensures { AllShown keyreg result entries.now }
{
    KeyReg {
        vote: array(entries, "votekey"),
        selection: array(entries, "selkey"),
        sprf: array(entries, "sprfkey"),
        first: number(entries, "votefst"),
        last: number(entries, "votelst"),
        dilution: number(entries, "votekd"),
        nonpart: flag(entries, "nonpart"),
    }
}

/// What stands in a record that has passed its checks.
pub fn move_of(entries: &[Entry]) -> AssetMove
    ensures { AllShown axfer result entries.now }
{
    AssetMove {
        asset: number(entries, "xaid"),
        amount: number(entries, "aamt"),
        source: Address(array(entries, "asnd")),
        receiver: Address(array(entries, "arcv")),
        close: Address(array(entries, "aclose")),
    }
}

/// What stands in a record that has passed its checks.
pub fn freeze_of(entries: &[Entry]) -> Freeze
    ensures { AllShown afrz result entries.now }
{
    Freeze {
        account: Address(array(entries, "fadd")),
        asset: number(entries, "faid"),
        frozen: flag(entries, "afrz"),
    }
}
