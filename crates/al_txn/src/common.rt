//! The fields that transactions of all types share.
ghost use Rattle.std.specs.Prelude.{◌≡◌, IfOk};
ghost use Rattle.al_record.specs.Columns.{AllShown};
ghost use Rattle.al_txn.specs.Txn.{common};

use crate::{Body, Txn};
use al_base::Address;
use al_msgpack::Entry;
use al_record::{array, bytes, number, text};
use std::alloc::{AllocError, Global};

/// The transaction with this body whose record has passed its checks.
pub fn common(alloc: Global, entries: &[Entry], body: Body) -> Result<Txn, AllocError>
    ensures body { IfOk result (λ t. t.body ≡ body) }
    ensures fields { IfOk result (λ t. AllShown common t entries.now) }
{
    Ok(Txn {
        sender: Address(array(entries, "snd")),
        fee: number(entries, "fee"),
        first: number(entries, "fv"),
        last: number(entries, "lv"),
        genesis_id: text(alloc, entries, "gen")?,
        genesis_hash: array(entries, "gh"),
        note: bytes(alloc, entries, "note")?,
        lease: array(entries, "lx"),
        rekey: Address(array(entries, "rekey")),
        group: array(entries, "grp"),
        body,
    })
}
