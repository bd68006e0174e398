//! The record of a transaction.
ghost use Rattle.std.specs.Prelude.{◌≡◌, ◌++◌, IsTrue, OnErr, OnOk};
ghost use Rattle.al_msgpack.specs.declared.val.Val.TheVariants as values;
ghost use Rattle.al_msgpack.specs.Spelled.{IsFront, spelled};
ghost use Rattle.al_record.specs.Columns.{Reads};
ghost use Rattle.al_record.specs.Canonical.{are_canonical};
ghost use Rattle.al_txn.specs.Txn.{txn, with_group};

use crate::call::{read_call, write_call};
use crate::configuration::{read_config, write_config};
use crate::freezing::{read_freeze, write_freeze};
use crate::payment::{read_pay, write_pay};
use crate::registration::{read_keyreg, write_keyreg};
use crate::transfer::{read_move, write_move};
use crate::{Body, Txn};
use al_base::Hash;
use al_msgpack::Entry;
use al_record::{InnerRecord, ReadError, Record, range, text_kind};
use std::alloc::{AllocError, Global};

/// The transaction of a record, or the first fault.
pub fn read_txn(alloc: Global, entries: &[Entry]) -> Result<Txn, ReadError>
    requires { IsTrue (are_canonical entries.now) }
    ensures { Reads txn entries.now result }
{
    let kind = text_kind(alloc, entries, "type")?;
    if kind == b"pay".as_slice() {
        return read_pay(alloc, entries);
    }
    if kind == b"keyreg".as_slice() {
        return read_keyreg(alloc, entries);
    }
    if kind == b"acfg".as_slice() {
        return read_config(alloc, entries);
    }
    if kind == b"axfer".as_slice() {
        return read_move(alloc, entries);
    }
    if kind == b"afrz".as_slice() {
        return read_freeze(alloc, entries);
    }
    if kind == b"appl".as_slice() {
        return read_call(alloc, entries);
    }
    Err(range(alloc, "type"))
}

impl Record for Txn {
    ghost use Rattle.al_txn.specs.Txn.{txn};

    ghost format = { txn };

    fn read(alloc: Global, entries: &[Entry]) -> Result<Txn, ReadError> {
        read_txn(alloc, entries)
    }

    fn write(&self, out: &mut Vec<u8>) -> Result<(), AllocError> {
        write_in_group(self, &self.group, out)
    }
}

impl InnerRecord for Txn {
    fn is_empty(&self) -> bool {
        false
    }
}

/// Appends the record of a transaction, with this group in place of its own.
pub fn write_in_group<'a>(t: &'a Txn, group: &'a Hash, out: &mut Vec<u8>) -> Result<(), AllocError>
    ensures bytes { OnOk result (out.new.items ≡ out.old.items ++ spelled (values.Map (txn.write (with_group group.now t.now)))) }
    ensures front { OnErr result (IsFront out.old.items out.new.items) }
{
    match &t.body {
        Body::Pay(p) => write_pay(t, group, p, out),
        Body::KeyReg(k) => write_keyreg(t, group, k, out),
        Body::Config(c) => write_config(t, group, c, out),
        Body::Move(m) => write_move(t, group, m, out),
        Body::Freeze(f) => write_freeze(t, group, f, out),
        Body::App(a) => write_call(t, group, a, out),
    }
}
