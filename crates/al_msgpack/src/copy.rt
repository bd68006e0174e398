//! Copies of values.
ghost use Rattle.std.specs.Prelude.{◌≡◌, IfOk};

use crate::val::{Entries, Entry, Val, Vals};
use std::alloc::{AllocError, Global};

impl Val {
    /// An equal value.
    #[cycle(copy)]
    pub fn copy(&self, alloc: Global) -> Result<Val, AllocError>
        ensures { IfOk result (λ v. v ≡ self.now) }
    {
        match self {
            Val::Num(n) => Ok(Val::Num(*n)),
            Val::Flag(b) => Ok(Val::Flag(*b)),
            Val::Str(s) => Ok(Val::Str(s.copy(alloc)?)),
            Val::Bin(s) => Ok(Val::Bin(s.copy(alloc)?)),
            Val::List(items) => Ok(Val::List(copy_all(alloc, items.as_slice())?)),
            Val::Map(entries) => Ok(Val::Map(copy_entries(alloc, entries.as_slice())?)),
        }
    }
}

#[cycle(copy)]
fn copy_all(alloc: Global, items: &[Val]) -> Result<Vals, AllocError>
    ensures { IfOk result (λ r. r ≡ items.now) }
{
    let mut out = Vals::new(alloc);
    for v in items {
        out.push(v.copy(alloc)?)?;
    }
    Ok(out)
}

#[cycle(copy)]
fn copy_entries(alloc: Global, entries: &[Entry]) -> Result<Entries, AllocError>
    ensures { IfOk result (λ r. r ≡ entries.now) }
{
    let mut out = Entries::new(alloc);
    for e in entries {
        let key = e.key.copy(alloc)?;
        let val = e.val.copy(alloc)?;
        out.push(Entry { key, val })?;
    }
    Ok(out)
}

impl Entry {
    /// An equal entry.
    pub fn copy(&self, alloc: Global) -> Result<Entry, AllocError>
        ensures { IfOk result (λ e. e ≡ self.now) }
    {
        let key = self.key.copy(alloc)?;
        let val = self.val.copy(alloc)?;
        Ok(Entry { key, val })
    }
}
