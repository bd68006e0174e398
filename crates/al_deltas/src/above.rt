//! The first rows above a key.
ghost use Rattle.std.specs.Prelude.{◌≡◌, IfOk, map, take};
ghost use Rattle.std.specs.Option.{option_copied};
ghost use Rattle.std.specs.BTreeMap.Range.{entries_between};
ghost use Rattle.std.specs.declared.ops.Bound.TheVariants.{Unbounded};
ghost use Rattle.al_base.specs.Keys.{key_cmp};
ghost use Rattle.al_rows.specs.Above.{bound_of, keyed_of};

use al_base::Key;
use al_rows::{Keyed, Rows, Stored};
use sqlite_items::Items;
use std::alloc::{AllocError, Global};
use std::collections::BTreeMap;
use std::ops::Bound;

// A row under its key.
fn keyed(alloc: Global, key: &Key, stored: &Stored) -> Result<Keyed, AllocError>
    ensures { IfOk result (λ k. k ≡ keyed_of (key.now, stored.now)) }
{
    Ok(Keyed {
        key: *key,
        stored: stored.copy(alloc)?,
    })
}

// From above a key on, or from the first.
pub(crate) fn bound_of(after: Option<&Key>) -> Bound<Key>
    ensures { result ≡ bound_of (option_copied after.entry) }
{
    match after {
        Some(key) => Bound::Excluded(*key),
        None => Bound::Unbounded,
    }
}

// Copies of the first rows from a bound on.
pub(crate) fn first_from(
    alloc: Global,
    rows: &BTreeMap<Key, Stored>,
    from: Bound<Key>,
    max: u32,
) -> Result<Rows, AllocError>
    ensures { IfOk result (λ out. out ≡ map keyed_of (take max (entries_between key_cmp from Unbounded rows.now.entries))) }
{
    let mut out = Items::new(alloc);
    for (key, stored) in rows.range((from, Bound::Unbounded)) {
        if max as usize <= out.len() {
            return Ok(out);
        }
        out.push(keyed(alloc, key, stored)?)?;
    }
    Ok(out)
}
