//! An index of the creators of assets and applications, beside rows that change.
ghost use Rattle.std.specs.Prelude.{◌≡◌, ℕ, Some, None, true, cond, nat_eq, is_none, IfOk, IfSome, OnOk};
ghost use Rattle.std.specs.BTreeMap as tree;
ghost use Rattle.std.specs.Option.{option_or};
ghost use Rattle.std.specs.Ordering.{nat_cmp};
ghost use Rattle.al_rows.specs.Rows.{creator_at};
ghost use Rattle.al_deltas.specs.Index.{DifferAt, IsIndex};

use al_base::{Address, Key};
use al_rows::{Row, Stored};
use std::alloc::{AllocError, Global};
use std::collections::BTreeMap;

/// Addresses under the ids of what they created.
pub(crate) type Creators = BTreeMap<u64, Address>;

// Notes a creator under an id: whether none was noted there.
fn note(creators: &mut Creators, id: u64, who: Address) -> Result<bool, AllocError>
    ensures first { IfOk result (λ first. first ≡ is_none (tree.get nat_cmp creators.old id)) }
    ensures noted { OnOk result ((q : ℕ) → tree.get nat_cmp creators.new q ≡ cond (nat_eq id q) (Some who) (tree.get nat_cmp creators.old q)) }
{
    match creators.insert(id, who) {
        Ok(before) => Ok(before.is_none()),
        Err(_) => Err(AllocError),
    }
}

// Takes what is noted under an id away.
fn forget(creators: &mut Creators, id: u64)
    ensures { (q : ℕ) → tree.get nat_cmp creators.new q ≡ cond (nat_eq id q) None (tree.get nat_cmp creators.old q) }
{
    creators.remove(&id);
}

// Keeps an index up with a change under a key, of which is told whether the row there had params and
// has them: whether it is an index still.
fn keep_up(creators: &mut Creators, key: &Key, had: bool, has: bool) -> bool
    ensures { (old new : tree.BTreeMap Key Stored) → IsIndex old creators.old → DifferAt key.now had has old new → result ≡ true → IsIndex new creators.new }
{
    let Key::Resource(who, id) = key else {
        return true;
    };
    if had == has {
        return true;
    }
    if has {
        return note(creators, *id, *who).unwrap_or(false);
    }
    forget(creators, *id);
    true
}

/// Keeps an index up with a change under a key, of which is told whether the row there had params and
/// has them. It is given up where an id gets a second creator, and for want of memory.
pub(crate) fn follow(creators: &mut Option<Creators>, key: &Key, had: bool, has: bool)
    ensures { (old new : tree.BTreeMap Key Stored) → IfSome creators.old (IsIndex old) → DifferAt key.now had has old new → IfSome creators.new (IsIndex new) }
{
    if let Some(noted) = creators {
        if !keep_up(noted, key, had, has) {
            *creators = None;
        }
    }
}

// Notes the creator that a row shows: whether none was noted under its id.
fn note_row(creators: &mut Creators, key: &Key, row: &Row) -> Result<bool, AllocError>
    ensures first { IfOk result (λ first. first ≡ true → (id : ℕ) (who : Address) → creator_at id key.now row.now ≡ Some who → tree.get nat_cmp creators.old id ≡ None) }
    ensures noted { OnOk result ((q : ℕ) → tree.get nat_cmp creators.new q ≡ option_or (creator_at q key.now row.now) (tree.get nat_cmp creators.old q)) }
{
    match key {
        Key::Resource(who, id) => {
            if row.has_params() {
                note(creators, *id, *who)
            } else {
                Ok(true)
            }
        }
        Key::Account(_) | Key::Box(_, _) => Ok(true),
    }
}

/// An index of the creators among rows, none where an id has two of them.
pub(crate) fn index_of(
    alloc: Global,
    rows: &BTreeMap<Key, Stored>,
) -> Result<Option<Creators>, AllocError>
    ensures { IfOk result (λ creators. IfSome creators (IsIndex rows.now)) }
{
    let mut creators = BTreeMap::new(alloc);
    for (key, stored) in rows {
        if !note_row(&mut creators, key, &stored.row)? {
            return Ok(None);
        }
    }
    Ok(Some(creators))
}
