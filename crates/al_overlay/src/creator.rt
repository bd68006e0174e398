//! Who created what among the rows that a work holds.
ghost use Rattle.std.specs.Prelude.{◌≡◌, ℕ, List, ◌≤◌, Option, Some, Bool, true, false, OnOk, cond, nat_eq, IfOk, IfSome, IsSome};
ghost use Rattle.std.specs.BTreeMap as tree;
ghost use Rattle.std.specs.BTreeMap.{IsOrdered};
ghost use Rattle.std.specs.Ordering.{nat_cmp};
ghost use Rattle.std.specs.Option.{option_map};
ghost use Rattle.al_base.specs.Keys.{key_cmp};
ghost use Rattle.al_rows.specs.Finite.{first_some};
ghost use Rattle.al_overlay.specs.Creators.{AreNoted, AreOthers, HasRoom, IsFirst, IsLeast, IsWith, IsWithout, resource_of, creates, creator_noted, lesser, shown, shows, unchanged};
ghost use Rattle.al_rows.specs.Finite.{overlaid, set_at};
ghost use Rattle.al_rows.specs.Rows.{IsKept, creator_of};
ghost use Rattle.al_overlay.specs.Held.{IsWork, now_at, nows};
ghost use Rattle.al_overlay.specs.Work.{IsCounted, IsNoRule};

use crate::Stop;
use crate::held::{Held, is_held, set_row};
use al_base::{Address, Key};
use al_rows::{Row, RowView, ViewFault};
use std::alloc::{AllocError, Global};
use std::cmp::Ordering;
use std::collections::BTreeMap;

/// The creator of an id among the rows that are held: the least address whose row has its params.
#[derive(Clone, Copy)]
pub struct First {
    /// The address.
    pub who: Address,
    /// Whether it is known that no other of these rows has params.
    pub alone: bool,
}

/// What is known of the creator of each id of which a row is held.
pub type Creators = BTreeMap<u64, Option<First>>;

// The creator that a row under a key shows.
fn shown(id: u64, key: &Key, row: &Option<Row>) -> Option<Address>
    ensures { result ≡ shown id key.now row.now }
{
    let Some(row) = row else {
        return None;
    };
    match key {
        Key::Resource(who, i) => {
            if *i == id && row.has_params() {
                Some(*who)
            } else {
                None
            }
        }
        Key::Account(_) | Key::Box(_, _) => None,
    }
}

// The first creator that a row shows that is held.
fn first_shown(id: u64, rows: &BTreeMap<Key, Held>) -> Option<Address>
    ensures first { result ≡ first_some (λ e. shown id e.0 e.1) (nows rows.now.entries) }
    ensures ordered { IsOrdered key_cmp rows.now }
{
    for (key, there) in rows {
        if let Some(who) = shown(id, key, &there.row) {
            return Some(who);
        }
    }
    None
}

// The least creator that a row shows that is held.
fn least_shown(id: u64, rows: &BTreeMap<Key, Held>) -> Option<Address>
    ensures { IsLeast (shows rows.now.entries id) result }
{
    first_shown(id, rows)
}

// Whether the row that is held under a key has params.
fn creates_held(rows: &BTreeMap<Key, Held>, key: &Key) -> bool
    ensures { result ≡ creates (now_at (nows rows.now.entries) key.now) }
{
    match rows.get(key) {
        Some(held) => creates(&held.row),
        None => false,
    }
}

// Whether a row that may be there has params.
fn creates(row: &Option<Row>) -> bool
    ensures { result ≡ creates row.now }
{
    match row {
        Some(row) => row.has_params(),
        None => false,
    }
}

// What is noted where the row of an address has params now.
fn with_creator(noted: Option<First>, who: &Address) -> Option<First>
    ensures { (p q : Address → Bool) → IsFirst p noted → IsWith p q who.now → IsFirst q result }
{
    let Some(first) = noted else {
        return Some(First {
            who: *who,
            alone: true,
        });
    };
    match who.cmp(&first.who) {
        Ordering::Less => Some(First {
            who: *who,
            alone: false,
        }),
        Ordering::Equal => Some(first),
        Ordering::Greater => Some(First {
            who: first.who,
            alone: false,
        }),
    }
}

// What is noted where the row of an address has no params now.
fn without_creator(
    noted: Option<First>,
    who: &Address,
    id: u64,
    rows: &BTreeMap<Key, Held>,
) -> Option<First>
    ensures { (p : Address → Bool) → IsFirst p noted → IsWithout p (shows rows.now.entries id) who.now → IsFirst (shows rows.now.entries id) result }
{
    let Some(first) = noted else {
        return None;
    };
    match who.cmp(&first.who) {
        Ordering::Less => Some(first),
        Ordering::Equal => without_first(first, id, rows),
        Ordering::Greater => Some(first),
    }
}

// The same where the row of the first has none. Only where two addresses had params of the id at
// once are the rows gone through.
fn without_first(first: First, id: u64, rows: &BTreeMap<Key, Held>) -> Option<First>
    ensures { (p : Address → Bool) → IsFirst p (Some first) → IsWithout p (shows rows.now.entries id) first.who → IsFirst (shows rows.now.entries id) result }
{
    if first.alone {
        return None;
    }
    match least_shown(id, rows) {
        Some(who) => Some(First { who, alone: false }),
        None => None,
    }
}

// Puts what is noted of an id in place of what was.
fn replace(creators: &mut Creators, id: u64, now: Option<First>)
    ensures { (q : ℕ) → tree.get nat_cmp creators.new q ≡ cond (nat_eq id q) (option_map (λ _. now) (tree.get nat_cmp creators.old id)) (tree.get nat_cmp creators.old q) }
{
    match creators.get_mut(&id) {
        Some(noted) => *noted = now,
        None => {}
    }
}

// Makes room for what will be noted of the id of a key.
fn make_room(creators: &mut Creators, key: &Key) -> Result<(), AllocError>
    ensures noted { (es : List (Key × Held)) → AreNoted es creators.old → AreNoted es creators.new }
    ensures room { OnOk result (HasRoom key.now creators.new) }
{
    match key {
        Key::Account(_) | Key::Box(_, _) => Ok(()),
        Key::Resource(_, id) => note_id(creators, *id),
    }
}

// Notes that no row of an id has params, unless something is noted.
fn note_id(creators: &mut Creators, id: u64) -> Result<(), AllocError>
    ensures noted { (es : List (Key × Held)) → AreNoted es creators.old → AreNoted es creators.new }
    ensures room { OnOk result (IsSome (tree.get nat_cmp creators.new id)) }
{
    if creators.contains_key(&id) {
        return Ok(());
    }
    match creators.insert(id, None) {
        Ok(_) => Ok(()),
        Err(_) => Err(AllocError),
    }
}

// Notes the row that is held under a key, where no other row has changed.
fn note(creators: &mut Creators, rows: &BTreeMap<Key, Held>, key: &Key)
    ensures { (es : List (Key × Held)) → AreNoted es creators.old → HasRoom key.now creators.old → AreOthers key.now es rows.now.entries → AreNoted rows.now.entries creators.new }
{
    if let Some(resource) = resource_of(key) {
        note_row(creators, rows, &resource.0, resource.1);
    }
}

// The address and the id of a resource's key.
fn resource_of(key: &Key) -> Option<(Address, u64)>
    ensures { result ≡ resource_of key.now }
{
    match key {
        Key::Resource(who, id) => Some((*who, *id)),
        Key::Account(_) | Key::Box(_, _) => None,
    }
}

// Notes the resource row of an address and an id.
fn note_row(creators: &mut Creators, rows: &BTreeMap<Key, Held>, who: &Address, id: u64)
    ensures { (es : List (Key × Held)) → AreNoted es creators.old → IsSome (tree.get nat_cmp creators.old id) → AreOthers (Key.Resource who.now id) es rows.now.entries → AreNoted rows.now.entries creators.new }
{
    let Some(noted) = creators.get(&id).copied() else {
        return;
    };
    let now = noted_now(noted, rows, who, id);
    replace(creators, id, now);
}

// What is noted of an id where no row has changed but that of an address.
fn noted_now(
    noted: Option<First>,
    rows: &BTreeMap<Key, Held>,
    who: &Address,
    id: u64,
) -> Option<First>
    ensures { (p : Address → Bool) → IsFirst p noted → ((a : Address) → (a ≡ who.now → ⊥) → shows rows.now.entries id a ≡ p a) → IsFirst (shows rows.now.entries id) result }
{
    if creates_held(rows, &Key::Resource(*who, id)) {
        with_creator(noted, who)
    } else {
        without_creator(noted, who, id, rows)
    }
}

/// Sets the row of a key, holds what the view has there, and notes who its creator is.
pub fn set_noted<V: RowView>(
    alloc: Global,
    view: &mut V,
    rows: &mut BTreeMap<Key, Held>,
    started: &mut Vec<(Key, Option<Row>)>,
    creators: &mut Creators,
    key: &Key,
    row: Option<Row>,
) -> Result<(), Stop<V::Fault>>
    requires { IfSome row (IsKept key.now) }
    ensures same { V.tells ≡ true → V.rows view.new ≡ V.rows view.old }
    ensures lender { V.lender view.new ≡ V.lender view.old }
    ensures later { V.failures view.old ≤ V.failures view.new }
    ensures cause { IsCounted result (V.failures view.old) (V.failures view.new) }
    ensures no_rule { IsNoRule result }
    ensures work { IsWork V.tells (V.rows view.old) rows.old.entries started.old.items → IsWork V.tells (V.rows view.new) rows.new.entries started.new.items }
    ensures now { V.tells ≡ true → OnOk result (overlaid (nows rows.new.entries) (V.rows view.new) ≡ set_at (overlaid (nows rows.old.entries) (V.rows view.old)) key.now row) }
    ensures start { V.tells ≡ true → IsWork V.tells (V.rows view.old) rows.old.entries started.old.items → OnOk result (overlaid started.new.items (overlaid (nows rows.new.entries) (V.rows view.new)) ≡ overlaid started.old.items (overlaid (nows rows.old.entries) (V.rows view.old))) }
    ensures noted { AreNoted rows.old.entries creators.old → AreNoted rows.new.entries creators.new }
{
    make_room(creators, key)?;
    let done = set_row(alloc, view, rows, started, key, row);
    note(creators, rows, key);
    done
}

// The view's creator, unless its row is held.
fn unchanged(id: u64, viewed: Option<Address>, rows: &BTreeMap<Key, Held>) -> Option<Address>
    ensures { result ≡ unchanged id viewed (nows rows.now.entries) }
{
    match viewed {
        None => None,
        Some(who) => {
            if is_held(rows, &Key::Resource(who, id)) {
                None
            } else {
                Some(who)
            }
        }
    }
}

// The lesser of two addresses that may be there.
fn lesser(held: Option<Address>, noted: Option<First>) -> Option<Address>
    ensures { result ≡ lesser held noted }
{
    let Some(first) = noted else {
        return held;
    };
    match held {
        Some(who) if who.cmp(&first.who).is_lt() => Some(who),
        _ => Some(first.who),
    }
}

/// The creator of an asset or an application, from that of the view and what is noted of the id.
pub fn creator_over(
    id: u64,
    viewed: Option<Address>,
    creators: &Creators,
    rows: &BTreeMap<Key, Held>,
) -> Option<Address>
    ensures { result ≡ creator_noted id viewed (tree.get nat_cmp creators.now id) (nows rows.now.entries) }
{
    match creators.get(&id) {
        None => viewed,
        Some(noted) => lesser(unchanged(id, viewed, rows), *noted),
    }
}

/// The creator of an asset or an application, from that of the view and what is noted of an id of
/// which a row is held.
pub fn creator_noted(
    id: u64,
    viewed: Option<Address>,
    noted: Option<First>,
    rows: &BTreeMap<Key, Held>,
) -> Option<Address>
    ensures { result ≡ creator_noted id viewed (Some noted) (nows rows.now.entries) }
{
    lesser(unchanged(id, viewed, rows), noted)
}

/// The creator of an asset or an application that a view shows.
pub fn creator_viewed<V: RowView>(view: &mut V, id: u64) -> Result<Option<Address>, Stop<V::Fault>>
    ensures same { V.tells ≡ true → V.rows view.new ≡ V.rows view.old }
    ensures value { V.tells ≡ true → IfOk result (λ who. who ≡ creator_of (V.rows view.old) id) }
    ensures lender { V.lender view.new ≡ V.lender view.old }
    ensures later { V.failures view.old ≤ V.failures view.new }
    ensures cause { IsCounted result (V.failures view.old) (V.failures view.new) }
    ensures no_rule { IsNoRule result }
{
    match view.creator(id) {
        Ok(who) => Ok(who),
        Err(ViewFault::Failed(fault)) => Err(Stop::View(fault)),
        Err(ViewFault::Memory) => Err(Stop::Memory),
    }
}
