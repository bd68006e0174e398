//! What a work holds: rows before the block and now, and those that a transaction changed.
ghost use Rattle.std.specs.Prelude.{◌≡◌, ◌≤◌, ◌≢◌, ℕ, length, Option, Some, None, true, Bool, cond, IfOk, IfErr, IfSome, IsSome, OnOk, OnErr, MatchOption, is_some};
ghost use Rattle.std.specs.BTreeMap.{is_at};
ghost use Rattle.std.specs.FinMap.{get};
ghost use Rattle.std.specs.List.{insert};
ghost use Rattle.std.specs.Option.{option_map};
ghost use Rattle.al_base.specs.declared.address.Address.{Address};
ghost use Rattle.al_base.specs.Keys.{key_cmp};
ghost use Rattle.al_rows.specs.Finite.{overlaid, set_at};
ghost use Rattle.al_rows.specs.Rows.{AccountInRange, InRange, IsKept, RowMap, account, account_in};
ghost use Rattle.al_overlay.specs.Creators.{AreOthers};
ghost use Rattle.al_overlay.specs.Held.{AreInOrder, IsWork, at, nows, put_first, with_row};
ghost use Rattle.al_overlay.specs.Work.{IsNoRule, IsCounted};

use crate::Stop;
use al_base::{Address, Key};
use al_rows::{AccountRow, Row, RowView, ViewFault, account_in, copy_row};
use std::alloc::{AllocError, Global};
use std::collections::BTreeMap;
use std::mem;

/// The row under a key before the block, and now.
#[derive(Drop)]
pub struct Held {
    /// The row before the block.
    pub block: Option<Row>,
    /// The row now.
    pub row: Option<Row>,
}

// Why a row was not set.
#[derive(Drop)]
enum Unset {
    // Nothing is held under the key. The row comes back.
    Absent(Option<Row>),
    // There is no memory.
    Memory,
}

/// Whether a row is held under a key.
pub fn is_held(rows: &BTreeMap<Key, Held>, key: &Key) -> bool
    ensures { result ≡ is_some (at (nows rows.now.entries) key.now) }
{
    rows.contains_key(key)
}

/// The account that is held.
#[inline(always)]
pub fn account_held(rows: &BTreeMap<Key, Held>, who: &Address) -> Option<AccountRow>
    requires { (q : Key) → IfSome (at rows.now.entries q) (λ h. IfSome h.row (InRange q)) }
    ensures value { result ≡ option_map account_in (at (nows rows.now.entries) (Key.Account who.now)) }
    ensures range { IfSome result AccountInRange }
{
    match rows.get(&Key::Account(*who)) {
        Some(held) => Some(account_in(&held.row)),
        None => None,
    }
}

/// A copy of the row that is held under a key.
pub fn row_held(
    alloc: Global,
    rows: &BTreeMap<Key, Held>,
    key: &Key,
) -> Result<Option<Option<Row>>, AllocError>
    requires { (q : Key) → IfSome (at rows.now.entries q) (λ h. IfSome h.row (InRange q)) }
    ensures value { IfOk result (λ r. r ≡ at (nows rows.now.entries) key.now) }
    ensures range { IfOk result (λ r. IfSome r (λ row. IfSome row (InRange key.now))) }
{
    match rows.get(key) {
        Some(held) => Ok(Some(copy_row(alloc, &held.row)?)),
        None => Ok(None),
    }
}

// Puts a row in place of the one that is held under a key.
#[inline(always)]
fn replace(
    rows: &mut BTreeMap<Key, Held>,
    key: &Key,
    row: Option<Row>,
) -> Result<Option<Row>, Option<Row>>
    ensures old { IfOk result (λ old. option_map (λ h. h.row) (at rows.old.entries key.now) ≡ Some old) }
    ensures ok { OnOk result ((q : Key) → at rows.new.entries q ≡ cond (is_at (key_cmp key.now) q) (option_map (with_row row) (at rows.old.entries key.now)) (at rows.old.entries q)) }
    ensures absent { OnErr result (at rows.old.entries key.now ≡ None) }
    ensures back { IfErr result (λ back. back ≡ row) }
    ensures err { OnErr result (rows.new.entries ≡ rows.old.entries) }
{
    match rows.get_mut(key) {
        Some(held) => Ok(mem::replace(&mut held.row, row)),
        None => Err(row),
    }
}

// Puts what is held under a key.
#[inline(always)]
fn put(rows: &mut BTreeMap<Key, Held>, key: &Key, held: Held) -> Result<(), AllocError>
    ensures ok { OnOk result ((q : Key) → at rows.new.entries q ≡ cond (is_at (key_cmp key.now) q) (Some held) (at rows.old.entries q)) }
    ensures err { OnErr result (rows.new.entries ≡ rows.old.entries) }
{
    match rows.insert(*key, held) {
        Ok(_) => Ok(()),
        Err(_) => Err(AllocError),
    }
}

// The place in the order of keys of a key that is not there.
#[inline(always)]
fn place_of(started: &[(Key, Option<Row>)], key: &Key) -> Option<usize>
    ensures within { IfSome result (λ i. i ≤ length started.now) }
    ensures place { AreInOrder started.now → MatchOption result ((row : Option Row) → put_first key.now row started.now ≡ started.now) (λ i. (row : Option Row) → insert started.now i (key.now, row) ≡ put_first key.now row started.now) }
{
    match started.binary_search_by(|entry| entry.0.compare(key)) {
        Ok(_) => None,
        Err(i) => Some(i),
    }
}

// Keeps the row that stood under a key when the transaction began, unless one is kept.
#[inline(always)]
fn keep(
    started: &mut Vec<(Key, Option<Row>)>,
    key: &Key,
    old: Option<Row>,
) -> Result<(), AllocError>
    ensures ok { OnOk result (AreInOrder started.old.items → started.new.items ≡ put_first key.now old started.old.items) }
    ensures err { OnErr result (started.new.items ≡ started.old.items) }
{
    match place_of(started, key) {
        None => Ok(()),
        Some(i) => match started.insert(i, (*key, old)) {
            Ok(()) => Ok(()),
            Err(_) => Err(AllocError),
        },
    }
}

/// A copy of the row of an account.
#[inline(always)]
pub fn account_row(row: &Option<Row>) -> Option<Row>
    ensures { (who : Address) → IfSome row.now (InRange (Key.Account who)) → result ≡ row.now }
{
    match row {
        Some(Row::Account(r)) => Some(Row::Account(*r)),
        Some(Row::Asset(_)) | Some(Row::App(_)) | Some(Row::Box(_)) | None => None,
    }
}

/// Keeps the row of an account as it stood when the transaction began, unless one is kept.
#[inline(always)]
pub fn keep_account(
    started: &mut Vec<(Key, Option<Row>)>,
    who: &Address,
    row: &Option<Row>,
) -> Result<(), AllocError>
    requires { IfSome row.now (InRange (Key.Account who.now)) }
    ensures ok { OnOk result (AreInOrder started.old.items → started.new.items ≡ put_first (Key.Account who.now) row.now started.old.items) }
    ensures err { OnErr result (started.new.items ≡ started.old.items) }
{
    let key = Key::Account(*who);
    match place_of(started, &key) {
        None => Ok(()),
        Some(i) => match started.insert(i, (key, account_row(row))) {
            Ok(()) => Ok(()),
            Err(_) => Err(AllocError),
        },
    }
}

// Sets the row of a key that is held, and keeps what stood there when the transaction began.
#[inline(always)]
fn set_held(
    rows: &mut BTreeMap<Key, Held>,
    started: &mut Vec<(Key, Option<Row>)>,
    key: &Key,
    row: Option<Row>,
) -> Result<(), Unset>
    requires { IfSome row (IsKept key.now) }
    ensures work { (t : Bool) (m : RowMap) → IsWork t m rows.old.entries started.old.items → IsWork t m rows.new.entries started.new.items }
    ensures now { OnOk result ((m : RowMap) → overlaid (nows rows.new.entries) m ≡ set_at (overlaid (nows rows.old.entries) m) key.now row) }
    ensures start { OnOk result ((t : Bool) (m : RowMap) → IsWork t m rows.old.entries started.old.items → overlaid started.new.items (overlaid (nows rows.new.entries) m) ≡ overlaid started.old.items (overlaid (nows rows.old.entries) m)) }
    ensures absent { (r : Option Row) → result ≡ Err (Unset.Absent r) → (r ≡ row) × (rows.new.entries ≡ rows.old.entries) × (started.new.items ≡ started.old.items) × (at rows.new.entries key.now ≡ None) }
    ensures others { AreOthers key.now rows.old.entries rows.new.entries }
{
    match replace(rows, key, row) {
        Ok(old) => match keep(started, key, old) {
            Ok(()) => Ok(()),
            Err(_) => Err(Unset::Memory),
        },
        Err(row) => Err(Unset::Absent(row)),
    }
}

/// Sets the row of a key that is not held, where the row before the block is `old`, of which
/// `block` is a copy.
#[inline(always)]
pub fn set_over(
    rows: &mut BTreeMap<Key, Held>,
    started: &mut Vec<(Key, Option<Row>)>,
    key: &Key,
    row: Option<Row>,
    block: Option<Row>,
    old: Option<Row>,
) -> Result<(), AllocError>
    requires kept { IfSome row (IsKept key.now) }
    requires copied { block ≡ old }
    ensures work { (t : Bool) (m : RowMap) → IsWork t m rows.old.entries started.old.items → (t ≡ true → old ≡ get m key.now) → IsWork t m rows.new.entries started.new.items }
    ensures now { OnOk result ((m : RowMap) → overlaid (nows rows.new.entries) m ≡ set_at (overlaid (nows rows.old.entries) m) key.now row) }
    ensures start { OnOk result ((t : Bool) (m : RowMap) → IsWork t m rows.old.entries started.old.items → at rows.old.entries key.now ≡ None → old ≡ get m key.now → overlaid started.new.items (overlaid (nows rows.new.entries) m) ≡ overlaid started.old.items (overlaid (nows rows.old.entries) m)) }
    ensures others { AreOthers key.now rows.old.entries rows.new.entries }
{
    put(rows, key, Held { block, row })?;
    keep(started, key, old)?;
    Ok(())
}

// Sets the row of a key that is not held, where the row before the block is `old`.
fn set_new(
    alloc: Global,
    rows: &mut BTreeMap<Key, Held>,
    started: &mut Vec<(Key, Option<Row>)>,
    key: &Key,
    row: Option<Row>,
    old: Option<Row>,
) -> Result<(), AllocError>
    requires { IfSome row (IsKept key.now) }
    ensures work { (t : Bool) (m : RowMap) → IsWork t m rows.old.entries started.old.items → (t ≡ true → old ≡ get m key.now) → IsWork t m rows.new.entries started.new.items }
    ensures now { OnOk result ((m : RowMap) → overlaid (nows rows.new.entries) m ≡ set_at (overlaid (nows rows.old.entries) m) key.now row) }
    ensures start { OnOk result ((t : Bool) (m : RowMap) → IsWork t m rows.old.entries started.old.items → at rows.old.entries key.now ≡ None → old ≡ get m key.now → overlaid started.new.items (overlaid (nows rows.new.entries) m) ≡ overlaid started.old.items (overlaid (nows rows.old.entries) m)) }
    ensures others { AreOthers key.now rows.old.entries rows.new.entries }
{
    let block = copy_row(alloc, &old)?;
    set_over(rows, started, key, row, block, old)
}

// Holds the row of a key that is not held, as it is before the block.
fn hold(
    alloc: Global,
    rows: &mut BTreeMap<Key, Held>,
    key: &Key,
    row: Option<Row>,
) -> Result<(), AllocError>
    requires { IfSome row (InRange key.now) }
    ensures work { (t : Bool) (m : RowMap) (ss : _) → IsWork t m rows.old.entries ss → (t ≡ true → row ≡ get m key.now) → IsWork t m rows.new.entries ss }
    ensures now { (m : RowMap) → at rows.old.entries key.now ≡ None → row ≡ get m key.now → overlaid (nows rows.new.entries) m ≡ overlaid (nows rows.old.entries) m }
    ensures others { AreOthers key.now rows.old.entries rows.new.entries }
{
    let block = copy_row(alloc, &row)?;
    put(rows, key, Held { block, row })?;
    Ok(())
}

/// The row that a view shows under a key.
#[inline(always)]
pub fn viewed<V: RowView>(view: &mut V, key: &Key) -> Result<Option<Row>, Stop<V::Fault>>
    ensures same { V.tells ≡ true → V.rows view.new ≡ V.rows view.old }
    ensures value { V.tells ≡ true → IfOk result (λ row. row ≡ get (V.rows view.old) key.now) }
    ensures range { IfOk result (λ row. IfSome row (InRange key.now)) }
    ensures lender { V.lender view.new ≡ V.lender view.old }
    ensures later { V.failures view.old ≤ V.failures view.new }
    ensures cause { IsCounted result (V.failures view.old) (V.failures view.new) }
    ensures no_rule { IsNoRule result }
{
    match view.row(key) {
        Ok(row) => Ok(row),
        Err(ViewFault::Failed(fault)) => Err(Stop::View(fault)),
        Err(ViewFault::Memory) => Err(Stop::Memory),
    }
}

// Sets the row of a key that is not held, and holds what the view has there.
#[inline(never)]
fn set_viewed<V: RowView>(
    alloc: Global,
    view: &mut V,
    rows: &mut BTreeMap<Key, Held>,
    started: &mut Vec<(Key, Option<Row>)>,
    key: &Key,
    row: Option<Row>,
) -> Result<(), Stop<V::Fault>>
    requires kept { IfSome row (IsKept key.now) }
    requires absent { at rows.old.entries key.now ≡ None }
    ensures same { V.tells ≡ true → V.rows view.new ≡ V.rows view.old }
    ensures lender { V.lender view.new ≡ V.lender view.old }
    ensures later { V.failures view.old ≤ V.failures view.new }
    ensures cause { IsCounted result (V.failures view.old) (V.failures view.new) }
    ensures no_rule { IsNoRule result }
    ensures work { IsWork V.tells (V.rows view.old) rows.old.entries started.old.items → IsWork V.tells (V.rows view.new) rows.new.entries started.new.items }
    ensures now { V.tells ≡ true → OnOk result (overlaid (nows rows.new.entries) (V.rows view.new) ≡ set_at (overlaid (nows rows.old.entries) (V.rows view.old)) key.now row) }
    ensures start { V.tells ≡ true → IsWork V.tells (V.rows view.old) rows.old.entries started.old.items → OnOk result (overlaid started.new.items (overlaid (nows rows.new.entries) (V.rows view.new)) ≡ overlaid started.old.items (overlaid (nows rows.old.entries) (V.rows view.old))) }
    ensures others { AreOthers key.now rows.old.entries rows.new.entries }
{
    let old = viewed(view, key)?;
    set_new(alloc, rows, started, key, row, old)?;
    Ok(())
}

/// Sets the row of a key, and holds what the view has there.
pub fn set_row<V: RowView>(
    alloc: Global,
    view: &mut V,
    rows: &mut BTreeMap<Key, Held>,
    started: &mut Vec<(Key, Option<Row>)>,
    key: &Key,
    row: Option<Row>,
) -> Result<(), Stop<V::Fault>>
    requires { IfSome row (IsKept key.now) }
    ensures same { V.tells ≡ true → V.rows view.new ≡ V.rows view.old }
    ensures lender { V.lender view.new ≡ V.lender view.old }
    ensures later { V.failures view.old ≤ V.failures view.new }
    ensures cause { IsCounted result (V.failures view.old) (V.failures view.new) }
    ensures no_rule { IsNoRule result }
    ensures work { IsWork V.tells (V.rows view.old) rows.old.entries started.old.items → IsWork V.tells (V.rows view.new) rows.new.entries started.new.items }
    ensures now { V.tells ≡ true → OnOk result (overlaid (nows rows.new.entries) (V.rows view.new) ≡ set_at (overlaid (nows rows.old.entries) (V.rows view.old)) key.now row) }
    ensures start { V.tells ≡ true → IsWork V.tells (V.rows view.old) rows.old.entries started.old.items → OnOk result (overlaid started.new.items (overlaid (nows rows.new.entries) (V.rows view.new)) ≡ overlaid started.old.items (overlaid (nows rows.old.entries) (V.rows view.old))) }
    ensures others { AreOthers key.now rows.old.entries rows.new.entries }
{
    match set_held(rows, started, key, row) {
        Ok(()) => Ok(()),
        Err(Unset::Memory) => Err(Stop::Memory),
        Err(Unset::Absent(row)) => set_viewed(alloc, view, rows, started, key, row),
    }
}

/// Holds the row of an account that is not held, and gives the account.
#[inline(never)]
pub fn hold_account<V: RowView>(
    alloc: Global,
    view: &mut V,
    rows: &mut BTreeMap<Key, Held>,
    who: &Address,
) -> Result<AccountRow, Stop<V::Fault>>
    requires { at rows.old.entries (Key.Account who.now) ≡ None }
    ensures same { V.tells ≡ true → V.rows view.new ≡ V.rows view.old }
    ensures lender { V.lender view.new ≡ V.lender view.old }
    ensures later { V.failures view.old ≤ V.failures view.new }
    ensures cause { IsCounted result (V.failures view.old) (V.failures view.new) }
    ensures no_rule { IsNoRule result }
    ensures work { (ss : _) → IsWork V.tells (V.rows view.old) rows.old.entries ss → IsWork V.tells (V.rows view.new) rows.new.entries ss }
    ensures now { V.tells ≡ true → overlaid (nows rows.new.entries) (V.rows view.new) ≡ overlaid (nows rows.old.entries) (V.rows view.old) }
    ensures value { V.tells ≡ true → IfOk result (λ r. r ≡ account (overlaid (nows rows.old.entries) (V.rows view.old)) who.now) }
    ensures range { IfOk result (λ r. AccountInRange r) }
    ensures others { AreOthers (Key.Account who.now) rows.old.entries rows.new.entries }
{
    let key = Key::Account(*who);
    let row = viewed(view, &key)?;
    let r = account_in(&row);
    hold(alloc, rows, &key, row)?;
    Ok(r)
}
