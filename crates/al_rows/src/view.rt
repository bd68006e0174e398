//! What shows rows, and may fail.
ghost use Rattle.std.specs.Prelude.{◌≡◌, ◌≤◌, ℕ, Option, Some, None, All, IfOk, IfSome, true, option_map};
ghost use Rattle.std.specs.FinMap.{get, from_entries};
ghost use Rattle.std.specs.BTreeMap as tree;
ghost use Rattle.al_base.specs.Causes.{Rose};
ghost use Rattle.al_base.specs.Keys.{key_cmp};
ghost use Rattle.std.specs.BTreeMap.{IsOrdered};
ghost use Rattle.al_rows.specs.Finite.{first_some};
ghost use Rattle.al_rows.specs.Rows.{AreCreators, InRange, bare, creator_at, creator_of};
ghost use Rattle.std.specs.Ordering.{nat_cmp};

use crate::{Row, Stored};
use al_base::{Address, Key};
use std::alloc::{AllocError, Global};
use std::collections::BTreeMap;
use std::marker::Model;

/// Why a view gives no answer.
#[derive(Drop)]
pub enum ViewFault<F> {
    /// What it reads from has failed.
    Failed(F),
    /// There is no memory.
    Memory,
}

/// No value: the fault of a view that never fails.
#[derive(Drop)]
pub enum Never {}

/// What shows the row under each key, and may fail.
pub trait RowView: Drop {
    ghost use Rattle.std.specs.Prelude.{ℕ, Bool};
    ghost use Rattle.al_rows.specs.Rows.{RowMap};

    type Fault: Drop;

    /// Whether it tells its rows.
    ghost tells: { Bool };

    /// Its rows, where it tells them.
    ghost rows: { Self → RowMap };

    /// How often it has failed.
    ghost failures: { Self → ℕ };

    /// The name of the reference that it reads through, if it does.
    ghost lender: { Self → ℕ };

    /// The row under a key. It is of the key's kind.
    fn row(&mut self, key: &Key) -> Result<Option<Row>, ViewFault<Self::Fault>>
        ensures same { tells ≡ true → rows self.new ≡ rows self.old }
        ensures value { tells ≡ true → IfOk result (λ row. row ≡ get (rows self.old) key.now) }
        ensures lender { lender self.new ≡ lender self.old }
        ensures range { IfOk result (λ row. IfSome row (InRange key.now)) }
        ensures later { failures self.old ≤ failures self.new }
        ensures cause { (f : _) → result ≡ Err (ViewFault.Failed f) → Rose (failures self.old) (failures self.new) };

    /// The creator of an asset or an application: the address whose row of it has params.
    fn creator(&mut self, id: u64) -> Result<Option<Address>, ViewFault<Self::Fault>>
        ensures same { tells ≡ true → rows self.new ≡ rows self.old }
        ensures value { tells ≡ true → IfOk result (λ who. who ≡ creator_of (rows self.old) id) }
        ensures lender { lender self.new ≡ lender self.old }
        ensures later { failures self.old ≤ failures self.new }
        ensures cause { (f : _) → result ≡ Err (ViewFault.Failed f) → Rose (failures self.old) (failures self.new) };
}

/// A view of a map.
#[derive(Drop)]
pub struct MapView {
    alloc: Global,
    rows: BTreeMap<Key, Row>,
}

impl Model for MapView {
    ghost use Rattle.std.specs.Prelude.{All};
    ghost use Rattle.std.specs.FinMap.{from_entries};
    ghost use Rattle.std.specs.FinMap as map;
    ghost use Rattle.al_rows.specs.Rows.{RowMap, InRange};
    ghost use Rattle.al_base.specs.contracts.key.Key as key;
    ghost use Rattle.al_rows.specs.contracts.row.Row as row;

    ghost Value = { RowMap };

    ghost coded = { map.code key.the_row.coded row.the_row.coded };

    ghost view = { λ v. from_entries v.rows.entries };

    ghost invariant = { λ v. All (λ e. InRange e.0 e.1) v.rows.entries };
}

impl MapView {
    /// A view of these rows, which are of their keys' kinds.
    pub fn new(alloc: Global, rows: BTreeMap<Key, Row>) -> MapView
        requires { All (λ e. InRange e.0 e.1) rows.entries }
        ensures { result ≡ from_entries rows.entries }
    {
        MapView { alloc, rows }
    }
}

impl RowView for MapView {
    ghost use Rattle.std.specs.Prelude.{true};

    type Fault = Never;

    ghost tells = { true };

    ghost rows = { λ v. v };

    ghost failures = { λ _. 0 };

    ghost lender = { λ _. 0 };

    fn row(&mut self, key: &Key) -> Result<Option<Row>, ViewFault<Never>> {
        match copy_at(self.alloc, &self.rows, key) {
            Ok(row) => Ok(row),
            Err(_) => Err(ViewFault::Memory),
        }
    }

    fn creator(&mut self, id: u64) -> Result<Option<Address>, ViewFault<Never>> {
        Ok(creator_in(&self.rows, id))
    }
}

// A copy of the row under a key.
fn copy_at(alloc: Global, rows: &BTreeMap<Key, Row>, key: &Key) -> Result<Option<Row>, AllocError>
    ensures { IfOk result (λ row. row ≡ tree.get key_cmp rows.now key.now) }
{
    match rows.get(key) {
        None => Ok(None),
        Some(row) => Ok(Some(row.copy(alloc)?)),
    }
}

// The address under whose key the params of an id stand.
fn creator_at(id: u64, key: &Key, row: &Row) -> Option<Address>
    ensures { result ≡ creator_at id key.now row.now }
{
    match key {
        Key::Resource(who, i) => {
            if *i == id && row.has_params() {
                Some(*who)
            } else {
                None
            }
        }
        Key::Account(_) | Key::Box(_, _) => None,
    }
}

// The creator of an asset or an application among rows.
fn creator_in(rows: &BTreeMap<Key, Row>, id: u64) -> Option<Address>
    ensures first { result ≡ first_some (λ e. creator_at id e.0 e.1) rows.now.entries }
    ensures ordered { IsOrdered key_cmp rows.now }
{
    for (key, row) in rows {
        if let Some(who) = creator_at(id, key, row) {
            return Some(who);
        }
    }
    None
}

/// A view of a map with the rounds of its rows, which it borrows. It copies nothing but the row
/// that is asked for.
#[derive(Drop)]
pub struct StoredView<'a> {
    alloc: Global,
    rows: &'a BTreeMap<Key, Stored>,
    creators: Option<&'a BTreeMap<u64, Address>>,
}

impl<'a> Model for StoredView<'a> {
    ghost use Rattle.std.specs.Prelude.{All};
    ghost use Rattle.std.specs.FinMap.{from_entries};
    ghost use Rattle.std.specs.FinMap as map;
    ghost use Rattle.al_rows.specs.Rows.{AreCreators, RowMap, InRange, bare};
    ghost use Rattle.std.specs.Prelude.{IfSome};
    ghost use Rattle.al_base.specs.contracts.key.Key as key;
    ghost use Rattle.al_rows.specs.contracts.row.Row as row;

    ghost Value = { RowMap };

    ghost coded = { map.code key.the_row.coded row.the_row.coded };

    ghost view = { λ v. bare (from_entries v.rows.now.entries) };

    ghost invariant = { λ v. All (λ e. InRange e.0 e.1.row) v.rows.now.entries × IfSome v.creators (λ c. AreCreators (bare (from_entries v.rows.now.entries)) c.now) };
}

impl<'a> StoredView<'a> {
    /// A view of these rows, which are of their keys' kinds.
    pub fn new(alloc: Global, rows: &'a BTreeMap<Key, Stored>) -> StoredView<'a>
        requires { All (λ e. InRange e.0 e.1.row) rows.now.entries }
        ensures { result ≡ bare (from_entries rows.now.entries) }
    {
        StoredView {
            alloc,
            rows,
            creators: None,
        }
    }

    /// The same with an index of their creators, in which they are looked up.
    pub fn indexed(
        alloc: Global,
        rows: &'a BTreeMap<Key, Stored>,
        creators: &'a BTreeMap<u64, Address>,
    ) -> StoredView<'a>
        requires rows { All (λ e. InRange e.0 e.1.row) rows.now.entries }
        requires creators { AreCreators (bare (from_entries rows.now.entries)) creators.now }
        ensures { result ≡ bare (from_entries rows.now.entries) }
    {
        StoredView {
            alloc,
            rows,
            creators: Some(creators),
        }
    }
}

impl<'a> RowView for StoredView<'a> {
    ghost use Rattle.std.specs.Prelude.{true};

    type Fault = Never;

    ghost tells = { true };

    ghost rows = { λ v. v };

    ghost failures = { λ _. 0 };

    ghost lender = { λ _. 0 };

    fn row(&mut self, key: &Key) -> Result<Option<Row>, ViewFault<Never>> {
        match copy_stored(self.alloc, self.rows, key) {
            Ok(row) => Ok(row),
            Err(_) => Err(ViewFault::Memory),
        }
    }

    fn creator(&mut self, id: u64) -> Result<Option<Address>, ViewFault<Never>> {
        Ok(creator_viewed(self.rows, self.creators, id))
    }
}

// A copy of the row under a key.
fn copy_stored(
    alloc: Global,
    rows: &BTreeMap<Key, Stored>,
    key: &Key,
) -> Result<Option<Row>, AllocError>
    ensures { IfOk result (λ row. row ≡ option_map (λ s. s.row) (tree.get key_cmp rows.now key.now)) }
{
    match rows.get(key) {
        None => Ok(None),
        Some(stored) => Ok(Some(stored.row.copy(alloc)?)),
    }
}

// The creator of an asset or an application, by the index where there is one.
fn creator_viewed(
    rows: &BTreeMap<Key, Stored>,
    creators: Option<&BTreeMap<u64, Address>>,
    id: u64,
) -> Option<Address>
    requires { IfSome creators (λ c. AreCreators (bare (from_entries rows.now.entries)) c.now) }
    ensures { result ≡ creator_of (bare (from_entries rows.now.entries)) id }
{
    match creators {
        Some(creators) => creator_indexed(creators, id),
        None => creator_stored(rows, id),
    }
}

// The creator of an asset or an application in an index.
fn creator_indexed(creators: &BTreeMap<u64, Address>, id: u64) -> Option<Address>
    ensures { result ≡ tree.get nat_cmp creators.now id }
{
    creators.get(&id).copied()
}

// The creator of an asset or an application among rows.
fn creator_stored(rows: &BTreeMap<Key, Stored>, id: u64) -> Option<Address>
    ensures first { result ≡ first_some (λ e. creator_at id e.0 e.1.row) rows.now.entries }
    ensures ordered { IsOrdered key_cmp rows.now }
{
    for (key, stored) in rows {
        if let Some(who) = creator_at(id, key, &stored.row) {
            return Some(who);
        }
    }
    None
}
