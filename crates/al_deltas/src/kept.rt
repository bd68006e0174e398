//! Rows that are kept, under their keys.
ghost use Rattle.std.specs.Prelude.{◌≡◌, ◌≤◌, Some, None, All, IfOk, IfSome, OnOk, OnErr, cond, map};
ghost use Rattle.std.specs.Option.{option_copied};
ghost use Rattle.std.specs.List.Sorted.{IsStrictlySortedBy};
ghost use Rattle.std.specs.FinMap.{from_entries, get};
ghost use Rattle.std.specs.Map.{lookup};
ghost use Rattle.std.specs.BTreeMap.{IsOrdered, is_at};
ghost use Rattle.al_base.specs.Keys.{key_cmp};
ghost use Rattle.al_rows.specs.Finite.{or_below};
ghost use Rattle.al_rows.specs.Above.{rows_above};
ghost use Rattle.al_rows.specs.Rows.{IsKept, bare, creator_of};
ghost use Rattle.al_deltas.specs.Index.{IsIndex, shows_params};
ghost use Rattle.al_deltas.specs.Queue.{IsKeptDelta, after_delta, left_of, stored_at};

use crate::RoundDelta;
use crate::above::{bound_of, first_from};
use crate::index::{Creators, follow, index_of};
use al_base::{Address, Key};
use al_rows::{Change, Row, RowView, Rows, Stored, StoredView, ViewFault};
use std::alloc::{AllocError, Global};
use std::collections::BTreeMap;
use std::marker::Model;

/// Rows with the rounds of their last changes. Each is of its key's kind and in its ranges, and
/// none is a zero row. They may have an index of the creators of assets and applications.
#[derive(Drop)]
pub struct KeptRows {
    alloc: Global,
    rows: BTreeMap<Key, Stored>,
    // The creators among the rows, where they are noted: then each id has one at most.
    creators: Option<Creators>,
}

impl Model for KeptRows {
    ghost use Rattle.std.specs.Prelude.{All, IfSome};
    ghost use Rattle.std.specs.FinMap.{from_entries};
    ghost use Rattle.std.specs.FinMap as finite;
    ghost use Rattle.al_base.specs.contracts.key.Key as key;
    ghost use Rattle.al_rows.specs.Rows.{IsKept};
    ghost use Rattle.al_rows.specs.contracts.stored.Stored as stored;
    ghost use Rattle.al_deltas.specs.Index.{IsIndex};
    ghost use Rattle.al_tables.specs.Tables.{StoredMap};

    ghost Value = { StoredMap };

    ghost coded = { finite.code key.the_row.coded stored.the_row.coded };

    ghost view = { λ r. from_entries r.rows.entries };

    ghost invariant = { λ r. All (λ e. IsKept e.0 e.1.row) r.rows.entries × IfSome r.creators (IsIndex r.rows) };
}

impl KeptRows {
    /// These rows, which may be kept.
    pub fn new(alloc: Global, rows: BTreeMap<Key, Stored>) -> KeptRows
        requires { All (λ e. IsKept e.0 e.1.row) rows.entries }
        ensures { result ≡ from_entries rows.entries }
    {
        KeptRows {
            alloc,
            rows,
            creators: None,
        }
    }

    /// Makes the index of creators where there is none, in one pass over all rows. Where an id has
    /// two creators there stays none. Errors: no memory, and there is none.
    pub fn index(&mut self) -> Result<(), AllocError>
        ensures { self.new ≡ self.old }
    {
        if self.creators.is_none() {
            self.creators = index_of(self.alloc, &self.rows)?;
        }
        Ok(())
    }

    /// A view of the rows. It looks a creator up in the index, and goes over all rows where there is
    /// none.
    pub fn view<'a>(&'a self) -> StoredView<'a>
        ensures { result ≡ bare self.now }
    {
        match &self.creators {
            Some(creators) => StoredView::indexed(self.alloc, &self.rows, creators),
            None => StoredView::new(self.alloc, &self.rows),
        }
    }

    /// The row under a key.
    pub fn get(&self, key: &Key) -> Option<&Stored>
        ensures row { option_copied result ≡ get self.now key.now }
        ensures kept { IfSome result (λ s. IsKept key.now s.now.row) }
    {
        row_under(&self.rows, key)
    }

    /// The creator of an asset or an application. It is looked up in the index, and among all rows
    /// where there is none. Errors: no memory.
    pub fn creator(&self, id: u64) -> Result<Option<Address>, AllocError>
        ensures { IfOk result (λ creator. creator ≡ creator_of (bare self.now) id) }
    {
        let mut view = self.view();
        match view.creator(id) {
            Ok(creator) => Ok(creator),
            Err(ViewFault::Failed(never)) => match never {},
            Err(ViewFault::Memory) => Err(AllocError),
        }
    }

    /// Copies of the first rows above a key, or of all, in the order of keys: at most so many.
    /// Errors: no memory.
    pub fn rows_above(&self, after: Option<&Key>, max: u32) -> Result<Rows, AllocError>
        ensures { IfOk result (λ rows. rows ≡ rows_above (option_copied after.entry) max self.now) }
    {
        let _count = self.rows.len();
        first_from(self.alloc, &self.rows, bound_of(after), max)
    }

    /// Puts the rows that a block leaves. A call that is refused has put a part of them: to put them
    /// again gives what one call would have given. Errors: no memory.
    pub fn apply(&mut self, d: &RoundDelta) -> Result<(), AllocError>
        requires { IsKeptDelta d.now }
        ensures ok { OnOk result (self.new ≡ after_delta d.now self.old) }
        ensures again { after_delta d.now self.new ≡ after_delta d.now self.old }
    {
        apply(
            self.alloc,
            &mut self.rows,
            &mut self.creators,
            d.changes.as_slice(),
            d.round,
        )?;
        Ok(())
    }
}

fn row_under<'a>(rows: &'a BTreeMap<Key, Stored>, key: &Key) -> Option<&'a Stored>
    ensures { option_copied result ≡ lookup (is_at (key_cmp key.now)) rows.now.entries }
{
    rows.get(key)
}

// Puts changes of a round into rows that are kept.
fn apply(
    alloc: Global,
    rows: &mut BTreeMap<Key, Stored>,
    creators: &mut Option<Creators>,
    changes: &[Change],
    round: u64,
) -> Result<(), AllocError>
    requires ordered { IsStrictlySortedBy key_cmp (map (λ c. c.key) changes.now) }
    requires changed { All (λ c. IfSome c.row (IsKept c.key)) changes.now }
    requires kept { All (λ e. IsKept e.0 e.1.row) rows.old.entries }
    requires index { IfSome creators.old (IsIndex rows.old) }
    ensures ok { OnOk result ((q : _) → lookup (is_at (key_cmp q)) rows.new.entries ≡ or_below (lookup (is_at (key_cmp q)) (map (left_of round) changes.now)) (lookup (is_at (key_cmp q)) rows.old.entries)) }
    ensures again { (q : _) → or_below (lookup (is_at (key_cmp q)) (map (left_of round) changes.now)) (lookup (is_at (key_cmp q)) rows.new.entries) ≡ or_below (lookup (is_at (key_cmp q)) (map (left_of round) changes.now)) (lookup (is_at (key_cmp q)) rows.old.entries) }
    ensures kept { All (λ e. IsKept e.0 e.1.row) rows.new.entries }
    ensures index { IfSome creators.new (IsIndex rows.new) }
{
    let applied = apply_all(alloc, rows, creators, changes, round);
    let _count = rows.len();
    applied
}

// Puts changes of a round.
fn apply_all(
    alloc: Global,
    rows: &mut BTreeMap<Key, Stored>,
    creators: &mut Option<Creators>,
    changes: &[Change],
    round: u64,
) -> Result<(), AllocError>
    requires ordered { IsStrictlySortedBy key_cmp (map (λ c. c.key) changes.now) }
    requires changed { All (λ c. IfSome c.row (IsKept c.key)) changes.now }
    requires kept { (q : _) → IfSome (lookup (is_at (key_cmp q)) rows.old.entries) (λ s. IsKept q s.row) }
    requires index { IfSome creators.old (IsIndex rows.old) }
    ensures ok { OnOk result ((q : _) → lookup (is_at (key_cmp q)) rows.new.entries ≡ or_below (lookup (is_at (key_cmp q)) (map (left_of round) changes.now)) (lookup (is_at (key_cmp q)) rows.old.entries)) }
    ensures again { (q : _) → or_below (lookup (is_at (key_cmp q)) (map (left_of round) changes.now)) (lookup (is_at (key_cmp q)) rows.new.entries) ≡ or_below (lookup (is_at (key_cmp q)) (map (left_of round) changes.now)) (lookup (is_at (key_cmp q)) rows.old.entries) }
    ensures kept { (q : _) → IfSome (lookup (is_at (key_cmp q)) rows.new.entries) (λ s. IsKept q s.row) }
    ensures index { IfSome creators.new (IsIndex rows.new) }
{
    for change in changes {
        apply_one(alloc, rows, creators, change, round)?;
    }
    Ok(())
}

// Puts what a change leaves under its key, and keeps the index up with it.
fn apply_one(
    alloc: Global,
    rows: &mut BTreeMap<Key, Stored>,
    creators: &mut Option<Creators>,
    change: &Change,
    round: u64,
) -> Result<(), AllocError>
    requires { IfSome creators.old (IsIndex rows.old) }
    ensures ok { OnOk result ((q : _) → lookup (is_at (key_cmp q)) rows.new.entries ≡ cond (is_at (key_cmp change.now.key) q) (stored_at round change.now.row) (lookup (is_at (key_cmp q)) rows.old.entries)) }
    ensures err { OnErr result (rows.new.entries ≡ rows.old.entries) }
    ensures index { IfSome creators.new (IsIndex rows.new) }
{
    let had = put_change(alloc, rows, change, round)?;
    follow(creators, &change.key, had, has_params(&change.row));
    Ok(())
}

// Whether there is a row that has params.
fn has_params(row: &Option<Row>) -> bool
    ensures { (round : _) → result ≡ shows_params (stored_at round row.now) }
{
    match row {
        Some(row) => row.has_params(),
        None => false,
    }
}

// Puts what a change leaves under its key: whether the row there had params.
fn put_change(
    alloc: Global,
    rows: &mut BTreeMap<Key, Stored>,
    change: &Change,
    round: u64,
) -> Result<bool, AllocError>
    ensures had { IfOk result (λ had. had ≡ shows_params (lookup (is_at (key_cmp change.now.key)) rows.old.entries)) }
    ensures ok { OnOk result ((q : _) → lookup (is_at (key_cmp q)) rows.new.entries ≡ cond (is_at (key_cmp change.now.key) q) (stored_at round change.now.row) (lookup (is_at (key_cmp q)) rows.old.entries)) }
    ensures err { OnErr result (rows.new.entries ≡ rows.old.entries) }
{
    match &change.row {
        Some(row) => {
            let row = row.copy(alloc)?;
            replace(
                rows,
                &change.key,
                Stored {
                    row,
                    changed: round,
                },
            )
        }
        None => Ok(take(rows, &change.key)),
    }
}

// Puts a row under a key: whether the row there had params.
fn replace(rows: &mut BTreeMap<Key, Stored>, key: &Key, stored: Stored) -> Result<bool, AllocError>
    ensures had { IfOk result (λ had. had ≡ shows_params (lookup (is_at (key_cmp key.now)) rows.old.entries)) }
    ensures ok { OnOk result ((q : _) → lookup (is_at (key_cmp q)) rows.new.entries ≡ cond (is_at (key_cmp key.now) q) (Some stored) (lookup (is_at (key_cmp q)) rows.old.entries)) }
    ensures err { OnErr result (rows.new.entries ≡ rows.old.entries) }
{
    match rows.insert(*key, stored) {
        Ok(before) => Ok(had_params(before)),
        Err(_) => Err(AllocError),
    }
}

// Takes the row under a key away: whether it had params.
fn take(rows: &mut BTreeMap<Key, Stored>, key: &Key) -> bool
    ensures had { result ≡ shows_params (lookup (is_at (key_cmp key.now)) rows.old.entries) }
    ensures taken { (q : _) → lookup (is_at (key_cmp q)) rows.new.entries ≡ cond (is_at (key_cmp key.now) q) None (lookup (is_at (key_cmp q)) rows.old.entries) }
{
    had_params(rows.remove(key))
}

// Whether there was a row that had params.
fn had_params(before: Option<Stored>) -> bool
    ensures { result ≡ shows_params before }
{
    match &before {
        Some(stored) => stored.row.has_params(),
        None => false,
    }
}

/// Puts a row under a key. Errors: no memory, and the rows are as before.
pub fn put_row(
    rows: &mut BTreeMap<Key, Stored>,
    key: &Key,
    stored: Stored,
) -> Result<(), AllocError>
    ensures ok { OnOk result ((q : _) → lookup (is_at (key_cmp q)) rows.new.entries ≡ cond (is_at (key_cmp key.now) q) (Some stored) (lookup (is_at (key_cmp q)) rows.old.entries)) }
    ensures err { OnErr result (rows.new.entries ≡ rows.old.entries) }
{
    replace(rows, key, stored)?;
    Ok(())
}

/// Takes the row under a key away.
pub fn take_row(rows: &mut BTreeMap<Key, Stored>, key: &Key)
    ensures { (q : _) → lookup (is_at (key_cmp q)) rows.new.entries ≡ cond (is_at (key_cmp key.now) q) None (lookup (is_at (key_cmp q)) rows.old.entries) }
{
    take(rows, key);
}
