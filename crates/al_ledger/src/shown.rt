//! What stands under a key after a round: the last change, or else what the tables have.
ghost use Rattle.std.specs.Prelude.{◌≡◌, ◌≤◌, true, Err, IfOk, IfSome, OnErr, option_map};
ghost use Rattle.std.specs.FinMap.{get};
ghost use Rattle.al_deltas.specs.Net.{creators_after};
ghost use Rattle.al_deltas.specs.Queue.{rows_after, top, up_to};
ghost use Rattle.al_keeper.specs.Refusals.{HasRefusal};
ghost use Rattle.al_rows.specs.Rows.{IsKept};
ghost use Rattle.al_rows.specs.declared.view.ViewFault.TheVariants as faults;

use al_base::{Address, Key};
use al_deltas::Deltas;
use al_keeper::{Counted, Fault, KeepRefusal, TableKeeper};
use al_rows::{Row, ViewFault, copy_row};
use std::alloc::Global;

// The row under a key in the tables.
fn row_below<K: TableKeeper>(
    tables: &mut Counted<K>,
    key: &Key,
) -> Result<Option<Row>, ViewFault<Fault<K>>>
    ensures same { K.tells ≡ true → K.tables tables.new.inner ≡ K.tables tables.old.inner }
    ensures value { K.tells ≡ true → IfOk result (λ row. row ≡ option_map (λ s. s.row) (get (K.tables tables.old.inner).rows key.now)) }
    ensures kept { IfOk result (λ row. IfSome row (IsKept key.now)) }
    ensures cause { HasRefusal faults.Failed (K.faults tables.old.inner) (K.faults tables.new.inner) result }
{
    match tables.row(key) {
        Ok(Some(stored)) => Ok(Some(stored.row)),
        Ok(None) => Ok(None),
        Err(KeepRefusal::Fault(fault)) => Err(ViewFault::Failed(fault)),
        Err(KeepRefusal::Memory) => Err(ViewFault::Memory),
    }
}

/// The row under a key after a round, which is one from the round of the tables to the last one of
/// the changes: what the last change up to that round left, or else what the tables have. None is
/// where no row stands. Nothing changes.
///
/// # Errors
///
/// `Failed` where the keeper of the tables fails, which it counts; `Memory` where there is none.
pub fn row_after<K: TableKeeper>(
    alloc: Global,
    deltas: &Deltas,
    tables: &mut Counted<K>,
    key: &Key,
    round: u64,
) -> Result<Option<Row>, ViewFault<Fault<K>>>
    requires from { deltas.now.base ≤ round }
    requires top { round ≤ top deltas.now }
    ensures same { K.tells ≡ true → K.tables tables.new.inner ≡ K.tables tables.old.inner }
    ensures value { K.tells ≡ true → IfOk result (λ row. row ≡ option_map (λ s. s.row) (get (rows_after (up_to round deltas.now) (K.tables tables.old.inner).rows) key.now)) }
    ensures kept { IfOk result (λ row. IfSome row (IsKept key.now)) }
    ensures cause { HasRefusal faults.Failed (K.faults tables.old.inner) (K.faults tables.new.inner) result }
{
    match deltas.find(key, round) {
        Some((_, row)) => match copy_row(alloc, row) {
            Ok(row) => Ok(row),
            Err(_) => Err(ViewFault::Memory),
        },
        None => row_below(tables, key),
    }
}

// The creator of an asset or an application in the tables.
fn creator_below<K: TableKeeper>(
    tables: &mut Counted<K>,
    id: u64,
) -> Result<Option<Address>, ViewFault<Fault<K>>>
    ensures same { K.tells ≡ true → K.tables tables.new.inner ≡ K.tables tables.old.inner }
    ensures value { K.tells ≡ true → IfOk result (λ who. who ≡ get (K.tables tables.old.inner).creators id) }
    ensures cause { HasRefusal faults.Failed (K.faults tables.old.inner) (K.faults tables.new.inner) result }
{
    match tables.creator(id) {
        Ok(who) => Ok(who),
        Err(KeepRefusal::Fault(fault)) => Err(ViewFault::Failed(fault)),
        Err(KeepRefusal::Memory) => Err(ViewFault::Memory),
    }
}

/// The creator of an asset or an application after a round, which is one from the round of the tables
/// to the last one of the changes: what the last change up to that round left, or else what the
/// tables have. None is where there is no such asset or application. Nothing changes.
///
/// # Errors
///
/// `Failed` where the keeper of the tables fails, which it counts; `Memory` where there is none.
pub fn creator_after<K: TableKeeper>(
    deltas: &Deltas,
    tables: &mut Counted<K>,
    id: u64,
    round: u64,
) -> Result<Option<Address>, ViewFault<Fault<K>>>
    requires from { deltas.now.base ≤ round }
    requires top { round ≤ top deltas.now }
    ensures same { K.tells ≡ true → K.tables tables.new.inner ≡ K.tables tables.old.inner }
    ensures value { K.tells ≡ true → IfOk result (λ who. who ≡ get (creators_after (up_to round deltas.now) (K.tables tables.old.inner).creators) id) }
    ensures cause { HasRefusal faults.Failed (K.faults tables.old.inner) (K.faults tables.new.inner) result }
{
    match deltas.creator(id, round) {
        Some(who) => Ok(who),
        None => creator_below(tables, id),
    }
}
