//! The rows after the last round, as a step sees them.
ghost use Rattle.std.specs.Prelude.{◌≡◌, ◌≤◌, true, Bool};
ghost use Rattle.std.specs.Coded.{Coded-set, →_prop};
ghost use Rattle.al_deltas.specs.Net.{creators_after};
ghost use Rattle.al_deltas.specs.Queue.{rows_after};
ghost use Rattle.al_ledger.specs.Creators.{AreCreatorsOf, creators_prop};
ghost use Rattle.al_ledger.specs.Codes.{tables_code};

use crate::shown::{creator_after, row_after};
use al_base::{Address, Key};
use al_deltas::Deltas;
use al_keeper::{Counted, Fault, TableKeeper};
use al_rows::{Row, RowView, ViewFault};
use std::alloc::Global;
use std::marker::{Brand, PhantomData};

/// What a view sees. It has ghost members alone, so no byte.
pub trait Seen {
    ghost use Rattle.std.specs.Prelude.{ℕ, Bool};
    ghost use Rattle.al_tables.specs.Tables.{Tables};

    /// Whether the view tells its rows.
    ghost telling: { Bool };

    /// The tables that it reads, where their keeper tells them.
    ghost tables: { Tables };

    /// How often their keeper had failed before.
    ghost failures: { ℕ };
}

impl Seen for Brand {
    ghost use Rattle.std.specs.Prelude.{false};
    ghost use Rattle.al_tables.specs.Tables.{no_tables};

    ghost telling = { false };

    ghost tables = { no_tables };

    ghost failures = { 0 };
}

/// The rows after the last round: what blocks changed, over the tables. Where it tells them, the
/// keeper of the tables tells its own, and the creators that these keep are those of the rows.
#[derive(Drop)]
pub(crate) struct LedgerView<'a, K: TableKeeper, N: Seen> {
    alloc: Global,
    deltas: &'a Deltas,
    tables: &'a mut Counted<K>,
    of: PhantomData<N>,
    ghost later: { N.failures ≤ K.faults tables.now.inner },
    ghost told: { N.telling ≡ true → K.tells ≡ true },
    ghost same: { K.tells ≡ true → K.tables tables.now.inner ≡ N.tables } by { →_prop (Coded-set tables_code (K.tables tables.now.inner) N.tables) },
    ghost creators: { N.telling ≡ true → AreCreatorsOf (rows_after deltas.now.deltas N.tables.rows) (creators_after deltas.now.deltas N.tables.creators) } by { →_prop (creators_prop (rows_after deltas.now.deltas N.tables.rows) (creators_after deltas.now.deltas N.tables.creators)) },
}

impl<'a, K: TableKeeper, N: Seen> LedgerView<'a, K, N> {
    /// The rows of these.
    pub(crate) fn new(
        alloc: Global,
        deltas: &'a Deltas,
        tables: &'a mut Counted<K>,
    ) -> LedgerView<'a, K, N>
        requires later { N.failures ≤ K.faults tables.old.inner }
        requires told { N.telling ≡ true → K.tells ≡ true }
        requires same { K.tells ≡ true → K.tables tables.old.inner ≡ N.tables }
        requires creators { N.telling ≡ true → AreCreatorsOf (rows_after deltas.now.deltas N.tables.rows) (creators_after deltas.now.deltas N.tables.creators) }
        ensures deltas { result.deltas ≡ deltas.entry }
        ensures tables { result.tables ≡ tables.entry }
    {
        LedgerView {
            alloc,
            deltas,
            tables,
            of: PhantomData,
        }
    }
}

impl<'a, K: TableKeeper, N: Seen> RowView for LedgerView<'a, K, N> {
    ghost use Rattle.al_deltas.specs.Queue.{rows_after};
    ghost use Rattle.al_rows.specs.Rows.{bare};

    type Fault = Fault<K>;

    ghost tells = { N.telling };

    ghost rows = { λ v. bare (rows_after v.deltas.now.deltas N.tables.rows) };

    ghost failures = { λ v. K.faults v.tables.now.inner };

    ghost lender = { λ v. v.tables.ghost_name };

    fn row(&mut self, key: &Key) -> Result<Option<Row>, ViewFault<Fault<K>>> {
        let top = self.deltas.top();
        row_after(self.alloc, self.deltas, self.tables, key, top)
    }

    fn creator(&mut self, id: u64) -> Result<Option<Address>, ViewFault<Fault<K>>> {
        let top = self.deltas.top();
        creator_after(self.deltas, self.tables, id, top)
    }
}
