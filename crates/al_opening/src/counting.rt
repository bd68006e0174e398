//! What all accounts of kept tables have together.
ghost use Rattle.std.specs.Prelude.{◌≡◌, true, IfOk};
ghost use Rattle.std.specs.Option.{option_copied};
ghost use Rattle.al_rows.specs.Rows.{bare};
ghost use Rattle.al_rewards.specs.Totals.{capped_totals};
ghost use Rattle.al_moves.specs.Totals.{counts};
ghost use Rattle.al_keeper.specs.Refusals.{HasRefusal};
ghost use Rattle.al_opening.specs.Counting.{AddsPage, CountsTo, EndsAt, all_money, and_row, and_rows};

use crate::StartRefusal;
use al_base::Key;
use al_keeper::{Counted, Fault, KeepRefusal, TableKeeper};
use al_overlay::share_of;
use al_rewards::Totals;
use al_rows::{Keyed, MAX_BALANCE, Row};

/// How many rows are taken at once.
const PAGE: u32 = 512;

/// What all accounts of the tables have together, at a reward level. The rows are read in pages.
///
/// # Errors
///
/// - `Total` exactly where their money is more than 10^16 microAlgos; `counted` is what was counted
///   of it, each status at most 2^64 - 1.
/// - `Tables` only where the keeper counted a fault.
/// - `Memory` only where memory is short.
pub fn count_totals<K: TableKeeper, G>(
    tables: &mut Counted<K>,
    level: u64,
) -> Result<Totals, StartRefusal<Fault<K>, G>>
    ensures same { K.tells ≡ true → K.tables tables.new.inner ≡ K.tables tables.old.inner }
    ensures counts { K.tells ≡ true → CountsTo level (K.tables tables.old.inner).rows result }
    ensures cause { HasRefusal StartRefusal.Tables (K.faults tables.old.inner) (K.faults tables.new.inner) result }
{
    let totals = match read_totals(tables, level) {
        Ok(totals) => totals,
        Err(KeepRefusal::Fault(f)) => return Err(StartRefusal::Tables(f)),
        Err(KeepRefusal::Memory) => return Err(StartRefusal::Memory),
    };
    let counted = all_money(&totals);
    if counted > MAX_BALANCE as u128 {
        return Err(StartRefusal::Total { counted });
    }
    Ok(totals)
}

/// The money of the accounts of all statuses.
fn all_money(totals: &Totals) -> u128
    ensures { result ≡ all_money totals.now }
{
    let online = totals.online.money as u128;
    let offline = totals.offline.money as u128;
    let apart = totals.apart.money as u128;
    online + offline + apart
}

/// What all accounts have together, each number at most 2^64 - 1.
fn read_totals<K: TableKeeper>(
    tables: &mut Counted<K>,
    level: u64,
) -> Result<Totals, KeepRefusal<K>>
    ensures same { K.tells ≡ true → K.tables tables.new.inner ≡ K.tables tables.old.inner }
    ensures value { K.tells ≡ true → IfOk result (λ t. t ≡ capped_totals (counts level (bare (K.tables tables.old.inner).rows))) }
    ensures cause { HasRefusal KeepRefusal.Fault (K.faults tables.old.inner) (K.faults tables.new.inner) result }
{
    let mut totals = Totals::new(level);
    let mut after = None;
    for _page in 0..u64::MAX {
        match add_page(tables, &mut totals, after.as_ref()) {
            Ok(Some(last)) => after = Some(last),
            Ok(None) => return Ok(totals),
            Err(refused) => return Err(refused),
        }
    }
    Err(KeepRefusal::Memory)
}

/// Counts the next rows above a key, or the first, and gives the last key of them; none where no
/// row is left.
fn add_page<K: TableKeeper>(
    tables: &mut Counted<K>,
    totals: &mut Totals,
    after: Option<&Key>,
) -> Result<Option<Key>, KeepRefusal<K>>
    ensures same { K.tells ≡ true → K.tables tables.new.inner ≡ K.tables tables.old.inner }
    ensures value { K.tells ≡ true → IfOk result (λ last. AddsPage (K.tables tables.old.inner).rows (option_copied after.entry) totals.old last totals.new) }
    ensures cause { HasRefusal KeepRefusal.Fault (K.faults tables.old.inner) (K.faults tables.new.inner) result }
{
    let rows = match tables.rows_after(after, PAGE) {
        Ok(rows) => rows,
        Err(refused) => return Err(refused),
    };
    add_rows(totals, rows.as_slice());
    Ok(last_of_page(rows.as_slice()))
}

/// The key of the last row of a page, none where the page is not full.
fn last_of_page(rows: &[Keyed]) -> Option<Key>
    ensures { EndsAt rows.now result }
{
    if rows.len() < PAGE as usize {
        return None;
    }
    let (last, _) = rows.split_last()?;
    Some(last.key)
}

/// Counts rows.
fn add_rows(totals: &mut Totals, rows: &[Keyed])
    ensures { totals.new ≡ and_rows totals.old rows.now }
{
    for row in rows {
        add_row(totals, &row.stored.row);
    }
}

/// Counts a row, where it is an account's.
fn add_row(totals: &mut Totals, row: &Row)
    ensures { totals.new ≡ and_row totals.old row.now }
{
    if let Row::Account(r) = row {
        let share = share_of(r);
        totals.change(None, Some(&share));
    }
}
