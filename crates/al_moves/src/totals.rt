//! The totals of all accounts after what changed.
ghost use Rattle.std.specs.Prelude.{◌≡◌};
ghost use Rattle.std.specs.BTreeMap.{IsOrdered};
ghost use Rattle.al_base.specs.Keys.{key_cmp};
ghost use Rattle.al_moves.specs.Totals.{counted_anew, share_at};

use al_base::Key;
use al_overlay::{Held, share_of};
use al_rewards::{Share, Totals};
use al_rows::Row;
use std::collections::BTreeMap;

// An account's share; a row of another kind has none.
fn share_at(row: &Option<Row>) -> Option<Share>
    ensures { result ≡ share_at row.now }
{
    match row {
        Some(Row::Account(r)) => Some(share_of(r)),
        Some(Row::Asset(_)) | Some(Row::App(_)) | Some(Row::Box(_)) | None => None,
    }
}

/// The totals with each row now in place of what stood there before the block.
pub fn totals_of(before: Totals, rows: &BTreeMap<Key, Held>) -> Totals
    ensures value { result ≡ counted_anew before rows.now.entries }
    ensures ordered { IsOrdered key_cmp rows.now }
{
    let mut totals = before;
    for (_, held) in rows {
        let old = share_at(&held.block);
        let new = share_at(&held.row);
        totals.change(old.as_ref(), new.as_ref());
    }
    totals
}
