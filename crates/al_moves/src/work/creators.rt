//! The creators that a work changed.
ghost use Rattle.std.specs.Prelude.{◌≡◌, ◌≤◌, ℕ, true, IfOk, map};
ghost use Rattle.std.specs.BTreeMap.{IsOrdered};
ghost use Rattle.std.specs.List.Sorted.{IsStrictlySortedBy};
ghost use Rattle.std.specs.Ordering.{nat_cmp};
ghost use Rattle.al_moves.specs.Created.{AreCreatorChanges, changed_creators, creator_change_of, same_creator};
ghost use Rattle.al_overlay.specs.Work.{HasOneCreator, IsCounted, IsNoRule, Looks};

use super::Work;
use al_base::{Address, CreatorChange, CreatorChanges, Key};
use al_overlay::{Creators, Held, Stop, creator_noted, creator_viewed};
use al_rows::RowView;
use std::alloc::Global;
use std::collections::BTreeMap;

impl<V: RowView> Work<V> {
    /// The creators of assets and applications that differ from before the block, in rising ids.
    /// It asks the view once for each id of which a row was set, and goes over no rows.
    pub fn creators(&mut self) -> Result<CreatorChanges, Stop<V::Fault>>
        ensures looks { Looks V.tells self.old self.new result }
        ensures changes { V.tells ≡ true → ((id : ℕ) → HasOneCreator self.old.block id) → IfOk result (λ cs. AreCreatorChanges self.old.block self.old.now (map creator_change_of cs)) }
        ensures ordered { IfOk result (λ cs. IsStrictlySortedBy nat_cmp (map (λ c. c.id) cs)) }
    {
        creator_changes(self.alloc, &mut self.view, &self.creators, &self.rows)
    }
}

// The creators that differ from before the block, of the ids of which something is noted.
fn creator_changes<V: RowView>(
    alloc: Global,
    view: &mut V,
    creators: &Creators,
    rows: &BTreeMap<Key, Held>,
) -> Result<CreatorChanges, Stop<V::Fault>>
    ensures same { V.tells ≡ true → V.rows view.new ≡ V.rows view.old }
    ensures lender { V.lender view.new ≡ V.lender view.old }
    ensures later { V.failures view.old ≤ V.failures view.new }
    ensures cause { IsCounted result (V.failures view.old) (V.failures view.new) }
    ensures no_rule { IsNoRule result }
    ensures changes { V.tells ≡ true → IfOk result (λ cs. map creator_change_of cs ≡ changed_creators (V.rows view.old) rows.now.entries creators.now.entries) }
    ensures ordered { IfOk result (λ cs. IsStrictlySortedBy nat_cmp (map (λ c. c.id) cs)) }
    ensures keys { IsOrdered nat_cmp creators.now }
{
    let mut out = CreatorChanges::new(alloc);
    for (id, noted) in creators {
        let before = creator_viewed(view, *id)?;
        let now = creator_noted(*id, before, *noted, rows);
        if !same_creator(before, now) {
            out.push(CreatorChange { id: *id, now })?;
        }
    }
    Ok(out)
}

// Whether both are one address, or both are none.
fn same_creator(before: Option<Address>, now: Option<Address>) -> bool
    ensures { result ≡ same_creator before now }
{
    match (before, now) {
        (None, None) => true,
        (Some(before), Some(now)) => before == now,
        _ => false,
    }
}
