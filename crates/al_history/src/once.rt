//! What accounts have become by versions, each account once.
ghost use Rattle.std.specs.Prelude.{◌≡◌, List, Option, IfOk, OnOk, map, cond};
ghost use Rattle.std.specs.BTreeMap as tree;
ghost use Rattle.std.specs.BTreeMap.{IsOrdered, is_at};
ghost use Rattle.al_base.specs.Keys.{address_cmp};
ghost use Rattle.al_history.specs.History.{change_of};
ghost use Rattle.al_history.specs.Reading.{AreLatest, ComeToSame, pair_of};
ghost use Rattle.al_online.specs.Memory.{IsEachOnce};

use al_base::{Address, OnlineChange, OnlineChanges, OnlineData, Version};
use std::alloc::{AllocError, Global};
use std::collections::BTreeMap;

/// What the accounts that versions speak of have become by them. Errors: no memory.
pub fn each_once(alloc: Global, versions: &[Version]) -> Result<OnlineChanges, AllocError>
    ensures once { IfOk result IsEachOnce }
    ensures same { IfOk result (λ cs. ComeToSame cs (map change_of versions.now)) }
{
    let latest = latest(alloc, versions)?;
    in_order(alloc, &latest)
}

// The last version of each account.
fn latest(
    alloc: Global,
    versions: &[Version],
) -> Result<BTreeMap<Address, Option<OnlineData>>, AllocError>
    ensures { IfOk result (λ latest. AreLatest (map change_of versions.now) (tree.get address_cmp latest)) }
{
    let mut latest = BTreeMap::new(alloc);
    for version in versions {
        put(&mut latest, version)?;
    }
    Ok(latest)
}

// Puts a version in place of an earlier one of its account.
fn put(
    latest: &mut BTreeMap<Address, Option<OnlineData>>,
    version: &Version,
) -> Result<(), AllocError>
    ensures { OnOk result ((q : _) → tree.get address_cmp latest.new q ≡ cond (is_at (address_cmp version.entry.now.address) q) (Option.Some version.entry.now.now) (tree.get address_cmp latest.old q)) }
{
    latest.insert(version.address, version.now)?;
    Ok(())
}

// The accounts of a map in the order of their addresses.
fn in_order(
    alloc: Global,
    latest: &BTreeMap<Address, Option<OnlineData>>,
) -> Result<OnlineChanges, AllocError>
    ensures items { IfOk result (λ cs. map pair_of cs ≡ latest.now.entries) }
    ensures ordered { IsOrdered address_cmp latest.now }
{
    let mut changes = OnlineChanges::new(alloc);
    for (address, now) in latest {
        changes.push(OnlineChange {
            address: *address,
            now: *now,
        })?;
    }
    Ok(changes)
}
