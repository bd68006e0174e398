//! Which versions of the history are kept.
ghost use Rattle.std.specs.Prelude.{◌≡◌, ◌||◌, IfOk, OnOk, filter};
ghost use Rattle.al_keeper.specs.Newest.{Outdates, is_current, is_newer, is_outdated, is_settled};
ghost use Rattle.al_tables.specs.Tables.{kept_versions, replaces};
ghost use Rattle.al_base.specs.declared.online.Version.{Version};

use al_base::{Address, History, Version};
use sqlite_items::Items;
use std::alloc::{AllocError, Global};
use std::collections::BTreeMap;

// Whether every round from 320 below this one on sees a version.
fn is_settled(version: &Version, to: u64) -> bool
    ensures { result ≡ is_settled to version.entry.now }
{
    version.round <= to && 320 <= to - version.round
}

// Whether no version under its address replaces a version.
fn is_current(newest: &BTreeMap<Address, u64>, version: &Version) -> bool
    ensures { result ≡ is_current newest.now version.entry.now }
{
    match newest.get(&version.address) {
        Some(round) => *round <= version.round,
        None => true,
    }
}

// Whether a version is above what stands under its address.
fn is_newest(newest: &BTreeMap<Address, u64>, version: &Version) -> bool
    ensures { result ≡ is_newer newest.now version.entry.now }
{
    match newest.get(&version.address) {
        Some(round) => *round < version.round,
        None => true,
    }
}

// Lets a version replace others of its address.
fn note(newest: &mut BTreeMap<Address, u64>, version: &Version, to: u64) -> Result<(), AllocError>
    ensures { OnOk result ((v : Version) → is_outdated newest.new v ≡ (is_outdated newest.old v || replaces to v version.entry.now)) }
{
    if !is_settled(version, to) || !is_newest(newest, version) {
        return Ok(());
    }
    match newest.insert(version.address, version.round) {
        Ok(_) => Ok(()),
        Err(_) => Err(AllocError),
    }
}

// Under each address the greatest round that is settled.
fn newest_of(
    alloc: Global,
    versions: &[Version],
    to: u64,
) -> Result<BTreeMap<Address, u64>, AllocError>
    ensures { IfOk result (Outdates to versions.now) }
{
    let mut newest = BTreeMap::new(alloc);
    for version in versions {
        note(&mut newest, version, to)?;
    }
    Ok(newest)
}

// The versions that nothing replaces.
fn current(
    alloc: Global,
    newest: &BTreeMap<Address, u64>,
    versions: &[Version],
) -> Result<History, AllocError>
    ensures { IfOk result (λ vs. vs ≡ filter (is_current newest.now) versions.now) }
{
    let mut out = Items::new(alloc);
    for version in versions {
        if is_current(newest, version) {
            out.push(*version)?;
        }
    }
    Ok(out)
}

/// The versions that are kept at a round.
pub(crate) fn kept_versions(
    alloc: Global,
    versions: &[Version],
    to: u64,
) -> Result<History, AllocError>
    ensures { IfOk result (λ vs. vs ≡ kept_versions to versions.now) }
{
    let newest = newest_of(alloc, versions, to)?;
    current(alloc, &newest, versions)
}
