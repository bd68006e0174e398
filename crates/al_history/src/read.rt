//! The memory of the last rounds, from a history.
ghost use Rattle.std.specs.Prelude.{◌≡◌, ℕ, List, suc, ◌+◌, ◌-◌, ◌≤◌, ◌^◌, IfOk, OnOk, length};
ghost use Rattle.std.specs.List.{prefix_len};
ghost use Rattle.std.specs.Option.{unwrap_or};
ghost use Rattle.al_base.specs.declared.online.Version.{Version};
ghost use Rattle.al_online.specs.Laws.{Shows, Snaps};
ghost use Rattle.al_online.specs.Memory.{top};
ghost use Rattle.al_history.specs.History.{IsHistory, level_of};
ghost use Rattle.al_history.specs.Reading.{IsReadTo, is_up_to};

use crate::once::each_once;
use al_base::{History, Levels, Version};
use al_online::OnlineMemory;
use std::alloc::{AllocError, Global};

/// The memory of a round and of the 320 before it, or of all from 0 on where there are fewer, as a
/// history tells them. Whatever the lists hold, the rounds are these, and a round whose level is
/// not told has level 0. Errors: no memory.
pub fn memory_of(
    alloc: Global,
    history: &History,
    levels: &Levels,
    round: u64,
) -> Result<OnlineMemory, AllocError>
    requires most { round ≤ 2 ^ 62 }
    ensures base { IfOk result (λ m. m.base ≡ round - 320) }
    ensures top { IfOk result (λ m. top m ≡ round) }
    ensures shows { IfOk result (λ m. (snaps : Snaps) (low : ℕ) → IsHistory history.now levels.now snaps low round → low ≤ round - 320 → Shows m snaps) }
{
    let base = round.saturating_sub(320);
    let (mut memory, mut rest) = begin(alloc, history.as_slice(), levels, base)?;
    for next in base + 1..round + 1 {
        rest = push_next(alloc, &mut memory, rest, levels, next)?;
    }
    Ok(memory)
}

// The memory of one round alone, and the versions of later rounds.
fn begin<'a>(
    alloc: Global,
    versions: &'a [Version],
    levels: &Levels,
    base: u64,
) -> Result<(OnlineMemory, &'a [Version]), AllocError>
    ensures base { IfOk result (λ r. r.0.base ≡ base) }
    ensures top { IfOk result (λ r. top r.0 ≡ base) }
    ensures read { IfOk result (λ r. (snaps : Snaps) (low to : ℕ) → IsHistory versions.now levels.now snaps low to → low ≤ base → base ≤ to → IsReadTo versions.now snaps r.1.now r.0) }
{
    let (first, later) = versions.split_at(count_to(versions, base));
    let start = each_once(alloc, first)?;
    let memory = OnlineMemory::new(alloc, base, level_of(levels, base), &start)?;
    Ok((memory, later))
}

// Adds the next round to a memory, by what is told of it in the versions that are still to come.
// They are left without its own.
fn push_next<'a>(
    alloc: Global,
    memory: &mut OnlineMemory,
    rest: &'a [Version],
    levels: &Levels,
    next: u64,
) -> Result<&'a [Version], AllocError>
    requires { next ≡ suc (top memory.old) }
    ensures base { OnOk result (memory.new.base ≡ memory.old.base) }
    ensures top { OnOk result (top memory.new ≡ next) }
    ensures read { IfOk result (λ later. (vs : List Version) (snaps : Snaps) (low to : ℕ) → IsHistory vs levels.now snaps low to → low ≤ memory.old.base → next ≤ to → IsReadTo vs snaps rest.now memory.old → IsReadTo vs snaps later.now memory.new) }
{
    let (now, later) = rest.split_at(count_to(rest, next));
    let changes = each_once(alloc, now)?;
    memory.push(next, level_of(levels, next), &changes)?;
    Ok(later)
}

// How many versions there are before the first of a round above this one.
fn count_to(versions: &[Version], round: u64) -> usize
    ensures value { result ≡ prefix_len (is_up_to round) versions.now }
    ensures within { result ≤ length versions.now }
{
    versions.iter().take_while(|v| v.round <= round).count()
}

// The level that is told of a round, or 0.
fn level_of(levels: &Levels, round: u64) -> u64
    ensures { result ≡ unwrap_or (level_of round levels.now) 0 }
{
    match levels.as_slice().iter().find(|l| l.round == round) {
        Some(found) => found.level,
        None => 0,
    }
}
