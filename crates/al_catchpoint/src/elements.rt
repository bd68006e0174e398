//! The trie of all rows, and its root.
ghost use Rattle.std.specs.Prelude.{◌≡◌, ◌<◌, Ok, OnOk, IfOk};
ghost use Rattle.std.specs.Option.{option_copied};
ghost use Rattle.al_catch.specs.Catching.{elements_of, root_of_rows};
ghost use Rattle.al_catchpoint.specs.Gathering.{EndsAt, Gathers, with_rows};
ghost use Rattle.al_eval.specs.State.{State, replay};
ghost use Rattle.al_states.specs.Keeping.{IsNewest, IsStates, held};
ghost use Rattle.al_trie.specs.Tries.{root, with_element};

use al_base::{Hash, Key};
use al_digest::Steps;
use al_row_records::element;
use al_rows::Keyed;
use al_states::States;
use al_trie::{Element, Trie, TrieFault};
use std::alloc::{AllocError, Global};
use std::marker::Brand;
use std::sync::ledger::{Blank, Ledger};

/// How many rows are taken at once.
const PIECE: u32 = 512;

/// The root of all rows after the last block.
///
/// # Errors
///
/// Only where memory is short.
pub(crate) fn root_of(alloc: Global, states: &States) -> Result<Hash, AllocError>
    requires states { IsStates states.now }
    requires newest { IsNewest states.now }
    ensures { IfOk result (λ hash. (s : State) → replay (held states.now).origin (held states.now).blocks ≡ Ok s → hash ≡ root_of_rows s.rows) }
{
    let mut trie = all_elements(alloc, states)?;
    root::<Brand>(&mut trie, Blank::new(1))
}

/// The elements of all rows after the last block.
fn all_elements(alloc: Global, states: &States) -> Result<Trie, AllocError>
    requires states { IsStates states.now }
    requires newest { IsNewest states.now }
    ensures { IfOk result (λ trie. (s : State) → replay (held states.now).origin (held states.now).blocks ≡ Ok s → trie.elements ≡ elements_of s.rows) }
{
    let mut trie = Trie::new(alloc);
    let mut after = None;
    'pieces: while let Some(last) = add_next(alloc, states, &mut trie, after.as_ref())? {
        after = Some(last);
    }
    Ok(trie)
}

/// Adds the elements of the next rows above a key, or of the first, and gives the last key of
/// them; none where there is no row.
fn add_next(
    alloc: Global,
    states: &States,
    trie: &mut Trie,
    after: Option<&Key>,
) -> Result<Option<Key>, AllocError>
    requires states { IsStates states.now }
    requires newest { IsNewest states.now }
    ensures { IfOk result (λ last. (s : State) → replay (held states.now).origin (held states.now).blocks ≡ Ok s → Gathers s.rows (option_copied after.entry) trie.old.elements last trie.new.elements) }
{
    let rows = states.rows_above(after, PIECE)?;
    add_rows(alloc, trie, rows.as_slice())?;
    Ok(last_key(rows.as_slice()))
}

/// Adds the elements of rows. One that is there stays.
fn add_rows(alloc: Global, trie: &mut Trie, rows: &[Keyed]) -> Result<(), AllocError>
    ensures { OnOk result (trie.new.elements ≡ with_rows trie.old.elements rows.now) }
{
    for row in rows {
        add(trie, &element(alloc, &row.key, &row.stored)?)?;
    }
    Ok(())
}

/// Adds an element, which stays where it is there.
#[tactic(auto, using(crate::proofs::Gathered::stayed))]
fn add(trie: &mut Trie, element: &Element) -> Result<(), AllocError>
    ensures { OnOk result (trie.new.elements ≡ with_element trie.old.elements element.now) }
{
    match trie.add(element) {
        Ok(()) | Err(TrieFault::AlreadyThere) => Ok(()),
        Err(_) => Err(AllocError),
    }
}

/// The key of the last of some rows, if there is one.
fn last_key(rows: &[Keyed]) -> Option<Key>
    ensures { EndsAt rows.now result }
{
    let (last, _) = rows.split_last()?;
    Some(last.key)
}

/// The root of a trie.
fn root<L: Ledger>(trie: &mut Trie, blank: Blank) -> Result<Hash, AllocError>
    requires name { blank.name ≡ L.name }
    requires parts { blank.parts ≡ L.parts }
    requires some { 0 < blank.parts }
    ensures { IfOk result (λ hash. hash ≡ root trie.old.elements) }
{
    let mut steps = Steps::<L>::new(blank);
    trie.root(&mut steps)
}
