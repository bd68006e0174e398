//! The transactions of a round in full.
ghost use Rattle.std.specs.Prelude.{◌≡◌, ◌≤◌, ◌^◌, IfOk};
ghost use Rattle.al_base.specs.Keys.{number_bytes};
ghost use Rattle.al_generator.specs.Items.{item_of, items_of};

use crate::bodies::{body_of, effects_of, nothing};
use crate::turns::Made;
use al_base::{Address, Bytes, Hash};
use al_txn::{Item, Items, Txn};
use std::alloc::{AllocError, Global};

// The number of a transaction as its note.
#[tactic(auto, unfolding(al_base::specs::Keys::number_bytes))]
fn note_of(alloc: Global, number: u64) -> Result<Bytes, AllocError>
    ensures { IfOk result (λ note. note ≡ number_bytes number) }
{
    Bytes::of(alloc, &number.to_be_bytes())
}

// A transaction of a round.
fn item_of(alloc: Global, round: u64, genesis: &Hash, made: &Made) -> Result<Item, AllocError>
    requires { round ≤ 2 ^ 62 }
    ensures { IfOk result (λ item. item ≡ item_of round genesis.now made.now) }
{
    let note = note_of(alloc, made.number)?;
    let effects = effects_of(alloc, made.action)?;
    let txn = Txn {
        sender: made.sender,
        fee: 1_000,
        first: round,
        last: round + 10,
        genesis_id: nothing(alloc),
        genesis_hash: *genesis,
        note,
        lease: [0; 32],
        rekey: Address([0; 32]),
        group: [0; 32],
        body: body_of(alloc, round, made),
    };
    Ok(Item { txn, effects })
}

/// The transactions of a round.
pub(crate) fn items_of(
    alloc: Global,
    round: u64,
    genesis: &Hash,
    made: &[Made],
) -> Result<Items, AllocError>
    requires { round ≤ 2 ^ 62 }
    ensures { IfOk result (λ items. items ≡ items_of round genesis.now made.now) }
{
    let mut items = Items::new(alloc);
    for one in made {
        items.push(item_of(alloc, round, genesis, one)?)?;
    }
    Ok(items)
}
