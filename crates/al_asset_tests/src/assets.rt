use crate::world::Act::{Claw, Close, Create, Destroy, Freeze, Manage, Send, Thaw};
use crate::world::Has::{Free, Frozen, No};
use crate::world::{Act, Has, USERS, World, begin, count, creator, holding, index, item, next};
use al_base::{Address, CreatorChange, CreatorChanges};
use al_moves::Rule;
use al_txn::Items;
use std::alloc::{AllocError, Global};
use std::test::*;

/// A transaction: who sends it, what it does, and the asset that it is about.
type Sent = (u8, Act, u64);

/// A block of one transaction about asset 1: who sends it, and what it does; the number of the rule
/// that it breaks and the account that this names, both 0 for none; and what the users hold then.
type Turn = (u8, Act, u64, u8, [Has; 3]);

/// A holding is frozen from the start, as the asset says, and later by its freeze address. Only a
/// clawback and a close to the creator pass over that.
const FROZEN: [Turn; 24] = [
    (3, Create(true, 3), 0, 0, [Free(100), No, No]),
    (3, Send(4, 1), 50, 4, [Free(100), No, No]),
    (4, Send(4, 0), 0, 0, [Free(100), Frozen(0), No]),
    (3, Send(4, 10), 51, 4, [Free(100), Frozen(0), No]),
    (4, Thaw(4), 55, 0, [Free(100), Frozen(0), No]),
    (3, Thaw(4), 0, 0, [Free(100), Free(0), No]),
    (3, Send(4, 101), 52, 0, [Free(100), Free(0), No]),
    (3, Send(4, 10), 0, 0, [Free(90), Free(10), No]),
    (3, Freeze(5), 50, 5, [Free(90), Free(10), No]),
    (3, Freeze(4), 0, 0, [Free(90), Frozen(10), No]),
    (4, Send(3, 5), 51, 4, [Free(90), Frozen(10), No]),
    (4, Claw(3, 4, 5), 49, 0, [Free(90), Frozen(10), No]),
    (3, Claw(4, 3, 5), 0, 0, [Free(95), Frozen(5), No]),
    (3, Claw(3, 4, 5), 0, 0, [Free(90), Frozen(10), No]),
    (3, Thaw(4), 0, 0, [Free(90), Free(10), No]),
    // The creator's own holding is frozen.
    (3, Freeze(3), 0, 0, [Frozen(90), Free(10), No]),
    (4, Send(3, 5), 51, 3, [Frozen(90), Free(10), No]),
    (4, Close(3), 0, 0, [Frozen(100), No, No]),
    // Both ends are frozen.
    (5, Send(5, 0), 0, 0, [Frozen(100), No, Frozen(0)]),
    (3, Claw(3, 5, 7), 0, 0, [Frozen(93), No, Frozen(7)]),
    (4, Send(4, 0), 0, 0, [Frozen(93), Frozen(0), Frozen(7)]),
    (5, Close(4), 51, 5, [Frozen(93), Frozen(0), Frozen(7)]),
    (5, Close(3), 0, 0, [Frozen(100), Frozen(0), No]),
    // A rest of nothing asks nothing of the receiver.
    (4, Close(5), 0, 0, [Frozen(100), No, No]),
];

/// An asset is destroyed while an account still has a holding of nothing, which it closes to an
/// account that has none.
const DESTROYED: [Turn; 12] = [
    (3, Create(false, 3), 0, 0, [Free(100), No, No]),
    (5, Send(5, 0), 0, 0, [Free(100), No, Free(0)]),
    (4, Destroy, 47, 0, [Free(100), No, Free(0)]),
    (3, Send(5, 1), 0, 0, [Free(99), No, Free(1)]),
    (3, Destroy, 48, 0, [Free(99), No, Free(1)]),
    (5, Send(3, 1), 0, 0, [Free(100), No, Free(0)]),
    (3, Destroy, 0, 0, [No, No, Free(0)]),
    (4, Send(4, 0), 46, 0, [No, No, Free(0)]),
    (3, Freeze(5), 46, 0, [No, No, Free(0)]),
    (3, Destroy, 46, 0, [No, No, Free(0)]),
    (5, Close(6), 0, 0, [No, No, No]),
    (5, Close(6), 50, 5, [No, No, No]),
];

/// The creator closes nothing, and nobody closes units to itself.
const CLOSED: [Turn; 10] = [
    (3, Create(false, 3), 0, 0, [Free(100), No, No]),
    (4, Send(4, 0), 0, 0, [Free(100), Free(0), No]),
    (4, Close(4), 0, 0, [Free(100), No, No]),
    (4, Send(4, 0), 0, 0, [Free(100), Free(0), No]),
    (3, Send(4, 10), 0, 0, [Free(90), Free(10), No]),
    (4, Close(4), 54, 0, [Free(90), Free(10), No]),
    (4, Close(5), 50, 5, [Free(90), Free(10), No]),
    (3, Close(4), 54, 0, [Free(90), Free(10), No]),
    (3, Close(3), 54, 0, [Free(90), Free(10), No]),
    (4, Close(3), 0, 0, [Free(100), No, No]),
];

/// Only the manager configures an asset, and nobody where it was given up.
const MANAGED: [Turn; 8] = [
    (3, Create(false, 4), 0, 0, [Free(100), No, No]),
    (3, Manage(3), 47, 0, [Free(100), No, No]),
    (4, Manage(5), 0, 0, [Free(100), No, No]),
    (4, Manage(4), 47, 0, [Free(100), No, No]),
    (5, Manage(0), 0, 0, [Free(100), No, No]),
    (5, Manage(5), 47, 0, [Free(100), No, No]),
    (3, Manage(3), 47, 0, [Free(100), No, No]),
    (3, Destroy, 47, 0, [Free(100), No, No]),
];

// The number of a broken rule, and the account that it names.
fn broken_by(rule: Option<Rule>) -> (u64, u8) {
    let Some(rule) = rule else {
        return (0, 0);
    };
    match rule.who {
        Some(who) => (rule.number, who.0[0]),
        None => (rule.number, 0),
    }
}

// Whether the users hold this of asset 1, and are counted for it.
fn hold(world: &World, wanted: &[Has; 3]) -> bool {
    for (who, has) in USERS.into_iter().zip(wanted) {
        let counted = if *has == No { 0 } else { 1 };
        if holding(world, who, 1) != *has || count(world, who) != counted {
            return false;
        }
    }
    true
}

fn items_of(alloc: Global, world: &World, all: &[Sent]) -> Result<Items, AllocError> {
    let mut items = Items::new(alloc);
    for (who, act, asset) in all {
        items.push(item(alloc, world, *who, *act, *asset)?)?;
    }
    Ok(items)
}

// The place of the first turn that does something else than it says.
fn first_other(alloc: Global, turns: &[Turn]) -> Result<Option<usize>, Fail> {
    let mut world = begin(alloc)?;
    for (place, (who, act, number, named, holdings)) in turns.iter().enumerate() {
        let items = items_of(alloc, &world, &[(*who, *act, 1)])?;
        let rule = next(alloc, &mut world, items)?.err();
        if broken_by(rule) != (*number, *named) || !hold(&world, holdings) {
            return Ok(Some(place));
        }
    }
    Ok(None)
}

#[test]
fn holdings(rt: HostRuntime) -> Result<(), Fail> {
    let alloc = rt.alloc();
    assert_eq!(rt; first_other(alloc, &FROZEN)?, None, "of the frozen");
    assert_eq!(rt; first_other(alloc, &DESTROYED)?, None, "of the destroyed");
    assert_eq!(rt; first_other(alloc, &CLOSED)?, None, "of the closed");
    assert_eq!(rt; first_other(alloc, &MANAGED)?, None, "of the managed");
    Ok(())
}

/// Blocks, and the creators that differ from before each, 0 where the asset is gone. An asset has
/// the number of the transaction that creates it.
const CREATORS: [(&[Sent], &[(u64, u8)]); 6] = [
    (&[(3, Create(false, 3), 0)], &[(1, 3)]),
    (&[(4, Send(4, 0), 1), (3, Send(4, 9), 1)], &[]),
    (&[(4, Close(3), 1), (3, Destroy, 1)], &[(1, 0)]),
    // Created and gone in one block.
    (&[(3, Create(false, 3), 0), (3, Destroy, 6)], &[]),
    (
        &[(4, Create(false, 4), 0), (3, Create(true, 3), 0)],
        &[(8, 4), (9, 3)],
    ),
    (
        &[(5, Create(false, 5), 0), (4, Destroy, 8)],
        &[(8, 0), (10, 5)],
    ),
];

// The account that a byte names, 0 naming none.
fn named(byte: u8) -> Option<Address> {
    match byte {
        0 => None,
        _ => Some(Address([byte; 32])),
    }
}

// Whether these creators differ.
fn are_creators(changes: &[CreatorChange], wanted: &[(u64, u8)]) -> bool {
    if changes.len() != wanted.len() {
        return false;
    }
    for (change, (id, who)) in changes.iter().zip(wanted) {
        if change.id != *id || change.now != named(*who) {
            return false;
        }
    }
    true
}

// What the next block of these transactions does to creators.
fn follow(alloc: Global, world: &mut World, all: &[Sent]) -> Result<CreatorChanges, Fail> {
    let items = items_of(alloc, world, all)?;
    Ok(next(alloc, world, items)?.ok().ok_or("a block")?)
}

#[test]
fn creators(rt: HostRuntime) -> Result<(), Fail> {
    let mut world = begin(rt.alloc())?;
    for (place, (all, wanted)) in CREATORS.iter().enumerate() {
        let changes = follow(rt.alloc(), &mut world, all)?;
        assert!(rt;
            are_creators(changes.as_slice(), wanted),
            "of block {place}"
        );
    }
    Ok(())
}

// Whether two chains show the same creators of the assets 1 to 11.
fn agree(world: &World, other: &World) -> bool {
    for asset in 1..12 {
        if creator(world, asset) != creator(other, asset) {
            return false;
        }
    }
    true
}

// Whether these are creators now.
fn show(world: &World, wanted: &[(u64, u8)]) -> bool {
    for (asset, who) in wanted {
        if creator(world, *asset) != named(*who) {
            return false;
        }
    }
    true
}

// The rows of a chain that has an index from the start show the creators that those without one
// show. So do these rows with an index that is made at the end.
#[test]
fn indexed_creators(rt: HostRuntime) -> Result<(), Fail> {
    let mut world = begin(rt.alloc())?;
    let mut plain = begin(rt.alloc())?;
    index(&mut world)?;
    for (place, (all, wanted)) in CREATORS.iter().enumerate() {
        follow(rt.alloc(), &mut world, all)?;
        follow(rt.alloc(), &mut plain, all)?;
        assert!(rt; agree(&world, &plain), "after block {place}");
        assert!(rt; show(&world, wanted), "of block {place}");
    }
    index(&mut plain)?;
    assert!(rt; agree(&world, &plain));
    assert!(rt; show(&plain, &[(1, 0), (6, 0), (8, 0), (9, 3), (10, 5)]));
    Ok(())
}
