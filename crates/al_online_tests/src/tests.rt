ghost use Rattle.std.specs.Prelude.{IfOk};
ghost use Rattle.al_online.specs.Memory.{IsEachOnce};

use al_base::{Address, OnlineChange, OnlineChanges, OnlineData};
use al_online::{OnlineMemory, RoundParams, Stake};
use std::alloc::{AllocError, Global};
use std::process::Abort;
use std::test::*;

const A: Address = Address([1; 32]);

const B: Address = Address([2; 32]);

/// An account that is online, with keys up to a round, where 0 is no last round.
fn online(balance: u64, last: u64) -> Option<OnlineData> {
    Some(OnlineData {
        balance,
        base: 0,
        first: 1,
        last,
        dilution: 10_000,
        vote: [7; 32],
        selection: [8; 32],
    })
}

/// What A and B have become.
fn both(
    alloc: Global,
    a: Option<OnlineData>,
    b: Option<OnlineData>,
) -> Result<OnlineChanges, AllocError>
    ensures { IfOk result IsEachOnce }
{
    let mut changes = OnlineChanges::new(alloc);
    changes.push(OnlineChange { address: A, now: a })?;
    changes.push(OnlineChange { address: B, now: b })?;
    Ok(changes)
}

/// What one account has become.
fn one(
    alloc: Global,
    address: Address,
    now: Option<OnlineData>,
) -> Result<OnlineChanges, AllocError>
    ensures { IfOk result IsEachOnce }
{
    let mut changes = OnlineChanges::new(alloc);
    changes.push(OnlineChange { address, now })?;
    Ok(changes)
}

/// Nothing has changed.
fn none(alloc: Global) -> OnlineChanges
    ensures { IsEachOnce result }
{
    OnlineChanges::new(alloc)
}

/// Pushes the next round.
fn push<R: Abort>(
    rt: &R,
    memory: &mut OnlineMemory,
    level: u64,
    changes: &OnlineChanges,
) -> Result<(), AllocError>
    requires { IsEachOnce changes.now }
{
    let top = memory.top();
    assert!(rt; top < 1_000_000);
    memory.push(top + 1, level, changes)
}

/// Takes the last round back.
fn take_back<R: Abort>(rt: &R, memory: &mut OnlineMemory) {
    assert!(rt; memory.base() < memory.top());
    memory.take_back();
}

/// Forgets the rounds below one.
fn prune<R: Abort>(rt: &R, memory: &mut OnlineMemory, from: u64) {
    assert!(rt; memory.base() <= from && from <= memory.top());
    memory.prune(from);
}

/// The stake of an account after a round.
fn stake<R: Abort>(rt: &R, memory: &OnlineMemory, who: &Address, round: u64) -> Option<u64> {
    assert!(rt; memory.base() <= round && round <= memory.top());
    match memory.at(who, round) {
        Some(found) => Some(found.stake),
        None => None,
    }
}

/// The stake of all accounts after a round.
fn all<R: Abort>(rt: &R, memory: &OnlineMemory, round: u64) -> u64 {
    assert!(rt; memory.base() <= round && round <= memory.top());
    memory.params(round).online
}

/// The stake after a round that may vote.
fn voting<R: Abort>(rt: &R, memory: &OnlineMemory, round: u64, vote: u64) -> u64 {
    assert!(rt; memory.base() <= round && round <= memory.top());
    memory.circulation(round, vote)
}

// Keys up to 500 and 499: from the round after its last one an account votes no more.
#[test]
fn look_back(rt: HostRuntime) -> Result<(), Fail> {
    let start = both(rt.alloc(), online(5_000_000, 500), online(3_000_000, 499))?;
    let memory = OnlineMemory::new(rt.alloc(), 380, 0, &start)?;
    for (vote, money) in [(0, 8_000_000), (499, 8_000_000), (500, 5_000_000), (501, 0)] {
        assert_eq!(rt; voting(&rt, &memory, 380, vote), money, "vote {vote}");
    }
    assert_eq!(rt;
        memory.params(380),
        RoundParams {
            level: 0,
            online: 8_000_000
        }
    );
    assert_eq!(rt;
        memory.at(&A, 380),
        Some(Stake {
            stake: 5_000_000,
            first: 1,
            last: 500,
            dilution: 10_000
        })
    );
    assert_eq!(rt; memory.at(&Address([3; 32]), 380), None);
    assert_eq!(rt; (memory.base(), memory.top()), (380, 380));
    Ok(())
}

// Keys with no last round, and keys whose last round is the greatest.
#[test]
fn keys_without_end(rt: HostRuntime) -> Result<(), Fail> {
    let start = both(
        rt.alloc(),
        online(5_000_000, 0),
        online(3_000_000, u64::MAX),
    )?;
    let memory = OnlineMemory::new(rt.alloc(), 0, 0, &start)?;
    for vote in [0, 1, u64::MAX] {
        assert_eq!(rt; voting(&rt, &memory, 0, vote), 8_000_000, "vote {vote}");
    }
    Ok(())
}

// Pending rewards are those at the level of the round. An account that went offline stays in the
// rounds before.
#[test]
fn each_round_has_its_own(rt: HostRuntime) -> Result<(), Fail> {
    let start = both(rt.alloc(), online(5_999_999, 500), online(3_000_000, 500))?;
    let mut memory = OnlineMemory::new(rt.alloc(), 10, 0, &start)?;
    push(&rt, &mut memory, 2, &one(rt.alloc(), B, None)?)?;
    push(
        &rt,
        &mut memory,
        3,
        &both(rt.alloc(), online(9, 500), online(1_000_000, 400))?,
    )?;
    push(&rt, &mut memory, 7, &none(rt.alloc()))?;
    let expected = [
        (10, Some(5_999_999), Some(3_000_000), 8_999_999, 8_999_999),
        (11, Some(6_000_009), None, 6_000_009, 6_000_009),
        (12, Some(9), Some(1_000_003), 1_000_012, 9),
        (13, Some(9), Some(1_000_007), 1_000_016, 9),
    ];
    for (round, a, b, money, vote) in expected {
        assert_eq!(rt; stake(&rt, &memory, &A, round), a, "round {round}");
        assert_eq!(rt; stake(&rt, &memory, &B, round), b, "round {round}");
        assert_eq!(rt; all(&rt, &memory, round), money, "round {round}");
        assert_eq!(rt; voting(&rt, &memory, round, 401), vote, "round {round}");
    }
    Ok(())
}

// The last round taken back and another pushed, down to the base.
#[test]
fn taken_back(rt: HostRuntime) -> Result<(), Fail> {
    let mut memory = OnlineMemory::new(rt.alloc(), 5, 0, &one(rt.alloc(), A, online(4, 0))?)?;
    push(&rt, &mut memory, 0, &one(rt.alloc(), A, None)?)?;
    push(
        &rt,
        &mut memory,
        0,
        &both(rt.alloc(), online(7, 0), online(8, 0))?,
    )?;
    assert_eq!(rt; (memory.top(), all(&rt, &memory, 7)), (7, 15));
    take_back(&rt, &mut memory);
    assert_eq!(rt; (memory.top(), all(&rt, &memory, 6)), (6, 0));
    push(&rt, &mut memory, 0, &one(rt.alloc(), B, online(9, 0))?)?;
    assert_eq!(rt; (memory.top(), all(&rt, &memory, 7)), (7, 9));
    take_back(&rt, &mut memory);
    take_back(&rt, &mut memory);
    assert_eq!(rt;
        (memory.base(), memory.top(), all(&rt, &memory, 5)),
        (5, 5, 4)
    );
    Ok(())
}

// Nothing is forgotten at the base, and all but the last round at the top.
#[test]
fn pruned(rt: HostRuntime) -> Result<(), Fail> {
    let mut memory = OnlineMemory::new(rt.alloc(), 0, 0, &one(rt.alloc(), A, online(100, 0))?)?;
    for money in 101..105 {
        push(&rt, &mut memory, 0, &one(rt.alloc(), A, online(money, 0))?)?;
    }
    prune(&rt, &mut memory, 0);
    assert_eq!(rt;
        (memory.base(), memory.top(), all(&rt, &memory, 0)),
        (0, 4, 100)
    );
    prune(&rt, &mut memory, 3);
    assert_eq!(rt; (memory.base(), memory.top()), (3, 4));
    assert_eq!(rt; (all(&rt, &memory, 3), all(&rt, &memory, 4)), (103, 104));
    push(&rt, &mut memory, 0, &one(rt.alloc(), B, online(1, 0))?)?;
    take_back(&rt, &mut memory);
    prune(&rt, &mut memory, 4);
    assert_eq!(rt;
        (memory.base(), memory.top(), all(&rt, &memory, 4)),
        (4, 4, 104)
    );
    push(&rt, &mut memory, 0, &one(rt.alloc(), B, online(1, 0))?)?;
    assert_eq!(rt; all(&rt, &memory, 5), 105);
    Ok(())
}

// Stakes that pass 64 bits are the greatest number; what does not vote does not count.
#[test]
fn greatest(rt: HostRuntime) -> Result<(), Fail> {
    let start = both(rt.alloc(), online(u64::MAX, 5), online(2_000_000, 9))?;
    let memory = OnlineMemory::new(rt.alloc(), 1, 3, &start)?;
    assert_eq!(rt; stake(&rt, &memory, &A, 1), Some(u64::MAX));
    assert_eq!(rt; all(&rt, &memory, 1), u64::MAX);
    assert_eq!(rt; voting(&rt, &memory, 1, 6), 2_000_006);
    Ok(())
}

// The address of the account that a round changes: each of 256, far from in order.
fn changed_in(round: u64) -> Address {
    Address([(round % 256 * 77 % 256) as u8; 32])
}

// 256 accounts come one by one, out of order, and every other one goes again.
#[test]
fn many_accounts(rt: HostRuntime) -> Result<(), Fail> {
    let mut memory = OnlineMemory::new(rt.alloc(), 0, 0, &none(rt.alloc()))?;
    for round in 1..257 {
        push(
            &rt,
            &mut memory,
            0,
            &one(rt.alloc(), changed_in(round), online(round, round))?,
        )?;
    }
    for round in 1..129 {
        push(
            &rt,
            &mut memory,
            0,
            &one(rt.alloc(), changed_in(2 * round), None)?,
        )?;
    }
    assert_eq!(rt; all(&rt, &memory, 256), 32_896);
    assert_eq!(rt; voting(&rt, &memory, 256, 101), 27_846);
    assert_eq!(rt; all(&rt, &memory, 384), 16_384);
    for round in 1..257 {
        let left = if round % 2 == 1 { Some(round) } else { None };
        assert_eq!(rt;
            stake(&rt, &memory, &changed_in(round), 256),
            Some(round),
            "round {round}"
        );
        assert_eq!(rt;
            stake(&rt, &memory, &changed_in(round), 384),
            left,
            "round {round}"
        );
    }
    Ok(())
}
