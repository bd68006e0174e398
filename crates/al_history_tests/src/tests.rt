use al_base::{Address, History, LevelAt, Levels, OnlineData, Version};
use al_history::memory_of;
use al_online::{OnlineMemory, RoundParams};
use std::alloc::{AllocError, Global};
use std::process::Abort;
use std::test::*;

const A: Address = Address([1; 32]);

const B: Address = Address([2; 32]);

const C: Address = Address([3; 32]);

/// An account that is online, with keys up to a round, where 0 is no last round.
fn online(balance: u64, last: u64) -> Option<OnlineData> {
    Some(OnlineData {
        balance,
        base: 0,
        first: 1,
        last,
        dilution: 10_000,
        vote: [7; 32],
        selection: [8; 32],
    })
}

/// A version of an account.
fn version(address: Address, round: u64, now: Option<OnlineData>) -> Version {
    Version {
        address,
        round,
        now,
    }
}

/// A list of levels, each with its round before it.
fn levels(alloc: Global, told: &[(u64, u64)]) -> Result<Levels, AllocError> {
    let mut levels = Levels::new(alloc);
    for (round, level) in told {
        levels.push(LevelAt {
            round: *round,
            level: *level,
        })?;
    }
    Ok(levels)
}

/// The memory of the rounds up to one.
fn read<R: Abort>(
    rt: &R,
    alloc: Global,
    history: &History,
    levels: &Levels,
    round: u64,
) -> Result<OnlineMemory, AllocError> {
    assert!(rt; round <= 1_000_000);
    memory_of(alloc, history, levels, round)
}

/// The stake of an account after a round.
fn stake<R: Abort>(rt: &R, memory: &OnlineMemory, who: &Address, round: u64) -> Option<u64> {
    assert!(rt; memory.base() <= round && round <= memory.top());
    match memory.at(who, round) {
        Some(found) => Some(found.stake),
        None => None,
    }
}

/// The level of a round, and the stake of all accounts after it.
fn params<R: Abort>(rt: &R, memory: &OnlineMemory, round: u64) -> (u64, u64) {
    assert!(rt; memory.base() <= round && round <= memory.top());
    let RoundParams { level, online } = memory.params(round);
    (level, online)
}

/// The stake after a round that may vote.
fn voting<R: Abort>(rt: &R, memory: &OnlineMemory, round: u64, vote: u64) -> u64 {
    assert!(rt; memory.base() <= round && round <= memory.top());
    memory.circulation(round, vote)
}

/// A is online before the base and changes, B comes at the base and goes, C comes at the last round.
fn five(alloc: Global) -> Result<History, AllocError> {
    History::from_slice(
        alloc,
        &[
            version(A, 10, online(5_000_000, 500)),
            version(B, 80, online(3_000_000, 0)),
            version(A, 200, online(7_000_000, 500)),
            version(B, 300, None),
            version(C, 400, online(1_000_000, 0)),
        ],
    )
}

// 321 rounds. Those whose level is not told have level 0.
#[test]
fn last_rounds(rt: HostRuntime) -> Result<(), Fail> {
    let told = levels(rt.alloc(), &[(79, 9), (80, 1), (200, 3), (201, 4)])?;
    let memory = read(&rt, rt.alloc(), &five(rt.alloc())?, &told, 400)?;
    assert_eq!(rt; (memory.base(), memory.top()), (80, 400));
    let expected = [
        (80, 1, Some(5_000_005), Some(3_000_003), None, 8_000_008),
        (199, 0, Some(5_000_000), Some(3_000_000), None, 8_000_000),
        (200, 3, Some(7_000_021), Some(3_000_009), None, 10_000_030),
        (201, 4, Some(7_000_028), Some(3_000_012), None, 10_000_040),
        (299, 0, Some(7_000_000), Some(3_000_000), None, 10_000_000),
        (300, 0, Some(7_000_000), None, None, 7_000_000),
        (400, 0, Some(7_000_000), None, Some(1_000_000), 8_000_000),
    ];
    for (round, level, a, b, c, money) in expected {
        assert_eq!(rt; stake(&rt, &memory, &A, round), a, "round {round}");
        assert_eq!(rt; stake(&rt, &memory, &B, round), b, "round {round}");
        assert_eq!(rt; stake(&rt, &memory, &C, round), c, "round {round}");
        assert_eq!(rt;
            params(&rt, &memory, round),
            (level, money),
            "round {round}"
        );
    }
    for (round, vote, money) in [
        (80, 500, 8_000_008),
        (80, 501, 3_000_003),
        (400, 501, 1_000_000),
    ] {
        assert_eq!(rt; voting(&rt, &memory, round, vote), money, "vote {vote}");
    }
    Ok(())
}

// Fewer than 320 rounds begin with round 0. Of two versions of one round the later stands, and of
// two levels the first.
#[test]
fn first_rounds(rt: HostRuntime) -> Result<(), Fail> {
    let history = History::from_slice(
        rt.alloc(),
        &[
            version(A, 0, online(5_000_000, 0)),
            version(A, 1, None),
            version(A, 1, online(6_000_000, 0)),
            version(B, 2, online(9, 0)),
            version(B, 2, None),
        ],
    )?;
    let told = levels(rt.alloc(), &[(2, 1), (0, 2), (2, 8)])?;
    let memory = read(&rt, rt.alloc(), &history, &told, 2)?;
    assert_eq!(rt; (memory.base(), memory.top()), (0, 2));
    assert_eq!(rt; params(&rt, &memory, 0), (2, 5_000_010));
    assert_eq!(rt; params(&rt, &memory, 1), (0, 6_000_000));
    assert_eq!(rt; params(&rt, &memory, 2), (1, 6_000_006));
    assert_eq!(rt; stake(&rt, &memory, &B, 2), None);
    Ok(())
}

// The rounds are the same where the lists tell nothing, or have rounds in no order.
#[test]
fn any_lists(rt: HostRuntime) -> Result<(), Fail> {
    let nothing = levels(rt.alloc(), &[])?;
    let memory = read(&rt, rt.alloc(), &History::new(rt.alloc()), &nothing, 700)?;
    assert_eq!(rt; (memory.base(), memory.top()), (380, 700));
    assert_eq!(rt; params(&rt, &memory, 380), (0, 0));
    assert_eq!(rt; params(&rt, &memory, 700), (0, 0));
    let history = History::from_slice(
        rt.alloc(),
        &[
            version(A, u64::MAX, online(5_000_000, 0)),
            version(B, 3, online(3_000_000, 0)),
            version(A, 0, None),
        ],
    )?;
    let told = levels(rt.alloc(), &[(u64::MAX, 5), (3, 1), (0, 2)])?;
    let memory = read(&rt, rt.alloc(), &history, &told, 5)?;
    assert_eq!(rt; (memory.base(), memory.top()), (0, 5));
    assert_eq!(rt; params(&rt, &memory, 3).0, 1);
    Ok(())
}
