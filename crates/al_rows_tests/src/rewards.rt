use al_base::Status;
use al_msgpack::decode;
use al_record::read_member;
use al_rewards::{Count, RewardsState, Share, Totals, encode_totals, pending};
use std::test::*;

const fn share(status: Status, balance: u64, base: u64) -> Share {
    Share {
        status,
        balance,
        base,
    }
}

// Two units at level 66,666; the same that does not participate; and an account that is up to it.
#[test]
fn rewards(rt: HostRuntime) {
    let cases = [
        (share(Status::Offline, 2_500_000, 0), 133_332),
        (share(Status::NotParticipating, 2_500_000, 0), 0),
        (share(Status::Offline, 2_500_000, 66_666), 0),
    ];
    for (account, earned) in cases {
        assert_eq!(rt; pending(&account, 66_666), earned);
    }
}

/// Level, rate, residue and round of recalculation; round, interval, pool and units; and the next
/// state.
const NEXT: [([u64; 4], [u64; 4], [u64; 4]); 8] = [
    // A round with a new rate, and the one after it.
    (
        [0, 0, 0, 1],
        [1, 10, 2_100_000, 3],
        [66_666, 200_000, 2, 11],
    ),
    (
        [66_666, 200_000, 2, 11],
        [2, 10, 1_900_000, 3],
        [133_333, 200_000, 1, 11],
    ),
    // No units, without and with a new rate.
    (
        [66_666, 200_000, 2, 11],
        [3, 10, 1_900_000, 0],
        [66_666, 200_000, 2, 11],
    ),
    ([5, 7, 3, 1], [1, 10, 2_100_003, 0], [5, 200_000, 3, 11]),
    // A pool that has too little, and one that has just enough for a rate of 1.
    (
        [5, 77, 300_000, 4],
        [4, 10, 350_000, 2],
        [150_005, 0, 0, 14],
    ),
    ([5, 77, 1, 4], [4, 10, 100_011, 2], [6, 1, 0, 14]),
    // The fund passes 2^64 - 1, and then the level.
    (
        [7, 18_446_744_073_709_551_615, 1, 9],
        [3, 10, 0, 2],
        [7, 18_446_744_073_709_551_615, 1, 9],
    ),
    (
        [18_446_744_073_709_551_610, 6, 0, 9],
        [3, 10, 0, 1],
        [18_446_744_073_709_551_610, 6, 0, 9],
    ),
];

fn state(numbers: [u64; 4]) -> RewardsState {
    RewardsState {
        level: numbers[0],
        rate: numbers[1],
        residue: numbers[2],
        recalc: numbers[3],
    }
}

#[test]
fn next_states(rt: HostRuntime) {
    for (before, [round, interval, pool, units], after) in NEXT {
        assert!(rt; round < 100 && 0 < interval && interval < 100);
        assert_eq!(rt;
            state(before).next(round, interval, pool, units),
            state(after)
        );
    }
}

fn counted(level: u64, numbers: [u64; 6]) -> Totals {
    Totals {
        level,
        online: Count {
            money: numbers[0],
            units: numbers[1],
        },
        offline: Count {
            money: numbers[2],
            units: numbers[3],
        },
        apart: Count {
            money: numbers[4],
            units: numbers[5],
        },
    }
}

// Accounts are counted, earn, and one of them is paid and given its rewards.
#[test]
fn totals(rt: HostRuntime) {
    let first = share(Status::Offline, 2_500_000, 0);
    let paid = share(Status::Offline, 3_633_332, 66_666);
    let mut all = Totals::new(0);
    all.change(None, Some(&first));
    all.change(None, Some(&share(Status::Online, 1_000_000, 0)));
    all.change(None, Some(&share(Status::NotParticipating, 9_000_000, 0)));
    assert_eq!(rt; all, counted(0, [1_000_000, 1, 2_500_000, 2, 9_000_000, 9]));
    assert_eq!(rt; all.units(), 3);
    all.raise(66_666);
    assert_eq!(rt;
        all,
        counted(66_666, [1_066_666, 1, 2_633_332, 2, 9_000_000, 9])
    );
    all.change(Some(&first), Some(&paid));
    assert_eq!(rt;
        all,
        counted(66_666, [1_066_666, 1, 3_633_332, 3, 9_000_000, 9])
    );
    all.change(Some(&paid), None);
    assert_eq!(rt; all, counted(66_666, [1_066_666, 1, 0, 0, 9_000_000, 9]));
}

// No number falls below 0 or passes 2^64 - 1.
#[test]
fn limits(rt: HostRuntime) {
    let most = u64::MAX;
    let mut all = counted(0, [most - 1, 2, 5, most, 0, 0]);
    assert_eq!(rt; all.units(), most);
    all.raise(1);
    assert_eq!(rt; all, counted(1, [most, 2, most, most, 0, 0]));
    all.change(
        Some(&share(Status::Online, 3_000_000, 0)),
        Some(&share(Status::Offline, most, 0)),
    );
    assert_eq!(rt; all, counted(1, [most - 3_000_003, 0, most, most, 0, 0]));
    all.change(Some(&share(Status::NotParticipating, 1_000_000, 0)), None);
    assert_eq!(rt; all, counted(1, [most - 3_000_003, 0, most, most, 0, 0]));
}

// Totals with their spelling, which is read back.
#[test]
fn spellings(rt: HostRuntime) -> Result<(), Fail> {
    let cases: [(Totals, &[u8]); 3] = [
        (Totals::new(0), b"\x80"),
        (
            counted(66_666, [1_066_666, 1, 2_633_332, 2, 0, 0]),
            b"\x85\xa2fm\xce\x00\x28\x2e\x74\xa2fu\x02\xa1l\xce\x00\x01\x04\x6a\xa2nm\xce\x00\x10\x46\xaa\xa2nu\x01",
        ),
        (
            counted(0, [0, 0, 0, 0, u64::MAX, 200]),
            b"\x82\xa2pm\xcf\xff\xff\xff\xff\xff\xff\xff\xff\xa2pu\xcc\xc8",
        ),
    ];
    for (all, want) in cases {
        let mut out = Vec::new(rt.alloc());
        encode_totals(&all, &mut out)?;
        assert_eq!(rt; out.as_slice(), want);
        assert!(rt; want.len() < 100);
        let value = decode(rt.alloc(), want)?;
        assert_eq!(rt; read_member::<Totals>(rt.alloc(), &value)?, all);
    }
    Ok(())
}
