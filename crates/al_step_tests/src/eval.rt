ghost use Rattle.std.specs.Prelude.{◌≤◌, ◌<◌, ◌^◌, All, IfOk, length, sum_by};
ghost use Rattle.al_bodies.specs.Ranges.{EffectInRange};
ghost use Rattle.al_eval.specs.Groups.{size_of};
ghost use Rattle.al_rows.specs.Rows.{AccountInRange};

use crate::genesis::OTHER;
use al_base::{Address, Hash, Key, Status};
use al_block::{Block, BlockFault, decode_block, header_hash};
use al_deltas::KeptRows;
use al_eval::{Before, EvalRefusal, Genesis, GenesisRow, Tail, eval, start_rows, start_totals};
use al_rewards::{Count, Totals};
use al_rows::{AccountRow, Never, Row};
use std::alloc::{AllocError, Global};
use std::test::*;

/// Block 1 of the other chain: the account of bytes 3 pays 300,000 microAlgos to that of bytes 4,
/// with a fee of 1,000.
const BLOCK: &[u8; 373] =
    b"\x82\xa1b\x88\xa4fees\xc4 \x01\x01\x01\x01\x01\x01\x01\x01\x01\x01\x01\x01\x01\x01\x01\x01\x01\x01\x01\x01\x01\x01\x01\x01\x01\x01\x01\x01\x01\x01\x01\x01\xa2gh\xc4 fr8\xd2aW]\xdb\x91\xa6r\x1bG\x8b\x17\xefo\xf04\xf0\xa1\xa0x?\xe3R\xddd\xb0\xa0\xf3)\xa4prev\xc4 H\xe7\xfaD\xbe\xa4\xc1\x8aERa\xc9\xc0\xa3H\xe9_\xfc\xbe\xd6\x01\xa1\xc9)|m\xea\xc7!d\x8a\xff\xa3rnd\x01\xa6rwcalr\xce\x00\x07\xa1!\xa3rwd\xc4 \x02\x02\x02\x02\x02\x02\x02\x02\x02\x02\x02\x02\x02\x02\x02\x02\x02\x02\x02\x02\x02\x02\x02\x02\x02\x02\x02\x02\x02\x02\x02\x02\xa2tc\x01\xa3txn\xc4 \xee|\xcd\x01\xf0\x0d\xa7+F\xa4\x90\xb6\x9b\xf5f\xfd\xd9\x22\xb5\xe1\x8d\xa1\xf7\xd1L\xa3\xe4\xef\x10\x82\xd4\xb6\xa1t\x91\x81\xa3txn\x88\xa3amt\xce\x00\x04\x93\xe0\xa3fee\xcd\x03\xe8\xa2fv\x01\xa2gh\xc4 fr8\xd2aW]\xdb\x91\xa6r\x1bG\x8b\x17\xefo\xf04\xf0\xa1\xa0x?\xe3R\xddd\xb0\xa0\xf3)\xa2lv\xcd\x03\xe8\xa3rcv\xc4 \x04\x04\x04\x04\x04\x04\x04\x04\x04\x04\x04\x04\x04\x04\x04\x04\x04\x04\x04\x04\x04\x04\x04\x04\x04\x04\x04\x04\x04\x04\x04\x04\xa3snd\xc4 \x03\x03\x03\x03\x03\x03\x03\x03\x03\x03\x03\x03\x03\x03\x03\x03\x03\x03\x03\x03\x03\x03\x03\x03\x03\x03\x03\x03\x03\x03\x03\x03\xa4type\xa3pay";

/// The id of the payment: SHA-512/256 of `TX` and its spelling.
const ID: Hash = [
    158, 39, 87, 161, 234, 46, 232, 57, 26, 147, 200, 205, 210, 110, 210, 53, 212, 8, 21, 76, 146,
    57, 13, 54, 120, 181, 122, 117, 122, 139, 190, 102,
];

// An account of the other chain's genesis.
fn account(byte: u8, status: Status, balance: u64) -> GenesisRow
    requires { balance ≤ 10000000000000000 }
    ensures { AccountInRange result.row }
{
    GenesisRow {
        address: Address([byte; 32]),
        row: AccountRow {
            status,
            balance,
            ..AccountRow::none()
        },
    }
}

// The rows of accounts.
fn rows_of(alloc: Global, accounts: &[GenesisRow]) -> Result<KeptRows, AllocError>
    requires { All (λ a. AccountInRange a.row) accounts.now }
{
    let rows = start_rows(alloc, accounts)?;
    Ok(KeptRows::new(alloc, rows))
}

// The block that bytes spell. It has at most as many transactions as bytes.
fn decoded(alloc: Global, bytes: &[u8]) -> Result<Block, BlockFault>
    requires { length bytes.now < 2 ^ 31 }
    ensures effects { IfOk result (λ b. All (λ i. All EffectInRange i.effects) b.items) }
    ensures few { IfOk result (λ b. sum_by size_of b.items ≤ 2 ^ 31) }
{
    decode_block(alloc, bytes)
}

// Lets rows follow a block, which leaves these totals.
fn follow(
    alloc: Global,
    rows: &mut KeptRows,
    before: &Before,
    tail: &Tail,
    block: &Block,
) -> Result<Totals, EvalRefusal<Never>>
    requires round { block.now.header.round ≤ 2 ^ 62 }
    requires counter { before.now.header.counter ≤ 1000 }
    requires effects { All (λ i. All EffectInRange i.effects) block.now.items }
    requires few { sum_by size_of block.now.items ≤ 2 ^ 31 }
{
    let delta = match eval(alloc, &mut rows.view(), before, tail, block) {
        Ok(delta) => delta,
        Err(refusal) => return Err(refusal),
    };
    match rows.apply(&delta) {
        Ok(()) => Ok(delta.totals),
        Err(_) => Err(EvalRefusal::Memory),
    }
}

// The balance of the account whose address has these bytes.
fn balance_of(rows: &KeptRows, byte: u8) -> u64 {
    match rows.get(&Key::Account(Address([byte; 32]))) {
        Some(stored) => match &stored.row {
            Row::Account(row) => row.balance,
            _ => 0,
        },
        None => 0,
    }
}

#[test]
fn a_payment_is_applied_once(rt: HostRuntime) -> Result<(), Fail> {
    let genesis = Genesis::decode(rt.alloc(), OTHER).ok().ok_or("a genesis")?;
    let accounts = [
        account(1, Status::NotParticipating, 0),
        account(2, Status::NotParticipating, 100_000),
        account(3, Status::Offline, 2_500_000),
    ];
    assert!(rt; genesis.accounts.as_slice() == accounts.as_slice());
    let mut rows = rows_of(rt.alloc(), &accounts)?;
    let block = decoded(rt.alloc(), BLOCK)?;
    assert!(rt; block.header.round <= 1);
    assert!(rt; genesis.header.counter <= 1_000);
    let hash = header_hash(rt.alloc(), &genesis.header)?;
    let before = Before {
        chain: genesis.chain,
        header: genesis.header,
        hash,
        totals: start_totals(&accounts),
    };
    assert_eq!(rt;
        before.totals.offline,
        Count {
            money: 2_500_000,
            units: 2
        }
    );
    assert_eq!(rt;
        before.totals.apart,
        Count {
            money: 100_000,
            units: 0
        }
    );
    let mut tail = Tail::new(rt.alloc());
    let totals = follow(rt.alloc(), &mut rows, &before, &tail, &block)
        .ok()
        .ok_or("the rows after the block")?;
    for (byte, balance) in [(1, 1_000), (2, 100_000), (3, 2_199_000), (4, 300_000)] {
        assert_eq!(rt; balance_of(&rows, byte), balance, "of {byte}");
    }
    let offline = Count {
        money: 2_499_000,
        units: 2,
    };
    assert_eq!(rt; (totals.offline, totals.apart.money), (offline, 101_000));
    tail.extend(rt.alloc(), &block)?;
    assert!(rt; tail.has_id(1_000, &ID));
    let again = follow(rt.alloc(), &mut rows, &before, &tail, &block).err();
    assert!(rt;
        matches!(
            again,
            Some(EvalRefusal::Broken { place: 0, rule }) if rule.number == 30
        )
    );
    tail.take_back(&block);
    assert!(rt; !tail.has_id(1_000, &ID));
    Ok(())
}

// Two units at a rate of 10 are owed 10, and the pool has nothing above its least.
#[test]
fn the_pool_is_short(rt: HostRuntime) -> Result<(), Fail> {
    let genesis = Genesis::decode(rt.alloc(), OTHER).ok().ok_or("a genesis")?;
    let accounts = [
        account(1, Status::NotParticipating, 0),
        account(2, Status::NotParticipating, 100_000),
        account(3, Status::Offline, 2_500_000),
    ];
    let mut rows = rows_of(rt.alloc(), &accounts)?;
    let mut header = genesis.header;
    header.rate = 10;
    header.recalc = 9;
    let hash = header_hash(rt.alloc(), &header)?;
    let mut block = decoded(rt.alloc(), BLOCK)?;
    block.header.prev = hash;
    block.header.rate = 10;
    block.header.recalc = 9;
    block.header.level = 5;
    assert!(rt; block.header.round <= 1);
    assert!(rt; header.counter <= 1_000);
    let before = Before {
        chain: genesis.chain,
        header,
        hash,
        totals: start_totals(&accounts),
    };
    let tail = Tail::new(rt.alloc());
    let short = follow(rt.alloc(), &mut rows, &before, &tail, &block).err();
    assert!(rt;
        matches!(
            short,
            Some(EvalRefusal::PoolShort {
                pool: 100_000,
                owed: 10
            })
        )
    );
    Ok(())
}
