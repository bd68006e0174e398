ghost use Rattle.std.specs.Prelude.{◌≡◌, ◌≤◌, All, IfSome, [], false, sum_by, true};
ghost use Rattle.std.specs.FinMap.{from_entries};
ghost use Rattle.al_base.specs.declared.key.Key.TheVariants as keys;
ghost use Rattle.al_bodies.specs.Ranges.{EffectInRange};
ghost use Rattle.al_eval.specs.Groups.{size_of};
ghost use Rattle.al_rows.specs.Limits.{max_balance};
ghost use Rattle.al_rows.specs.Rows.{InRange};

use al_base::{Address, Bytes, Hash, Key, Status};
use al_block::{Block, decode_block, header_hash};
use al_deltas::RoundDelta;
use al_eval::{Before, EvalRefusal, Evaluated, Genesis, Tail, eval_with_entries, start_totals};
use al_rows::{AccountRow, Change, Never, Row, RowView, ViewFault};
use al_txn::{Body, Effects, Item, Items, Pay, Txn};
use std::alloc::{AllocError, Global};
use std::test::*;

/// Block 1 of the other chain: the account of bytes 3 pays 300,000 microAlgos to that of bytes 4,
/// with a fee of 1,000.
const BLOCK: &[u8; 373] =
    b"\x82\xa1b\x88\xa4fees\xc4 \x01\x01\x01\x01\x01\x01\x01\x01\x01\x01\x01\x01\x01\x01\x01\x01\x01\x01\x01\x01\x01\x01\x01\x01\x01\x01\x01\x01\x01\x01\x01\x01\xa2gh\xc4 fr8\xd2aW]\xdb\x91\xa6r\x1bG\x8b\x17\xefo\xf04\xf0\xa1\xa0x?\xe3R\xddd\xb0\xa0\xf3)\xa4prev\xc4 H\xe7\xfaD\xbe\xa4\xc1\x8aERa\xc9\xc0\xa3H\xe9_\xfc\xbe\xd6\x01\xa1\xc9)|m\xea\xc7!d\x8a\xff\xa3rnd\x01\xa6rwcalr\xce\x00\x07\xa1!\xa3rwd\xc4 \x02\x02\x02\x02\x02\x02\x02\x02\x02\x02\x02\x02\x02\x02\x02\x02\x02\x02\x02\x02\x02\x02\x02\x02\x02\x02\x02\x02\x02\x02\x02\x02\xa2tc\x01\xa3txn\xc4 \xee|\xcd\x01\xf0\x0d\xa7+F\xa4\x90\xb6\x9b\xf5f\xfd\xd9\x22\xb5\xe1\x8d\xa1\xf7\xd1L\xa3\xe4\xef\x10\x82\xd4\xb6\xa1t\x91\x81\xa3txn\x88\xa3amt\xce\x00\x04\x93\xe0\xa3fee\xcd\x03\xe8\xa2fv\x01\xa2gh\xc4 fr8\xd2aW]\xdb\x91\xa6r\x1bG\x8b\x17\xefo\xf04\xf0\xa1\xa0x?\xe3R\xddd\xb0\xa0\xf3)\xa2lv\xcd\x03\xe8\xa3rcv\xc4 \x04\x04\x04\x04\x04\x04\x04\x04\x04\x04\x04\x04\x04\x04\x04\x04\x04\x04\x04\x04\x04\x04\x04\x04\x04\x04\x04\x04\x04\x04\x04\x04\xa3snd\xc4 \x03\x03\x03\x03\x03\x03\x03\x03\x03\x03\x03\x03\x03\x03\x03\x03\x03\x03\x03\x03\x03\x03\x03\x03\x03\x03\x03\x03\x03\x03\x03\x03\xa4type\xa3pay";

/// The id of the payment: SHA-512/256 of `TX` and its spelling.
const ID: Hash = [
    158, 39, 87, 161, 234, 46, 232, 57, 26, 147, 200, 205, 210, 110, 210, 53, 212, 8, 21, 76, 146,
    57, 13, 54, 120, 181, 122, 117, 122, 139, 190, 102,
];

/// The genesis of a chain whose blocks are known, and the genesis hash that they carry.
const OTHER: &[u8; 245] =
    b"\x84\xa5alloc\x93\x82\xa4addr\xc4\x20\x01\x01\x01\x01\x01\x01\x01\x01\x01\x01\x01\x01\x01\x01\x01\x01\x01\x01\x01\x01\x01\x01\x01\x01\x01\x01\x01\x01\x01\x01\x01\x01\xa3row\x81\xa1a\x02\x82\xa4addr\xc4\x20\x02\x02\x02\x02\x02\x02\x02\x02\x02\x02\x02\x02\x02\x02\x02\x02\x02\x02\x02\x02\x02\x02\x02\x02\x02\x02\x02\x02\x02\x02\x02\x02\xa3row\x82\xa1a\x02\xa1b\xce\x00\x01\x86\xa0\x82\xa4addr\xc4\x20\x03\x03\x03\x03\x03\x03\x03\x03\x03\x03\x03\x03\x03\x03\x03\x03\x03\x03\x03\x03\x03\x03\x03\x03\x03\x03\x03\x03\x03\x03\x03\x03\xa3row\x81\xa1b\xce\x00\x26\x25\xa0\xa4fees\xc4\x20\x01\x01\x01\x01\x01\x01\x01\x01\x01\x01\x01\x01\x01\x01\x01\x01\x01\x01\x01\x01\x01\x01\x01\x01\x01\x01\x01\x01\x01\x01\x01\x01\xa2id\xa1t\xa3rwd\xc4\x20\x02\x02\x02\x02\x02\x02\x02\x02\x02\x02\x02\x02\x02\x02\x02\x02\x02\x02\x02\x02\x02\x02\x02\x02\x02\x02\x02\x02\x02\x02\x02\x02";

/// A group of payments of the account of bytes 3 to that of bytes 4, each with a fee of 1,000: the
/// first pays 200,000 microAlgos, the others 1, 2 and so on. The digests are those of another
/// program.
struct Case {
    size: u64,
    group: Hash,
    payset: Hash,
    rule: Option<u64>,
    /// What the sink, the sender and the receiver have after it.
    balances: (u64, u64, u64),
}

const CASES: [Case; 3] = [
    Case {
        size: 3,
        group: [
            188, 248, 85, 109, 250, 16, 199, 116, 248, 195, 77, 174, 43, 35, 180, 178, 222, 190,
            228, 66, 102, 255, 157, 165, 5, 218, 116, 92, 186, 139, 231, 28,
        ],
        payset: [
            52, 106, 121, 104, 53, 45, 138, 164, 120, 17, 160, 149, 55, 155, 226, 31, 195, 182, 87,
            4, 115, 53, 84, 218, 93, 115, 118, 228, 246, 241, 125, 159,
        ],
        rule: None,
        balances: (3_000, 2_296_997, 200_003),
    },
    Case {
        size: 16,
        group: [
            24, 64, 251, 66, 190, 30, 67, 75, 12, 244, 243, 203, 253, 143, 237, 143, 189, 22, 107,
            238, 48, 41, 180, 165, 189, 113, 107, 121, 107, 3, 138, 193,
        ],
        payset: [
            161, 239, 137, 208, 6, 102, 156, 51, 86, 212, 61, 156, 76, 237, 78, 44, 174, 136, 188,
            101, 255, 222, 129, 45, 163, 156, 125, 51, 36, 30, 230, 150,
        ],
        rule: None,
        balances: (16_000, 2_283_880, 200_120),
    },
    Case {
        size: 17,
        group: [
            169, 235, 180, 166, 32, 108, 210, 138, 56, 128, 210, 179, 239, 9, 157, 228, 135, 27,
            163, 125, 229, 18, 102, 119, 219, 43, 249, 171, 44, 56, 99, 15,
        ],
        payset: [
            47, 216, 121, 216, 39, 0, 232, 187, 71, 29, 62, 183, 60, 49, 43, 162, 163, 122, 222,
            171, 212, 223, 15, 218, 197, 174, 233, 37, 253, 243, 92, 175,
        ],
        rule: Some(34),
        balances: (0, 0, 0),
    },
];

/// A view of the pool with 100,000 microAlgos, and of the account of bytes 3 with 2,500,000.
#[derive(Drop)]
struct Two;

impl RowView for Two {
    type Fault = Never;

    ghost tells = { false };

    ghost rows = { λ _. from_entries [] };

    ghost failures = { λ _. 0 };

    ghost lender = { λ _. 0 };

    fn row(&mut self, key: &Key) -> Result<Option<Row>, ViewFault<Never>> {
        match key {
            Key::Account(who) => Ok(row_of(who)),
            Key::Resource(_, _) | Key::Box(_, _) => Ok(None),
        }
    }

    fn creator(&mut self, _id: u64) -> Result<Option<Address>, ViewFault<Never>> {
        Ok(None)
    }
}

// The row of one of the two.
fn row_of(who: &Address) -> Option<Row>
    ensures { IfSome result (InRange (keys.Account who.now)) }
{
    match who.0[0] {
        2 => Some(row(who, Status::NotParticipating, 100_000)),
        3 => Some(row(who, Status::Offline, 2_500_000)),
        _ => None,
    }
}

fn row(who: &Address, status: Status, balance: u64) -> Row
    requires { balance ≤ max_balance }
    ensures { InRange (keys.Account who.now) result }
{
    let _who = who;
    Row::Account(AccountRow {
        status,
        balance,
        ..AccountRow::none()
    })
}

fn payment(alloc: Global, amount: u64, group: Hash) -> Result<Item, AllocError> {
    let genesis_hash =
        *b"fr8\xd2aW\x5d\xdb\x91\xa6r\x1bG\x8b\x17\xefo\xf04\xf0\xa1\xa0x\x3f\xe3R\xddd\xb0\xa0\xf3\x29";
    Ok(Item {
        txn: Txn {
            sender: Address([3; 32]),
            fee: 1_000,
            first: 1,
            last: 1_000,
            genesis_id: Bytes::of(alloc, &[])?,
            genesis_hash,
            note: Bytes::of(alloc, &[])?,
            lease: [0; 32],
            rekey: Address([0; 32]),
            group,
            body: Body::Pay(Pay {
                receiver: Address([4; 32]),
                amount,
                close: Address([0; 32]),
            }),
        },
        effects: Effects::new(alloc),
    })
}

fn payments(alloc: Global, case: &Case) -> Result<Items, AllocError> {
    let mut items = Items::new(alloc);
    for place in 0..case.size {
        let amount = if place == 0 { 200_000 } else { place };
        items.push(payment(alloc, amount, case.group)?)?;
    }
    Ok(items)
}

// What a chain begins with whose genesis is known.
fn before(alloc: Global) -> Result<Before, Fail> {
    let genesis = Genesis::decode(alloc, OTHER).ok().ok_or("a genesis")?;
    let hash = header_hash(alloc, &genesis.header)?;
    let totals = start_totals(genesis.accounts.as_slice());
    Ok(Before {
        chain: genesis.chain,
        header: genesis.header,
        hash,
        totals,
    })
}

// Whether no transaction has effects.
fn are_plain(items: &[Item]) -> bool
    ensures { result ≡ true → All (λ i. i.effects ≡ []) items.now }
{
    for item in items {
        if !item.effects.is_empty() {
            return false;
        }
    }
    true
}

// Whether these are at most 1,000 transactions, of which none has effects.
fn are_few(items: &[Item]) -> bool
    ensures effects { result ≡ true → All (λ i. All EffectInRange i.effects) items.now }
    ensures few { result ≡ true → sum_by size_of items.now ≤ 1000 }
{
    items.len() <= 1_000 && are_plain(items)
}

fn step(alloc: Global, block: &Block) -> Result<Result<Evaluated, EvalRefusal<Never>>, Fail> {
    let before = before(alloc)?;
    let tail = Tail::new(alloc);
    if block.header.round != 1 {
        return Err(Fail::from("a block of another round"));
    }
    if before.header.counter > 1_000 || !are_few(block.items.as_slice()) {
        return Err(Fail::from("too many transactions, or effects"));
    }
    Ok(eval_with_entries(alloc, &mut Two, &before, &tail, block))
}

// The balance that the account of these bytes has after a block that changed it.
fn balance_of(delta: &RoundDelta, byte: u8) -> u64 {
    let key = Key::Account(Address([byte; 32]));
    for change in delta.changes.as_slice() {
        if change.key == key {
            if let Some(Row::Account(row)) = &change.row {
                return row.balance;
            }
        }
    }
    0
}

#[test]
fn a_group_has_up_to_16_members(rt: HostRuntime) -> Result<(), Fail> {
    for case in &CASES {
        let mut block = decode_block(rt.alloc(), BLOCK)?;
        block.items = payments(rt.alloc(), case)?;
        block.header.payset = case.payset;
        block.header.counter = case.size;
        let (rule, balances) = match step(rt.alloc(), &block)? {
            Ok(step) => {
                let delta = &step.delta;
                let sink = balance_of(delta, 1);
                (None, (sink, balance_of(delta, 3), balance_of(delta, 4)))
            }
            Err(EvalRefusal::Broken { place: _, rule }) => (Some(rule.number), (0, 0, 0)),
            Err(_) => (Some(0), (0, 0, 0)),
        };
        assert_eq!(rt;
            (rule, balances),
            (case.rule, case.balances),
            "of {}",
            case.size
        );
    }
    Ok(())
}

#[test]
fn what_is_kept_of_a_block_is_appended(rt: HostRuntime) -> Result<(), Fail> {
    let block = decode_block(rt.alloc(), BLOCK)?;
    let step = step(rt.alloc(), &block)?.ok().ok_or("a step")?;
    let mut tail = Tail::new(rt.alloc());
    tail.append(step.entries.as_slice())?;
    assert!(rt; tail.has_id(1_000, &ID) && !tail.has_id(1_001, &ID));
    Ok(())
}
