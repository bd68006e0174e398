ghost use Rattle.std.specs.Prelude.{◌≤◌};

use al_base::Hash;
use al_digest::{Prefix, digest};
use al_generator::Generator;
use al_txn::{Body, Effect, Effects, Item, Items, write_with_id};
use std::alloc::{AllocError, Global};
use std::test::*;

/// The genesis hash, of an independent program.
const GENESIS: Hash = [
    0xb3, 0xdd, 0x50, 0xd0, 0xd5, 0x46, 0x8f, 0x7f, 0xf3, 0x71, 0x8f, 0x21, 0x16, 0xff, 0x49, 0x68,
    0xc2, 0xcc, 0x43, 0x78, 0x0a, 0xbc, 0xb1, 0xae, 0x12, 0x1f, 0x9c, 0x07, 0x85, 0x91, 0x3e, 0xc2,
];

/// The transactions of the first 22 blocks of number 7, of an independent program: the round, the
/// type, the number, the sender, and what else the kind says. A user is named by its number as
/// sender and by its byte elsewhere; the account of the application begins with the byte 176.
const FIRST: &str = "1 appl 1 17 1 0\n\
1 pay 2 17 176 1000000\n\
1 pay 3 8 36 1739\n\
1 keyreg 4 3 1 1001\n\
2 pay 5 2 45 1899\n\
3 appl 6 24 1 7 14\n\
4 pay 7 16 40 1945\n\
4 pay 8 16 24 1517\n\
4 keyreg 9 11\n\
5 pay 10 4 24 1445\n\
5 appl 11 0 1 7 12\n\
6 pay 12 0 34 1490\n\
7 keyreg 13 13 7 1007\n\
8 pay 14 0 34 1603\n\
8 appl 15 5 1 7 4\n\
8 pay 16 9 36 1683\n\
8 pay 17 2 25 1198\n\
9 pay 18 8 29 1718\n\
9 pay 19 18 38 1832\n\
9 appl 20 0 1 7 1\n\
10 pay 21 19 31 1779\n\
10 pay 22 1 45 1354\n\
10 pay 23 6 19 1476\n\
10 pay 24 31 16 1406\n\
11 acfg 25 3 19\n\
11 pay 26 22 39 1881\n\
12 acfg 27 24 40\n\
12 pay 28 29 22 1607\n\
12 appl 29 14 1 7 6\n\
12 pay 30 28 16 1514\n\
13 pay 31 10 21 1743\n\
13 pay 32 17 23 1233\n\
14 pay 33 26 24 1420\n\
14 pay 34 11 26 1213\n\
14 pay 35 22 17 1383\n\
14 pay 36 2 43 1213\n\
15 pay 37 3 28 1997\n\
15 pay 38 15 28 1000\n\
16 axfer 39 22 27 38\n\
16 appl 40 26 1 7 10\n\
16 pay 41 6 20 1053\n\
16 keyreg 42 0\n\
17 axfer 43 3 27 19\n\
18 keyreg 44 28 18 1018\n\
18 pay 45 16 28 1040\n\
19 appl 46 26 1 7 6\n\
19 pay 47 28 21 1389\n\
19 pay 48 9 34 1111\n\
20 keyreg 49 21 20 1020\n\
21 axfer 50 3 27 19\n\
22 axfer 51 17 27 33\n\
22 appl 52 17 1 7 13";

/// The digest of the spellings of all transactions of 200 blocks, of the same program.
const ALL: Hash = [
    0x7f, 0x13, 0xd1, 0xa6, 0xa4, 0xff, 0x0b, 0x9f, 0x89, 0xcb, 0x6a, 0x79, 0x2b, 0x3b, 0x80, 0xe1,
    0x78, 0x4e, 0xd9, 0xab, 0x88, 0x8e, 0x52, 0x55, 0xe9, 0x0b, 0x58, 0x2a, 0x27, 0xc9, 0x89, 0x0f,
];

// The transactions of the first blocks of number 7.
fn first_items(alloc: Global, blocks: u64) -> Result<Items, AllocError>
    requires { blocks ≤ 1000 }
{
    let mut items = Items::new(alloc);
    let mut generator = Generator::new(7);
    for block in 0..blocks {
        items.append(generator.next_items(alloc, block + 1, &GENESIS)?)?;
    }
    Ok(items)
}

// The word of a type.
fn kind(body: &Body) -> &'static str {
    match body {
        Body::Pay(_) => "pay",
        Body::KeyReg(_) => "keyreg",
        Body::Config(_) => "acfg",
        Body::Move(_) => "axfer",
        Body::Freeze(_) => "afrz",
        Body::App(_) => "appl",
    }
}

// What the body of a transaction says.
fn said(alloc: Global, body: &Body) -> Result<String, AllocError> {
    match body {
        Body::Pay(pay) => format!(in alloc; " {} {}", pay.receiver.0[0], pay.amount),
        Body::KeyReg(keys) if keys.first != 0 => format!(in alloc; " {} {}", keys.first, keys.last),
        Body::Config(config) => format!(in alloc; " {}", config.params.manager.0[0]),
        Body::Move(one) => format!(in alloc; " {} {}", one.asset, one.receiver.0[0]),
        Body::App(call) if call.app != 0 => format!(in alloc; " {}", call.app),
        _ => format!(in alloc; ""),
    }
}

// The number that bytes are, most significant first, where there are eight.
fn number(bytes: &[u8]) -> Option<u64> {
    match bytes {
        [a, b, c, d, e, f, g, h] => Some(u64::from_be_bytes([*a, *b, *c, *d, *e, *f, *g, *h])),
        _ => None,
    }
}

// What the first of some effects does.
fn done(alloc: Global, effects: &Effects) -> Result<String, Fail> {
    match effects.as_slice().first() {
        Some(Effect::Create { .. }) => Ok(format!(in alloc; " 1 0")?),
        Some(Effect::PutBox { name, .. }) => {
            let name = number(name.as_slice()).ok_or("eight bytes")?;
            Ok(format!(in alloc; " 7 {name}")?)
        }
        _ => Ok(format!(in alloc; "")?),
    }
}

// A transaction, as the table has it.
fn line(alloc: Global, item: &Item) -> Result<String, Fail> {
    let round = item.txn.first;
    let kind = kind(&item.txn.body);
    let number = number(item.txn.note.as_slice()).ok_or("a number")?;
    let sender = item.txn.sender.0[0].checked_sub(16).ok_or("a user")?;
    let said = said(alloc, &item.txn.body)?;
    let done = done(alloc, &item.effects)?;
    Ok(format!(in alloc; "{round} {kind} {number} {sender}{said}{done}")?)
}

#[test]
fn first_blocks(rt: HostRuntime) -> Result<(), Fail> {
    let alloc = rt.alloc();
    let items = first_items(alloc, 22)?;
    let mut lines = FIRST.lines();
    for item in items.as_slice() {
        let wanted = lines.next().ok_or("a line")?;
        assert_eq!(rt; line(alloc, item)?.as_str(), wanted);
    }
    assert!(rt; lines.next().is_none());
    Ok(())
}

#[test]
fn all_bytes(rt: HostRuntime) -> Result<(), Fail> {
    let alloc = rt.alloc();
    let items = first_items(alloc, 200)?;
    assert_eq!(rt; items.len(), 524);
    let mut spelled = Vec::new(alloc);
    for item in items.as_slice() {
        write_with_id(item, &mut spelled)?;
    }
    assert_eq!(rt; digest(Prefix::Payset, spelled.as_slice()), ALL);
    Ok(())
}
