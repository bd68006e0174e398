// A chain of blocks of transactions of assets, and its rows.
ghost use Rattle.std.specs.Prelude.{◌≡◌, ◌≤◌, ◌^◌, All, [], sum_by, true};
ghost use Rattle.al_bodies.specs.Ranges.{EffectInRange};
ghost use Rattle.al_eval.specs.Groups.{size_of};
ghost use Rattle.al_rows.specs.Rows.{AccountInRange};

use al_base::{Address, AssetParams, Bytes, CreatorChanges, Key, Status};
use al_block::{Block, header_hash, payset_hashes};
use al_deltas::{KeptRows, RoundDelta};
use al_eval::{Before, EvalRefusal, Genesis, GenesisRow, Tail, eval, start_rows, start_totals};
use al_moves::Rule;
use al_rows::{AccountRow, AssetRow, Never, Row, RowView};
use al_txn::{AssetMove, Body, Config, Effects, Freeze, Item, Items, Txn};
use std::alloc::{AllocError, Global};
use std::test::*;

/// The genesis of a chain whose sink has bytes 1, its pool bytes 2.
const GENESIS: &[u8; 245] =
    b"\x84\xa5alloc\x93\x82\xa4addr\xc4\x20\x01\x01\x01\x01\x01\x01\x01\x01\x01\x01\x01\x01\x01\x01\x01\x01\x01\x01\x01\x01\x01\x01\x01\x01\x01\x01\x01\x01\x01\x01\x01\x01\xa3row\x81\xa1a\x02\x82\xa4addr\xc4\x20\x02\x02\x02\x02\x02\x02\x02\x02\x02\x02\x02\x02\x02\x02\x02\x02\x02\x02\x02\x02\x02\x02\x02\x02\x02\x02\x02\x02\x02\x02\x02\x02\xa3row\x82\xa1a\x02\xa1b\xce\x00\x01\x86\xa0\x82\xa4addr\xc4\x20\x03\x03\x03\x03\x03\x03\x03\x03\x03\x03\x03\x03\x03\x03\x03\x03\x03\x03\x03\x03\x03\x03\x03\x03\x03\x03\x03\x03\x03\x03\x03\x03\xa3row\x81\xa1b\xce\x00\x26\x25\xa0\xa4fees\xc4\x20\x01\x01\x01\x01\x01\x01\x01\x01\x01\x01\x01\x01\x01\x01\x01\x01\x01\x01\x01\x01\x01\x01\x01\x01\x01\x01\x01\x01\x01\x01\x01\x01\xa2id\xa1t\xa3rwd\xc4\x20\x02\x02\x02\x02\x02\x02\x02\x02\x02\x02\x02\x02\x02\x02\x02\x02\x02\x02\x02\x02\x02\x02\x02\x02\x02\x02\x02\x02\x02\x02\x02\x02";

/// The accounts of the tests, named by the byte that their address has 32 times.
pub(crate) const USERS: [u8; 3] = [3, 4, 5];

/// What a transaction does. Accounts are named by their byte; 0 is the zero address.
#[derive(Clone, Copy)]
pub(crate) enum Act {
    /// Creates an asset of 100 units, which account 3 may freeze and claw back: whether new holdings
    /// are frozen, and the manager.
    Create(bool, u8),
    /// Names another manager.
    Manage(u8),
    Destroy,
    /// To whom, and how many units.
    Send(u8, u64),
    /// From whom, to whom, and how many units.
    Claw(u8, u8, u64),
    /// To whom.
    Close(u8),
    /// Whose holding.
    Freeze(u8),
    /// Whose holding.
    Thaw(u8),
}

/// What an account holds of an asset.
#[derive(Clone, Copy, Debug, PartialEq)]
pub(crate) enum Has {
    No,
    /// So many units that move.
    Free(u64),
    /// So many units that do not.
    Frozen(u64),
}

/// A chain after its last block.
#[derive(Drop)]
pub(crate) struct World {
    before: Before,
    rows: KeptRows,
}

fn account(byte: u8, status: Status, balance: u64) -> GenesisRow
    requires { balance ≤ 10000000000000000 }
    ensures { AccountInRange result.row }
{
    GenesisRow {
        address: Address([byte; 32]),
        row: AccountRow {
            status,
            balance,
            ..AccountRow::none()
        },
    }
}

/// A chain without a block, each user having 2,500,000 microAlgos.
pub(crate) fn begin(alloc: Global) -> Result<World, Fail> {
    let genesis = Genesis::decode(alloc, GENESIS).ok().ok_or("a genesis")?;
    let accounts = [
        account(1, Status::NotParticipating, 0),
        account(2, Status::NotParticipating, 100_000),
        account(3, Status::Offline, 2_500_000),
        account(4, Status::Offline, 2_500_000),
        account(5, Status::Offline, 2_500_000),
    ];
    let rows = start_rows(alloc, &accounts)?;
    let hash = header_hash(alloc, &genesis.header)?;
    let before = Before {
        chain: genesis.chain,
        header: genesis.header,
        hash,
        totals: start_totals(&accounts),
    };
    Ok(World {
        before,
        rows: KeptRows::new(alloc, rows),
    })
}

// Asset parameters, or all zero where there is no total and nobody may act.
fn params(
    alloc: Global,
    total: u64,
    frozen: bool,
    manager: u8,
    others: u8,
) -> Result<AssetParams, AllocError> {
    Ok(AssetParams {
        total,
        decimals: 0,
        default_frozen: frozen,
        unit: Bytes::of(alloc, &[])?,
        name: Bytes::of(alloc, &[])?,
        url: Bytes::of(alloc, &[])?,
        meta: [0; 32],
        manager: Address([manager; 32]),
        reserve: Address([0; 32]),
        freeze: Address([others; 32]),
        clawback: Address([others; 32]),
    })
}

fn moved(asset: u64, amount: u64, from: u8, to: u8, close: u8) -> Body {
    Body::Move(AssetMove {
        asset,
        amount,
        source: Address([from; 32]),
        receiver: Address([to; 32]),
        close: Address([close; 32]),
    })
}

fn config(
    alloc: Global,
    asset: u64,
    total: u64,
    frozen: bool,
    manager: u8,
    others: u8,
) -> Result<Body, AllocError> {
    Ok(Body::Config(Config {
        asset,
        params: params(alloc, total, frozen, manager, others)?,
    }))
}

fn freeze(asset: u64, who: u8, frozen: bool) -> Body {
    Body::Freeze(Freeze {
        account: Address([who; 32]),
        asset,
        frozen,
    })
}

// What a transaction does to an asset, which one that creates does not name.
fn body(alloc: Global, act: Act, asset: u64) -> Result<Body, AllocError> {
    match act {
        Act::Create(frozen, manager) => config(alloc, 0, 100, frozen, manager, 3),
        Act::Manage(manager) => config(alloc, asset, 0, false, manager, 3),
        Act::Destroy => config(alloc, asset, 0, false, 0, 0),
        Act::Send(to, amount) => Ok(moved(asset, amount, 0, to, 0)),
        Act::Claw(from, to, amount) => Ok(moved(asset, amount, from, to, 0)),
        Act::Close(to) => Ok(moved(asset, 0, 0, 0, to)),
        Act::Freeze(who) => Ok(freeze(asset, who, true)),
        Act::Thaw(who) => Ok(freeze(asset, who, false)),
    }
}

/// A transaction of an account about an asset, with a fee of 1,000.
pub(crate) fn item(
    alloc: Global,
    world: &World,
    who: u8,
    act: Act,
    asset: u64,
) -> Result<Item, AllocError> {
    Ok(Item {
        txn: Txn {
            sender: Address([who; 32]),
            fee: 1_000,
            first: 1,
            last: 1_000,
            genesis_id: Bytes::of(alloc, &[])?,
            genesis_hash: world.before.chain.hash,
            note: Bytes::of(alloc, &[])?,
            lease: [0; 32],
            rekey: Address([0; 32]),
            group: [0; 32],
            body: body(alloc, act, asset)?,
        },
        effects: Effects::new(alloc),
    })
}

// The next block, of these transactions.
fn block_of(alloc: Global, before: &Before, items: Items) -> Result<Block, AllocError> {
    let prev = before.hash;
    let mut header = before.header.copy(alloc)?;
    header.round = before.header.round.saturating_add(1);
    header.prev = prev;
    header.recalc = 500_001;
    header.counter = before.header.counter.saturating_add(items.len() as u64);
    let mut block = Block { header, items };
    let payset = payset_hashes(alloc, &block)?.payset;
    block.header.payset = payset;
    Ok(block)
}

// Whether no transaction has effects.
fn are_plain(items: &[Item]) -> bool
    ensures { result ≡ true → All (λ i. i.effects ≡ []) items.now }
{
    for item in items {
        if !item.effects.is_empty() {
            return false;
        }
    }
    true
}

// Whether these are at most 1,000 transactions, of which none has effects.
fn are_few(items: &[Item]) -> bool
    ensures effects { result ≡ true → All (λ i. All EffectInRange i.effects) items.now }
    ensures few { result ≡ true → sum_by size_of items.now ≤ 1000 }
{
    items.len() <= 1_000 && are_plain(items)
}

// Lets rows follow a block.
fn follow(alloc: Global, world: &mut World, block: &Block) -> Result<RoundDelta, EvalRefusal<Never>>
    requires round { block.now.header.round ≤ 2 ^ 62 }
    requires counter { world.old.before.header.counter ≤ 1000 }
    requires effects { All (λ i. All EffectInRange i.effects) block.now.items }
    requires few { sum_by size_of block.now.items ≤ 1000 }
{
    let tail = Tail::new(alloc);
    let delta = match eval(alloc, &mut world.rows.view(), &world.before, &tail, block) {
        Ok(delta) => delta,
        Err(refusal) => return Err(refusal),
    };
    match world.rows.apply(&delta) {
        Ok(()) => Ok(delta),
        Err(_) => Err(EvalRefusal::Memory),
    }
}

/// What the next block does to creators, or the rule that it breaks. One that is refused changes
/// nothing.
pub(crate) fn next(
    alloc: Global,
    world: &mut World,
    items: Items,
) -> Result<Result<CreatorChanges, Rule>, Fail> {
    let block = block_of(alloc, &world.before, items)?;
    if block.header.round > 1_000 {
        return Err(Fail::from("too many blocks"));
    }
    if world.before.header.counter > 1_000 || !are_few(block.items.as_slice()) {
        return Err(Fail::from("too many transactions, or effects"));
    }
    match follow(alloc, world, &block) {
        Ok(delta) => {
            let hash = delta.hash;
            world.before.header = delta.header;
            world.before.hash = hash;
            world.before.totals = delta.totals;
            Ok(Ok(delta.creators))
        }
        Err(EvalRefusal::Broken { place: _, rule }) => Ok(Err(rule)),
        Err(_) => Err(Fail::from("another refusal")),
    }
}

// What an account holds by its row.
fn held_in(row: &AssetRow) -> Has {
    match row.holding {
        None => Has::No,
        Some(holding) if holding.frozen => Has::Frozen(holding.amount),
        Some(holding) => Has::Free(holding.amount),
    }
}

/// What an account holds of an asset.
pub(crate) fn holding(world: &World, who: u8, asset: u64) -> Has {
    match world.rows.get(&Key::Resource(Address([who; 32]), asset)) {
        Some(stored) => match &stored.row {
            Row::Asset(row) => held_in(row),
            _ => Has::No,
        },
        None => Has::No,
    }
}

/// How many assets an account is counted for.
pub(crate) fn count(world: &World, who: u8) -> u64 {
    match world.rows.get(&Key::Account(Address([who; 32]))) {
        Some(stored) => match &stored.row {
            Row::Account(row) => row.assets_held,
            _ => 0,
        },
        None => 0,
    }
}

/// Makes an index of the creators of assets.
pub(crate) fn index(world: &mut World) -> Result<(), AllocError> {
    world.rows.index()
}

/// The creator of an asset.
pub(crate) fn creator(world: &World, asset: u64) -> Option<Address> {
    match world.rows.view().creator(asset) {
        Ok(who) => who,
        Err(_) => None,
    }
}
