//! The genesis of each generated chain.
ghost use Rattle.std.specs.Prelude.{◌≡◌, ◌∷◌, [], map, IfOk};
ghost use Rattle.al_digest.specs.Digests.{digest_of};
ghost use Rattle.al_digest.specs.declared.hashing.Prefix.TheVariants as prefixes;
ghost use Rattle.al_genesis.specs.Genesis.{account, first_header, first_row, genesis};
ghost use Rattle.al_generator.specs.Genesis.{first_account, generated_bytes, generated_genesis, generated_record, openings, status_number};
ghost use Rattle.al_msgpack.specs.declared.val.Val.TheVariants as values;
ghost use Rattle.al_record.specs.Code.{put_of};
ghost use Rattle.al_record.specs.Columns.{number_put};

use crate::progress::user;
use al_base::{Address, Addresses, Bytes, Hash, Special, Status};
use al_block::Header;
use al_digest::{Prefix, digest};
use al_genesis::{Genesis, GenesisRow, GenesisRows};
use al_msgpack::{Entries, Val, Vals, write};
use al_record::{COUNT, Column, Content, HASH, Shape, listed, put_list, put_map};
use al_rows::{AccountRow, MAX_BALANCE};
use al_txn::Chain;
use std::alloc::{AllocError, Global};

const SINK: Address = Address([1; 32]);

const POOL: Address = Address([2; 32]);

const ADDRESS: [Column; 1] = [Column("addr", HASH)];

const ROW: [Column; 2] = [
    Column("a", Shape::UpTo { most: 2 }),
    Column("b", Shape::UpTo { most: MAX_BALANCE }),
];

const CHAIN: [Column; 5] = [
    Column("cpi", COUNT),
    Column("fees", HASH),
    Column("id", Shape::Text),
    Column("intv", COUNT),
    Column("rwd", HASH),
];

/// What an account begins with.
#[derive(Clone, Copy, Debug, PartialEq, Eq)]
pub struct Opening {
    pub address: Address,
    pub status: Status,
    /// In microAlgos.
    pub balance: u64,
}

/// What all accounts begin with.
fn openings(alloc: Global) -> Result<Vec<Opening>, AllocError>
    ensures { IfOk result (λ os. os.items ≡ openings) }
{
    let mut all = Vec::new(alloc);
    all.push(Opening {
        address: SINK,
        status: Status::NotParticipating,
        balance: 1_000_000,
    })?;
    all.push(Opening {
        address: POOL,
        status: Status::NotParticipating,
        balance: 1_000_000_000,
    })?;
    for i in 0..32 {
        all.push(Opening {
            address: user(i),
            status: Status::Offline,
            balance: 1_000_000_000_000,
        })?;
    }
    Ok(all)
}

/// The number of a status in the record.
fn status_number(status: Status) -> u64
    ensures { result ≡ status_number status }
{
    match status {
        Status::Offline => 0,
        Status::Online => 1,
        Status::NotParticipating => 2,
    }
}

/// What stands in the record of an account's row.
fn row_contents<'a>(opening: &'a Opening) -> [Content<'a>; 2]
    ensures { map put_of result ≡ number_put (status_number opening.now.status) ∷ number_put opening.now.balance ∷ [] }
{
    [
        Content::Number(status_number(opening.status)),
        Content::Number(opening.balance),
    ]
}

/// The record of an account.
fn account_val(alloc: Global, opening: &Opening) -> Result<Val, AllocError>
    ensures { IfOk result (λ v. v ≡ values.Map (account.write (first_account opening.now))) }
{
    let row = listed(alloc, &ROW, &row_contents(opening))?;
    let mut entries = listed(alloc, &ADDRESS, &[Content::Array(&opening.address.0)])?;
    put_map(alloc, &mut entries, "row", row)?;
    Ok(Val::Map(entries))
}

/// The records of accounts.
fn account_vals(alloc: Global, all: &[Opening]) -> Result<Vals, AllocError>
    ensures { IfOk result (λ vs. vs ≡ map (λ es. values.Map es) (map account.write (map first_account all.now))) }
{
    let mut vals = Vals::new(alloc);
    for opening in all {
        vals.push(account_val(alloc, opening)?)?;
    }
    Ok(vals)
}

/// The record of the genesis.
fn genesis_val(alloc: Global, accounts: Vals) -> Result<Val, AllocError>
    requires { accounts ≡ map (λ es. values.Map es) (map account.write (map first_account openings)) }
    ensures { IfOk result (λ v. v ≡ values.Map (genesis.write generated_record)) }
{
    let mut entries = Entries::new(alloc);
    put_list(alloc, &mut entries, "alloc", accounts)?;
    let others = listed(
        alloc,
        &CHAIN,
        &[
            Content::Number(800),
            Content::Array(&SINK.0),
            Content::Word("gen"),
            Content::Number(100),
            Content::Array(&POOL.0),
        ],
    )?;
    entries.append(others)?;
    Ok(Val::Map(entries))
}

/// The genesis hash.
#[tactic(auto, unfolding(crate::specs::Genesis::generated_bytes))]
fn generated_hash(alloc: Global, all: &[Opening]) -> Result<Hash, AllocError>
    requires { all.now ≡ openings }
    ensures { IfOk result (λ h. h ≡ digest_of prefixes.Genesis generated_bytes) }
{
    let accounts = account_vals(alloc, all)?;
    let mut bytes = Vec::new(alloc);
    write(&genesis_val(alloc, accounts)?, &mut bytes)?;
    Ok(digest(Prefix::Genesis, bytes.as_slice()))
}

/// The row of an account.
fn row_of(opening: &Opening) -> GenesisRow
    ensures { result ≡ first_row (first_account opening.now) }
{
    GenesisRow {
        address: opening.address,
        row: AccountRow {
            status: opening.status,
            balance: opening.balance,
            ..AccountRow::none()
        },
    }
}

/// The rows of accounts.
fn rows_of(alloc: Global, all: &[Opening]) -> Result<GenesisRows, AllocError>
    ensures { IfOk result (λ rows. rows ≡ map first_row (map first_account all.now)) }
{
    let mut rows = GenesisRows::new(alloc);
    for opening in all {
        rows.push(row_of(opening))?;
    }
    Ok(rows)
}

/// The header of round 0.
fn first_header(alloc: Global, hash: Hash) -> Header
    requires { hash ≡ digest_of prefixes.Genesis generated_bytes }
    ensures { result ≡ first_header generated_bytes generated_record }
{
    Header {
        round: 0,
        prev: [0; 32],
        ts: 0,
        genesis_hash: hash,
        sink: SINK,
        pool: POOL,
        level: 0,
        rate: 0,
        residue: 0,
        recalc: 1,
        counter: 0,
        payset: [0; 32],
        expired: Addresses::new(alloc),
    }
}

/// The genesis of each generated chain: 32 users have 10^12 microAlgos each and are offline, the
/// rewards pool has 10^9 and the fee sink 10^6.
pub fn generated_genesis(alloc: Global) -> Result<Genesis, AllocError>
    ensures { IfOk result (λ g. g ≡ generated_genesis) }
{
    let all = openings(alloc)?;
    let hash = generated_hash(alloc, all.as_slice())?;
    let id = Bytes::of(alloc, b"gen")?;
    let accounts = rows_of(alloc, all.as_slice())?;
    let chain = Chain {
        special: Special {
            sink: SINK,
            pool: POOL,
        },
        hash,
        id,
        interval: 100,
        catch_interval: 800,
    };
    Ok(Genesis {
        chain,
        header: first_header(alloc, hash),
        accounts,
    })
}
