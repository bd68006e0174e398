//! The genesis of a chain.
ghost use Rattle.std.specs.Prelude.{◌≡◌, ◌<◌, ◌≤◌, ◌^◌, ◌==◌, ◌&&◌, not, length, Result, IfOk, IsTrue, map};
ghost use Rattle.std.specs.List.{list_all, list_any};
ghost use Rattle.al_msgpack.specs.Places.{IsSpelling};
ghost use Rattle.al_msgpack.specs.Rising.{canonical};
ghost use Rattle.std.specs.Str.{bytes_eq};
ghost use Rattle.al_genesis.specs.Genesis.{GenesisAnswers, GenesisMeans, GenesisMeansUnless, IsGenesisOf, first_header, first_row, status_of, interval_of, number_of};
ghost use Rattle.al_genesis.specs.declared.genesis.Genesis.{Genesis};
ghost use Rattle.al_genesis.specs.declared.genesis.GenesisFault.{GenesisFault};
ghost use Rattle.al_genesis.specs.declared.genesis.GenesisFault.TheVariants.{Memory};

use crate::genesis_checks::check_fields;
use crate::genesis_fields::{FirstAccount, FirstRow, GenesisRecord};
use crate::genesis_record::read_value;
use al_base::{Address, Addresses, Bytes, Special, Status};
use al_block::Header;
use al_digest::{Prefix, digest};
use al_msgpack::{DecodeFault, Val, decode};
use al_record::{Fault, ReadError};
use al_rows::AccountRow;
use al_txn::Chain;
use sqlite_items::Items;
use std::alloc::{AllocError, Global};

/// The rounds that a reward rate stays for where the record does not say.
const USUAL_INTERVAL: u64 = 500_000;

/// An account at the start.
#[derive(Clone, Copy, Debug, PartialEq, Eq)]
pub struct GenesisRow {
    pub address: Address,
    pub row: AccountRow,
}

/// The accounts at the start, in the order of their addresses.
pub type GenesisRows = Items<GenesisRow>;

/// What a chain starts from.
#[derive(Debug, Drop)]
pub struct Genesis {
    /// What is fixed of the chain.
    pub chain: Chain,
    /// The header of round 0.
    pub header: Header,
    /// The accounts at round 0.
    pub accounts: GenesisRows,
}

/// Why bytes are no genesis: the first of these that holds.
#[derive(Debug, Drop)]
pub enum GenesisFault {
    /// They are the spelling of no value.
    Decode(DecodeFault),
    /// A field that is unknown, of the wrong family, or present with its zero value.
    Field { name: Bytes },
    /// A field outside its range.
    Range { name: Bytes },
    /// The address at this place does not stand behind the one before.
    Order { place: usize },
    /// Sink and pool are equal, or one is missing or not NotParticipating.
    Special,
    /// The pool has less than 100,000 microAlgos.
    PoolLow { balance: u64 },
    /// The account at this place, neither sink nor pool, is the first with less than 100,000
    /// microAlgos.
    Minimum { place: usize },
    /// All accounts together have more than 10^16 microAlgos.
    TotalLarge,
    /// Want of memory.
    Memory,
}

impl GenesisFault {
    /// Its number, from 1 on in the order above.
    pub fn number(&self) -> u8
        ensures { result ≡ number_of self.now }
    {
        match self {
            GenesisFault::Decode(_) => 1,
            GenesisFault::Field { name: _ } => 2,
            GenesisFault::Range { name: _ } => 3,
            GenesisFault::Order { place: _ } => 4,
            GenesisFault::Special => 5,
            GenesisFault::PoolLow { balance: _ } => 6,
            GenesisFault::Minimum { place: _ } => 7,
            GenesisFault::TotalLarge => 8,
            GenesisFault::Memory => 9,
        }
    }
}

impl From<AllocError> for GenesisFault {
    ghost from_gives = { λ _ e. e ≡ Memory };

    fn from(_: AllocError) -> GenesisFault {
        GenesisFault::Memory
    }
}

impl Genesis {
    /// The genesis that bytes spell, or the first fault.
    pub fn decode(alloc: Global, input: &[u8]) -> Result<Genesis, GenesisFault>
        requires { length input.now < 2 ^ 31 }
        // Each answer is right, by the format and the conditions alone.
        ensures right { GenesisMeansUnless input.now result }
        // What is right is answered, unless memory runs out.
        ensures only { (r : Result Genesis GenesisFault) → GenesisMeans input.now r → GenesisAnswers result r }
    {
        judge(alloc, input)
    }
}

/// The verdict on an input.
fn judge(alloc: Global, input: &[u8]) -> Result<Genesis, GenesisFault>
    requires { length input.now < 2 ^ 31 }
    ensures { GenesisMeansUnless input.now result }
{
    let v = match decode(alloc, input) {
        Ok(v) => v,
        Err(DecodeFault::Memory) => return Err(GenesisFault::Memory),
        Err(fault) => return Err(GenesisFault::Decode(fault)),
    };
    genesis_in(alloc, input, &v)
}

/// The genesis that a value says, or the first fault.
fn genesis_in(alloc: Global, input: &[u8], v: &Val) -> Result<Genesis, GenesisFault>
    requires spells { IsSpelling v.now input.now }
    requires rising { IsTrue (canonical v.now) }
    ensures { GenesisMeansUnless input.now result }
{
    let fields = match read_value(alloc, v) {
        Ok(fields) => fields,
        Err(ReadError::Fault(Fault::Field { name })) => return Err(GenesisFault::Field { name }),
        Err(ReadError::Fault(Fault::Range { name })) => return Err(GenesisFault::Range { name }),
        Err(ReadError::Memory) => return Err(GenesisFault::Memory),
    };
    match check_fields(&fields) {
        Ok(()) => Ok(genesis_of(alloc, input, fields)?),
        Err(fault) => Err(fault),
    }
}

/// The status of a number.
fn status_of(n: u64) -> Status
    ensures { result ≡ status_of n }
{
    match n {
        0 => Status::Offline,
        1 => Status::Online,
        _ => Status::NotParticipating,
    }
}

/// The row of an account. What a genesis record cannot say is zero.
fn first_row(account: &FirstAccount) -> GenesisRow
    ensures { result ≡ first_row account.now }
{
    let FirstRow {
        status,
        balance,
        vote,
        selection,
        sprf,
        first,
        last,
        dilution,
    } = account.row;
    GenesisRow {
        address: account.address,
        row: AccountRow {
            status: status_of(status),
            balance,
            vote,
            selection,
            sprf,
            first,
            last,
            dilution,
            ..AccountRow::none()
        },
    }
}

/// The rows of all accounts.
fn first_rows(alloc: Global, accounts: &[FirstAccount]) -> Result<GenesisRows, AllocError>
    ensures { IfOk result (λ rows. rows ≡ map first_row accounts.now) }
{
    let mut rows = Items::new(alloc);
    for account in accounts {
        rows.push(first_row(account))?;
    }
    Ok(rows)
}

/// How long a reward rate stays.
fn interval_of(n: u64) -> u64
    requires { n ≤ 2 ^ 62 }
    ensures value { result ≡ interval_of n }
    ensures some { 1 ≤ result }
    ensures most { result ≤ 2 ^ 62 }
{
    if n == 0 { USUAL_INTERVAL } else { n }
}

/// The header of round 0.
fn first_header(alloc: Global, input: &[u8], fields: &GenesisRecord) -> Header
    ensures { result ≡ first_header input.now fields.now }
{
    Header {
        round: 0,
        prev: [0; 32],
        ts: fields.ts,
        genesis_hash: digest(Prefix::Genesis, input),
        sink: fields.sink,
        pool: fields.pool,
        level: 0,
        rate: 0,
        residue: 0,
        recalc: 1,
        counter: 0,
        payset: [0; 32],
        expired: Addresses::new(alloc),
    }
}

/// The genesis that a good record says.
fn genesis_of(alloc: Global, input: &[u8], fields: GenesisRecord) -> Result<Genesis, AllocError>
    ensures { IfOk result (λ g. IsGenesisOf input.now fields g) }
{
    let header = first_header(alloc, input, &fields);
    let accounts = first_rows(alloc, fields.accounts.as_slice())?;
    let chain = Chain {
        special: Special {
            sink: fields.sink,
            pool: fields.pool,
        },
        hash: digest(Prefix::Genesis, input),
        interval: interval_of(fields.interval),
        catch_interval: fields.catch_interval,
        id: fields.id,
    };
    Ok(Genesis {
        chain,
        header,
        accounts,
    })
}
