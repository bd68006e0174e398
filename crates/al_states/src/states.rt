//! The states of the ledger, one after each block.
ghost use Rattle.std.specs.Prelude.{◌≡◌, ◌≤◌, ◌<◌, ◌^◌, ℕ, suc, List, [], ◌∷◌, ◌++◌, length, take, All, Ok, IfOk, OnOk, OnErr};
ghost use Rattle.al_block.specs.Block.{IsBlock};
ghost use Rattle.al_eval.specs.Sound.{Sound};
ghost use Rattle.al_online.specs.Memory.{IsEachOnce};
ghost use Rattle.al_eval.specs.Start.{start, start_online, start_rows, start_totals};
ghost use Rattle.al_eval.specs.State.{State, counts_in, replay};
ghost use Rattle.al_genesis.specs.Genesis.{IsGenesis};
ghost use Rattle.al_states.specs.Accepting.{Accepts};
ghost use Rattle.al_states.specs.Held.{AreApart, IsValid};
ghost use Rattle.al_states.specs.Keeping.{IsNewest, IsStates, Leads, held};
ghost use Rattle.al_states.specs.Opening.{Opens};
ghost use Rattle.al_rewards.specs.Totals.{AreTotals};
ghost use Rattle.al_rows.specs.Rows.{AccountInRange};

use crate::accepting::{undecodable, unfit};
use crate::keeping::{KeptBlock, catch_up, evaluate, keep};
use crate::opening::fault_of;
use crate::{AcceptRefusal, Accepted, OpenFault};
use al_block::{Block, Header, decode_block, header_hash};
use al_deltas::{Deltas, KeptRows};
use al_eval::{
    Before, Evaluated, Genesis, GenesisRow, Tail, start_online, start_rows, start_totals,
};
use al_online::OnlineMemory;
use std::alloc::{AllocError, Global};

/// The states of the ledger: the one that it began with, and the one after each block.
#[derive(Drop)]
pub struct States {
    pub(crate) alloc: Global,
    // The header at the origin.
    first: Header,
    // The rows at the origin.
    pub(crate) base: KeptRows,
    // What each block changes.
    pub(crate) deltas: Deltas,
    // The rows after the last block, which may lack what it changes.
    pub(crate) newest: KeptRows,
    // The blocks.
    pub(crate) kept: Vec<KeptBlock>,
    // What the next step begins with, and the transactions of the blocks.
    pub(crate) before: Before,
    tail: Tail,
    // What consensus may ask of each round.
    pub(crate) online: OnlineMemory,
}

impl States {
    /// The ledger that a genesis file begins, with no block.
    ///
    /// Errors: `Genesis` exactly where the file holds no genesis, with the number of its first
    /// fault; `Memory` for want of memory.
    pub fn open(alloc: Global, file: &[u8]) -> Result<States, OpenFault>
        requires { length file.now < 2 ^ 31 }
        ensures { Opens file.now result }
    {
        let genesis = match Genesis::decode(alloc, file) {
            Ok(genesis) => genesis,
            Err(fault) => return Err(fault_of(&fault)),
        };
        match States::begin(alloc, genesis) {
            Ok(states) => Ok(states),
            Err(_) => Err(OpenFault::Memory),
        }
    }

    /// The ledger that a genesis begins, with no block.
    pub fn of_genesis(alloc: Global, genesis: Genesis) -> Result<States, AllocError>
        requires { (file : List ℕ) × IsGenesis file genesis }
        ensures states { IfOk result (λ s. IsStates s) }
        ensures origin { IfOk result (λ s. held s ≡ record { origin = start genesis; blocks = [] }) }
    {
        States::begin(alloc, genesis)
    }

    // The states of a genesis, with no block.
    fn begin(alloc: Global, genesis: Genesis) -> Result<States, AllocError>
        requires ranged { All (λ a. AccountInRange a.row) genesis.accounts }
        requires sound { Sound (start genesis) }
        requires few { genesis.header.counter ≤ 2 ^ 62 }
        requires once { IsEachOnce (start_online genesis.accounts) }
        requires totals { (start_totals genesis.accounts ≡ counts_in (start genesis)) × AreTotals (start_totals genesis.accounts) }
        ensures states { IfOk result (λ s. IsStates s) }
        ensures origin { IfOk result (λ s. held s ≡ record { origin = start genesis; blocks = [] }) }
    {
        let first = genesis.header.copy(alloc)?;
        let hash = header_hash(alloc, &first)?;
        let base = first_rows(alloc, genesis.accounts.as_slice())?;
        let newest = first_rows(alloc, genesis.accounts.as_slice())?;
        let totals = start_totals(genesis.accounts.as_slice());
        let known = start_online(alloc, genesis.accounts.as_slice())?;
        let online = OnlineMemory::new(alloc, 0, genesis.header.level, &known)?;
        Ok(States {
            alloc,
            first,
            base,
            deltas: Deltas::new(alloc, 0, totals),
            newest,
            kept: Vec::new(alloc),
            before: Before {
                chain: genesis.chain,
                header: genesis.header,
                hash,
                totals,
            },
            tail: Tail::new(alloc),
            online,
        })
    }

    /// How many blocks are held, each of which was accepted. Where no state of the chain has an
    /// application whose account is the sink or the pool, each is sound: no block is refused over it
    /// because the pool could not pay.
    pub fn front(&self) -> u64
        requires { IsStates self.now }
        ensures front { result ≡ length (held self.now).blocks }
        ensures bound { result < 2 ^ 63 }
        ensures valid { IsValid (held self.now).origin (held self.now).blocks }
        ensures sound { AreApart (held self.now) → (n : ℕ) (s : State) → replay (held self.now).origin (take n (held self.now).blocks) ≡ Ok s → Sound s }
    {
        self.kept.len() as u64
    }

    /// Accepts a block that these bytes spell, where it is the next one and follows the rules. It
    /// is held from then on; one that is held already changes nothing, and so does a refused call.
    pub fn accept(&mut self, bytes: &[u8]) -> Result<Accepted, AcceptRefusal>
        requires states { IsStates self.old }
        requires short { length bytes.now < 2 ^ 31 }
        ensures states { IsStates self.new }
        ensures accepts { Accepts (held self.old) (held self.new) bytes.now result }
    {
        match decode_block(self.alloc, bytes) {
            Ok(block) => self.place(bytes, block),
            Err(fault) => Err(undecodable(fault)),
        }
    }

    // Accepts a block that the bytes spell.
    fn place(&mut self, bytes: &[u8], block: Block) -> Result<Accepted, AcceptRefusal>
        requires states { IsStates self.old }
        requires spelled { IsBlock bytes.now block }
        requires short { length bytes.now < 2 ^ 31 }
        ensures states { IsStates self.new }
        ensures accepts { Accepts (held self.old) (held self.new) bytes.now result }
    {
        let round = block.header.round;
        let front = self.front();
        if round == 0 || front < round - 1 {
            return Err(AcceptRefusal::WrongRound {
                next: front + 1,
                front,
            });
        }
        if round <= front {
            return self.repeated(bytes, &block);
        }
        self.follow(bytes, block)
    }

    // Compares a block with the one of its round.
    fn repeated(&self, bytes: &[u8], block: &Block) -> Result<Accepted, AcceptRefusal>
        requires spelled { IsBlock bytes.now block.now }
        requires states { IsStates self.now }
        requires round { (0 < block.now.header.round) × (block.now.header.round ≤ length (held self.now).blocks) }
        ensures { Accepts (held self.now) (held self.now) bytes.now result }
    {
        let round = block.header.round;
        let front = self.front();
        let kept = &self.kept[round as usize - 1];
        if kept.bytes.as_slice() == bytes {
            return Ok(Accepted { front, round });
        }
        match header_hash(self.alloc, &kept.block.header) {
            Ok(hash) => Err(AcceptRefusal::Fork { kept: hash, front }),
            Err(_) => Err(AcceptRefusal::Memory),
        }
    }

    // Accepts a block of the next round that the bytes spell.
    fn follow(&mut self, bytes: &[u8], block: Block) -> Result<Accepted, AcceptRefusal>
        requires states { IsStates self.old }
        requires spelled { IsBlock bytes.now block }
        requires short { length bytes.now < 2 ^ 31 }
        requires next { block.header.round ≡ suc (length (held self.old).blocks) }
        ensures states { IsStates self.new }
        ensures accepts { Accepts (held self.old) (held self.new) bytes.now result }
    {
        if block.header.prev != self.before.hash {
            return Err(AcceptRefusal::WrongPrev {
                kept: self.before.hash,
                front: self.front(),
            });
        }
        match catch_up(&mut self.newest, &self.deltas) {
            Ok(()) => self.judge(bytes, block),
            Err(_) => Err(AcceptRefusal::Memory),
        }
    }

    // Accepts a block that goes on from the last one, where it follows the rules.
    fn judge(&mut self, bytes: &[u8], block: Block) -> Result<Accepted, AcceptRefusal>
        requires states { IsStates self.old }
        requires newest { IsNewest self.old }
        requires spelled { IsBlock bytes.now block }
        requires short { length bytes.now < 2 ^ 31 }
        requires next { block.header.round ≡ suc (length (held self.old).blocks) }
        requires continues { block.header.prev ≡ self.old.before.hash }
        ensures states { IsStates self.new }
        ensures accepts { Accepts (held self.old) (held self.new) bytes.now result }
    {
        match evaluate(self.alloc, &self.newest, &self.before, &self.tail, &block) {
            Ok(evaluated) => self.take(bytes, block, evaluated),
            Err(refusal) => Err(unfit(self.front(), refusal)),
        }
    }

    // Takes a block that leads on.
    fn take(
        &mut self,
        bytes: &[u8],
        block: Block,
        evaluated: Evaluated,
    ) -> Result<Accepted, AcceptRefusal>
        requires states { IsStates self.old }
        requires newest { IsNewest self.old }
        requires spelled { IsBlock bytes.now block }
        requires next { block.header.round ≡ suc (length (held self.old).blocks) }
        requires leads { Leads (held self.old) block evaluated }
        ensures states { IsStates self.new }
        ensures accepts { Accepts (held self.old) (held self.new) bytes.now result }
    {
        let round = block.header.round;
        match self.append(bytes, block, evaluated) {
            Ok(()) => Ok(Accepted {
                front: round,
                round,
            }),
            Err(_) => Err(AcceptRefusal::Memory),
        }
    }

    // Keeps a block that leads on.
    fn append(&mut self, bytes: &[u8], block: Block, evaluated: Evaluated) -> Result<(), AllocError>
        requires states { IsStates self.old }
        requires newest { IsNewest self.old }
        requires spelled { IsBlock bytes.now block }
        requires next { block.header.round ≡ suc (length (held self.old).blocks) }
        requires leads { Leads (held self.old) block evaluated }
        ensures ok { OnOk result (held self.new ≡ record (held self.old) { blocks = (held self.old).blocks ++ block ∷ [] }) }
        ensures err { OnErr result (held self.new ≡ held self.old) }
        ensures states { IsStates self.new }
    {
        let header = evaluated.delta.header.copy(self.alloc)?;
        let hash = evaluated.delta.hash;
        let totals = evaluated.delta.totals;
        let bytes = bytes.to_vec(self.alloc)?;
        let next = KeptBlock { block, bytes };
        keep(
            &mut self.kept,
            &mut self.tail,
            &mut self.deltas,
            &mut self.online,
            next,
            evaluated,
        )?;
        self.before.header = header;
        self.before.hash = hash;
        self.before.totals = totals;
        Ok(())
    }
}

// The rows of a genesis, with the index of their creators.
fn first_rows(alloc: Global, accounts: &[GenesisRow]) -> Result<KeptRows, AllocError>
    requires { All (λ a. AccountInRange a.row) accounts.now }
    ensures { IfOk result (λ rows. rows ≡ start_rows accounts.now) }
{
    let rows = start_rows(alloc, accounts)?;
    let mut kept = KeptRows::new(alloc, rows);
    kept.index()?;
    Ok(kept)
}
