//! The transactions that may stand in a chain no second time.
ghost use Rattle.std.specs.Prelude.{◌≡◌, ◌++◌, ◌∷◌, ◌-◌, List, [], IfOk, OnOk, OnErr, length, map, take};
ghost use Rattle.al_txn.specs.Ids.{txid_of};
ghost use Rattle.al_tail.specs.declared.tail.Entry.{Entry};
ghost use Rattle.al_tail.specs.Past.{entry_of, has_id, is_no_lease, lease_until};
ghost use Rattle.al_tail.specs.Latest.{id_mark, lease_mark};

use crate::latest::{Latest, Mark};
use al_base::{Address, Hash};
use al_block::Block;
use al_txn::{Item, Txn, txid};
use std::alloc::{AllocError, Global};
use std::marker::Model;

/// What is kept of a transaction, so that it stands in the chain no second time and its lease is
/// held.
#[derive(Clone, Copy, Debug, PartialEq, Eq)]
pub struct Entry {
    /// The transaction's id.
    pub id: Hash,
    /// Who sent it.
    pub sender: Address,
    /// Its lease; zero for none.
    pub lease: Hash,
    /// The last round that it may stand in.
    pub last: u64,
}

impl Entry {
    /// What is kept of a transaction.
    pub fn of(alloc: Global, txn: &Txn) -> Result<Entry, AllocError>
        ensures { IfOk result (λ e. e ≡ entry_of txn.now) }
    {
        let id = txid(alloc, txn)?;
        Ok(Entry::with(id, txn))
    }

    /// What is kept of a transaction, whose id is known.
    pub fn with(id: Hash, txn: &Txn) -> Entry
        requires { id ≡ txid_of txn.now }
        ensures { result ≡ entry_of txn.now }
    {
        Entry {
            id,
            sender: txn.sender,
            lease: txn.lease,
            last: txn.last,
        }
    }

    /// The mark of its id.
    pub(crate) fn id_mark(&self) -> Mark
        ensures { result ≡ id_mark self.now }
    {
        Mark::Id(self.id)
    }

    /// The mark of its sender's lease.
    pub(crate) fn lease_mark(&self) -> Mark
        ensures { result ≡ lease_mark self.now }
    {
        Mark::Lease(self.sender, self.lease)
    }

    /// Whether its lease is zero, which is none.
    pub fn has_no_lease(&self) -> bool
        ensures { result ≡ is_no_lease self.now.lease }
    {
        self.lease == [0; 32]
    }
}

/// An entry, and what stood under its marks before it.
#[derive(Clone, Copy)]
pub struct Kept {
    pub entry: Entry,
    pub id_before: Option<u64>,
    pub lease_before: Option<u64>,
}

/// The transactions of a chain, as a list of what is kept of each. A look-up takes the logarithm of
/// their number.
#[derive(Drop)]
pub struct Tail {
    kept: Vec<Kept>,
    latest: Latest,
}

impl Model for Tail {
    ghost use Rattle.std.specs.Prelude.{List};
    ghost use Rattle.al_tail.specs.declared.tail.Entry.{Entry};
    ghost use Rattle.al_tail.specs.Latest.{IsIndexed, entries_of};

    ghost Value = { List Entry };

    ghost view = { λ t. entries_of t.kept.items };

    ghost invariant = { λ t. IsIndexed t.latest.rounds.entries t.kept.items };
}

impl Tail {
    /// No transaction.
    pub fn new(alloc: Global) -> Tail
        ensures { result ≡ [] }
    {
        Tail {
            kept: Vec::new(alloc),
            latest: Latest::new(alloc),
        }
    }

    /// Appends an entry.
    pub fn push(&mut self, entry: Entry) -> Result<(), AllocError>
        ensures ok { OnOk result (self.new ≡ self.old ++ entry ∷ []) }
        ensures err { OnErr result (self.new ≡ self.old) }
    {
        self.kept.reserve(1)?;
        let kept = self.latest.raise(entry)?;
        match self.kept.push(kept) {
            Ok(()) => Ok(()),
            Err(_) => unreachable!(),
        }
    }

    // Takes back the entry that was appended last, where there is one.
    fn take_last(&mut self)
        ensures { self.new ≡ take (length self.old - 1) self.old }
    {
        if let Some(kept) = self.kept.pop() {
            self.latest.put_back(&kept.entry.id_mark(), kept.id_before);
            if !kept.entry.has_no_lease() {
                self.latest
                    .put_back(&kept.entry.lease_mark(), kept.lease_before);
            }
        }
    }

    // Takes back this many entries.
    fn shorten(&mut self, count: usize)
        ensures { self.new ≡ take (length self.old - count) self.old }
    {
        for _taken in 0..count {
            self.take_last();
        }
    }

    /// Appends entries. A refused call leaves it as it was.
    pub fn append(&mut self, entries: &[Entry]) -> Result<(), AllocError>
        ensures ok { OnOk result (self.new ≡ self.old ++ entries.now) }
        ensures err { OnErr result (self.new ≡ self.old) }
    {
        for (count, entry) in entries.iter().enumerate() {
            if let Err(refused) = self.push(*entry) {
                self.shorten(count);
                return Err(refused);
            }
        }
        Ok(())
    }

    /// Appends the entries of a block's transactions. A refused call leaves it as it was.
    pub fn extend(&mut self, alloc: Global, b: &Block) -> Result<(), AllocError>
        ensures ok { OnOk result (self.new ≡ self.old ++ map (λ i. entry_of i.txn) b.now.items) }
        ensures err { OnErr result (self.new ≡ self.old) }
    {
        let more = entries_of(alloc, b.items.as_slice())?;
        self.append(more.as_slice())
    }

    /// Takes back the block that was appended last, so that all is as before it. It takes no memory.
    pub fn take_back(&mut self, b: &Block)
        requires { (front : List Entry) × (self.old ≡ front ++ map (λ i. entry_of i.txn) b.now.items) }
        ensures { (front : List Entry) → self.old ≡ front ++ map (λ i. entry_of i.txn) b.now.items → self.new ≡ front }
    {
        self.shorten(b.items.len());
    }

    /// Whether a transaction of this id is here that may stand in this round or later.
    pub fn has_id(&self, round: u64, id: &Hash) -> bool
        ensures { result ≡ has_id round id.now self.now }
    {
        match self.latest.last(&Mark::Id(*id)) {
            Some(last) => round <= last,
            None => false,
        }
    }

    /// The last round that a sender's lease is held, where it is held in this round.
    pub fn lease_until(&self, round: u64, sender: &Address, lease: &Hash) -> Option<u64>
        ensures { result ≡ lease_until round sender.now lease.now self.now }
    {
        match self.latest.last(&Mark::Lease(*sender, *lease)) {
            Some(last) if round <= last => Some(last),
            _ => None,
        }
    }
}

/// What is kept of each transaction of a block, whose ids are known.
pub fn entries_with(alloc: Global, items: &[Item], ids: &[Hash]) -> Result<Vec<Entry>, AllocError>
    requires { ids.now ≡ map (λ i. txid_of i.txn) items.now }
    ensures { IfOk result (λ es. es.items ≡ map (λ i. entry_of i.txn) items.now) }
{
    let mut entries = Vec::with_capacity(alloc, items.len())?;
    for (place, item) in items.iter().enumerate() {
        entries.push(Entry::with(ids[place], &item.txn))?;
    }
    Ok(entries)
}

// What is kept of each transaction.
fn entries_of(alloc: Global, items: &[Item]) -> Result<Vec<Entry>, AllocError>
    ensures { IfOk result (λ es. es.items ≡ map (λ i. entry_of i.txn) items.now) }
{
    let mut entries = Vec::new(alloc);
    for item in items {
        entries.push(Entry::of(alloc, &item.txn)?)?;
    }
    Ok(entries)
}
