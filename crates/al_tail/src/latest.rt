//! The greatest last valid round under each id and each sender's lease.
ghost use Rattle.std.specs.Prelude.{◌≡◌, Some, None, IfOk, IsSome, OnOk, OnErr, cond};
ghost use Rattle.std.specs.BTreeMap.{is_at};
ghost use Rattle.al_tail.specs.Past.{later};
ghost use Rattle.al_tail.specs.Latest.{Knows, at, mark_cmp, raised};

use crate::Entry;
use crate::tail::Kept;
use al_base::{Address, Hash};
use std::alloc::{AllocError, Global};
use std::collections::BTreeMap;

/// What an entry is found by.
#[derive(Clone, Copy, PartialEq, Eq, PartialOrd, Ord)]
pub enum Mark {
    /// The transaction's id.
    Id(Hash),
    /// Its sender and its lease.
    Lease(Address, Hash),
}

/// The greatest last valid round under each mark.
#[derive(Drop)]
pub struct Latest {
    rounds: BTreeMap<Mark, u64>,
}

impl Latest {
    /// No round.
    pub fn new(alloc: Global) -> Latest
        ensures { (q : _) → at result.rounds.entries q ≡ None }
    {
        Latest {
            rounds: BTreeMap::new(alloc),
        }
    }

    /// The round under a mark.
    pub fn last(&self, mark: &Mark) -> Option<u64>
        ensures { result ≡ at self.now.rounds.entries mark.now }
    {
        self.rounds.get(mark).copied()
    }

    // Puts a round under a mark, and gives the one that stood there. Only a new mark takes memory.
    fn swap(&mut self, mark: &Mark, last: u64) -> Result<Option<u64>, AllocError>
        ensures old { IfOk result (λ before. before ≡ at self.old.rounds.entries mark.now) }
        ensures ok { OnOk result ((q : _) → at self.new.rounds.entries q ≡ cond (is_at (mark_cmp mark.now) q) (Some last) (at self.old.rounds.entries q)) }
        ensures err { OnErr result (self.new.rounds.entries ≡ self.old.rounds.entries) }
        ensures absent { OnErr result (at self.old.rounds.entries mark.now ≡ None) }
    {
        match self.rounds.insert(*mark, last) {
            Ok(before) => Ok(before),
            Err(_) => Err(AllocError),
        }
    }

    // Takes the round under a mark away.
    fn take_away(&mut self, mark: &Mark)
        ensures { (q : _) → at self.new.rounds.entries q ≡ cond (is_at (mark_cmp mark.now) q) None (at self.old.rounds.entries q) }
    {
        let _ = self.rounds.remove(mark);
    }

    /// Puts back what stood under a mark, which has a round now. It takes no memory.
    pub fn put_back(&mut self, mark: &Mark, before: Option<u64>)
        requires { IsSome (at self.old.rounds.entries mark.now) }
        ensures { (q : _) → at self.new.rounds.entries q ≡ cond (is_at (mark_cmp mark.now) q) before (at self.old.rounds.entries q) }
    {
        match before {
            Some(last) => {
                let _ = self.swap(mark, last);
            }
            None => self.take_away(mark),
        }
    }

    // The round under a mark is at least this one from now on. Gives the one that stood there.
    fn raise_one(&mut self, mark: &Mark, last: u64) -> Result<Option<u64>, AllocError>
        ensures old { IfOk result (λ before. before ≡ at self.old.rounds.entries mark.now) }
        ensures ok { OnOk result ((q : _) → at self.new.rounds.entries q ≡ cond (is_at (mark_cmp mark.now) q) (Some (later last (at self.old.rounds.entries mark.now))) (at self.old.rounds.entries q)) }
        ensures err { OnErr result (self.new.rounds.entries ≡ self.old.rounds.entries) }
    {
        let before = self.swap(mark, last)?;
        if let Some(other) = before {
            if last < other {
                let _ = self.swap(mark, other);
            }
        }
        Ok(before)
    }

    /// The rounds with one entry more, and what stood under its marks. A refused call leaves them.
    pub fn raise(&mut self, entry: Entry) -> Result<Kept, AllocError>
        ensures kept { IfOk result (λ k. (k.entry ≡ entry) × Knows (at self.old.rounds.entries) k) }
        ensures ok { OnOk result ((q : _) → at self.new.rounds.entries q ≡ raised entry (at self.old.rounds.entries) q) }
        ensures err { OnErr result ((q : _) → at self.new.rounds.entries q ≡ at self.old.rounds.entries q) }
    {
        let id = entry.id_mark();
        let id_before = self.raise_one(&id, entry.last)?;
        if entry.has_no_lease() {
            return Ok(Kept {
                entry,
                id_before,
                lease_before: None,
            });
        }
        match self.raise_one(&entry.lease_mark(), entry.last) {
            Ok(lease_before) => Ok(Kept {
                entry,
                id_before,
                lease_before,
            }),
            Err(refused) => {
                self.put_back(&id, id_before);
                Err(refused)
            }
        }
    }
}
