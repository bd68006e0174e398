//! The bytes of a connection that wait to be used.
ghost use Rattle.std.specs.Prelude.{◌≡◌, ◌≤◌, ◌<◌, ◌+◌, ℕ, List, [], ◌++◌, length, drop, codes};
ghost use Rattle.al_http.specs.Limits.{most_message};
ghost use Rattle.al_session.specs.Taking.{Fills, HeadNexts, IsCounted, Nexts, Waits};

use al_base::{Failed, Source};
use al_http::{Head, HeadRead, SizeFault, read_head};
use al_routes::{FormFault, Request, Routes};
use std::alloc::{AllocError, Global};
use std::marker::Model;

/// The most bytes that one take gives.
const MOST_TAKEN: usize = 4096;

/// Why taking from a source stops.
#[derive(Clone, Copy, Debug, PartialEq, Eq)]
pub enum Stop {
    /// The source is at its end.
    End,
    /// The source failed.
    Fault,
    /// A bad head waits.
    BadHead,
    /// A whole head waits, whose body is not read.
    Refused(SizeFault),
    /// There was no memory.
    Memory,
}

impl From<Failed> for Stop {
    ghost use Rattle.std.specs.Prelude.{◌≡◌};
    ghost use Rattle.al_session.specs.declared.inbox.Stop.TheVariants as stops;

    ghost from_gives = { λ _ stop. stop ≡ stops.Fault };

    fn from(_: Failed) -> Stop {
        Stop::Fault
    }
}

impl From<AllocError> for Stop {
    ghost use Rattle.std.specs.Prelude.{◌≡◌};
    ghost use Rattle.al_session.specs.declared.inbox.Stop.TheVariants as stops;

    ghost from_gives = { λ _ stop. stop ≡ stops.Memory };

    fn from(_: AllocError) -> Stop {
        Stop::Memory
    }
}

/// A request whose bytes wait.
#[derive(Clone, Copy, Debug, PartialEq, Eq)]
pub struct Piece {
    /// What it asks, or the first fault of its method and target.
    pub asked: Result<Request, FormFault>,
    /// Whether the connection ends after it.
    pub close: bool,
    /// The bytes of its head.
    pub used: usize,
    /// The bytes of its body.
    pub size: usize,
}

/// The bytes that left the source and wait to be used.
///
/// However much was taken, it holds at most 5,263,360 bytes: a head of 16,384, a body of 5,242,880
/// and what one take gives.
#[derive(Drop)]
pub struct Inbox {
    bytes: Vec<u8>,
    start: usize,
}

impl Model for Inbox {
    ghost use Rattle.std.specs.Prelude.{List, ℕ, drop, length, ◌≤◌};
    ghost use Rattle.al_session.specs.Room.{most_waiting};

    ghost Value = { List ℕ };

    ghost view = { λ b. drop b.start b.bytes.items };

    ghost invariant = { λ b. (b.start ≤ length b.bytes.items) × (length b.bytes.items ≤ most_waiting) };
}

impl Inbox {
    pub fn new(alloc: Global) -> Inbox
        ensures { result ≡ [] }
    {
        Inbox {
            bytes: Vec::new(alloc),
            start: 0,
        }
    }

    /// The bytes that wait.
    pub fn waiting(&self) -> &[u8]
        ensures { result.now ≡ self.now }
    {
        &self.bytes[self.start..]
    }

    pub fn len(&self) -> usize
        ensures { result ≡ length self.now }
    {
        self.bytes.len() - self.start
    }

    /// Lets the first n bytes go.
    pub fn pass(&mut self, n: usize)
        requires { n ≤ length self.old }
        ensures { self.new ≡ drop n self.old }
    {
        self.start += n;
    }

    /// Takes once from the source, into the room of the bytes that went.
    pub fn fill<S: Source>(&mut self, source: &mut S) -> Result<(), Stop>
        requires { length self.old ≤ most_message }
        ensures bytes { Fills self.old self.new (S.left source.old) (S.left source.new) result }
        ensures later { S.faults source.old ≤ S.faults source.new }
        ensures kept { IsCounted (S.faults source.old) (S.faults source.new) result }
    {
        self.bytes.drain(..self.start);
        self.start = 0;
        let mut piece = [0u8; MOST_TAKEN];
        let n = source.take(&mut piece)?;
        if n == 0 {
            return Err(Stop::End);
        }
        self.bytes.extend_from_slice(&piece[..n])?;
        Ok(())
    }

    // Takes until the head at the front is whole: it is read anew after each take, and has at most 16,384 bytes.
    fn next_head<S: Source>(&mut self, alloc: Global, source: &mut S) -> Result<Head, Stop>
        ensures bytes { HeadNexts self.old self.new (S.left source.old) (S.left source.new) result }
        ensures later { S.faults source.old ≤ S.faults source.new }
        ensures kept { IsCounted (S.faults source.old) (S.faults source.new) result }
    {
        loop {
            match read_head(alloc, self.waiting())? {
                HeadRead::Got(head) => return Ok(head),
                HeadRead::Bad => return Err(Stop::BadHead),
                HeadRead::Partial => self.fill(source)?,
            }
        }
    }

    // Takes until so many bytes wait.
    fn wait_for<S: Source>(&mut self, source: &mut S, need: usize) -> Result<(), Stop>
        requires { need ≤ most_message }
        ensures bytes { Waits self.old self.new (S.left source.old) (S.left source.new) need result }
        ensures later { S.faults source.old ≤ S.faults source.new }
        ensures kept { IsCounted (S.faults source.old) (S.faults source.new) result }
    {
        while self.len() < need {
            self.fill(source)?;
        }
        Ok(())
    }

    /// Takes until the next request is whole.
    ///
    /// # Errors
    ///
    /// Why taking stopped before.
    pub fn next<S: Source>(
        &mut self,
        alloc: Global,
        routes: &Routes,
        source: &mut S,
    ) -> Result<Piece, Stop>
        ensures bytes { Nexts self.old self.new (S.left source.old) (S.left source.new) result }
        ensures later { S.faults source.old ≤ S.faults source.new }
        ensures kept { IsCounted (S.faults source.old) (S.faults source.new) result }
    {
        let head = self.next_head(alloc, source)?;
        let size = match head.size() {
            Ok(size) => size,
            Err(fault) => return Err(Stop::Refused(fault)),
        };
        self.wait_for(source, head.used + size)?;
        Ok(Piece {
            asked: head.request(alloc, routes),
            close: head.close,
            used: head.used,
            size,
        })
    }
}
