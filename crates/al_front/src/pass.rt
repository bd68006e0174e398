//! What a caller knows, and what is told from one to another.
ghost use Rattle.std.specs.Prelude.{◌≡◌, ◌+◌, max, length};
ghost use mathlib.Core.List.{IsPrefix};
ghost use Rattle.al_front.specs.Rule.{FloorFits, longer};

use crate::front::Front;
use crate::name::Name;
use crate::steps::{meet_as, note_as};
use crate::view::View;
use atomic_table::Seat;
use std::marker::{Model, PhantomData};

/// What a seat or a pass knew when it gave the note. It is met once.
#[derive(Drop)]
pub struct Note<N: Name> {
    pub(crate) len: u64,
    pub(crate) floor: u64,
    pub(crate) seat: Seat<(), View>,
    pub(crate) of: PhantomData<N>,
}

impl<N: Name> Model for Note<N> {
    ghost use Rattle.std.specs.Prelude.{false};
    ghost use Rattle.al_front.specs.Known.{Known};
    ghost use Rattle.al_front.specs.Rule.{Seated};

    ghost Value = { Known };

    ghost view = { λ s. record { list = s.seat.me.0.list; floor = s.floor } };

    ghost invariant = { λ s. Seated false false N.table N.base s.len s.floor s.seat.table_id s.seat.me };
}

/// What a caller knows. Its list never gets shorter, and its floor never falls.
#[derive(Drop)]
pub struct Pass<N: Name> {
    len: u64,
    floor: u64,
    seat: Seat<(), View>,
    of: PhantomData<N>,
}

impl<N: Name> Model for Pass<N> {
    ghost use Rattle.std.specs.Prelude.{false};
    ghost use Rattle.al_front.specs.Known.{Known};
    ghost use Rattle.al_front.specs.Rule.{Seated};

    ghost Value = { Known };

    ghost view = { λ s. record { list = s.seat.me.0.list; floor = s.floor } };

    ghost invariant = { λ s. Seated false false N.table N.base s.len s.floor s.seat.table_id s.seat.me };
}

impl<N: Name> Pass<N> {
    /// A pass that knows what the note says.
    pub fn of(note: Note<N>) -> Pass<N>
        ensures { result ≡ note }
    {
        let Note {
            len,
            floor,
            seat,
            of,
        } = note;
        Pass {
            len,
            floor,
            seat,
            of,
        }
    }

    /// The length of the known list, in rounds: the opening floor plus its entries.
    pub fn seen_len(&self) -> u64
        ensures { result ≡ N.base + length self.now.list }
    {
        self.len
    }

    /// The known floor, a round. It is the opening floor, or at least 4 below the known length.
    pub fn floor(&self) -> u64
        ensures floor { result ≡ self.now.floor }
        ensures fits { FloorFits N.base self.now.floor (N.base + length self.now.list) }
    {
        self.floor
    }

    /// What the caller knows, to be met by another.
    pub fn note(&mut self, front: &Front<N>) -> Note<N>
        ensures note { result ≡ self.old }
        ensures same { self.new ≡ self.old }
    {
        note_as(front, self.len, self.floor, &mut self.seat)
    }

    /// Takes the longer list, of which both old lists are prefixes, and the greater floor.
    #[tactic(auto, using(crate::proofs::Keeping::longer_whole))]
    pub fn meet(&mut self, front: &Front<N>, note: Note<N>)
        ensures takes { self.new ≡ record { list = longer self.old.list note.list; floor = max self.old.floor note.floor } }
        ensures old { IsPrefix self.old.list self.new.list }
        ensures note { IsPrefix note.list self.new.list }
        ensures whole { IsPrefix self.old.list note.list → self.new.list ≡ note.list }
    {
        let Note {
            len,
            floor,
            seat,
            ..
        } = note;
        meet_as(front, self.floor, floor, &mut self.seat, seat);
        self.len = self.len.max(len);
        self.floor = self.floor.max(floor);
    }

    /// Gives the pass up. What others know stays.
    pub fn close(self, _front: &Front<N>) {}
}
