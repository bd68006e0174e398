//! The seat whose floor is the shared one.
ghost use Rattle.std.specs.Prelude.{◌≡◌, ◌+◌, ◌≤◌, max, length};
ghost use mathlib.Core.List.{IsPrefix};
ghost use Rattle.al_front.specs.Rule.{FloorFits, longer};

use crate::front::Front;
use crate::name::Name;
use crate::pass::Note;
use crate::steps::{meet_as, note_as, raise_as};
use crate::view::View;
use atomic_table::Seat;
use std::marker::{Model, PhantomData};

/// The seat that raises the floor. No floor that anyone knows is above its own. It stands behind
/// the store lock of a ledger.
#[derive(Drop)]
pub struct StoreSeat<N: Name> {
    pub(crate) len: u64,
    pub(crate) floor: u64,
    pub(crate) seat: Seat<(), View>,
    pub(crate) of: PhantomData<N>,
}

impl<N: Name> Model for StoreSeat<N> {
    ghost use Rattle.std.specs.Prelude.{true, false};
    ghost use Rattle.al_front.specs.Known.{Known};
    ghost use Rattle.al_front.specs.Rule.{Seated};

    ghost Value = { Known };

    ghost view = { λ s. record { list = s.seat.me.0.list; floor = s.floor } };

    ghost invariant = { λ s. Seated false true N.table N.base s.len s.floor s.seat.table_id s.seat.me };
}

impl<N: Name> StoreSeat<N> {
    /// Raises the floor to the given round, if it is below. The round is at least 4 below the
    /// length of the list that the seat has seen.
    pub fn raise(&mut self, front: &Front<N>, floor: u64)
        requires { floor + 4 ≤ N.base + length self.old.list }
        ensures { self.new ≡ record { list = self.old.list; floor = max self.old.floor floor } }
    {
        raise_as(front, self.floor, floor, &mut self.seat);
        self.floor = self.floor.max(floor);
    }

    /// The length of the known list, in rounds: the opening floor plus its entries.
    pub fn seen_len(&self) -> u64
        ensures { result ≡ N.base + length self.now.list }
    {
        self.len
    }

    /// The floor, a round. It is the opening floor, or at least 4 below the known length.
    pub fn floor(&self) -> u64
        ensures floor { result ≡ self.now.floor }
        ensures fits { FloorFits N.base self.now.floor (N.base + length self.now.list) }
    {
        self.floor
    }

    /// What the seat knows, to be met by another.
    pub fn note(&mut self, front: &Front<N>) -> Note<N>
        ensures note { result ≡ self.old }
        ensures same { self.new ≡ self.old }
    {
        note_as(front, self.len, self.floor, &mut self.seat)
    }

    /// Takes the longer list, of which both old lists are prefixes. The note's floor is at most
    /// the seat's, which stays.
    #[tactic(auto, using(crate::proofs::Keeping::longer_whole))]
    pub fn meet(&mut self, front: &Front<N>, note: Note<N>)
        ensures takes { self.new ≡ record { list = longer self.old.list note.list; floor = self.old.floor } }
        ensures old { IsPrefix self.old.list self.new.list }
        ensures note { IsPrefix note.list self.new.list }
        ensures whole { IsPrefix self.old.list note.list → self.new.list ≡ note.list }
        ensures floor { note.floor ≤ self.old.floor }
    {
        let Note {
            len,
            floor,
            seat,
            ..
        } = note;
        meet_as(front, self.floor, floor, &mut self.seat, seat);
        self.len = self.len.max(len);
    }
}
