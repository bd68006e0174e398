//! The seat whose list is the main one.
ghost use Rattle.std.specs.Prelude.{◌≡◌, ◌+◌, ◌<◌, ◌^◌, ◌++◌, ◌∷◌, [], max, length};
ghost use mathlib.Core.List.{IsPrefix};
ghost use Rattle.al_front.specs.Rule.{FloorFits};

use crate::front::Front;
use crate::name::Name;
use crate::pass::Note;
use crate::steps::{append_as, meet_as, note_as};
use crate::view::View;
use atomic_table::Seat;
use std::marker::{Brand, Model, PhantomData};

/// The seat that appends. It knows the whole list, and stands behind the memory lock of a ledger.
#[derive(Drop)]
pub struct Main<N: Name> {
    pub(crate) len: u64,
    pub(crate) floor: u64,
    pub(crate) seat: Seat<(), View>,
    pub(crate) of: PhantomData<N>,
}

impl<N: Name> Model for Main<N> {
    ghost use Rattle.std.specs.Prelude.{true, false};
    ghost use Rattle.al_front.specs.Known.{Known};
    ghost use Rattle.al_front.specs.Rule.{Seated};

    ghost Value = { Known };

    ghost view = { λ s. record { list = s.seat.me.0.list; floor = s.floor } };

    ghost invariant = { λ s. Seated true false N.table N.base s.len s.floor s.seat.table_id s.seat.me };
}

impl<N: Name> Main<N> {
    /// Makes the list longer by one entry, the given bytes, of which none is stored. The list has
    /// fewer than 2^62 rounds before.
    pub fn append(&mut self, front: &Front<N>, entry: &[u8])
        requires { N.base + length self.old.list < 2 ^ 62 }
        ensures { self.new ≡ record { list = self.old.list ++ entry.now ∷ []; floor = self.old.floor } }
    {
        append_as::<Brand, N>(front, &mut self.seat, self.floor, entry);
        self.len += 1;
    }

    /// The length of the list, in rounds: the opening floor plus its entries.
    pub fn seen_len(&self) -> u64
        ensures { result ≡ N.base + length self.now.list }
    {
        self.len
    }

    /// The known floor, a round. It is the opening floor, or at least 4 below the length.
    pub fn floor(&self) -> u64
        ensures floor { result ≡ self.now.floor }
        ensures fits { FloorFits N.base self.now.floor (N.base + length self.now.list) }
    {
        self.floor
    }

    /// What the seat knows, to be met by another.
    pub fn note(&mut self, front: &Front<N>) -> Note<N>
        ensures note { result ≡ self.old }
        ensures same { self.new ≡ self.old }
    {
        note_as(front, self.len, self.floor, &mut self.seat)
    }

    /// Takes the greater floor. The note's list is a prefix of the main one, which stays.
    pub fn meet(&mut self, front: &Front<N>, note: Note<N>)
        ensures takes { self.new ≡ record { list = self.old.list; floor = max self.old.floor note.floor } }
        ensures note { IsPrefix note.list self.new.list }
    {
        let Note { floor, seat, .. } = note;
        meet_as(front, self.floor, floor, &mut self.seat, seat);
        self.floor = self.floor.max(floor);
    }
}
