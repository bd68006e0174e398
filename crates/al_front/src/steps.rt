//! The steps on the words, over a seat and what its holder keeps beside it.
ghost use Rattle.std.specs.Prelude.{◌≡◌, ◌+◌, ◌<◌, ◌≤◌, ◌^◌, ◌++◌, ◌∷◌, [], max, length, Bool, true, false};
ghost use mathlib.Core.List.{IsPrefix};
ghost use Rattle.al_front.specs.Rule.{Seated, joined, longer, sitting};

use crate::front::Front;
use crate::name::Name;
use crate::pass::Note;
use crate::plays::{Appends, Looks, Notes, Raises, Settles};
use crate::view::{Entry, View};
use atomic_table::Seat;
use std::marker::PhantomData;

/// Appends an entry by adding one to the first word. `E` names the bytes, which no word shows.
pub(crate) fn append_as<E: Entry, N: Name>(
    front: &Front<N>,
    seat: &mut Seat<(), View>,
    floor: u64,
    entry: &[u8],
)
    requires entry { entry.now ≡ E.bytes }
    requires seat { (seat.old.table_id ≡ N.table) × (N.base + length seat.old.me.0.list < 2 ^ 62) }
    requires view { seat.old.me ≡ (sitting true false N.base seat.old.me.0.list floor, []) }
    ensures { (seat.new.table_id ≡ seat.old.table_id) × (seat.new.me ≡ (sitting true false N.base (seat.old.me.0.list ++ entry.now ∷ []) floor, [])) }
{
    front.table.shared.fetch_add::<Appends<E>>(seat, 0, 1);
}

/// Raises the second word to a round that is at least 4 below the end of the seat's list.
pub(crate) fn raise_as<N: Name>(front: &Front<N>, floor: u64, up: u64, seat: &mut Seat<(), View>)
    requires seat { (seat.old.table_id ≡ N.table) × (up + 4 ≤ N.base + length seat.old.me.0.list) }
    requires view { seat.old.me ≡ (sitting false true N.base seat.old.me.0.list floor, []) }
    ensures { (seat.new.table_id ≡ seat.old.table_id) × (seat.new.me ≡ (sitting false true N.base seat.old.me.0.list (max floor up), [])) }
{
    front.table.shared.fetch_max::<Raises>(seat, 1, up);
}

/// A note of what the seat knows.
pub(crate) fn note_as<N: Name>(
    front: &Front<N>,
    len: u64,
    floor: u64,
    seat: &mut Seat<(), View>,
) -> Note<N>
    requires { (m : Bool) × (s : Bool) × Seated m s N.table N.base len floor seat.old.table_id seat.old.me }
    ensures note { result ≡ record { list = seat.old.me.0.list; floor = floor } }
    ensures same { (seat.new.table_id ≡ seat.old.table_id) × (seat.new.me ≡ seat.old.me) }
{
    let note = front.table.shared.split_seat::<Notes>(seat);
    Note {
        len,
        floor,
        seat: note,
        of: PhantomData,
    }
}

/// Joins a note to a seat, settles on the longer list, and looks for the greater floor.
pub(crate) fn meet_as<N: Name>(
    front: &Front<N>,
    floor: u64,
    met_floor: u64,
    seat: &mut Seat<(), View>,
    note: Seat<(), View>,
)
    requires seat { (seat.old.table_id ≡ N.table) × (note.table_id ≡ N.table) }
    requires view { (seat.old.me ≡ (sitting seat.old.me.0.is_main seat.old.me.0.is_store N.base seat.old.me.0.list floor, [])) }
    requires note { note.me ≡ (sitting false false N.base note.me.0.list met_floor, []) }
    ensures seat { seat.new.table_id ≡ seat.old.table_id }
    ensures view { seat.new.me ≡ (sitting seat.old.me.0.is_main seat.old.me.0.is_store N.base (longer seat.old.me.0.list note.me.0.list) (max floor met_floor), []) }
    ensures lists { IsPrefix seat.old.me.0.list seat.new.me.0.list × IsPrefix note.me.0.list seat.new.me.0.list }
    ensures main { seat.old.me.0.is_main ≡ true → seat.new.me.0.list ≡ seat.old.me.0.list }
    ensures store { seat.old.me.0.is_store ≡ true → met_floor ≤ floor }
{
    front.table.shared.join_seat::<Notes>(seat, note);
    settle_as(front, floor, met_floor, seat);
}

/// Settles and looks, once a note was joined.
fn settle_as<N: Name>(front: &Front<N>, floor: u64, met_floor: u64, seat: &mut Seat<(), View>)
    requires seat { seat.old.table_id ≡ N.table }
    requires view { (seat.old.me ≡ (joined seat.old.me.0.is_main seat.old.me.0.is_store N.base seat.old.me.0.list floor seat.old.me.0.met met_floor, [])) }
    ensures seat { seat.new.table_id ≡ seat.old.table_id }
    ensures view { seat.new.me ≡ (sitting seat.old.me.0.is_main seat.old.me.0.is_store N.base (longer seat.old.me.0.list seat.old.me.0.met) (max floor met_floor), []) }
    ensures lists { IsPrefix seat.old.me.0.list seat.new.me.0.list × IsPrefix seat.old.me.0.met seat.new.me.0.list }
    ensures main { seat.old.me.0.is_main ≡ true → seat.new.me.0.list ≡ seat.old.me.0.list }
    ensures store { seat.old.me.0.is_store ≡ true → met_floor ≤ floor }
{
    front.table.shared.load::<Settles>(seat, 0);
    front.table.shared.load::<Looks>(seat, 1);
}
