//! The two words that all threads share.
ghost use Rattle.std.specs.Prelude.{◌≡◌, ◌+◌, ◌≤◌, ◌^◌, [], length, IfOk};
ghost use Rattle.al_front.specs.Rule.{FloorFits};

use crate::main_seat::Main;
use crate::name::Name;
use crate::plays::Parts;
use crate::store_seat::StoreSeat;
use crate::view::{FrontRule, View};
use atomic_table::{Seat, Table};
use std::alloc::{AllocError, Global};
use std::marker::{Model, PhantomData};

/// A front and its two seats before they have a name. Its list is empty.
///
/// The name says which words are meant, and these are known only once they are made. So a front
/// is made by [`new`](UnnamedFront::new) and named by [`named`](UnnamedFront::named), in a
/// function over the name that its caller calls with `Brand`.
#[derive(Drop)]
pub struct UnnamedFront {
    table: Table<(), View, u64, FrontRule, Global>,
    main: Seat<(), View>,
    store: Seat<(), View>,
    floor: u64,
}

impl Model for UnnamedFront {
    ghost use Rattle.al_front.specs.Known.{Unnamed};
    ghost use Rattle.al_front.specs.Rule.{IsUnnamed};

    ghost Value = { Unnamed };

    ghost view = { λ f. record { table = f.table.shared.table_id; base = f.floor } };

    ghost invariant = { λ f. IsUnnamed f.table.shared.table_id f.table.shared.key f.floor f.main.table_id f.main.me f.store.table_id f.store.me };
}

impl UnnamedFront {
    /// Makes a front at an opening floor, a round of at most 2^62. The length of its list is the
    /// floor. This alone takes memory, two words of 8 bytes.
    pub fn new(alloc: Global, floor: u64) -> Result<UnnamedFront, AllocError>
        requires { floor ≤ 2 ^ 62 }
        ensures { IfOk result (λ front. front.base ≡ floor) }
    {
        let (table, mut main) = Table::of_words(alloc, &[floor, floor], &floor)?;
        let store = table.shared.split_seat::<Parts>(&mut main);
        Ok(UnnamedFront {
            table,
            main,
            store,
            floor,
        })
    }

    /// The front and its seats under a name, which has to be that of these words and this floor.
    pub fn named<N: Name>(self) -> (Front<N>, Main<N>, StoreSeat<N>)
        requires { (self.table ≡ N.table) × (self.base ≡ N.base) }
        ensures main { result.1 ≡ record { list = []; floor = N.base } }
        ensures store { result.2 ≡ record { list = []; floor = N.base } }
    {
        let UnnamedFront {
            table,
            main,
            store,
            floor,
        } = self;
        (
            Front {
                table,
                of: PhantomData,
            },
            Main {
                len: floor,
                floor,
                seat: main,
                of: PhantomData,
            },
            StoreSeat {
                len: floor,
                floor,
                seat: store,
                of: PhantomData,
            },
        )
    }
}

/// The two words that all threads share: the length of the list and the floor, both in rounds.
/// Threads share it by reference, and each call of a seat, a note or a pass takes its own front.
#[derive(Drop)]
pub struct Front<N: Name> {
    pub(crate) table: Table<(), View, u64, FrontRule, Global>,
    of: PhantomData<N>,
    ghost words: { (table.shared.table_id.words ≡ 2) × (table.shared.table_id.slots ≡ 0) },
    ghost keyed: { table.shared.key ≡ N.base },
    ghost named: { table.shared.table_id ≡ N.table },
}

impl<N: Name> Front<N> {
    /// Ends the front, and gives its words: the length of the main list, and a floor that is at
    /// least the one that the main seat knows.
    pub fn end(self, main: Main<N>) -> (u64, u64)
        ensures front { result.0 ≡ N.base + length main.list }
        ensures floor { FloorFits N.base result.1 result.0 × (main.floor ≤ result.1) }
    {
        let Front { table, of: _ } = self;
        let Main { seat, .. } = main;
        let closed = table.close_with(seat);
        let words = (closed.word(0), closed.word(1));
        closed.free();
        words
    }
}
