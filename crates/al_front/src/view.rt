//! What the rule says a seat knows. No value of these types is made but the rule's.
ghost use Rattle.std.specs.Prelude.{ℕ};

use atomic_table::TableRule;
use std::collections::LinkedList;
use std::marker::Brand;

/// The bytes of the entry that a step appends.
pub trait Entry {
    ghost use Rattle.std.specs.Prelude.{ℕ, List};

    ghost bytes: { List ℕ };
}

impl Entry for Brand {
    ghost use Rattle.std.specs.Prelude.{[]};

    ghost bytes = { [] };
}

/// What one seat, note or pass knows.
pub struct View {
    /// The opening floor, a round.
    pub base: u64,
    /// The known list of entries.
    pub list: LinkedList<LinkedList<u8>>,
    /// The list of a note that was joined and is not settled yet.
    pub met: LinkedList<LinkedList<u8>>,
    /// The known floor, a round.
    pub floor: u64,
    /// The floor of a note that was joined and not looked at yet.
    pub met_floor: u64,
    /// Whether it is the main seat.
    pub is_main: bool,
    /// Whether it is the store's seat.
    pub is_store: bool,
    /// Whether it was a note that has been met.
    pub spent: bool,
}

/// The front rule over the two shared words.
pub struct FrontRule;

impl TableRule<(), View, u64> for FrontRule {
    ghost use Rattle.std.specs.Prelude.{[], true};
    ghost use Rattle.al_front.specs.Rule.{Holds, sitting};

    ghost holds = { Holds };

    ghost first = { λ base. sitting true true base [] base };
}
