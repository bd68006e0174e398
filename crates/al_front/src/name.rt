//! The name that ties a front to its seats, notes and passes.
ghost use Rattle.std.specs.Prelude.{ℕ};

use std::marker::Brand;

/// Which front a seat, a note or a pass belongs to. It has ghost members alone, so no byte.
pub trait Name {
    ghost use Rattle.atomic_table.specs.Seated.{TableId};

    /// The identity of the two shared words.
    ghost table: { TableId };

    /// The opening floor, a round.
    ghost base: { ℕ };
}

impl Name for Brand {
    ghost use Rattle.al_front.specs.Known.{no_table};

    ghost table = { no_table };

    ghost base = { 0 };
}
