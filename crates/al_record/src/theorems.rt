//! The laws of records.
ghost use Rattle.al_record.specs.Laws.{WritesRecord, ShowsFields, DeterminesFields, WritesRising, WritesCanonical};

/// The laws of records, over any table whose names stand in byte order. A value in its ranges is
/// written as its record; a record shows its value under each name, and so determines what the
/// fields say. What is written has keys that rise at each level, and a spelling where its fields
/// have one.
pub fn record_laws<X>()
    ensures writes { WritesRecord X }
    ensures shows { ShowsFields X }
    ensures determines { DeterminesFields X }
    ensures rising { WritesRising X }
    ensures canonical { WritesCanonical X }
{}
