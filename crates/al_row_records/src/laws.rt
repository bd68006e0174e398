//! The laws of the records of rows.
ghost use Rattle.al_row_records.specs.Element.{ElementsShow, HasElementSize};
ghost use Rattle.al_row_records.specs.Ranges.{HasOneSpelling, SpellsOneRow, SpellsRows};

/// A row in its ranges that is no zero row is spelled by what the encoder appends, and by nothing
/// else; bytes spell at most one row under a key.
pub fn row_record_laws()
    ensures spelled { SpellsRows }
    ensures one { HasOneSpelling }
    ensures once { SpellsOneRow }
{}

/// An element has 36 bytes. Rows with the same element have the low 32 bits of the round that
/// changed them last, their kind and the first 31 bytes of their digest in common.
pub fn element_laws()
    ensures size { HasElementSize }
    ensures show { ElementsShow }
{}
