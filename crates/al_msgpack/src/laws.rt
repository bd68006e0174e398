//! The laws of the format.
ghost use Rattle.al_msgpack.specs.Laws.{EachIsSpelled, SpelledOnce, SpellsOne, IsPrefixFree};

/// The laws of the format. Each canonical value has a spelling, no other spelling, and shares it
/// with no other value; no spelling is a proper prefix of another.
pub fn format_laws()
    ensures each { EachIsSpelled }
    ensures once { SpelledOnce }
    ensures one { SpellsOne }
    ensures prefix_free { IsPrefixFree }
{}
