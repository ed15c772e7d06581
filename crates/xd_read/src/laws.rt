//! Laws of what bytes spell.

ghost use Rattle.xd_read.specs.Laws.{CanonicalTextSpells, SpellsAtMostOne, CanonicalTextReadsBack, MalformedAtOnePlace, MalformedSpellsNothing};

/// The laws of reading and writing, which hold of the definitions alone. The call does nothing.
pub fn reading_laws()
    ensures canonical { CanonicalTextSpells }
    ensures unique { SpellsAtMostOne }
    ensures read_back { CanonicalTextReadsBack }
    ensures one_place { MalformedAtOnePlace }
    ensures nothing { MalformedSpellsNothing }
{}
