//! The laws of reading. Each is a function without code: its contract is the law, and the proof of the function is the
//! proof of the law.

ghost use Rattle.kpn_text_grammar.specs.Laws.{CanonicalSpells, ReadWhereSpelled, SpelledOnce};

/// Tokens are read as a description if and only if they spell it and it nests within the limits.
pub fn read_where_spelled()
    ensures { ReadWhereSpelled }
{}

/// Tokens spell one description at most.
pub fn spelled_once()
    ensures { SpelledOnce }
{}

/// The canonical spelling of a description within the limits spells it, if its blocks can be spelled at all.
pub fn canonical_spells()
    ensures { CanonicalSpells }
{}
