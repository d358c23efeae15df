//! The laws of the blocks and of the names. Each is a function without code: its contract is the law, and
//! the proof of the function is the proof of the law.

ghost use Rattle.kpn_text_names.specs.Laws.{BlocksAreTheTree, NamesStandOnce, SecondResolvesFirst};

/// The numbered blocks of a body lose nothing: put together again by their numbers, they are its tree.
pub fn blocks_are_the_tree()
    ensures { BlocksAreTheTree }
{}

/// No name is twice in a table of the names of a description: a search finds each at its own number.
pub fn names_stand_once()
    ensures { NamesStandOnce }
{}

/// What language 1 resolves, language 2 resolves the same: each name keeps its number.
pub fn second_resolves_first()
    ensures { SecondResolvesFirst }
{}
