//! The laws of reading. Each is a function without code: its contract is the law, and the proof of the function is
//! the proof of the law.

ghost use Rattle.kpn_text.specs.Again.{PrintedTextSpells};
ghost use Rattle.kpn_text.specs.Laws.{NamesAreText, DocumentNamesStandOnce, PhasesGiveWhatIsSpelled, TextSpellsOnce};

use crate::canonical_laws::{description_is_read, language_is_told, read_descriptions_are_proper};
use kpn_net::laws::capacities_are_in_range;
use kpn_text_grammar::canonical_spells;
use kpn_text_names::blocks_are_the_tree;

/// The phases return a document if and only if the text spells it.
pub fn phases_give_what_is_spelled()
    ensures { PhasesGiveWhatIsSpelled }
{}

/// A text spells one document at most.
pub fn spelled_once()
    ensures { TextSpellsOnce }
{}

/// A printed document is read again.
pub fn read_again()
    ensures { PrintedTextSpells }
{
    blocks_are_the_tree();
    capacities_are_in_range();
    canonical_spells();
    description_is_read();
    language_is_told();
    read_descriptions_are_proper();
}

/// No name is twice in a table of names of a document: a search finds each at its own number.
pub fn names_stand_once()
    ensures { DocumentNamesStandOnce }
{
    kpn_text_names::names_stand_once();
}

/// The names of a document are text: their bytes are UTF-8.
pub(crate) fn names_are_text()
    ensures { NamesAreText }
{
    read_descriptions_are_proper();
}
