//! Reading a description, phase by phase.

ghost use Rattle.std.specs.Prelude.{◌≡◌, IfOk, IfErr};
ghost use Rattle.kpn_text_tokens.specs.Results.{OkOr};
ghost use Rattle.kpn_text.specs.Document as spec;
ghost use Rattle.kpn_text.specs.Spells.{SpellsDocument};
ghost use Rattle.kpn_text.specs.Phases.{Refuses};
ghost use Rattle.kpn_text.specs.Making.{TextReads};

use crate::document::Document;
use crate::fault::TextFault;
use crate::names::names_of;
use crate::network::network;
use crate::tokens::meant_tokens;
use kpn_text_grammar::description;
use kpn_text_names::resolve;
use kpn_text_tokens::language_of;
use std::alloc::Global;

/// The document that a text spells, phase by phase.
fn read_text(alloc: Global, text: &[u8]) -> Result<Document, TextFault>
    ensures { TextReads text.now result }
{
    let language = language_of(text);
    let tokens = meant_tokens(alloc, language, text)?;
    let tree = description(alloc, language, tokens.as_slice(), text.len())?;
    let named = resolve(alloc, language, &tree)?;
    let names = names_of(alloc, &named)?;
    let network = network(alloc, language, named)?;
    network.known();
    Ok(Document::new(language, network, names))
}

/// The document that a text spells.
///
/// # Errors
///
/// The fault of the first phase that finds one, in this order:
///
/// - [`TextFault::TooLong`] if the text has more than [`MAX_TEXT_BYTES`](kpn_limits::MAX_TEXT_BYTES);
/// - the first in the text of [`TextFault::Token`] and, at a name, [`TextFault::TooLong`];
/// - in language 2 the first in the text of those of constants: [`TextFault::Grammar`], [`TextFault::UnknownName`] and
///   [`TextFault::Token`];
/// - [`TextFault::Grammar`] or a process that nests too deep, whichever comes first;
/// - the first in the text of [`TextFault::UnknownName`] and [`TextFault::DoubleName`];
/// - [`TextFault::Program`] of the first process that is no program;
/// - [`TextFault::Net`].
///
/// [`TextFault::NoMemory`] comes only if memory ran out. A call that fails leaves nothing.
pub fn read_network(alloc: Global, text: &[u8]) -> Result<Document, TextFault>
    // What the call returns is what the text spells.
    ensures found { IfOk result (λ d. SpellsDocument text.now d) }
    // It returns what the text spells, unless memory runs out.
    ensures only { (d : spec.Document) → SpellsDocument text.now d
        → OkOr TextFault.NoMemory result (λ found. found ≡ d) }
    // Which fault it is.
    ensures fault { IfErr result (Refuses text.now) }
{
    read_text(alloc, text)
}
