//! The tokens that a text stands for.

ghost use Rattle.kpn_text.specs.Making.{TokensAre};

use crate::fault::TextFault;
use kpn_lang::Sequence;
use kpn_text_expand::expanded;
use kpn_text_tokens::{Language, Lexeme, lexemes};
use std::alloc::Global;

/// The tokens that a text of a language stands for, which the grammar reads.
///
/// # Errors
///
/// Those of `kpn_text_tokens::lexemes`, and then those of `kpn_text_expand::expanded`.
pub fn meant_tokens(
    alloc: Global,
    language: Language,
    text: &[u8],
) -> Result<Sequence<Lexeme<'_>>, TextFault>
    ensures { TokensAre language text.now result }
{
    let tokens = lexemes(alloc, language, text)?;
    let meant = expanded(alloc, language, tokens, text.len())?;
    Ok(meant)
}
