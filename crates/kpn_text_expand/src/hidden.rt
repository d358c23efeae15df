//! Names of variables that stand for no name of the text: `to`, `to_` and so on, and `item`, `item_` and so on, longer
//! than those that it has.

ghost use Rattle.std.specs.Prelude.{◌≡◌, Ok, Some};
ghost use Rattle.kpn_text_tokens.specs.declared.tokens.Language.TheVariants as language;
ghost use Rattle.kpn_text_tokens.specs.Rules.{IsName};
ghost use Rattle.kpn_text_expand.specs.Hidden as spec;
ghost use Rattle.kpn_text_expand.specs.Results.{Yields};

use crate::fault::ExpandFault;
use kpn_text_tokens::{Language, Lexeme, Name, Token, lexemes};
use std::alloc::Global;

/// What a hidden variable keeps.
#[derive(Clone, Copy)]
pub(crate) enum Hidden {
    /// The end of a loop.
    End,
    /// An item on its way into a cell.
    Item,
}

impl Hidden {
    /// The names are fronts of this.
    fn longest(self) -> &'static [u8]
        ensures { result.now ≡ spec.longest_hidden self }
    {
        match self {
            Hidden::End => b"to______________________________",
            Hidden::Item => b"item____________________________",
        }
    }

    /// The length of those that are too short.
    fn too_short(self) -> usize
        ensures { result ≡ spec.too_short self }
    {
        match self {
            Hidden::End => 1,
            Hidden::Item => 3,
        }
    }
}

/// The length of a name that may be one of them, and else 0.
fn length_taken(hidden: Hidden, token: &Token<'_>) -> usize
    ensures { result ≡ spec.length_taken hidden token.now }
{
    match token {
        Token::Name(name) if hidden.longest().starts_with(name.bytes()) => name.bytes().len(),
        _ => 0,
    }
}

fn greater_of(m: usize, n: usize) -> usize
    ensures { result ≡ spec.greater_of m n }
{
    if m < n { n } else { m }
}

/// The greatest of these lengths.
pub(crate) fn most_taken(hidden: Hidden, tokens: &[Lexeme<'_>]) -> usize
    ensures { result ≡ spec.most_taken hidden tokens.now }
{
    let mut most = hidden.too_short();
    for lexeme in tokens {
        most = greater_of(most, length_taken(hidden, &lexeme.token));
    }
    most
}

/// The name that these bytes are.
#[tactic(auto, using(crate::proofs::HiddenNames::name_found))]
fn name_of(alloc: Global, bytes: &'static [u8]) -> Result<Name<'static>, ExpandFault>
    requires { IsName language.Two bytes.now }
    ensures { Yields (λ name. name) result (Ok bytes.now) }
{
    let Ok(tokens) = lexemes(alloc, Language::Two, bytes) else {
        return Err(ExpandFault::NoMemory);
    };
    let Some(lexeme) = tokens.as_slice().first() else {
        return Err(ExpandFault::NoMemory);
    };
    match &lexeme.token {
        Token::Name(name) => Ok(name.copy()),
        _ => Err(ExpandFault::NoMemory),
    }
}

/// The name of this length, if one may have it.
pub(crate) fn hidden_name(
    alloc: Global,
    hidden: Hidden,
    length: usize,
) -> Result<Option<Name<'static>>, ExpandFault>
    ensures { Yields (λ name. name) result (Ok (spec.hidden_name hidden length)) }
{
    if length == 0 || length > hidden.longest().len() {
        return Ok(None);
    }
    let name = name_of(alloc, &hidden.longest()[..length])?;
    Ok(Some(name))
}
