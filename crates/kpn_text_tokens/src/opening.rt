//! Which language a text is of. A text of language 2 begins with `language 2;`, and any other text is of language 1.

ghost use Rattle.std.specs.Prelude.{◌≡◌, Some, option_map};
ghost use Rattle.kpn_text_tokens.specs.Opening as spec;

use crate::lexer::{Piece, first_piece};
use crate::tokens::{Language, Mark, Token};

/// A token of `language 2;`.
#[derive(Clone, Copy)]
enum Part {
    Word,
    Two,
    Semicolon,
}

fn is_part(part: Part, token: &Token<'_>) -> bool
    ensures { result ≡ spec.is_part part token.now }
{
    match (part, token) {
        (Part::Word, Token::Name(name)) => name.bytes() == b"language".as_slice(),
        (Part::Two, Token::Number(number)) => number.value() == 2,
        (Part::Semicolon, Token::Mark(mark)) => *mark == Mark::Semicolon,
        _ => false,
    }
}

/// The text behind a token, if the token is this part.
fn behind_token<'a>(part: Part, token: &Token<'_>, rest: &'a [u8]) -> Option<&'a [u8]>
    ensures { option_map (λ rest. rest.now) result
        ≡ spec.behind_first part (Some (token.now, rest.now)) }
{
    if is_part(part, token) {
        Some(rest)
    } else {
        None
    }
}

/// The text behind its first token, as language 1 reads it, if that is this part.
fn behind(part: Part, text: &[u8]) -> Option<&[u8]>
    ensures { option_map (λ rest. rest.now) result ≡ spec.behind part text.now }
{
    let mut rest = text;
    while !rest.is_empty() {
        let length = match first_piece(Language::One, rest) {
            Piece::Gap(length) => length,
            Piece::Token(token, length) => return behind_token(part, &token, &rest[length..]),
            Piece::NoToken | Piece::LongName => return None,
        };
        (_, rest) = rest.split_at(length);
    }
    None
}

/// The language of a text: 2 if its first three tokens are the name `language`, a number of value 2 and `;`, and else
/// 1. White space and comments may stand around them. Both languages read these tokens alike, but that language 2
/// reserves the word.
#[tactic(auto, unfolding(crate::specs::Opening::language_of))]
pub fn language_of(text: &[u8]) -> Language
    ensures { result ≡ spec.language_of text.now }
{
    let Some(rest) = behind(Part::Word, text) else {
        return Language::One;
    };
    let Some(rest) = behind(Part::Two, rest) else {
        return Language::One;
    };
    match behind(Part::Semicolon, rest) {
        Some(_) => Language::Two,
        None => Language::One,
    }
}
