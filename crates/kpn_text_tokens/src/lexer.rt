//! Cuts a text into its tokens: again and again the piece at the front, which is white space, a
//! comment or the longest token there.

ghost use Rattle.std.specs.Prelude.{◌≡◌, ◌<◌, ◌≤◌, ◌^◌, length, slice_index};
ghost use Rattle.std.specs.Option.{ForSome};
ghost use Rattle.std.specs.Str.Parse.{AllDigits, digits_value};
ghost use Rattle.kpn_text_tokens.specs.Lexing as spec;

use crate::numerals::{begins_quote, numeral_value, quoted_length, quoted_value};
use crate::tokens::{Keyword, Language, Lexeme, MAX_NUMBER, Mark, Name, Number, Token};
use kpn_limits::{MAX_DIGITS, MAX_NAME_BYTES, MAX_TEXT_BYTES};
use std::alloc::{AllocFailed, Global};
use thiserror::Error;

/// Why a text has no tokens, with the byte at which that shows.
#[derive(Clone, Copy, Debug, PartialEq, Eq, Error)]
pub enum LexFault {
    /// No token begins at this byte, or the number there is out of range.
    #[error("no token at byte {0}")]
    Token(usize),
    /// The text is longer than [`MAX_TEXT_BYTES`], or the name at this byte is longer than
    /// [`MAX_NAME_BYTES`].
    #[error("too long at byte {0}")]
    TooLong(usize),
    /// Memory ran out.
    #[error("out of memory")]
    NoMemory,
}

impl<T: Drop> From<AllocFailed<T>> for LexFault {
    ghost use Rattle.std.specs.Prelude.{◌≡◌};
    ghost use Rattle.kpn_text_tokens.specs.declared.lexer.LexFault.TheVariants.{NoMemory};

    ghost from_gives = { λ _ fault. fault ≡ NoMemory };

    fn from(_failed: AllocFailed<T>) -> LexFault {
        LexFault::NoMemory
    }
}

/// The kinds of bytes that runs are made of.
#[derive(Clone, Copy)]
enum Class {
    /// What may be in a comment: all but a line feed.
    Comment,
    /// What a name goes on with.
    Word,
    Digit,
}

/// What is at the front of a text, and how many bytes it takes.
#[derive(Drop)]
pub(crate) enum Piece<'a> {
    /// White space or a comment.
    Gap(usize),
    Token(Token<'a>, usize),
    /// A byte that begins no token, or a number out of range.
    NoToken,
    /// A name of more than [`MAX_NAME_BYTES`].
    LongName,
}

fn is_white_space(byte: u8) -> bool
    ensures { result ≡ spec.is_white_space byte }
{
    byte == b' ' || byte == b'\t' || byte == b'\r' || byte == b'\n'
}

fn begins_name(byte: u8) -> bool
    ensures { result ≡ spec.begins_name byte }
{
    byte.is_ascii_alphabetic() || byte == b'_'
}

fn is_in(class: Class, byte: u8) -> bool
    ensures { result ≡ spec.is_in class byte }
{
    match class {
        Class::Comment => byte != b'\n',
        Class::Word => begins_name(byte) || byte.is_ascii_digit(),
        Class::Digit => byte.is_ascii_digit(),
    }
}

/// The longest front of a text whose bytes are all of a class.
fn run(class: Class, text: &[u8]) -> &[u8]
    ensures { result.now ≡ spec.run class text.now }
{
    let mut end = 0;
    while end < text.len() && is_in(class, text[end]) {
        end += 1;
    }
    &text[..end]
}

/// The value of a few decimal digits.
fn value_of(digits: &[u8]) -> u64
    requires few { length digits.now ≤ MAX_DIGITS }
    requires digits { AllDigits 10 digits.now }
    ensures { result ≡ digits_value 10 digits.now }
{
    let mut value = 0;
    for digit in digits {
        value = value * 10 + u64::from(*digit - b'0');
    }
    value
}

/// A run of letters, digits and `_` as a piece: a reserved word or a name.
fn word_piece(language: Language, word: &[u8]) -> Piece<'_>
    ensures { result ≡ spec.word_piece language word.now }
{
    if word.len() > MAX_NAME_BYTES {
        return Piece::LongName;
    }
    let token = match Keyword::spelled(language, word) {
        Some(keyword) => Token::Keyword(keyword),
        None => Token::Name(Name::new(word)),
    };
    Piece::Token(token, word.len())
}

/// A run of digits as a piece.
fn number_piece<'a>(digits: &[u8]) -> Piece<'a>
    requires { AllDigits 10 digits.now }
    ensures { result ≡ spec.number_piece digits.now }
{
    if digits.len() > MAX_DIGITS {
        return Piece::NoToken;
    }
    let value = value_of(digits);
    if value > MAX_NUMBER {
        return Piece::NoToken;
    }
    Piece::Token(Token::Number(Number::new(value)), digits.len())
}

/// A number of this value in so many bytes as a piece.
fn numbered<'a>(value: Option<u64>, length: usize) -> Piece<'a>
    requires { ForSome value (λ v. v < 2 ^ 63) }
    ensures { result ≡ spec.numbered value length }
{
    match value {
        Some(value) => Piece::Token(Token::Number(Number::new(value)), length),
        None => Piece::NoToken,
    }
}

/// What a digit at the front of a text begins.
fn digit_piece(language: Language, text: &[u8]) -> Piece<'_>
    ensures { result ≡ spec.numeral_piece language (spec.run (spec.number_class language) text.now) }
{
    match language {
        Language::One => number_piece(run(Class::Digit, text)),
        Language::Two => {
            let word = run(Class::Word, text);
            numbered(numeral_value(word), word.len())
        }
    }
}

/// What a quote at the front of a text begins.
fn quoted_piece(text: &[u8]) -> Piece<'_>
    ensures { result ≡ spec.quoted_piece text.now }
{
    numbered(quoted_value(text), quoted_length(text))
}

/// The mark at the front of a text as a piece.
fn mark_piece<'a>(language: Language, text: &[u8]) -> Piece<'a>
    ensures { result ≡ spec.mark_piece language text.now }
{
    match Mark::at_front(language, text) {
        Some(mark) => Piece::Token(Token::Mark(mark), mark.spelling().len()),
        None => Piece::NoToken,
    }
}

/// What is at the front of a text in a language.
#[tactic(auto, unfolding(crate::specs::Lexing::piece_of))]
pub(crate) fn first_piece(language: Language, text: &[u8]) -> Piece<'_>
    requires { 0 < length text.now }
    ensures value { result ≡ spec.piece_of language (slice_index text.now 0) text.now }
    ensures within { spec.TakesWithin result (length text.now) }
{
    let first = text[0];
    if is_white_space(first) {
        Piece::Gap(1)
    } else if first == b'#' {
        Piece::Gap(run(Class::Comment, text).len())
    } else if begins_name(first) {
        word_piece(language, run(Class::Word, text))
    } else if first.is_ascii_digit() {
        digit_piece(language, text)
    } else if begins_quote(language, first) {
        quoted_piece(text)
    } else {
        mark_piece(language, text)
    }
}

/// The tokens of a text in a language, each with the byte at which it begins; or its first fault.
///
/// White space (space, tab, carriage return, line feed) and comments (from `#` up to the next line feed, with any bytes
/// in them) may come between tokens and are dropped. The longest token counts each time, so `12abc` in language 1 is a
/// number and a name, `<=` is one mark, and `<<=` in language 2 is `<<` and `=`. In language 2 a number goes on with
/// letters, digits and `_`.
///
/// # Errors
///
/// If the text is longer than [`MAX_TEXT_BYTES`], the error is [`LexFault::TooLong`] at that byte, before anything
/// else. Else it is the first of these in the text, at its first byte:
///
/// - [`LexFault::Token`] if no token begins there, or if a number has a value above [`MAX_NUMBER`], in language 1 more
///   than [`MAX_DIGITS`] digits, or in language 2 a letter that is no digit of it;
/// - [`LexFault::TooLong`] at a name of more than [`MAX_NAME_BYTES`].
///
/// [`LexFault::NoMemory`] comes only if memory ran out.
pub fn lexemes(alloc: Global, language: Language, text: &[u8]) -> Result<Vec<Lexeme<'_>>, LexFault>
    ensures { spec.Gives result (spec.lexemes_of language text.now) }
{
    if text.len() > MAX_TEXT_BYTES {
        return Err(LexFault::TooLong(MAX_TEXT_BYTES));
    }
    let mut found = Vec::new(alloc);
    let mut rest = text;
    let mut start = 0;
    while !rest.is_empty() {
        let length = match first_piece(language, rest) {
            Piece::Gap(length) => length,
            Piece::Token(token, length) => {
                found.push(Lexeme { token, start })?;
                length
            }
            Piece::NoToken => return Err(LexFault::Token(start)),
            Piece::LongName => return Err(LexFault::TooLong(start)),
        };
        start += length;
        (_, rest) = rest.split_at(length);
    }
    Ok(found)
}
