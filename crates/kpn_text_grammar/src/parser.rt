//! The parsers of one token at a place, on which all others depend. Each returns what it read and the place after it.
//! Places count tokens; the tokens themselves stay where they are.

ghost use Rattle.std.specs.Prelude.{◌≡◌};
ghost use Rattle.kpn_text_grammar.specs.TokenTests as tests;
ghost use Rattle.kpn_text_grammar.specs.Reading as spec;
ghost use Rattle.kpn_text_grammar.specs.View.{Parses, Passes, tokens_from};

use crate::fault::GrammarFault;
use crate::operators::{left_side, operator_of, tightness};
use crate::tree::Identifier;
use kpn_lang::Op;
use kpn_text_tokens::{Keyword, Language, Lexeme, Mark, Number, Token};

/// What a fault needs besides the tokens.
#[derive(Clone, Copy)]
pub(crate) struct Scope {
    /// The length of the text in bytes: the place of a fault if the text ends too early.
    pub end: usize,
    /// The number of the process that the parser reads.
    pub process: usize,
    pub language: Language,
    /// How many levels of blocks may nest, and how many of an expression.
    pub levels: usize,
}

/// The tokens of a text.
#[derive(Clone, Copy)]
pub(crate) struct Source<'a> {
    pub tokens: &'a [Lexeme<'a>],
    pub scope: Scope,
}

/// What was read and the place after it, or the first fault.
pub(crate) type Read<T> = Result<(T, usize), GrammarFault>;

/// The token at a place.
#[tactic(auto, unfolding(crate::specs::Reading::next))]
pub(crate) fn next<'a>(source: Source<'a>, at: usize) -> Read<&'a Lexeme<'a>>
    ensures { Parses (λ token. token.now) spec.next source.entry at result }
{
    match source.tokens.get(at) {
        Some(first) => Ok((first, at + 1)),
        None => Err(GrammarFault::Grammar(source.scope.end)),
    }
}

fn is_mark(token: &Token<'_>, mark: Mark) -> bool
    ensures { result ≡ tests.is_mark mark token.now }
{
    match token {
        Token::Mark(found) => *found == mark,
        _ => false,
    }
}

fn is_keyword(token: &Token<'_>, keyword: Keyword) -> bool
    ensures { result ≡ tests.is_keyword keyword token.now }
{
    match token {
        Token::Keyword(found) => *found == keyword,
        _ => false,
    }
}

fn is_two(token: &Token<'_>) -> bool
    ensures { result ≡ tests.is_number_two token.now }
{
    match token {
        Token::Number(number) => number.value() == 2,
        _ => false,
    }
}

/// Whether this mark is at a place.
pub(crate) fn at_mark(source: Source<'_>, mark: Mark, at: usize) -> bool
    ensures { result ≡ spec.first_is (tests.is_mark mark) (tokens_from source.entry at) }
{
    match source.tokens.get(at) {
        Some(first) => is_mark(&first.token, mark),
        None => false,
    }
}

/// Whether this reserved word is at a place.
pub(crate) fn at_keyword(source: Source<'_>, keyword: Keyword, at: usize) -> bool
    ensures { result ≡ spec.first_is (tests.is_keyword keyword) (tokens_from source.entry at) }
{
    match source.tokens.get(at) {
        Some(first) => is_keyword(&first.token, keyword),
        None => false,
    }
}

/// Whether a name is at a place.
pub(crate) fn at_name(source: Source<'_>, at: usize) -> bool
    ensures { result ≡ spec.first_is tests.is_name (tokens_from source.entry at) }
{
    match source.tokens.get(at) {
        Some(first) => matches!(&first.token, Token::Name(_)),
        None => false,
    }
}

/// Whether an array or a table is declared at a place.
pub(crate) fn declares(source: Source<'_>, at: usize) -> bool
    ensures { result ≡ spec.first_is spec.declares (tokens_from source.entry at) }
{
    match source.tokens.get(at) {
        Some(first) => matches!(
            &first.token,
            Token::Keyword(Keyword::Array | Keyword::Table)
        ),
        None => false,
    }
}

/// Whether a token other than a closing brace is at a place.
pub(crate) fn goes_on(source: Source<'_>, at: usize) -> bool
    ensures { result ≡ spec.first_is spec.stands_in_block (tokens_from source.entry at) }
{
    match source.tokens.get(at) {
        Some(first) => !is_mark(&first.token, Mark::RightBrace),
        None => false,
    }
}

/// This mark.
#[tactic(auto, unfolding(crate::specs::Reading::mark, kpn_text_tokens::specs::Results::and_then))]
pub(crate) fn mark(source: Source<'_>, expected: Mark, at: usize) -> Result<usize, GrammarFault>
    ensures { Passes (λ s. spec.mark s expected) source.entry at result }
{
    let (first, after) = next(source, at)?;
    if is_mark(&first.token, expected) {
        Ok(after)
    } else {
        Err(GrammarFault::Grammar(first.start))
    }
}

/// This reserved word.
#[tactic(auto, unfolding(crate::specs::Reading::keyword, kpn_text_tokens::specs::Results::and_then))]
pub(crate) fn keyword(
    source: Source<'_>,
    expected: Keyword,
    at: usize,
) -> Result<usize, GrammarFault>
    ensures { Passes (λ s. spec.keyword s expected) source.entry at result }
{
    let (first, after) = next(source, at)?;
    if is_keyword(&first.token, expected) {
        Ok(after)
    } else {
        Err(GrammarFault::Grammar(first.start))
    }
}

/// A name.
#[tactic(auto, unfolding(crate::specs::Reading::name, crate::specs::Reading::read_as, kpn_text_tokens::specs::Results::and_then))]
pub(crate) fn name<'a>(source: Source<'a>, at: usize) -> Read<Identifier<'a>>
    ensures { Parses (λ name. name.bytes.now) spec.name source.entry at result }
{
    let (first, after) = next(source, at)?;
    match &first.token {
        Token::Name(name) => Ok((Identifier::new(name, first.start), after)),
        _ => Err(GrammarFault::Grammar(first.start)),
    }
}

/// A number.
#[tactic(auto, unfolding(crate::specs::Reading::number, crate::specs::Reading::read_as, kpn_text_tokens::specs::Results::and_then))]
pub(crate) fn number(source: Source<'_>, at: usize) -> Read<Number>
    ensures { Parses (λ n. n) spec.number source.entry at result }
{
    let (first, after) = next(source, at)?;
    match &first.token {
        Token::Number(number) => Ok((*number, after)),
        _ => Err(GrammarFault::Grammar(first.start)),
    }
}

fn size_of_token(token: &Token<'_>) -> Option<Number>
    ensures { result ≡ spec.token_size token.now }
{
    match token {
        Token::Number(number) => {
            if number.value() == 0 {
                None
            } else {
                Some(*number)
            }
        }
        _ => None,
    }
}

/// The size of an array: a number above 0.
#[tactic(auto, unfolding(crate::specs::Reading::read_as, kpn_text_tokens::specs::Results::and_then))]
pub(crate) fn size(source: Source<'_>, at: usize) -> Read<Number>
    ensures { Parses (λ n. n) (spec.read_as spec.token_size) source.entry at result }
{
    let (first, after) = next(source, at)?;
    match size_of_token(&first.token) {
        Some(size) => Ok((size, after)),
        None => Err(GrammarFault::Grammar(first.start)),
    }
}

/// A number of value 2.
#[tactic(auto, unfolding(crate::specs::Reading::two, kpn_text_tokens::specs::Results::and_then))]
pub(crate) fn two(source: Source<'_>, at: usize) -> Result<usize, GrammarFault>
    ensures { Passes spec.two source.entry at result }
{
    let (first, after) = next(source, at)?;
    if is_two(&first.token) {
        Ok(after)
    } else {
        Err(GrammarFault::Grammar(first.start))
    }
}

/// An operator between two expressions.
#[tactic(auto, unfolding(crate::specs::Reading::operator, crate::specs::Reading::read_as, kpn_text_tokens::specs::Results::and_then))]
pub(crate) fn operator(source: Source<'_>, at: usize) -> Read<Op>
    ensures { Parses (λ op. op) spec.operator source.entry at result }
{
    let (first, after) = next(source, at)?;
    match operator_of_token(&first.token) {
        Some(operator) => Ok((operator, after)),
        None => Err(GrammarFault::Grammar(first.start)),
    }
}

/// Whether a language is the second.
pub(crate) fn is_second(language: Language) -> bool
    ensures { result ≡ spec.is_second language }
{
    matches!(language, Language::Two)
}

fn operator_of_token(token: &Token<'_>) -> Option<Op>
    ensures { result ≡ spec.token_operator token.now }
{
    match token {
        Token::Mark(mark) => operator_of(*mark),
        _ => None,
    }
}

/// Whether an operator at a place binds as tight as `tight`, and may stand behind a left side that binds as tight as
/// `bound`.
pub(crate) fn goes_further(source: Source<'_>, tight: usize, bound: usize, at: usize) -> bool
    ensures { result ≡ spec.first_is (spec.goes_further tight bound) (tokens_from source.entry at) }
{
    match source.tokens.get(at) {
        Some(first) => match operator_of_token(&first.token) {
            Some(operator) => tight <= tightness(operator) && left_side(operator) <= bound,
            None => false,
        },
        None => false,
    }
}
