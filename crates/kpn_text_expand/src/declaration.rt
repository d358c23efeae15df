//! The declaration of a constant: its name, `=` and its value.

ghost use Rattle.std.specs.Prelude.{◌≡◌};
ghost use Rattle.kpn_text_grammar.specs.View.{term};
ghost use Rattle.kpn_text_expand.specs.Declaration as spec;
ghost use Rattle.kpn_text_expand.specs.Results.{Yields};

use crate::constants::add;
use crate::fault::ExpandFault;
use kpn_lang::Sequence;
use kpn_text_grammar::{Expression, GrammarFault, expression};
use kpn_text_names::constant_value;
use kpn_text_tokens::{Language, Lexeme, MAX_NUMBER, Mark, Name, Number, Token};
use std::alloc::Global;

/// The value of a constant, as it is written: a number, and whether it is below 0.
#[derive(Clone, Copy)]
pub(crate) struct Value {
    pub is_negative: bool,
    pub size: Number,
}

/// A constant.
#[derive(Drop)]
pub(crate) struct Constant<'a> {
    pub name: Name<'a>,
    pub value: Value,
}

/// A value as it is written, if it can be.
fn written(value: i64) -> Option<Value>
    ensures { result ≡ spec.value_written value }
{
    let size = value.unsigned_abs();
    if size > MAX_NUMBER {
        return None;
    }
    Some(Value {
        is_negative: value < 0,
        size: Number::new(size),
    })
}

/// A value as it is written, or the fault of an expression that begins at this byte.
fn or_no_number(value: Option<i64>, start: usize) -> Result<Value, ExpandFault>
    ensures { Yields (λ v. v) result (spec.or_no_number start (spec.written_if value)) }
{
    let Some(value) = value else {
        return Err(ExpandFault::Token(start));
    };
    match written(value) {
        Some(value) => Ok(value),
        None => Err(ExpandFault::Token(start)),
    }
}

/// The value of an expression that begins at this byte.
fn computed(alloc: Global, expression: &Expression<'_>, start: usize) -> Result<Value, ExpandFault>
    ensures { Yields (λ v. v) result (spec.value_computed start (term expression.now)) }
{
    match constant_value(alloc, expression) {
        Ok(found) => or_no_number(found, start),
        Err(_) => Err(ExpandFault::NoMemory),
    }
}

/// The expression that all these tokens are, of which the first begins at this byte.
fn tree<'a>(
    alloc: Global,
    tokens: &'a [Lexeme<'a>],
    start: usize,
    stop: usize,
) -> Result<Expression<'a>, ExpandFault>
    ensures { Yields term result (spec.tree start stop tokens.now) }
{
    match expression(alloc, Language::Two, tokens, stop) {
        Ok(tree) => Ok(tree),
        Err(GrammarFault::Grammar(at)) => Err(ExpandFault::Grammar(at)),
        Err(GrammarFault::TooDeep(_)) => Err(ExpandFault::Token(start)),
        Err(GrammarFault::NoMemory) => Err(ExpandFault::NoMemory),
    }
}

/// Adds a token, which may be no name, and so borrows nothing from the text.
fn add_nameless<'b>(left: &mut Sequence<Lexeme<'b>>, lexeme: &Lexeme<'_>) -> Result<(), ExpandFault>
    ensures { Yields (λ _. left.new) result (spec.with_nameless left.old lexeme.now) }
{
    match &lexeme.token {
        Token::Name(_) => Err(ExpandFault::UnknownName(lexeme.start)),
        Token::Number(number) => add(left, Token::Number(*number), lexeme.start),
        Token::Mark(mark) => add(left, Token::Mark(*mark), lexeme.start),
        Token::Keyword(keyword) => add(left, Token::Keyword(*keyword), lexeme.start),
    }
}

/// The same tokens, if none is a name.
fn nameless<'b>(alloc: Global, tokens: &[Lexeme<'_>]) -> Result<Sequence<Lexeme<'b>>, ExpandFault>
    ensures { Yields (λ left. left) result (spec.nameless tokens.now) }
{
    let mut left = Sequence::new(alloc);
    for lexeme in tokens {
        add_nameless(&mut left, lexeme)?;
    }
    Ok(left)
}

/// The byte at which these tokens begin, or that of what follows them.
fn start_of(tokens: &[Lexeme<'_>], stop: usize) -> usize
    ensures { result ≡ spec.first_byte stop tokens.now }
{
    match tokens.first() {
        Some(first) => first.start,
        None => stop,
    }
}

/// The value that all these tokens are. What follows them is at the byte `stop`.
#[tactic(auto, unfolding(crate::specs::Declaration::number, kpn_text_tokens::specs::Results::and_then))]
fn number(alloc: Global, tokens: &[Lexeme<'_>], stop: usize) -> Result<Value, ExpandFault>
    ensures { Yields (λ v. v) result (spec.number stop tokens.now) }
{
    let nameless = nameless(alloc, tokens)?;
    let start = start_of(nameless.as_slice(), stop);
    let tree = tree(alloc, nameless.as_slice(), start, stop)?;
    computed(alloc, &tree, start)
}

/// The name at the front, and the tokens after it.
fn first_name<'t, 'a>(
    tokens: &'t [Lexeme<'a>],
    stop: usize,
) -> Result<(Name<'a>, &'t [Lexeme<'a>]), ExpandFault>
    ensures { Yields (λ x. (x.0, x.1.now)) result (spec.name_declared stop tokens.now) }
{
    match tokens.split_first() {
        Some((first, rest)) => match &first.token {
            Token::Name(name) => Ok((name.copy(), rest)),
            _ => Err(ExpandFault::Grammar(first.start)),
        },
        None => Err(ExpandFault::Grammar(stop)),
    }
}

/// The tokens after `=`.
fn behind_assign<'t, 'a>(
    tokens: &'t [Lexeme<'a>],
    stop: usize,
) -> Result<&'t [Lexeme<'a>], ExpandFault>
    ensures { Yields (λ x. x.now) result (spec.behind_assign stop tokens.now) }
{
    match tokens.split_first() {
        Some((first, rest)) => match &first.token {
            Token::Mark(Mark::Assign) => Ok(rest),
            _ => Err(ExpandFault::Grammar(first.start)),
        },
        None => Err(ExpandFault::Grammar(stop)),
    }
}

/// The constant that the tokens between `const` and `;` declare. The `;` is at the byte `stop`.
#[tactic(auto, unfolding(crate::specs::Declaration::declared, kpn_text_tokens::specs::Results::and_then))]
pub(crate) fn declared<'a>(
    alloc: Global,
    tokens: &[Lexeme<'a>],
    stop: usize,
) -> Result<Constant<'a>, ExpandFault>
    ensures { Yields (λ c. c) result (spec.declared stop tokens.now) }
{
    let (name, tokens) = first_name(tokens, stop)?;
    let tokens = behind_assign(tokens, stop)?;
    let value = number(alloc, tokens, stop)?;
    Ok(Constant { name, value })
}
