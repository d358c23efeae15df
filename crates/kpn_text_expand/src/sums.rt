//! Assignments with an operator: `x += e;` becomes `x = x + (e);`, and `a[i] += e;` becomes `a[i] = a[i] + (e);`.

ghost use Rattle.std.specs.Prelude.{◌≡◌, ◌++◌, Ok, OnOk, IfErr};
ghost use Rattle.kpn_text_expand.specs.Results.{Yields};
ghost use Rattle.kpn_text_expand.specs.Sums as spec;

use crate::constants::add;
use crate::fault::ExpandFault;
use kpn_lang::Sequence;
use kpn_text_tokens::{Lexeme, Mark, Token};
use std::alloc::Global;
use std::mem;

/// Where the next token stands.
#[derive(Clone, Copy)]
pub(crate) enum SumSpot {
    /// After `;`, `{` or `}`.
    Front,
    /// Elsewhere.
    Inside,
    /// After a name at the front, or after its index.
    Target,
    /// In that index, inside this many brackets more.
    Index(usize),
    /// After this operator at this byte, which stands after a target.
    Operator(Mark, usize),
    /// In a value, where so many parentheses are open.
    Value(usize),
}

/// What has gone by.
#[derive(Drop)]
pub(crate) struct Sums<'a> {
    /// The tokens that are left.
    left: Sequence<Lexeme<'a>>,
    /// Those of the last target.
    target: Sequence<Lexeme<'a>>,
    spot: SumSpot,
}

/// Whether `=` right after the mark makes an assignment of it.
fn changes(mark: Mark) -> bool
    ensures { result ≡ spec.changes mark }
{
    matches!(
        mark,
        Mark::Plus
            | Mark::Minus
            | Mark::Star
            | Mark::Slash
            | Mark::Percent
            | Mark::BitAnd
            | Mark::BitOr
            | Mark::BitXor
            | Mark::ShiftLeft
            | Mark::ShiftRight
    )
}

/// Whether a token is `=` right after this mark at this byte.
fn follows(mark: Mark, at: usize, lexeme: &Lexeme<'_>) -> bool
    ensures { result ≡ spec.follows mark at lexeme.now }
{
    matches!(lexeme.token, Token::Mark(Mark::Assign))
        && lexeme.start.saturating_sub(at) == mark.spelling().len()
}

/// Where the token after one outside of targets and values stands.
fn spot_behind(token: &Token<'_>) -> SumSpot
    ensures { result ≡ spec.spot_behind token.now }
{
    match token {
        Token::Mark(Mark::Semicolon | Mark::LeftBrace | Mark::RightBrace) => SumSpot::Front,
        _ => SumSpot::Inside,
    }
}

/// Where the token after one of an index stands.
fn spot_in_index(token: &Token<'_>, depth: usize) -> SumSpot
    ensures { result ≡ spec.spot_in_index token.now depth }
{
    match token {
        Token::Mark(Mark::LeftBracket) => SumSpot::Index(depth.saturating_add(1)),
        Token::Mark(Mark::RightBracket) => {
            if depth == 0 {
                SumSpot::Target
            } else {
                SumSpot::Index(depth - 1)
            }
        }
        _ => SumSpot::Index(depth),
    }
}

/// How many parentheses are open after a token of a value, if it is one: a `)` or `?` outside of them ends the value,
/// and so does `;`.
fn open_behind(token: &Token<'_>, depth: usize) -> Option<usize>
    ensures { result ≡ spec.open_behind token.now depth }
{
    match token {
        Token::Mark(Mark::Semicolon) => None,
        Token::Mark(Mark::LeftParen) => Some(depth.saturating_add(1)),
        Token::Mark(Mark::RightParen) if depth == 0 => None,
        Token::Mark(Mark::RightParen) => Some(depth - 1),
        Token::Mark(Mark::Question) if depth == 0 => None,
        _ => Some(depth),
    }
}

/// Adds tokens once more.
pub(crate) fn add_all<'a>(
    tokens: &mut Sequence<Lexeme<'a>>,
    more: &[Lexeme<'a>],
) -> Result<(), ExpandFault>
    ensures added { OnOk result (tokens.new ≡ tokens.old ++ more.now) }
    ensures only { IfErr result (λ fault. fault ≡ ExpandFault.NoMemory) }
{
    for lexeme in more {
        add(tokens, lexeme.token.copy(), lexeme.start)?;
    }
    Ok(())
}

impl<'a> Sums<'a> {
    /// Before the first token.
    fn new(alloc: Global) -> Sums<'a>
        ensures { result ≡ spec.at_first }
    {
        Sums {
            left: Sequence::new(alloc),
            target: Sequence::new(alloc),
            spot: SumSpot::Inside,
        }
    }

    /// A token that stays, after which the next one has this spot.
    fn keep(&mut self, lexeme: &Lexeme<'a>, spot: SumSpot) -> Result<(), ExpandFault>
        ensures { Yields (λ _. self.new) result (Ok (spec.token_kept lexeme.now spot self.old)) }
    {
        self.spot = spot;
        add(&mut self.left, lexeme.token.copy(), lexeme.start)
    }

    /// A token outside of targets and values.
    fn pass(&mut self, lexeme: &Lexeme<'a>) -> Result<(), ExpandFault>
        ensures { Yields (λ _. self.new) result (Ok (spec.token_passed lexeme.now self.old)) }
    {
        self.keep(lexeme, spot_behind(&lexeme.token))
    }

    /// A token of a target.
    fn aim(&mut self, lexeme: &Lexeme<'a>, spot: SumSpot) -> Result<(), ExpandFault>
        ensures { Yields (λ _. self.new) result (Ok (spec.aimed lexeme.now spot self.old)) }
    {
        add(&mut self.target, lexeme.token.copy(), lexeme.start)?;
        self.keep(lexeme, spot)
    }

    /// The name that a target begins with.
    fn begin(&mut self, alloc: Global, lexeme: &Lexeme<'a>) -> Result<(), ExpandFault>
        ensures { Yields (λ _. self.new) result (Ok (spec.begun lexeme.now self.old)) }
    {
        drop(mem::replace(&mut self.target, Sequence::new(alloc)));
        self.aim(lexeme, SumSpot::Target)
    }

    /// `=` after an operator at this byte: `= x + (`.
    fn open(&mut self, mark: Mark, at: usize) -> Result<(), ExpandFault>
        ensures { Yields (λ _. self.new) result (Ok (spec.value_opened mark at self.old)) }
    {
        self.spot = SumSpot::Value(0);
        add(&mut self.left, Token::Mark(Mark::Assign), at)?;
        add_all(&mut self.left, self.target.as_slice())?;
        add(&mut self.left, Token::Mark(mark), at)?;
        add(&mut self.left, Token::Mark(Mark::LeftParen), at)
    }

    /// A token after an operator at this byte, which stands after a target.
    fn operate(&mut self, mark: Mark, at: usize, lexeme: &Lexeme<'a>) -> Result<(), ExpandFault>
        ensures { Yields (λ _. self.new) result (Ok (spec.operator_kept mark at lexeme.now self.old)) }
    {
        if follows(mark, at, lexeme) {
            return self.open(mark, at);
        }
        add(&mut self.left, Token::Mark(mark), at)?;
        self.pass(lexeme)
    }

    /// A token of a value, or the first one after it, before which `)` goes.
    fn value(&mut self, depth: usize, lexeme: &Lexeme<'a>) -> Result<(), ExpandFault>
        ensures { Yields (λ _. self.new) result (Ok (spec.valued depth lexeme.now self.old)) }
    {
        if let Some(depth) = open_behind(&lexeme.token, depth) {
            return self.keep(lexeme, SumSpot::Value(depth));
        }
        add(&mut self.left, Token::Mark(Mark::RightParen), lexeme.start)?;
        self.pass(lexeme)
    }

    /// A mark after a target.
    fn mark(&mut self, mark: Mark, lexeme: &Lexeme<'a>) -> Result<(), ExpandFault>
        ensures { Yields (λ _. self.new) result (Ok (spec.mark_kept mark lexeme.now self.old)) }
    {
        if changes(mark) {
            self.spot = SumSpot::Operator(mark, lexeme.start);
            return Ok(());
        }
        self.pass(lexeme)
    }

    /// The next token.
    fn step(&mut self, alloc: Global, lexeme: &Lexeme<'a>) -> Result<(), ExpandFault>
        ensures { Yields (λ _. self.new) result (Ok (spec.step self.old lexeme.now)) }
    {
        match (self.spot, &lexeme.token) {
            (SumSpot::Front, Token::Name(_)) => self.begin(alloc, lexeme),
            (SumSpot::Target, Token::Mark(Mark::LeftBracket)) => self.aim(
                lexeme,
                SumSpot::Index(0),
            ),
            (SumSpot::Index(depth), token) => self.aim(lexeme, spot_in_index(token, depth)),
            (SumSpot::Target, Token::Mark(mark)) => self.mark(*mark, lexeme),
            (SumSpot::Operator(mark, at), _) => self.operate(mark, at, lexeme),
            (SumSpot::Value(depth), _) => self.value(depth, lexeme),
            _ => self.pass(lexeme),
        }
    }
}

/// The tokens with plain assignments.
pub(crate) fn with_sums<'a>(
    alloc: Global,
    tokens: &[Lexeme<'a>],
) -> Result<Sequence<Lexeme<'a>>, ExpandFault>
    ensures { Yields (λ left. left) result (Ok (spec.with_sums tokens.now)) }
{
    let mut sums = Sums::new(alloc);
    for lexeme in tokens {
        sums.step(alloc, lexeme)?;
    }
    let Sums { left, .. } = sums;
    Ok(left)
}
