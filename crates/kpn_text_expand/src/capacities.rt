//! The capacity at the head of a network, `cap N;`. It goes to each channel and sink that has none.

ghost use Rattle.std.specs.Prelude.{◌≡◌, Ok};
ghost use Rattle.kpn_text_expand.specs.Capacities as spec;
ghost use Rattle.kpn_text_expand.specs.Results.{Yields};

use crate::constants::add;
use crate::fault::ExpandFault;
use kpn_lang::Sequence;
use kpn_text_tokens::{Keyword, Lexeme, Mark, Number, Token};
use std::alloc::Global;

/// Where the next token stands.
#[derive(Clone, Copy)]
pub(crate) enum HeadSpot {
    /// Where nothing is looked at.
    Elsewhere,
    /// Where the `{` of the network comes.
    Opening,
    /// At the head of the network, where a setting may begin.
    Head,
    /// In a setting.
    Setting,
    /// After `cap` at the head.
    Word,
    /// After its number.
    Amount,
    /// After the capacity of the network.
    Entry,
    /// In a channel or a sink, which has had no `cap`.
    Open,
}

/// What has gone by.
#[derive(Drop)]
pub(crate) struct Capacities<'a> {
    /// The tokens that are left.
    left: Sequence<Lexeme<'a>>,
    /// The capacity of the network, once it is known.
    number: Number,
    spot: HeadSpot,
}

/// Where the token after one that stays stands.
fn spot_behind(spot: HeadSpot, token: &Token<'_>) -> HeadSpot
    ensures { result ≡ spec.spot_behind spot token.now }
{
    match (spot, token) {
        (HeadSpot::Elsewhere, Token::Keyword(Keyword::Network)) => HeadSpot::Opening,
        (HeadSpot::Opening, Token::Mark(Mark::LeftBrace)) => HeadSpot::Head,
        (HeadSpot::Head, Token::Keyword(Keyword::Limit | Keyword::Policy | Keyword::Grow)) =>
            HeadSpot::Setting,
        (HeadSpot::Setting, Token::Mark(Mark::Semicolon)) => HeadSpot::Head,
        (HeadSpot::Setting, _) => HeadSpot::Setting,
        (HeadSpot::Entry, Token::Keyword(Keyword::Channel | Keyword::Sink)) => HeadSpot::Open,
        (HeadSpot::Open, Token::Keyword(Keyword::Cap)) => HeadSpot::Entry,
        (HeadSpot::Entry, _) => HeadSpot::Entry,
        (HeadSpot::Open, _) => HeadSpot::Open,
        _ => HeadSpot::Elsewhere,
    }
}

impl<'a> Capacities<'a> {
    /// Before the first token.
    fn new(alloc: Global) -> Capacities<'a>
        ensures { result ≡ spec.at_first }
    {
        Capacities {
            left: Sequence::new(alloc),
            number: Number::new(0),
            spot: HeadSpot::Elsewhere,
        }
    }

    /// A token that stays, after which the next one has this spot.
    fn keep(&mut self, lexeme: &Lexeme<'a>, spot: HeadSpot) -> Result<(), ExpandFault>
        ensures { Yields (λ _. self.new) result (Ok (spec.token_kept lexeme.now spot self.old)) }
    {
        self.spot = spot;
        add(&mut self.left, lexeme.token.copy(), lexeme.start)
    }

    /// A token after `cap` at the head that may not be there: the grammar refuses the word at its byte.
    fn refuse(&mut self, lexeme: &Lexeme<'a>) -> Result<(), ExpandFault>
        ensures { Yields (λ _. self.new) result (Ok (spec.refused lexeme.now self.old)) }
    {
        add(&mut self.left, Token::Keyword(Keyword::Cap), lexeme.start)?;
        self.keep(lexeme, HeadSpot::Elsewhere)
    }

    /// The `;` of a channel or a sink without a capacity becomes `cap N;`.
    fn fill(&mut self, lexeme: &Lexeme<'a>) -> Result<(), ExpandFault>
        ensures { Yields (λ _. self.new) result (Ok (spec.entry_filled lexeme.now self.old)) }
    {
        add(&mut self.left, Token::Keyword(Keyword::Cap), lexeme.start)?;
        add(&mut self.left, Token::Number(self.number), lexeme.start)?;
        self.keep(lexeme, HeadSpot::Entry)
    }

    /// The next token.
    fn step(&mut self, lexeme: &Lexeme<'a>) -> Result<(), ExpandFault>
        ensures { Yields (λ _. self.new) result (Ok (spec.step self.old lexeme.now)) }
    {
        match (self.spot, &lexeme.token) {
            (HeadSpot::Head, Token::Keyword(Keyword::Cap)) => self.spot = HeadSpot::Word,
            (HeadSpot::Word, Token::Number(number)) => {
                self.number = *number;
                self.spot = HeadSpot::Amount;
            }
            (HeadSpot::Amount, Token::Mark(Mark::Semicolon)) => self.spot = HeadSpot::Entry,
            (HeadSpot::Word | HeadSpot::Amount, _) => self.refuse(lexeme)?,
            (HeadSpot::Open, Token::Mark(Mark::Semicolon)) => self.fill(lexeme)?,
            (spot, token) => self.keep(lexeme, spot_behind(spot, token))?,
        }
        Ok(())
    }
}

/// The tokens with the capacity of their network.
pub(crate) fn with_capacities<'a>(
    alloc: Global,
    tokens: &[Lexeme<'a>],
) -> Result<Sequence<Lexeme<'a>>, ExpandFault>
    ensures { Yields (λ left. left) result (Ok (spec.with_capacities tokens.now)) }
{
    let mut capacities = Capacities::new(alloc);
    for lexeme in tokens {
        capacities.step(lexeme)?;
    }
    let Capacities { left, .. } = capacities;
    Ok(left)
}
