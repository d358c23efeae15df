//! Reads into a cell: `read p a[i];` becomes `read p item; a[i] = item;`, where `item` stands for a name that the text
//! has nowhere else.

ghost use Rattle.std.specs.Prelude.{◌≡◌, ◌++◌, Ok};
ghost use Rattle.kpn_text_expand.specs.Cells as spec;
ghost use Rattle.kpn_text_expand.specs.Results.{Yields};

use crate::constants::add;
use crate::fault::ExpandFault;
use crate::hidden::{Hidden, hidden_name, most_taken};
use crate::sums::add_all;
use kpn_lang::Sequence;
use kpn_text_tokens::{Keyword, Lexeme, Mark, Name, Token};
use std::alloc::Global;
use std::mem;

/// Where the next token stands.
#[derive(Clone, Copy)]
pub(crate) enum CellSpot {
    /// After `;`, `{` or `}`.
    Front,
    /// Elsewhere.
    Inside,
    /// After `read` at the front.
    Word,
    /// After the port.
    Port,
    /// After the target.
    Target,
    /// In its index, inside so many brackets more.
    Index(usize),
    /// After the index.
    Item,
}

/// What has gone by.
#[derive(Drop)]
pub(crate) struct Cells<'a> {
    /// The tokens that are left.
    left: Sequence<Lexeme<'a>>,
    /// That of the last target.
    target: Sequence<Lexeme<'a>>,
    /// The length of the longest name of the text that may be hidden.
    taken: usize,
    spot: CellSpot,
}

/// Where the token after one outside of a read stands.
fn spot_behind(token: &Token<'_>) -> CellSpot
    ensures { result ≡ spec.spot_behind token.now }
{
    match token {
        Token::Mark(Mark::Semicolon | Mark::LeftBrace | Mark::RightBrace) => CellSpot::Front,
        _ => CellSpot::Inside,
    }
}

/// Where the token after one of an index stands.
fn spot_in_index(token: &Token<'_>, depth: usize) -> CellSpot
    ensures { result ≡ spec.spot_in_index token.now depth }
{
    match token {
        Token::Mark(Mark::LeftBracket) => CellSpot::Index(depth.saturating_add(1)),
        Token::Mark(Mark::RightBracket) if depth == 0 => CellSpot::Item,
        Token::Mark(Mark::RightBracket) => CellSpot::Index(depth - 1),
        _ => CellSpot::Index(depth),
    }
}

impl<'a> Cells<'a> {
    /// Before the first of these tokens.
    fn new(alloc: Global, tokens: &[Lexeme<'a>]) -> Cells<'a>
        ensures { result ≡ spec.at_first tokens.now }
    {
        Cells {
            left: Sequence::new(alloc),
            target: Sequence::new(alloc),
            taken: most_taken(Hidden::Item, tokens),
            spot: CellSpot::Inside,
        }
    }

    /// The name that keeps an item: longer than each one of the text.
    fn item_name(&self, alloc: Global) -> Result<Option<Name<'a>>, ExpandFault>
        ensures { Yields (λ name. name) result (Ok (spec.item_name self.now)) }
    {
        hidden_name(alloc, Hidden::Item, self.taken.saturating_add(1))
    }

    /// A token that stays, after which the next one has this spot.
    fn keep(&mut self, lexeme: &Lexeme<'a>, spot: CellSpot) -> Result<(), ExpandFault>
        ensures { Yields (λ _. self.new) result (Ok (spec.token_kept lexeme.now spot self.old)) }
    {
        self.spot = spot;
        add(&mut self.left, lexeme.token.copy(), lexeme.start)
    }

    /// A token outside of a read.
    fn pass(&mut self, lexeme: &Lexeme<'a>) -> Result<(), ExpandFault>
        ensures { Yields (λ _. self.new) result (Ok (spec.token_passed lexeme.now self.old)) }
    {
        self.keep(lexeme, spot_behind(&lexeme.token))
    }

    /// A token that may not be there: the grammar refuses `for` at its byte.
    fn refuse(&mut self, lexeme: &Lexeme<'a>) -> Result<(), ExpandFault>
        ensures { Yields (λ _. self.new) result (Ok (spec.refused lexeme.now self.old)) }
    {
        add(&mut self.left, Token::Keyword(Keyword::For), lexeme.start)?;
        self.keep(lexeme, CellSpot::Inside)
    }

    /// The second name after `read`, which waits for the token after it.
    fn hold(&mut self, alloc: Global, lexeme: &Lexeme<'a>) -> Result<(), ExpandFault>
        ensures { Yields (λ _. self.new) result (Ok (spec.target_held lexeme.now self.old)) }
    {
        self.spot = CellSpot::Target;
        drop(mem::replace(&mut self.target, Sequence::new(alloc)));
        add(&mut self.target, lexeme.token.copy(), lexeme.start)
    }

    /// The target stays.
    fn keep_target(&mut self) -> Result<(), ExpandFault>
        ensures { Yields (λ _. self.new) result (Ok (spec.target_kept self.old)) }
    {
        add_all(&mut self.left, self.target.as_slice())
    }

    /// `[` after the target: `item; a[`.
    fn read(&mut self, alloc: Global, lexeme: &Lexeme<'a>) -> Result<(), ExpandFault>
        ensures { Yields (λ _. self.new) result (Ok (spec.item_read lexeme.now self.old)) }
    {
        let Some(name) = self.item_name(alloc)? else {
            self.keep_target()?;
            return self.refuse(lexeme);
        };
        add(&mut self.left, Token::Name(name), lexeme.start)?;
        add(&mut self.left, Token::Mark(Mark::Semicolon), lexeme.start)?;
        self.keep_target()?;
        self.keep(lexeme, CellSpot::Index(0))
    }

    /// `;` after the index: `= item;`.
    fn store(&mut self, alloc: Global, lexeme: &Lexeme<'a>) -> Result<(), ExpandFault>
        ensures { Yields (λ _. self.new) result (Ok (spec.item_stored lexeme.now self.old)) }
    {
        let Some(name) = self.item_name(alloc)? else {
            return self.refuse(lexeme);
        };
        add(&mut self.left, Token::Mark(Mark::Assign), lexeme.start)?;
        add(&mut self.left, Token::Name(name), lexeme.start)?;
        self.keep(lexeme, CellSpot::Front)
    }

    /// The next token.
    fn step(&mut self, alloc: Global, lexeme: &Lexeme<'a>) -> Result<(), ExpandFault>
        ensures { Yields (λ _. self.new) result (Ok (spec.step self.old lexeme.now)) }
    {
        match (self.spot, &lexeme.token) {
            (CellSpot::Front, Token::Keyword(Keyword::Read)) => self.keep(lexeme, CellSpot::Word),
            (CellSpot::Word, Token::Name(_)) => self.keep(lexeme, CellSpot::Port),
            (CellSpot::Port, Token::Name(_)) => self.hold(alloc, lexeme),
            (CellSpot::Target, Token::Mark(Mark::LeftBracket)) => self.read(alloc, lexeme),
            (CellSpot::Target, _) => {
                self.keep_target()?;
                self.pass(lexeme)
            }
            (CellSpot::Index(depth), token) => self.keep(lexeme, spot_in_index(token, depth)),
            (CellSpot::Item, Token::Mark(Mark::Semicolon)) => self.store(alloc, lexeme),
            (CellSpot::Item, _) => self.refuse(lexeme),
            _ => self.pass(lexeme),
        }
    }
}

/// The tokens with reads into variables alone.
pub(crate) fn with_cells<'a>(
    alloc: Global,
    tokens: &[Lexeme<'a>],
) -> Result<Sequence<Lexeme<'a>>, ExpandFault>
    ensures { Yields (λ left. left) result (Ok (spec.with_cells tokens.now)) }
{
    let mut cells = Cells::new(alloc, tokens);
    for lexeme in tokens {
        cells.step(alloc, lexeme)?;
    }
    let Cells { left, .. } = cells;
    Ok(left)
}
