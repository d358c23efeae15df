//! Loops over a range: `for i in a..b { s }` becomes `i = a; to = b; while i < to { s i = i + 1; }`, where `to` stands
//! for a name that the text has nowhere else.

ghost use Rattle.std.specs.Prelude.{◌≡◌, [], ◌∷◌, ◌++◌, Ok, OnOk, IfErr, length};
ghost use Rattle.kpn_text_expand.specs.Loops as spec;
ghost use Rattle.kpn_text_expand.specs.Results.{Yields};

use crate::constants::add;
use crate::fault::ExpandFault;
use crate::hidden::{Hidden, hidden_name, most_taken};
use kpn_lang::Sequence;
use kpn_text_tokens::{Keyword, Lexeme, Mark, Name, Number, Token};
use std::alloc::Global;
use std::marker::Model;

/// The blocks that are open, the innermost last: for a loop its variable, and for another one its brace.
#[derive(Drop)]
pub(crate) struct Blocks<'a> {
    open: Vec<Lexeme<'a>>,
}

impl<'a> Model for Blocks<'a> {
    ghost use Rattle.std.specs.Prelude.{List};
    ghost use Rattle.kpn_text_tokens.specs.declared.tokens.Lexeme.{Lexeme};

    ghost Value = { List Lexeme };

    ghost view = { λ blocks. blocks.open.items };
}

impl<'a> Blocks<'a> {
    fn new(alloc: Global) -> Blocks<'a>
        ensures { result ≡ [] }
    {
        Blocks {
            open: Vec::new(alloc),
        }
    }

    fn len(&self) -> usize
        ensures { result ≡ length self.now }
    {
        self.open.len()
    }

    fn push(&mut self, lexeme: &Lexeme<'a>) -> Result<(), ExpandFault>
        ensures added { OnOk result (self.new ≡ self.old ++ lexeme.now ∷ []) }
        ensures only { IfErr result (λ fault. fault ≡ ExpandFault.NoMemory) }
    {
        self.open.push(Lexeme {
            token: lexeme.token.copy(),
            start: lexeme.start,
        })?;
        Ok(())
    }

    /// Closes the innermost one.
    fn leave(&mut self)
        ensures { self.new ≡ spec.blocks_around self.old }
    {
        self.open.pop();
    }

    /// The variable of the innermost one, if that is a loop.
    fn variable(&self) -> Option<Name<'a>>
        ensures { result ≡ spec.loop_variable self.now }
    {
        match &self.open.as_slice().last()?.token {
            Token::Name(name) => Some(name.copy()),
            _ => None,
        }
    }
}

/// Where the next token stands.
#[derive(Clone, Copy)]
pub(crate) enum LoopSpot {
    /// After `;`, `{` or `}`.
    Front,
    /// Elsewhere.
    Inside,
    /// In the network, or after a token that may not be there: all tokens stay.
    Rest,
    /// After `for`.
    Word,
    /// After the variable, which is that of the innermost block.
    Variable,
    /// In the first number.
    First,
    /// In the end.
    End,
}

/// What has gone by.
#[derive(Drop)]
pub(crate) struct Loops<'a> {
    /// The tokens that are left.
    left: Sequence<Lexeme<'a>>,
    blocks: Blocks<'a>,
    /// The length of the longest name of the text that may be hidden.
    taken: usize,
    spot: LoopSpot,
}

impl<'a> Loops<'a> {
    /// Before the first of these tokens.
    fn new(alloc: Global, tokens: &[Lexeme<'a>]) -> Loops<'a>
        ensures { result ≡ spec.at_first tokens.now }
    {
        Loops {
            left: Sequence::new(alloc),
            blocks: Blocks::new(alloc),
            taken: most_taken(Hidden::End, tokens),
            spot: LoopSpot::Inside,
        }
    }

    /// The name that keeps the end of the innermost loop: longer in each block, and than each one of the text.
    fn end_name(&self, alloc: Global) -> Result<Option<Name<'a>>, ExpandFault>
        ensures { Yields (λ name. name) result (Ok (spec.end_name self.now)) }
    {
        let depth = self.blocks.len().saturating_sub(1);
        hidden_name(alloc, Hidden::End, self.taken.saturating_add(depth))
    }

    fn add(&mut self, token: Token<'a>, start: usize) -> Result<(), ExpandFault>
        ensures { Yields (λ _. self.new) result (Ok (spec.one_added token.entry start self.old)) }
    {
        add(&mut self.left, token, start)
    }

    /// A token that stays, after which the next one has this spot.
    fn keep(&mut self, lexeme: &Lexeme<'a>, spot: LoopSpot) -> Result<(), ExpandFault>
        ensures { Yields (λ _. self.new) result (Ok (spec.token_kept lexeme.now spot self.old)) }
    {
        self.spot = spot;
        add(&mut self.left, lexeme.token.copy(), lexeme.start)
    }

    /// `i = i + 1;`
    fn count_up(&mut self, name: &Name<'a>, start: usize) -> Result<(), ExpandFault>
        ensures { Yields (λ _. self.new) result (Ok (spec.counted_up name.now start self.old)) }
    {
        self.add(Token::Name(name.copy()), start)?;
        self.add(Token::Mark(Mark::Assign), start)?;
        self.add(Token::Name(name.copy()), start)?;
        self.add(Token::Mark(Mark::Plus), start)?;
        self.add(Token::Number(Number::new(1)), start)?;
        self.add(Token::Mark(Mark::Semicolon), start)
    }

    /// A `}`: at the end of a loop its variable grows by 1.
    fn close(&mut self, lexeme: &Lexeme<'a>) -> Result<(), ExpandFault>
        ensures { Yields (λ _. self.new) result (Ok (spec.block_closed lexeme.now self.old)) }
    {
        let variable = self.blocks.variable();
        self.blocks.leave();
        if let Some(name) = variable {
            self.count_up(&name, lexeme.start)?;
        }
        self.keep(lexeme, LoopSpot::Front)
    }

    /// A token that opens a block: its brace, or the variable of a loop.
    fn open(&mut self, lexeme: &Lexeme<'a>, spot: LoopSpot) -> Result<(), ExpandFault>
        ensures { Yields (λ _. self.new) result (Ok (spec.block_opened lexeme.now spot self.old)) }
    {
        self.blocks.push(lexeme)?;
        self.keep(lexeme, spot)
    }

    /// A token outside of the head of a loop.
    fn pass(&mut self, lexeme: &Lexeme<'a>) -> Result<(), ExpandFault>
        ensures { Yields (λ _. self.new) result (Ok (spec.token_passed lexeme.now self.old)) }
    {
        match &lexeme.token {
            Token::Mark(Mark::LeftBrace) => self.open(lexeme, LoopSpot::Front),
            Token::Mark(Mark::RightBrace) => self.close(lexeme),
            Token::Mark(Mark::Semicolon) => self.keep(lexeme, LoopSpot::Front),
            Token::Keyword(Keyword::Network) => self.keep(lexeme, LoopSpot::Rest),
            _ => self.keep(lexeme, LoopSpot::Inside),
        }
    }

    /// A token that may not be there: the grammar refuses `for` at its byte.
    fn refuse(&mut self, lexeme: &Lexeme<'a>) -> Result<(), ExpandFault>
        ensures { Yields (λ _. self.new) result (Ok (spec.refused lexeme.now self.old)) }
    {
        self.add(Token::Keyword(Keyword::For), lexeme.start)?;
        self.keep(lexeme, LoopSpot::Rest)
    }

    /// `in`: `=` after the variable.
    fn begin_range(&mut self, start: usize) -> Result<(), ExpandFault>
        ensures { Yields (λ _. self.new) result (Ok (spec.range_begun start self.old)) }
    {
        self.spot = LoopSpot::First;
        self.add(Token::Mark(Mark::Assign), start)
    }

    /// `..`: `; to =` after the first number.
    fn begin_end(&mut self, alloc: Global, lexeme: &Lexeme<'a>) -> Result<(), ExpandFault>
        ensures { Yields (λ _. self.new) result (Ok (spec.end_begun lexeme.now self.old)) }
    {
        let Some(name) = self.end_name(alloc)? else {
            return self.refuse(lexeme);
        };
        self.spot = LoopSpot::End;
        self.add(Token::Mark(Mark::Semicolon), lexeme.start)?;
        self.add(Token::Name(name), lexeme.start)?;
        self.add(Token::Mark(Mark::Assign), lexeme.start)
    }

    /// `; while i < to`
    fn write_test(&mut self, name: Name<'a>, end: Name<'a>, start: usize) -> Result<(), ExpandFault>
        ensures { Yields (λ _. self.new) result (Ok (spec.test_written name.entry end.entry start self.old)) }
    {
        self.add(Token::Mark(Mark::Semicolon), start)?;
        self.add(Token::Keyword(Keyword::While), start)?;
        self.add(Token::Name(name), start)?;
        self.add(Token::Mark(Mark::Less), start)?;
        self.add(Token::Name(end), start)
    }

    /// `{` after the end.
    fn begin_body(&mut self, alloc: Global, lexeme: &Lexeme<'a>) -> Result<(), ExpandFault>
        ensures { Yields (λ _. self.new) result (Ok (spec.body_begun lexeme.now self.old)) }
    {
        let end = self.end_name(alloc)?;
        match (self.blocks.variable(), end) {
            (Some(name), Some(end)) => {
                self.write_test(name, end, lexeme.start)?;
                self.keep(lexeme, LoopSpot::Front)
            }
            _ => self.refuse(lexeme),
        }
    }

    /// The next token.
    fn step(&mut self, alloc: Global, lexeme: &Lexeme<'a>) -> Result<(), ExpandFault>
        ensures { Yields (λ _. self.new) result (Ok (spec.step self.old lexeme.now)) }
    {
        match (self.spot, &lexeme.token) {
            (LoopSpot::Rest, _) => self.keep(lexeme, LoopSpot::Rest),
            (LoopSpot::Front, Token::Keyword(Keyword::For)) if self.blocks.len() > 0 => {
                self.spot = LoopSpot::Word;
                Ok(())
            }
            (LoopSpot::Word, Token::Name(_)) => self.open(lexeme, LoopSpot::Variable),
            (LoopSpot::Variable, Token::Keyword(Keyword::In)) => self.begin_range(lexeme.start),
            (LoopSpot::First, Token::Mark(Mark::Range)) => self.begin_end(alloc, lexeme),
            (LoopSpot::End, Token::Mark(Mark::LeftBrace)) => self.begin_body(alloc, lexeme),
            (LoopSpot::First | LoopSpot::End, Token::Mark(Mark::Semicolon)) => self.refuse(lexeme),
            (LoopSpot::First | LoopSpot::End, _) => self.keep(lexeme, self.spot),
            (LoopSpot::Word | LoopSpot::Variable, _) => self.refuse(lexeme),
            _ => self.pass(lexeme),
        }
    }
}

/// The tokens with `while` in place of `for`.
pub(crate) fn with_loops<'a>(
    alloc: Global,
    tokens: &[Lexeme<'a>],
) -> Result<Sequence<Lexeme<'a>>, ExpandFault>
    ensures { Yields (λ left. left) result (Ok (spec.with_loops tokens.now)) }
{
    let mut loops = Loops::new(alloc, tokens);
    for lexeme in tokens {
        loops.step(alloc, lexeme)?;
    }
    let Loops { left, .. } = loops;
    Ok(left)
}
