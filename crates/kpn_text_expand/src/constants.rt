//! Constants. The tokens go by one after the other: a declaration is taken out, and each name of a constant after it is
//! replaced by its number.

ghost use Rattle.std.specs.Prelude.{◌≡◌, [], ◌∷◌, ◌++◌, Ok, OnOk, IfErr};
ghost use Rattle.kpn_text_expand.specs.Constants as spec;
ghost use Rattle.kpn_text_expand.specs.Results.{Yields};

use crate::declaration::{Constant, Value, declared};
use crate::fault::ExpandFault;
use kpn_lang::Sequence;
use kpn_text_tokens::{Keyword, Lexeme, Mark, Name, Token};
use std::alloc::Global;
use std::mem;

/// Where the next token stands.
#[derive(Clone, Copy)]
pub(crate) enum ConstantPlace {
    /// After `;`, `{` or `}`.
    Front,
    /// After another token.
    Inside,
    /// After `const`, up to the next `;`.
    Declaration,
}

/// What has gone by.
#[derive(Drop)]
pub(crate) struct Constants<'a> {
    /// The tokens that are left.
    pub left: Sequence<Lexeme<'a>>,
    /// The constants outside of braces.
    pub shared: Sequence<Constant<'a>>,
    /// Those of the process or the network.
    pub own: Sequence<Constant<'a>>,
    /// How many braces are open.
    pub depth: usize,
    pub place: ConstantPlace,
    /// The tokens of a declaration.
    pub declaration: Sequence<Lexeme<'a>>,
}

/// The value of the constant of this name, if there is one.
fn value_in(constants: &[Constant<'_>], name: &Name<'_>) -> Option<Value>
    ensures { result ≡ spec.value_in constants.now name.now }
{
    let found = constants
        .iter()
        .find(|constant| constant.name.bytes() == name.bytes())?;
    Some(found.value)
}

/// Adds a token and its byte.
pub(crate) fn add<'a>(
    tokens: &mut Sequence<Lexeme<'a>>,
    token: Token<'a>,
    start: usize,
) -> Result<(), ExpandFault>
    ensures added { OnOk result (tokens.new ≡ tokens.old ++ spec.lexeme token.entry start ∷ []) }
    ensures only { IfErr result (λ fault. fault ≡ ExpandFault.NoMemory) }
{
    tokens.push(Lexeme { token, start })?;
    Ok(())
}

/// Adds the tokens of a value.
fn add_value(
    tokens: &mut Sequence<Lexeme<'_>>,
    value: Value,
    start: usize,
) -> Result<(), ExpandFault>
    ensures added { OnOk result (tokens.new ≡ tokens.old ++ spec.value_tokens value start) }
    ensures only { IfErr result (λ fault. fault ≡ ExpandFault.NoMemory) }
{
    if value.is_negative {
        add(tokens, Token::Mark(Mark::Minus), start)?;
    }
    add(tokens, Token::Number(value.size), start)
}

/// Adds what stands for a token: the tokens of this value, if there is one, and else the token.
fn add_meant<'a>(
    tokens: &mut Sequence<Lexeme<'a>>,
    lexeme: &Lexeme<'a>,
    value: Option<Value>,
) -> Result<(), ExpandFault>
    ensures added { OnOk result (tokens.new ≡ tokens.old ++ spec.meant_as lexeme.now value) }
    ensures only { IfErr result (λ fault. fault ≡ ExpandFault.NoMemory) }
{
    match value {
        Some(value) => add_value(tokens, value, lexeme.start),
        None => add(tokens, lexeme.token.copy(), lexeme.start),
    }
}

impl<'a> Constants<'a> {
    /// Before the first token.
    pub(crate) fn new(alloc: Global) -> Constants<'a>
        ensures { result ≡ spec.at_first }
    {
        Constants {
            left: Sequence::new(alloc),
            shared: Sequence::new(alloc),
            own: Sequence::new(alloc),
            depth: 0,
            place: ConstantPlace::Inside,
            declaration: Sequence::new(alloc),
        }
    }

    /// The value of a token, if it is the name of a constant.
    fn value_of(&self, token: &Token<'a>) -> Option<Value>
        ensures { result ≡ spec.value_of self.now token.now }
    {
        let Token::Name(name) = token else {
            return None;
        };
        match value_in(self.own.as_slice(), name) {
            Some(value) => Some(value),
            None => value_in(self.shared.as_slice(), name),
        }
    }

    /// Counts a brace, and says where the next token stands.
    fn go_behind(&mut self, alloc: Global, token: &Token<'a>)
        ensures { self.new ≡ spec.gone_past token.now self.old }
    {
        match token {
            Token::Mark(Mark::LeftBrace) => {
                self.depth = self.depth.saturating_add(1);
                self.place = ConstantPlace::Front;
            }
            Token::Mark(Mark::RightBrace) => {
                self.depth = self.depth.saturating_sub(1);
                self.place = ConstantPlace::Front;
                if self.depth == 0 {
                    drop(mem::replace(&mut self.own, Sequence::new(alloc)));
                }
            }
            Token::Mark(Mark::Semicolon) => self.place = ConstantPlace::Front,
            _ => self.place = ConstantPlace::Inside,
        }
    }

    /// A token outside of a declaration.
    fn pass(&mut self, alloc: Global, lexeme: &Lexeme<'a>) -> Result<(), ExpandFault>
        ensures { Yields (λ _. self.new) result (Ok (spec.token_passed lexeme.now self.old)) }
    {
        let value = self.value_of(&lexeme.token);
        add_meant(&mut self.left, lexeme, value)?;
        self.go_behind(alloc, &lexeme.token);
        Ok(())
    }

    /// A token of a declaration.
    fn keep(&mut self, lexeme: &Lexeme<'a>) -> Result<(), ExpandFault>
        ensures { Yields (λ _. self.new) result (Ok (spec.token_kept lexeme.now self.old)) }
    {
        let value = self.value_of(&lexeme.token);
        add_meant(&mut self.declaration, lexeme, value)
    }

    /// Adds a constant, and goes on after its declaration.
    fn add_constant(&mut self, alloc: Global, constant: Constant<'a>) -> Result<(), ExpandFault>
        ensures { Yields (λ _. self.new) result (Ok (spec.with_constant self.old constant.entry)) }
    {
        drop(mem::replace(&mut self.declaration, Sequence::new(alloc)));
        self.place = ConstantPlace::Front;
        if self.depth == 0 {
            self.shared.push(constant)?;
        } else {
            self.own.push(constant)?;
        }
        Ok(())
    }

    /// The `;` after a declaration.
    #[tactic(auto, unfolding(kpn_text_tokens::specs::Results::and_then))]
    fn declare(&mut self, alloc: Global, stop: usize) -> Result<(), ExpandFault>
        ensures { Yields (λ _. self.new) result (spec.with_declared stop self.old) }
    {
        let constant = declared(alloc, self.declaration.as_slice(), stop)?;
        self.add_constant(alloc, constant)
    }

    /// The next token.
    pub(crate) fn step(&mut self, alloc: Global, lexeme: &Lexeme<'a>) -> Result<(), ExpandFault>
        ensures { Yields (λ _. self.new) result (spec.step self.old lexeme.now) }
    {
        match (self.place, &lexeme.token) {
            (ConstantPlace::Front, Token::Keyword(Keyword::Const)) => {
                self.place = ConstantPlace::Declaration;
                Ok(())
            }
            (ConstantPlace::Declaration, Token::Mark(Mark::Semicolon)) => self.declare(
                alloc,
                lexeme.start,
            ),
            (ConstantPlace::Declaration, _) => self.keep(lexeme),
            _ => self.pass(alloc, lexeme),
        }
    }

    /// The tokens that are left after the last one.
    #[tactic(auto, unfolding(kpn_text_tokens::specs::Results::and_then))]
    pub(crate) fn finish(
        self,
        alloc: Global,
        end: usize,
    ) -> Result<Sequence<Lexeme<'a>>, ExpandFault>
        ensures { Yields (λ left. left) result (spec.finished end self.entry) }
    {
        let Constants {
            left,
            place,
            declaration,
            ..
        } = self;
        match place {
            ConstantPlace::Declaration => {
                declared(alloc, declaration.as_slice(), end)?;
                Err(ExpandFault::Grammar(end))
            }
            _ => Ok(left),
        }
    }
}
