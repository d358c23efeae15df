//! All steps, one after the other.

ghost use Rattle.std.specs.Prelude.{Ok};
ghost use Rattle.kpn_text_expand.specs.Constants.{without_constants};
ghost use Rattle.kpn_text_expand.specs.Expanding as spec;
ghost use Rattle.kpn_text_expand.specs.Results.{Yields};

use crate::capacities::with_capacities;
use crate::cells::with_cells;
use crate::constants::Constants;
use crate::fault::ExpandFault;
use crate::loops::with_loops;
use crate::sums::with_sums;
use kpn_lang::Sequence;
use kpn_text_tokens::{Language, Lexeme};
use std::alloc::Global;

/// All tokens of a text have gone by.
fn all_steps<'a>(alloc: Global, tokens: &[Lexeme<'a>]) -> Result<Constants<'a>, ExpandFault>
    ensures { Yields (λ s. s) result (spec.all_steps tokens.now) }
{
    let mut constants = Constants::new(alloc);
    for lexeme in tokens {
        constants.step(alloc, lexeme)?;
    }
    Ok(constants)
}

/// The tokens that constants leave of a text of this length.
#[tactic(auto, unfolding(kpn_text_tokens::specs::Results::and_then))]
fn without_constants<'a>(
    alloc: Global,
    tokens: &[Lexeme<'a>],
    end: usize,
) -> Result<Sequence<Lexeme<'a>>, ExpandFault>
    ensures { Yields (λ left. left) result (without_constants end tokens.now) }
{
    let constants = all_steps(alloc, tokens)?;
    constants.finish(alloc, end)
}

/// What the other forms leave of tokens without constants.
fn without_forms<'a>(
    alloc: Global,
    tokens: &[Lexeme<'a>],
) -> Result<Sequence<Lexeme<'a>>, ExpandFault>
    ensures { Yields (λ left. left) result (Ok (spec.without_forms tokens.now)) }
{
    let filled = with_capacities(alloc, tokens)?;
    let changed = with_sums(alloc, filled.as_slice())?;
    let read = with_cells(alloc, changed.as_slice())?;
    with_loops(alloc, read.as_slice())
}

/// What all forms leave of a text of this length.
#[tactic(auto, unfolding(kpn_text_tokens::specs::Results::and_then))]
fn all_forms<'a>(
    alloc: Global,
    tokens: &[Lexeme<'a>],
    end: usize,
) -> Result<Sequence<Lexeme<'a>>, ExpandFault>
    ensures { Yields (λ left. left) result (spec.all_forms end tokens.now) }
{
    let left = without_constants(alloc, tokens, end)?;
    without_forms(alloc, left.as_slice())
}

/// The tokens that those of a text stand for; `end` is the length of the text in bytes. In language 1 they are the
/// same.
///
/// # Errors
///
/// The first fault of a constant in the text:
///
/// - [`ExpandFault::Grammar`] at a token that its declaration may not have there, or at `end`;
/// - [`ExpandFault::UnknownName`] at a name in its value that is no constant;
/// - [`ExpandFault::Token`] at its value, if that has a fault, is -2^63 or nests too deep.
///
/// [`ExpandFault::NoMemory`] comes only if memory ran out.
pub fn expanded<'a>(
    alloc: Global,
    language: Language,
    tokens: Vec<Lexeme<'a>>,
    end: usize,
) -> Result<Sequence<Lexeme<'a>>, ExpandFault>
    ensures { Yields (λ found. found) result (spec.expanded language end tokens.entry.items) }
{
    match language {
        Language::One => Ok(Sequence::from_vec(tokens)),
        Language::Two => all_forms(alloc, tokens.as_slice(), end),
    }
}
