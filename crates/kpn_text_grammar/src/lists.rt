//! Lists with commas between their elements: names, and the values of a table or of an instance.

ghost use Rattle.std.specs.Prelude.{◌≡◌};
ghost use Rattle.kpn_text_grammar.specs.Reading as spec;
ghost use Rattle.kpn_text_grammar.specs.View.{Parses, literal_seen, names_seen, values_seen};

use crate::fault::GrammarFault;
use crate::parser::{Read, Source, at_mark, at_name, mark, name, next, number};
use crate::tree::{Identifier, Literal, Names};
use kpn_text_tokens::{Mark, Token};
use std::alloc::Global;

/// A comma and a name.
#[tactic(auto, unfolding(crate::specs::Reading::further, kpn_text_tokens::specs::Results::and_then))]
fn further_name<'a>(source: Source<'a>, at: usize) -> Read<Identifier<'a>>
    ensures { Parses (λ name. name.bytes.now)
        (λ s. spec.further s (spec.name s)) source.entry at result }
{
    let at = mark(source, Mark::Comma, at)?;
    name(source, at)
}

/// One name or more.
#[tactic(auto, unfolding(crate::specs::Reading::separated, kpn_text_tokens::specs::Results::and_then))]
pub(crate) fn names<'a>(alloc: Global, source: Source<'a>, at: usize) -> Read<Names<'a>>
    ensures { Parses (λ found. names_seen found.items)
        (λ s. spec.separated s (spec.name s)) source.entry at result }
{
    let (first, after) = name(source, at)?;
    let mut found = Vec::new(alloc);
    found.push(first)?;
    let mut place = after;
    'names: while at_mark(source, Mark::Comma, place) {
        let (name, after) = further_name(source, place)?;
        found.push(name)?;
        place = after;
    }
    Ok((found, place))
}

/// Names, or none if no name is at the place.
#[tactic(auto, unfolding(crate::specs::Reading::optional_names))]
pub(crate) fn optional_names<'a>(alloc: Global, source: Source<'a>, at: usize) -> Read<Names<'a>>
    ensures { Parses (λ found. names_seen found.items) spec.optional_names source.entry at result }
{
    if at_name(source, at) {
        names(alloc, source, at)
    } else {
        Ok((Vec::new(alloc), at))
    }
}

/// A number, or a number behind a minus.
#[tactic(auto, unfolding(crate::specs::Reading::literal, crate::specs::Reading::literal_behind, kpn_text_tokens::specs::Results::and_then))]
fn literal(source: Source<'_>, at: usize) -> Read<Literal>
    ensures { Parses literal_seen spec.literal source.entry at result }
{
    let (first, at) = next(source, at)?;
    match &first.token {
        Token::Number(number) => Ok((Literal::Plain(*number), at)),
        Token::Mark(Mark::Minus) => {
            let (number, at) = number(source, at)?;
            Ok((Literal::Negated(number), at))
        }
        _ => Err(GrammarFault::Grammar(first.start)),
    }
}

/// A comma and a value.
#[tactic(auto, unfolding(crate::specs::Reading::further, kpn_text_tokens::specs::Results::and_then))]
fn further_literal(source: Source<'_>, at: usize) -> Read<Literal>
    ensures { Parses literal_seen (λ s. spec.further s (spec.literal s)) source.entry at result }
{
    let at = mark(source, Mark::Comma, at)?;
    literal(source, at)
}

/// One value or more.
#[tactic(auto, unfolding(crate::specs::Reading::separated, kpn_text_tokens::specs::Results::and_then))]
pub(crate) fn values(alloc: Global, source: Source<'_>, at: usize) -> Read<Vec<Literal>>
    ensures { Parses (λ found. values_seen found.items)
        (λ s. spec.separated s (spec.literal s)) source.entry at result }
{
    let (first, after) = literal(source, at)?;
    let mut found = Vec::new(alloc);
    found.push(first)?;
    let mut place = after;
    'values: while at_mark(source, Mark::Comma, place) {
        let (value, after) = further_literal(source, place)?;
        found.push(value)?;
        place = after;
    }
    Ok((found, place))
}

/// Values behind a semicolon, or none if no semicolon is at the place.
#[tactic(auto, unfolding(crate::specs::Reading::optional_values, kpn_text_tokens::specs::Results::and_then))]
pub(crate) fn optional_values(alloc: Global, source: Source<'_>, at: usize) -> Read<Vec<Literal>>
    ensures { Parses (λ found. values_seen found.items)
        spec.optional_values source.entry at result }
{
    if at_mark(source, Mark::Semicolon, at) {
        let at = mark(source, Mark::Semicolon, at)?;
        values(alloc, source, at)
    } else {
        Ok((Vec::new(alloc), at))
    }
}
