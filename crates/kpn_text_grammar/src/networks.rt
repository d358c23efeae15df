//! The network: its settings and its items.

ghost use Rattle.std.specs.Prelude.{◌≡◌};
ghost use Rattle.kpn_text_tokens.specs.declared.tokens.Keyword.TheVariants as kind;
ghost use Rattle.kpn_text_grammar.specs.Reading as spec;
ghost use Rattle.kpn_text_grammar.specs.Syntax as tree;
ghost use Rattle.kpn_text_grammar.specs.Words as words;
ghost use Rattle.kpn_text_grammar.specs.View.{Parses, instance_seen, item_seen, items_seen, network_seen};

use crate::fault::GrammarFault;
use crate::lists::{optional_names, optional_values};
use crate::parser::{Read, Source, at_keyword, goes_on, keyword, mark, name, next, number};
use crate::tree::{Identifier, InstanceNode, Item, NetworkNode};
use crate::words::{growth_spelled, policy_spelled};
use kpn_net::{Growth, Policy};
use kpn_text_tokens::{Keyword, Mark, Number, Token};
use std::alloc::Global;

#[tactic(auto, unfolding(crate::specs::Reading::with_capacity, kpn_text_tokens::specs::Results::and_then))]
fn channel_behind<'a>(source: Source<'a>, at: usize) -> Read<Item<'a>>
    ensures { Parses item_seen (spec.with_capacity tree.channel) source.entry at result }
{
    let (name, at) = name(source, at)?;
    let at = keyword(source, Keyword::Cap, at)?;
    let (capacity, at) = number(source, at)?;
    let at = mark(source, Mark::Semicolon, at)?;
    Ok((Item::Channel(name, capacity), at))
}

#[tactic(auto, unfolding(crate::specs::Reading::with_capacity, kpn_text_tokens::specs::Results::and_then))]
fn sink_behind<'a>(source: Source<'a>, at: usize) -> Read<Item<'a>>
    ensures { Parses item_seen (spec.with_capacity tree.sink) source.entry at result }
{
    let (name, at) = name(source, at)?;
    let at = keyword(source, Keyword::Cap, at)?;
    let (capacity, at) = number(source, at)?;
    let at = mark(source, Mark::Semicolon, at)?;
    Ok((Item::Sink(name, capacity), at))
}

/// The program of the instance of this name, its channels and the values of its parameters.
#[tactic(auto, unfolding(crate::specs::Reading::call, kpn_text_tokens::specs::Results::and_then))]
fn call<'a>(
    alloc: Global,
    source: Source<'a>,
    name: Identifier<'a>,
    at: usize,
) -> Read<InstanceNode<'a>>
    ensures { Parses instance_seen (λ s. spec.call s name.entry.bytes.now) source.entry at result }
{
    let (program, at) = crate::parser::name(source, at)?;
    let at = mark(source, Mark::LeftParen, at)?;
    let (ins, at) = optional_names(alloc, source, at)?;
    let at = mark(source, Mark::Semicolon, at)?;
    let (outs, at) = optional_names(alloc, source, at)?;
    let (values, at) = optional_values(alloc, source, at)?;
    let at = mark(source, Mark::RightParen, at)?;
    let instance = InstanceNode {
        name,
        program,
        ins,
        outs,
        values,
    };
    Ok((instance, at))
}

#[tactic(auto, unfolding(crate::specs::Reading::instance_behind, kpn_text_tokens::specs::Results::and_then))]
fn instance_behind<'a>(
    alloc: Global,
    source: Source<'a>,
    name: Identifier<'a>,
    at: usize,
) -> Read<Item<'a>>
    ensures { Parses item_seen
        (λ s. spec.instance_behind s name.entry.bytes.now) source.entry at result }
{
    let at = mark(source, Mark::Assign, at)?;
    let (instance, at) = call(alloc, source, name, at)?;
    let at = mark(source, Mark::Semicolon, at)?;
    Ok((Item::Instance(instance), at))
}

#[tactic(auto, unfolding(crate::specs::Reading::item, crate::specs::Reading::item_behind, kpn_text_tokens::specs::Results::and_then))]
fn item<'a>(alloc: Global, source: Source<'a>, at: usize) -> Read<Item<'a>>
    ensures { Parses item_seen spec.item source.entry at result }
{
    let (first, at) = next(source, at)?;
    match &first.token {
        Token::Keyword(Keyword::Channel) => channel_behind(source, at),
        Token::Keyword(Keyword::Source) => {
            let (name, at) = name(source, at)?;
            let at = mark(source, Mark::Semicolon, at)?;
            Ok((Item::Source(name), at))
        }
        Token::Keyword(Keyword::Sink) => sink_behind(source, at),
        Token::Name(name) => {
            let name = Identifier::new(name, first.start);
            instance_behind(alloc, source, name, at)
        }
        _ => Err(GrammarFault::Grammar(first.start)),
    }
}

/// The items up to the closing brace.
fn items<'a>(alloc: Global, source: Source<'a>, at: usize) -> Read<Vec<Item<'a>>>
    ensures { Parses (λ found. items_seen found.items)
        (λ s. spec.all_of spec.stands_in_block (spec.item s)) source.entry at result }
{
    let mut found = Vec::new(alloc);
    let mut place = at;
    'items: while goes_on(source, place) {
        let (item, after) = item(alloc, source, place)?;
        found.push(item)?;
        place = after;
    }
    Ok((found, place))
}

/// The limit, if it is written.
#[tactic(auto, unfolding(crate::specs::Reading::setting, kpn_text_tokens::specs::Results::and_then))]
fn limit(source: Source<'_>, at: usize) -> Read<Option<Number>>
    ensures { Parses (λ n. n) (spec.setting kind.Limit spec.number) source.entry at result }
{
    if !at_keyword(source, Keyword::Limit, at) {
        return Ok((None, at));
    }
    let at = keyword(source, Keyword::Limit, at)?;
    let (limit, at) = number(source, at)?;
    let at = mark(source, Mark::Semicolon, at)?;
    Ok((Some(limit), at))
}

#[tactic(auto, unfolding(crate::specs::Reading::read_as, kpn_text_tokens::specs::Results::and_then))]
fn policy_word(source: Source<'_>, at: usize) -> Read<Policy>
    ensures { Parses (λ q. q) (spec.read_as (spec.token_word words.policy_spelled)) source.entry at result }
{
    let (first, after) = next(source, at)?;
    let spelled = match &first.token {
        Token::Name(name) => policy_spelled(name.bytes()),
        _ => None,
    };
    match spelled {
        Some(policy) => Ok((policy, after)),
        None => Err(GrammarFault::Grammar(first.start)),
    }
}

/// The policy, if it is written.
#[tactic(auto, unfolding(crate::specs::Reading::setting, kpn_text_tokens::specs::Results::and_then))]
fn policy(source: Source<'_>, at: usize) -> Read<Option<Policy>>
    ensures { Parses (λ q. q) (spec.setting kind.Policy (spec.read_as (spec.token_word words.policy_spelled))) source.entry at result }
{
    if !at_keyword(source, Keyword::Policy, at) {
        return Ok((None, at));
    }
    let at = keyword(source, Keyword::Policy, at)?;
    let (policy, at) = policy_word(source, at)?;
    let at = mark(source, Mark::Semicolon, at)?;
    Ok((Some(policy), at))
}

#[tactic(auto, unfolding(crate::specs::Reading::read_as, kpn_text_tokens::specs::Results::and_then))]
fn growth_word(source: Source<'_>, at: usize) -> Read<Growth>
    ensures { Parses (λ g. g) (spec.read_as (spec.token_word words.growth_spelled)) source.entry at result }
{
    let (first, after) = next(source, at)?;
    let spelled = match &first.token {
        Token::Name(name) => growth_spelled(name.bytes()),
        _ => None,
    };
    match spelled {
        Some(growth) => Ok((growth, after)),
        None => Err(GrammarFault::Grammar(first.start)),
    }
}

/// The growth, if it is written.
#[tactic(auto, unfolding(crate::specs::Reading::setting, kpn_text_tokens::specs::Results::and_then))]
fn growth(source: Source<'_>, at: usize) -> Read<Option<Growth>>
    ensures { Parses (λ g. g) (spec.setting kind.Grow (spec.read_as (spec.token_word words.growth_spelled))) source.entry at result }
{
    if !at_keyword(source, Keyword::Grow, at) {
        return Ok((None, at));
    }
    let at = keyword(source, Keyword::Grow, at)?;
    let (growth, at) = growth_word(source, at)?;
    let at = mark(source, Mark::Semicolon, at)?;
    Ok((Some(growth), at))
}

/// The network.
#[tactic(auto, unfolding(crate::specs::Reading::network, kpn_text_tokens::specs::Results::and_then))]
pub(crate) fn network<'a>(alloc: Global, source: Source<'a>, at: usize) -> Read<NetworkNode<'a>>
    ensures { Parses network_seen spec.network source.entry at result }
{
    let at = keyword(source, Keyword::Network, at)?;
    let at = mark(source, Mark::LeftBrace, at)?;
    let (limit, at) = limit(source, at)?;
    let (policy, at) = policy(source, at)?;
    let (growth, at) = growth(source, at)?;
    let (items, at) = items(alloc, source, at)?;
    let at = mark(source, Mark::RightBrace, at)?;
    let network = NetworkNode {
        limit,
        policy,
        growth,
        items,
    };
    Ok((network, at))
}
