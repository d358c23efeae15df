//! The places in a description that a fault concerns.
ghost use Rattle.std.specs.Prelude.{◌≡◌, IfOk, slice_index_or};
ghost use Rattle.kpn_command_explain.specs.Concerned as spec;
ghost use Rattle.kpn_command_explain.specs.Spots as spots;

use crate::names::{first_behind, first_between, last_before, name_at};
use crate::spots::{TokenSpot, spot_at, starts};
use kpn_net::NetFault;
use kpn_text::TextFault;
use kpn_text_tokens::Lexeme;
use std::alloc::{AllocError, Global};

/// The byte that a fault concerns, and the byte of the other of two that conflict.
#[derive(Clone, Copy)]
pub struct FaultPlaces {
    pub first: usize,
    pub second: Option<usize>,
}

/// The places of a fault in a text with these tokens.
pub fn concerned_places(
    alloc: Global,
    text: &[u8],
    tokens: &[Lexeme<'_>],
    fault: TextFault,
) -> Result<FaultPlaces, AllocError>
    ensures { IfOk result (λ found. found ≡ spec.places_of text.now tokens.now fault) }
{
    match fault {
        TextFault::TooLong(at) | TextFault::Token(at) => Ok(one_place(at)),
        TextFault::Grammar(at) => Ok(one_place(at)),
        TextFault::UnknownName(at) => unknown_places(alloc, text, tokens, at),
        TextFault::DoubleName(at) => two_names(alloc, text, tokens, at),
        TextFault::Program(process, _) => numbered(alloc, tokens, TokenSpot::Process, process),
        TextFault::Net(broken) => net_places(alloc, text, tokens, broken),
        TextFault::NoMemory => Ok(one_place(0)),
    }
}

fn net_places(
    alloc: Global,
    text: &[u8],
    tokens: &[Lexeme<'_>],
    fault: NetFault,
) -> Result<FaultPlaces, AllocError>
    ensures { IfOk result (λ found. found ≡ spec.net_places text.now tokens.now fault) }
{
    match fault {
        NetFault::TooMany | NetFault::NoMemory => network(alloc, tokens),
        NetFault::NoSuchProgram(instance) => numbered(alloc, tokens, TokenSpot::Instance, instance),
        NetFault::PortCount(instance) => numbered(alloc, tokens, TokenSpot::Instance, instance),
        NetFault::NoSuchChannel(instance) => numbered(alloc, tokens, TokenSpot::Instance, instance),
        NetFault::NoWriter(channel) => numbered(alloc, tokens, TokenSpot::Channel, channel),
        NetFault::TwoWriters(channel) => channel_use(
            alloc,
            text,
            tokens,
            TokenSpot::Writes,
            channel,
        ),
        NetFault::NoReader(channel) => numbered(alloc, tokens, TokenSpot::Channel, channel),
        NetFault::TwoReaders(channel) => channel_use(
            alloc,
            text,
            tokens,
            TokenSpot::Reads,
            channel,
        ),
        NetFault::Capacity(channel) => numbered(alloc, tokens, TokenSpot::Channel, channel),
    }
}

fn one_place(at: usize) -> FaultPlaces
    ensures { result ≡ spec.one_place at }
{
    FaultPlaces {
        first: at,
        second: None,
    }
}

fn network(alloc: Global, tokens: &[Lexeme<'_>]) -> Result<FaultPlaces, AllocError>
    ensures { IfOk result (λ found. found ≡ spec.one_place (spec.network_place tokens.now)) }
{
    let place = network_place(alloc, tokens)?;
    Ok(one_place(place))
}

fn numbered(
    alloc: Global,
    tokens: &[Lexeme<'_>],
    spot: TokenSpot,
    number: usize,
) -> Result<FaultPlaces, AllocError>
    ensures { IfOk result (λ found.
        found ≡ spec.one_place (spec.numbered_place tokens.now spot number)) }
{
    let place = numbered_place(alloc, tokens, spot, number)?;
    Ok(one_place(place))
}

// The word `network`.
fn network_place(alloc: Global, tokens: &[Lexeme<'_>]) -> Result<usize, AllocError>
    ensures { IfOk result (λ at. at ≡ spec.network_place tokens.now) }
{
    let found = starts(alloc, tokens, TokenSpot::Outside)?;
    Ok(entry(&found, 0, 0))
}

// The name with this number at a spot.
fn numbered_place(
    alloc: Global,
    tokens: &[Lexeme<'_>],
    spot: TokenSpot,
    number: usize,
) -> Result<usize, AllocError>
    ensures { IfOk result (λ at. at ≡ spec.numbered_place tokens.now spot number) }
{
    let network = network_place(alloc, tokens)?;
    let found = starts(alloc, tokens, spot)?;
    Ok(entry(&found, number, network))
}

fn entry(list: &[usize], number: usize, otherwise: usize) -> usize
    ensures { result ≡ slice_index_or list.now number otherwise }
{
    if number < list.len() {
        list[number]
    } else {
        otherwise
    }
}

fn table_of(spot: TokenSpot) -> TokenSpot
    ensures { result ≡ spec.table_of spot }
{
    match spot {
        TokenSpot::Target | TokenSpot::Row | TokenSpot::Shared => TokenSpot::Port,
        other => other,
    }
}

// A name, and the one before it that is the same.
fn two_names(
    alloc: Global,
    text: &[u8],
    tokens: &[Lexeme<'_>],
    at: usize,
) -> Result<FaultPlaces, AllocError>
    ensures { IfOk result (λ found. found ≡ spec.two_names text.now tokens.now at) }
{
    let found = starts(alloc, tokens, table_of(spot_at(tokens, at)))?;
    let second = last_before(text, name_at(text, at), at, &found);
    Ok(FaultPlaces { first: at, second })
}

/// Where the process that has this byte ends.
pub(crate) fn process_end(
    alloc: Global,
    tokens: &[Lexeme<'_>],
    at: usize,
) -> Result<usize, AllocError>
    ensures { IfOk result (λ end. end ≡ spec.process_end tokens.now at) }
{
    let network = network_place(alloc, tokens)?;
    let found = starts(alloc, tokens, TokenSpot::Process)?;
    Ok(first_behind(at, network, &found))
}

// A variable in an expression, and the first place after it in its process at which it gets a value.
fn value_behind(
    alloc: Global,
    text: &[u8],
    tokens: &[Lexeme<'_>],
    at: usize,
) -> Result<FaultPlaces, AllocError>
    ensures { IfOk result (λ found. found ≡ spec.value_behind text.now tokens.now at) }
{
    let end = process_end(alloc, tokens, at)?;
    let found = starts(alloc, tokens, TokenSpot::Target)?;
    let second = first_between(text, name_at(text, at), at, end, &found);
    Ok(FaultPlaces { first: at, second })
}

fn unknown_places(
    alloc: Global,
    text: &[u8],
    tokens: &[Lexeme<'_>],
    at: usize,
) -> Result<FaultPlaces, AllocError>
    ensures { IfOk result (λ found.
        found ≡ spec.unknown_places text.now tokens.now at (spots.spot_at at tokens.now)) }
{
    match spot_at(tokens, at) {
        TokenSpot::Variable => value_behind(alloc, text, tokens, at),
        _ => Ok(one_place(at)),
    }
}

// The declaration of a channel, and the last time that its name stands at a spot.
fn channel_use(
    alloc: Global,
    text: &[u8],
    tokens: &[Lexeme<'_>],
    spot: TokenSpot,
    channel: usize,
) -> Result<FaultPlaces, AllocError>
    ensures { IfOk result (λ found. found ≡ spec.channel_use text.now tokens.now spot channel) }
{
    let declared = numbered_place(alloc, tokens, TokenSpot::Channel, channel)?;
    last_use(alloc, text, tokens, spot, declared)
}

fn last_use(
    alloc: Global,
    text: &[u8],
    tokens: &[Lexeme<'_>],
    spot: TokenSpot,
    declared: usize,
) -> Result<FaultPlaces, AllocError>
    ensures { IfOk result (λ found. found ≡ spec.last_use text.now tokens.now spot declared) }
{
    let found = starts(alloc, tokens, spot)?;
    let second = last_before(text, name_at(text, declared), text.len(), &found);
    Ok(FaultPlaces {
        first: declared,
        second,
    })
}
