//! Events and traces read from their text.
ghost use Rattle.std.specs.Prelude.{◌≡◌, ◌≢◌, List, ℕ, ◌++◌, MatchOption, MatchResult, IfOk, IfErr};
ghost use Rattle.kpn_history.specs.declared.event.Event.{Event};
ghost use Rattle.kpn_trace.specs.declared.kind.Kind.TheVariants as kind;
ghost use Rattle.kpn_trace.specs.EventLine.{SpellsEvent, IsInRange, event_kind, arguments_of, spaced};
ghost use Rattle.kpn_trace.specs.TraceText.{SpellsTrace, RefusesTrace, event_text};

use crate::fault::{BadEvent, TraceFault};
use crate::head::{HeadRead, head_before};
use crate::kind::Kind;
use crate::parts::{
    number_and_how, number_and_item, two_numbers, two_numbers_and_capacity, two_numbers_and_item,
};
use crate::words::{number, parted};
use kpn_history::{Event, Trace, Version};
use kpn_lang::Sequence;
use std::alloc::Allocator;

/// The event that a line without its line feed spells in this version. It takes no memory.
pub fn read_event(line: &[u8], version: Version) -> Result<Event, BadEvent>
    ensures { MatchResult result (SpellsEvent version line.now)
        (λ _. (event : Event) → ¬ SpellsEvent version line.now event) }
{
    event_of(version, line).ok_or(BadEvent)
}

/// The trace that the bytes spell, in either version. Its events may hold any numbers from 0 to 65535.
///
/// It fails with `TraceFault::BadHead` if the bytes do not begin with the first lines of a trace. It fails with
/// `TraceFault::BadEvent` at the first line that spells no event or lacks its line feed. It fails with
/// `TraceFault::NoMemory` if memory for the events ran out.
pub fn read_trace<A: Allocator>(alloc: A, bytes: &[u8]) -> Result<Trace<A>, TraceFault>
    ensures ok { IfOk result (SpellsTrace bytes.now) }
    ensures refused { IfErr result (RefusesTrace bytes.now) }
{
    let Some((head, lines)) = head_before(bytes) else {
        return Err(TraceFault::BadHead);
    };
    let HeadRead {
        version,
        policy,
        growth,
    } = head;
    let mut events = Vec::new(alloc);
    let mut rest = lines;
    while !rest.is_empty() {
        let Some((event, after)) = first_event(version, rest) else {
            return Err(TraceFault::BadEvent(events.len() + head.lines() + 1));
        };
        events.push(event).map_err(|_| TraceFault::NoMemory)?;
        rest = after;
    }
    Ok(Trace {
        version,
        policy,
        growth,
        events: Sequence::from_vec(events),
    })
}

/// The event of the first line, and the bytes of the lines after it.
fn first_event(version: Version, bytes: &[u8]) -> Option<(Event, &[u8])>
    ensures { MatchOption result
        ((event : Event) (more : List ℕ) → IsInRange version event
        → bytes.now ≢ event_text version event ++ more)
        (λ first. (bytes.now ≡ event_text version first.0 ++ first.1.now)
        × IsInRange version first.0) }
{
    let (line, rest) = parted(bytes, b'\n')?;
    let event = event_of(version, line)?;
    Some((event, rest))
}

fn event_of(version: Version, line: &[u8]) -> Option<Event>
    ensures { MatchOption result ((event : Event) → ¬ SpellsEvent version line.now event)
        (SpellsEvent version line.now) }
{
    let (word, parts) = parted(line, b' ')?;
    let kind = Kind::named(word)?;
    event_of_kind(version, kind, parts)
}

/// The event of a kind that the words after it spell.
fn event_of_kind(version: Version, kind: Kind, parts: &[u8]) -> Option<Event>
    ensures { MatchOption result
        ((event : Event) → IsInRange version event → event_kind event ≡ kind
        → parts.now ≢ spaced (arguments_of version event))
        (λ event. IsInRange version event × (event_kind event ≡ kind)
        × (parts.now ≡ spaced (arguments_of version event))) }
{
    match kind {
        Kind::Get => {
            let (process, channel, item) = two_numbers_and_item(parts)?;
            Some(Event::Get(process, channel, item))
        }
        Kind::Put => {
            let (process, channel, item) = two_numbers_and_item(parts)?;
            Some(Event::Put(process, channel, item))
        }
        Kind::WaitEmpty => {
            let (process, channel) = two_numbers(parts)?;
            Some(Event::WaitEmpty(process, channel))
        }
        Kind::WaitFull => {
            let (process, channel) = two_numbers(parts)?;
            Some(Event::WaitFull(process, channel))
        }
        Kind::Ended => {
            let (process, how) = number_and_how(parts)?;
            Some(Event::Ended(process, how))
        }
        Kind::Feed => {
            let (channel, item) = number_and_item(parts)?;
            Some(Event::Feed(channel, item))
        }
        Kind::Close => Some(Event::Close(number(parts)?)),
        Kind::Take => {
            let (channel, item) = number_and_item(parts)?;
            Some(Event::Take(channel, item))
        }
        Kind::Leave => Some(Event::Leave(number(parts)?)),
        Kind::Grow => growth_of(version, parts),
    }
}

/// The growth that the words after its kind spell.
fn growth_of(version: Version, parts: &[u8]) -> Option<Event>
    ensures { MatchOption result
        ((event : Event) → IsInRange version event → event_kind event ≡ kind.Grow
        → parts.now ≢ spaced (arguments_of version event))
        (λ event. IsInRange version event × (event_kind event ≡ kind.Grow)
        × (parts.now ≡ spaced (arguments_of version event))) }
{
    match version {
        Version::One => {
            let (process, channel) = two_numbers(parts)?;
            Some(Event::Grow(process, channel, 0))
        }
        Version::Two => {
            let (process, channel, capacity) = two_numbers_and_capacity(parts)?;
            Some(Event::Grow(process, channel, capacity))
        }
    }
}
