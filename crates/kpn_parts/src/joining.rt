//! Joins the histories of parts into one order of all events, after the fact.
ghost use Rattle.std.specs.Prelude.{◌≡◌, ◌↔◌, ◌≢◌, ◌≤◌, ◌<◌, ◌^◌, ◌++◌, ◌∷◌, ℕ, true, false, [], IfOk, OnOk, IfSome, IfNone, List, length, take, replicate, slice_get, slice_index_or, Some};
ghost use Rattle.kpn_lang.specs.Prefix.{IsPrefix};
ghost use Rattle.kpn_history.specs.declared.event.Event.{Event};
ghost use Rattle.kpn_parts.specs.declared.order.PartEvent.{PartEvent};
ghost use Rattle.kpn_parts.specs.Joined.{events_of_part};
ghost use Rattle.kpn_parts.specs.Links.{IsSentOn, IsJoinOf, history_at, items_of, fed_after, IsNext, IsCarried, AreCarried, CarryNothing, CarryMore, FedAtMost, MayCome, SoFar, IsStuck, UsesAll, JoinComesTo};

use crate::items::{item_of, push_item};
use crate::link::PartLink;
use crate::order::PartEvent;
use kpn_history::Event;
use kpn_lang::Sequence;
use std::alloc::{AllocError, Global};

/// What a link carries: the items that were put on it, and how many of them were fed.
#[derive(Drop)]
struct Carried {
    items: Vec<i64>,
    fed: usize,
}

/// What a join of histories comes to.
#[derive(Drop)]
pub enum Joined {
    /// An order of all events.
    Whole(Sequence<PartEvent>),
    /// There is none: this event of this part can't come. Parts and events are counted from 0.
    Stuck { part: usize, event: usize },
}

/// An order of all events of these histories, in which each part has its history, and each part was fed only what was
/// put before, on all links. If there is no such order, it returns an event that comes in none.
///
/// `histories` has the history of each part, `links` the channels between parts. The error is that memory ran out. For
/// each event it looks at each link.
pub fn join(
    alloc: Global,
    histories: &[Sequence<Event>],
    links: &[PartLink],
) -> Result<Joined, AllocError>
    ensures { IfOk result (JoinComesTo histories.now links.now) }
{
    let mut at = zeros(alloc, histories.len())?;
    let mut order = Vec::new(alloc);
    let mut carried = nothing_carried(alloc, links)?;
    go_rounds(histories, links, &mut at, &mut order, &mut carried)?;
    match left_in(histories, &at) {
        None => Ok(Joined::Whole(Sequence::from_vec(order))),
        Some(part) => Ok(Joined::Stuck {
            part,
            event: at.get(part).copied().unwrap_or(0),
        }),
    }
}

fn zeros(alloc: Global, n: usize) -> Result<Vec<usize>, AllocError>
    ensures { IfOk result (λ zeros. zeros.items ≡ replicate n 0) }
{
    vec![in alloc; 0; n]
}

/// Nothing was put on any link.
fn nothing_carried(alloc: Global, links: &[PartLink]) -> Result<Vec<Carried>, AllocError>
    ensures { IfOk result (λ carried. CarryNothing carried.items (length links.now)) }
{
    let mut carried = Vec::new(alloc);
    for _l in 0..links.len() {
        let nothing = Carried {
            items: Vec::new(alloc),
            fed: 0,
        };
        carried.push(nothing)?;
    }
    Ok(carried)
}

/// Puts events at the end of the order until none may come.
fn go_rounds(
    histories: &[Sequence<Event>],
    links: &[PartLink],
    at: &mut Vec<usize>,
    order: &mut Vec<PartEvent>,
    carried: &mut Vec<Carried>,
) -> Result<(), AllocError>
    requires { SoFar histories.now links.now at.old.items order.old.items carried.old.items }
    ensures so_far { OnOk result
        (SoFar histories.now links.now at.new.items order.new.items carried.new.items) }
    ensures stuck { OnOk result (IsStuck histories.now links.now at.new.items order.new.items) }
{
    for _round in 0..u64::MAX {
        let before = order.len();
        go_round(histories, links, at, order, carried)?;
        if order.len() == before {
            return Ok(());
        }
    }
    // No memory has that many events.
    Err(AllocError)
}

/// Puts what may come of each part in turn at the end of the order.
fn go_round(
    histories: &[Sequence<Event>],
    links: &[PartLink],
    at: &mut Vec<usize>,
    order: &mut Vec<PartEvent>,
    carried: &mut Vec<Carried>,
) -> Result<(), AllocError>
    requires { SoFar histories.now links.now at.old.items order.old.items carried.old.items }
    ensures so_far { OnOk result
        (SoFar histories.now links.now at.new.items order.new.items carried.new.items) }
    ensures idle { OnOk result (length order.new.items ≡ length order.old.items
        → IsStuck histories.now links.now at.new.items order.new.items) }
{
    for r in 0..histories.len() {
        let to = go_on(histories[r].as_slice(), r, at[r], links, order, carried)?;
        at[r] = to;
    }
    Ok(())
}

/// Puts the events of part `r` from the event `from` on at the end of the order, as long as they may come. It returns
/// how many events of the part are in the order then.
fn go_on(
    history: &[Event],
    r: usize,
    from: usize,
    links: &[PartLink],
    order: &mut Vec<PartEvent>,
    carried: &mut Vec<Carried>,
) -> Result<usize, AllocError>
    requires part { events_of_part r order.old.items ≡ take from history.now }
    requires links { AreCarried links.now order.old.items carried.old.items }
    ensures own { IfOk result (λ to. events_of_part r order.new.items ≡ take to history.now) }
    ensures other { OnOk result ((s : ℕ) → s ≢ r
        → events_of_part s order.new.items ≡ events_of_part s order.old.items) }
    ensures begins { OnOk result (IsPrefix order.old.items order.new.items) }
    ensures links { OnOk result (AreCarried links.now order.new.items carried.new.items) }
    ensures still { IfOk result (λ to. (d : Event) → to < length history.now
        → ¬ MayCome links.now order.new.items
        (record { part = r; event = slice_index_or history.now to d })) }
{
    for k in from..history.len() {
        let placed = PartEvent {
            part: r,
            event: history[k],
        };
        if !may_come(links, carried, placed) {
            return Ok(k);
        }
        carry(links, carried, placed)?;
        order.push(placed)?;
    }
    Ok(from.max(history.len()))
}

/// Whether an event may come now: with it, all is put before it is fed.
fn may_come(links: &[PartLink], carried: &[Carried], placed: PartEvent) -> bool
    requires { length carried.now ≡ length links.now }
    ensures { (order : List PartEvent) → AreCarried links.now order carried.now
        → ((result ≡ true) ↔ MayCome links.now order placed) }
{
    for l in 0..links.len() {
        if !takes(links[l], &carried[l], placed) {
            return false;
        }
    }
    true
}

/// Whether a link takes an event: if the event feeds an item on it, this is the next one.
fn takes(link: PartLink, carried: &Carried, placed: PartEvent) -> bool
    ensures { (order : List PartEvent) → IsCarried link order carried.now
        → ((result ≡ true) ↔ IsSentOn (order ++ placed ∷ []) link) }
{
    let put = item_of(placed, link.writer, link.sink);
    let feed = item_of(placed, link.reader, link.source);
    is_next(&carried.items, carried.fed, put, feed)
}

/// Whether this feed, if there is one, feeds the item at a place, if this item is put after the others.
fn is_next(items: &[i64], place: usize, put: Option<i64>, feed: Option<i64>) -> bool
    ensures { (result ≡ true) ↔ IsNext (items.now ++ items_of put) place feed }
{
    match feed {
        Some(v) => is_item(item_at(items, place, put), v),
        None => true,
    }
}

fn is_item(item: Option<i64>, v: i64) -> bool
    ensures { (result ≡ true) ↔ (item ≡ Some v) }
{
    match item {
        Some(there) => there == v,
        None => false,
    }
}

/// The item at a place, if this one is put after the others.
fn item_at(items: &[i64], place: usize, put: Option<i64>) -> Option<i64>
    ensures { result ≡ slice_get (items.now ++ items_of put) place }
{
    if place == items.len() {
        put
    } else {
        items.get(place).copied()
    }
}

/// Notes on each link what an event puts there and feeds there.
fn carry(
    links: &[PartLink],
    carried: &mut Vec<Carried>,
    placed: PartEvent,
) -> Result<(), AllocError>
    requires links { length carried.old.items ≡ length links.now }
    requires fed { FedAtMost carried.old.items }
    ensures { OnOk result
        (CarryMore links.now placed carried.old.items carried.new.items (length links.now)) }
{
    for l in 0..links.len() {
        let link = &mut carried[l];
        take(links[l], link, placed)?;
    }
    Ok(())
}

/// Notes what an event puts on a link and feeds there.
fn take(link: PartLink, carried: &mut Carried, placed: PartEvent) -> Result<(), AllocError>
    requires { carried.old.fed ≤ length carried.old.items.items }
    ensures { OnOk result ((order : List PartEvent) → IsCarried link order carried.old
        → IsSentOn (order ++ placed ∷ []) link → IsCarried link (order ++ placed ∷ []) carried.new) }
{
    let put = item_of(placed, link.writer, link.sink);
    let feed = item_of(placed, link.reader, link.source);
    push_item(&mut carried.items, put)?;
    carried.fed = fed_after(carried.fed, feed);
    Ok(())
}

fn fed_after(fed: usize, feed: Option<i64>) -> usize
    requires { fed < 2 ^ 63 }
    ensures { result ≡ fed_after fed feed }
{
    if feed.is_some() { fed + 1 } else { fed }
}

/// The first part of whose history events are left.
fn left_in(histories: &[Sequence<Event>], at: &[usize]) -> Option<usize>
    ensures all { IfNone result (UsesAll histories.now at.now) }
    ensures lacks { IfSome result (λ r.
        slice_index_or at.now r 0 < length (history_at histories.now r)) }
{
    for r in 0..histories.len() {
        if at.get(r).copied().unwrap_or(0) < histories[r].as_slice().len() {
            return Some(r);
        }
    }
    None
}
