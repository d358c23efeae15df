//! Which networks are the parts of a cut of one, and which channels lie between them.
ghost use Rattle.std.specs.Prelude.{◌≡◌, ◌↔◌, ℕ, ◌<◌, true, false, length, map, slice_index_or, IsTrue, IfOk, IfSome, IfNone};
ghost use Rattle.kpn_net.specs.Tables.{instance_at, program_of};
ghost use Rattle.kpn_parts.specs.declared.link.ChannelHome.{ChannelHome};
ghost use Rattle.kpn_parts.specs.Cut.{whole_process, whole_channel, part_at, HasHome, IsSameProcess, AreApart, IsPart, AreOnce, IsCut, IsCutSource};
ghost use Rattle.kpn_parts.specs.Homes.{IsWrittenIn, IsHome, AreHomes};
ghost use Rattle.kpn_parts.specs.Links.{EndsIn, AreLinks};

use crate::link::{ChannelHome, PartLink};
use kpn_lang::same;
use kpn_net::Network;
use std::alloc::{AllocError, Global};
use std::marker::Model;

/// A part of a network.
#[derive(Drop)]
pub struct CutPart<'n> {
    /// The part as a network of its own.
    pub network: &'n Network,
    /// The number that each of its processes has in the whole.
    pub processes: Vec<usize>,
    /// The number that each of its channels has in the whole.
    pub channels: Vec<usize>,
}

impl<'n> Model for CutPart<'n> {
    ghost use Rattle.std.specs.Coded.{codes};
    ghost use Rattle.kpn_lang.specs.Codes.{parts_code};
    ghost use Rattle.kpn_parts.specs.Cut.{Part};

    ghost Value = { Part };

    ghost coded = { Prim.hlevel (codes, parts_code) };

    ghost view = { λ part. record {
      tables = part.network.now;
      processes = part.processes.items;
      channels = part.channels.items;
    } };
}

impl<'n> CutPart<'n> {
    fn whole_process(&self, p: usize) -> usize
        ensures { result ≡ whole_process self.now p }
    {
        self.processes.get(p).copied().unwrap_or(0)
    }

    /// The number that channel `c` of the part has in the whole.
    pub fn whole_channel(&self, c: usize) -> usize
        ensures { result ≡ whole_channel self.now c }
    {
        self.channels.get(c).copied().unwrap_or(0)
    }

    /// Whether channel `c` is fed by another part.
    pub(crate) fn is_cut_source(&self, whole: &Network, c: usize) -> bool
        ensures { IsTrue result ↔ IsCutSource whole.now self.now c }
    {
        self.network.is_source(c) && !whole.is_source(self.whole_channel(c))
    }
}

/// The channels between the parts, if these are the parts of a cut of the network. Whether they are it decides by their
/// tables alone, whoever made them. The error is that memory ran out.
pub fn links_of(
    alloc: Global,
    whole: &Network,
    parts: &[CutPart<'_>],
) -> Result<Option<Vec<PartLink>>, AllocError>
    ensures cut { IfOk result (λ found. IfSome found (λ links. IsCut whole.now parts.now)) }
    ensures links { IfOk result (λ found.
        IfSome found (λ links. AreLinks whole.now parts.now links.items)) }
{
    if !are_parts(whole, parts) || !has_each_once(alloc, whole, parts)? {
        return Ok(None);
    }
    find_links(alloc, whole, parts)
}

fn are_parts(whole: &Network, parts: &[CutPart<'_>]) -> bool
    ensures { IsTrue result
        ↔ ((r : ℕ) → r < length parts.now → IsPart whole.now (part_at parts.now r)) }
{
    for r in 0..parts.len() {
        if !is_part(whole, &parts[r]) {
            return false;
        }
    }
    true
}

/// Whether a network is a part of the whole one.
fn is_part(whole: &Network, part: &CutPart<'_>) -> bool
    ensures { IsTrue result ↔ IsPart whole.now part.now }
{
    part.network.known();
    for p in 0..part.network.instances() {
        if !is_same_process(whole, part, p) {
            return false;
        }
    }
    are_distinct(part)
}

/// Whether process `p` of the part is a process of the whole.
fn is_same_process(whole: &Network, part: &CutPart<'_>, p: usize) -> bool
    requires { p < length part.now.tables.instances }
    ensures { IsTrue result ↔ IsSameProcess whole.now part.now p }
{
    let w = part.whole_process(p);
    w < whole.instances() && does_the_same(whole, w, part, p) && is_joined_alike(whole, w, part, p)
}

/// Whether process `p` of the part has the program and the parameters of process `w` of the whole.
fn does_the_same(whole: &Network, w: usize, part: &CutPart<'_>, p: usize) -> bool
    requires whole { w < length whole.now.instances }
    requires part { p < length part.now.tables.instances }
    ensures { IsTrue result ↔ ((program_of whole.now w ≡ program_of part.now.tables p)
        × ((instance_at whole.now w).pars ≡ (instance_at part.now.tables p).pars)) }
{
    same(whole.program(w), part.network.program(p)) && are_same(whole.pars(w), part.network.pars(p))
}

fn are_same(left: &[i64], right: &[i64]) -> bool
    ensures { IsTrue result ↔ (left.now ≡ right.now) }
{
    left == right
}

/// Whether the ports of process `p` of the part are at the channels of process `w` of the whole.
fn is_joined_alike(whole: &Network, w: usize, part: &CutPart<'_>, p: usize) -> bool
    requires whole { w < length whole.now.instances }
    requires part { p < length part.now.tables.instances }
    ensures { IsTrue result ↔ (((instance_at whole.now w).ins
        ≡ map (whole_channel part.now) (instance_at part.now.tables p).ins)
        × ((instance_at whole.now w).outs
        ≡ map (whole_channel part.now) (instance_at part.now.tables p).outs)) }
{
    are_at(whole.ins(w), part, part.network.ins(p))
        && are_at(whole.outs(w), part, part.network.outs(p))
}

/// Whether these ports of a part are at these channels of the whole.
fn are_at(channels: &[usize], part: &CutPart<'_>, ports: &[usize]) -> bool
    ensures { IsTrue result ↔ (channels.now ≡ map (whole_channel part.now) ports.now) }
{
    channels.len() == ports.len()
        && channels
            .iter()
            .zip(ports)
            .all(|(channel, port)| *channel == part.whole_channel(*port))
}

/// Whether different channels of a part are different ones in the whole.
fn are_distinct(part: &CutPart<'_>) -> bool
    ensures { IsTrue result ↔ AreApart part.now }
{
    for c in 0..part.network.channels() {
        for d in 0..c {
            if part.whole_channel(c) == part.whole_channel(d) {
                return false;
            }
        }
    }
    true
}

/// Whether each process of the whole is one process of one part.
fn has_each_once(alloc: Global, whole: &Network, parts: &[CutPart<'_>]) -> Result<bool, AllocError>
    ensures home { IfOk result (λ has. has ≡ true
        → (p : ℕ) → p < length whole.now.instances → HasHome parts.now p) }
    ensures once { IfOk result (λ has. has ≡ true → AreOnce parts.now) }
{
    let mut seen = vec![in alloc; false; whole.instances()]?;
    for r in 0..parts.len() {
        let part = &parts[r];
        for p in 0..part.network.instances() {
            let w = part.whole_process(p);
            let Some(false) = seen.get(w).copied() else {
                return Ok(false);
            };
            seen[w] = true;
        }
    }
    Ok(!seen.contains(&false))
}

/// For each channel that is fed by another part, the link that ends there; None if no part writes one of them.
fn find_links(
    alloc: Global,
    whole: &Network,
    parts: &[CutPart<'_>],
) -> Result<Option<Vec<PartLink>>, AllocError>
    ensures { IfOk result (λ found.
        IfSome found (λ links. AreLinks whole.now parts.now links.items)) }
{
    let mut links = Vec::new(alloc);
    for r in 0..parts.len() {
        let part = &parts[r];
        for c in 0..part.network.channels() {
            if part.is_cut_source(whole, c) {
                let Some(link) = link_into(parts, r, c) else {
                    return Ok(None);
                };
                links.push(link)?;
            }
        }
    }
    Ok(Some(links))
}

/// The link that ends in channel `c` of part `r`.
fn link_into(parts: &[CutPart<'_>], r: usize, c: usize) -> Option<PartLink>
    requires { r < length parts.now }
    ensures { IfSome result (λ link. EndsIn parts.now link r c) }
{
    let channel = parts[r].whole_channel(c);
    for s in 0..parts.len() {
        let part = &parts[s];
        for d in 0..part.network.channels() {
            if part.network.is_sink(d) && part.whole_channel(d) == channel {
                return Some(PartLink {
                    writer: s,
                    sink: d,
                    reader: r,
                    source: c,
                });
            }
        }
    }
    None
}

/// Where each channel of the whole is written, in order of number, if each is written in one of these parts. In a cut
/// each is. The error is that memory ran out.
pub fn homes_of(
    alloc: Global,
    whole: &Network,
    parts: &[CutPart<'_>],
) -> Result<Option<Vec<ChannelHome>>, AllocError>
    ensures homes { IfOk result (λ found.
        IfSome found (λ homes. AreHomes whole.now parts.now homes.items)) }
    ensures none { IsCut whole.now parts.now → IfOk result (λ found. IfNone found ⊥) }
{
    whole.known();
    let mut homes = Vec::new(alloc);
    for c in 0..whole.channels() {
        let Some(home) = home_of(whole, parts, c) else {
            return Ok(None);
        };
        homes.push(home)?;
    }
    Ok(Some(homes))
}

/// Where channel `c` of the whole is written.
fn home_of(whole: &Network, parts: &[CutPart<'_>], c: usize) -> Option<ChannelHome>
    ensures some { IfSome result (λ home. IsHome whole.now parts.now home c) }
    ensures none { IfNone result ((home : ChannelHome) → ¬ IsHome whole.now parts.now home c) }
{
    for r in 0..parts.len() {
        let part = &parts[r];
        for d in 0..part.network.channels() {
            if is_written_in(whole, part, d, c) {
                return Some(ChannelHome {
                    part: r,
                    channel: d,
                });
            }
        }
    }
    None
}

/// Whether channel `c` of the whole is written in the part, where it is channel `d`.
fn is_written_in(whole: &Network, part: &CutPart<'_>, d: usize, c: usize) -> bool
    requires { d < length part.now.tables.channels }
    ensures { IsTrue result ↔ IsWrittenIn whole.now part.now d c }
{
    part.whole_channel(d) == c && !part.is_cut_source(whole, d)
}
