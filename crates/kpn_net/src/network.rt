//! Networks: tables that keep the rules, made once and read many times.
ghost use Rattle.std.specs.Prelude.{◌≡◌, ◌<◌, ◌↔◌, [], None, IsTrue, length, IfSome, IfNone, IfOk, MatchResult};
ghost use Rattle.kpn_net.specs.Tables.{instance_at, program_at, program_of, any_has_cells, channel_at, is_source, is_sink, writer_of, reader_of, capacity, larger_capacity, under};
ghost use Rattle.kpn_net.specs.Faults.{instances_fault, channels_fault, first_network_fault, IsNetwork, MakesNetwork};
ghost use Rattle.kpn_net.specs.Iteration.{sources};
ghost use Rattle.kpn_net.specs.Sides.{Keeps};
ghost use Rattle.kpn_net.specs.View.{tables_with, tables_of};

use crate::fault::NetFault;
use crate::tables::{ChannelSpec, End, Growth, Instance, NetworkSize, Policy};
use kpn_lang::Program;
use kpn_limits::MAX_CHANNELS;
use std::alloc::{AllocError, Global};
use std::fmt;
use std::marker::Model;

mod copies;
mod equality;
mod parts;
mod sides;

use copies::{copy_instances, copy_programs};
use equality::{same_channels, same_processes};
use parts::NetworkParts;
use sides::Side;

/// A network: programs, instances of them, and channels that join them. Each channel has one writer and
/// one reader, and a capacity from 1 to the limit unless it is a source.
pub struct Network {
    parts: NetworkParts,
    writers: Vec<End>,
    readers: Vec<End>,
}

/// It is written out, so that a crate that drops a network proves nothing about what is inside.
impl Drop for Network {
    fn drop(self) {
        let Network {
            parts,
            writers,
            readers,
        } = self;
        drop(parts);
        drop(writers);
        drop(readers);
    }
}

/// It shows no part: a network is as large as its text.
impl fmt::Debug for Network {
    fn fmt<W: fmt::Write>(&self, f: &mut fmt::Formatter<W>) -> fmt::Result {
        f.write_str("Network { .. }")
    }
}

impl Model for Network {
    ghost use Rattle.std.specs.Coded.{codes};
    ghost use Rattle.kpn_lang.specs.Codes.{parts_code};
    ghost use Rattle.kpn_net.specs.Tables.{Tables};
    ghost use Rattle.kpn_net.specs.View.{tables_of, IsKeptNetwork};

    ghost Value = { Tables };

    ghost coded = { Prim.hlevel (codes, parts_code) };

    ghost view = { λ n. tables_of n.parts };

    ghost invariant = { λ n. IsKeptNetwork (tables_of n.parts) n.writers.items n.readers.items };
}

impl Network {
    /// The network of these tables, of the usual size.
    ///
    /// `limit` bounds each capacity and is 1 to `MAX_CAPACITY`. `policy` says which channels grow, `growth` how large.
    /// The fault is that of the first rule that the tables break, in the order of `NetFault`, at the least number. It
    /// tests each rule on the whole network before the next. It asks for memory last. The work grows no faster than the
    /// network's size.
    pub fn new(
        alloc: Global,
        programs: Vec<Program>,
        instances: Vec<Instance>,
        channels: Vec<ChannelSpec>,
        limit: u32,
        policy: Policy,
        growth: Growth,
    ) -> Result<Network, NetFault>
        ensures refused { let t = tables_with programs.items instances.items
            channels.items limit policy growth in
            IfSome (first_network_fault NetworkSize.Usual t) (λ fault. result ≡ Err fault) }
        ensures made { let t = tables_with programs.items instances.items
            channels.items limit policy growth in
            IfNone (first_network_fault NetworkSize.Usual t)
            (MatchResult result (λ network. network ≡ t) (λ fault. fault ≡ NetFault.NoMemory)) }
    {
        let parts = NetworkParts {
            programs,
            instances,
            channels,
            limit,
            policy,
            growth,
        };
        if let Some(fault) = parts.instances_fault(NetworkSize::Usual) {
            return Err(fault);
        }
        let mut writers = [Side::Nobody; MAX_CHANNELS];
        let mut readers = [Side::Nobody; MAX_CHANNELS];
        let count = parts.channels.len();
        Network::joined(alloc, parts, &mut writers[..count], &mut readers[..count])
    }

    /// The same of a network of this size. It asks for memory before it tests the rules of channels.
    pub fn sized(
        alloc: Global,
        size: NetworkSize,
        programs: Vec<Program>,
        instances: Vec<Instance>,
        channels: Vec<ChannelSpec>,
        limit: u32,
        policy: Policy,
        growth: Growth,
    ) -> Result<Network, NetFault>
        ensures { let t = tables_with programs.items instances.items
            channels.items limit policy growth in
            MakesNetwork size t result }
    {
        let parts = NetworkParts {
            programs,
            instances,
            channels,
            limit,
            policy,
            growth,
        };
        if let Some(fault) = parts.instances_fault(size) {
            return Err(fault);
        }
        let count = parts.channels.len();
        let mut writers = vec![in alloc; Side::Nobody; count]?;
        let mut readers = vec![in alloc; Side::Nobody; count]?;
        Network::joined(alloc, parts, &mut writers, &mut readers)
    }

    /// The network of parts whose instances keep the rules, unless a channel breaks one. The sides are those of
    /// channels without ends.
    fn joined(
        alloc: Global,
        parts: NetworkParts,
        writers: &mut [Side],
        readers: &mut [Side],
    ) -> Result<Network, NetFault>
        requires instances { instances_fault NetworkSize.Large (tables_of parts) ≡ None }
        requires writers_len { length writers.old ≡ length parts.channels.items }
        requires readers_len { length readers.old ≡ length parts.channels.items }
        requires no_writers { Keeps writers.old (λ c. []) }
        requires no_readers { Keeps readers.old (λ c. []) }
        ensures refused { IfSome (channels_fault (tables_of parts)) (λ fault. result ≡ Err fault) }
        ensures made { IfNone (channels_fault (tables_of parts))
            (MatchResult result (λ network. network ≡ tables_of parts)
            (λ fault. fault ≡ NetFault.NoMemory)) }
    {
        parts.count_ends(writers, readers);
        if let Some(fault) = parts.channels_fault(writers, readers) {
            return Err(fault);
        }
        parts.known_programs();
        let writers = sides::ends(alloc, writers, End::Sink)?;
        let readers = sides::ends(alloc, readers, End::Source)?;
        Ok(Network {
            parts,
            writers,
            readers,
        })
    }

    /// How many programs there are.
    pub fn programs(&self) -> usize
        ensures { result ≡ length self.now.programs }
    {
        self.parts.programs.len()
    }

    /// The program with this number, with or without an instance.
    pub fn program_at(&self, i: usize) -> &Program
        requires { i < length self.now.programs }
        ensures { result.now ≡ program_at self.now i }
    {
        &self.parts.programs[i]
    }

    /// The number of the program of process `p`.
    pub fn program_number(&self, p: usize) -> usize
        requires { p < length self.now.instances }
        ensures { result ≡ (instance_at self.now p).program }
    {
        self.parts.instances[p].program
    }

    /// How many instances there are: these are the processes.
    pub fn instances(&self) -> usize
        ensures { result ≡ length self.now.instances }
    {
        self.parts.instances.len()
    }

    /// How many channels there are.
    pub fn channels(&self) -> usize
        ensures { result ≡ length self.now.channels }
    {
        self.parts.channels.len()
    }

    /// Whether a program has cells of arrays or tables.
    pub fn has_cells(&self) -> bool
        ensures { result ≡ any_has_cells self.now }
    {
        self.parts
            .programs
            .iter()
            .any(|program| program.cells() > 0)
    }

    /// The program of process `p`.
    pub fn program(&self, p: usize) -> &Program
        requires { p < length self.now.instances }
        ensures { result.now ≡ program_of self.now p }
    {
        &self.parts.programs[self.parts.instances[p].program]
    }

    /// The channels at the in ports of process `p`.
    pub fn ins(&self, p: usize) -> &[usize]
        requires { p < length self.now.instances }
        ensures { result.now ≡ (instance_at self.now p).ins }
    {
        self.parts.instances[p].ins.as_slice()
    }

    /// The channels at the out ports of process `p`.
    pub fn outs(&self, p: usize) -> &[usize]
        requires { p < length self.now.instances }
        ensures { result.now ≡ (instance_at self.now p).outs }
    {
        self.parts.instances[p].outs.as_slice()
    }

    /// The values of the parameters of process `p`.
    pub fn pars(&self, p: usize) -> &[i64]
        requires { p < length self.now.instances }
        ensures { result.now ≡ (instance_at self.now p).pars }
    {
        self.parts.instances[p].pars.as_slice()
    }

    /// What writes channel `c`.
    pub fn writer_of(&self, c: usize) -> End
        requires { c < length self.now.channels }
        ensures { result ≡ writer_of self.now c }
    {
        self.writers[c]
    }

    /// What reads channel `c`.
    pub fn reader_of(&self, c: usize) -> End
        requires { c < length self.now.channels }
        ensures { result ≡ reader_of self.now c }
    {
        self.readers[c]
    }

    /// Whether channel `c` is a source, which the caller writes. A channel that is not there is no source.
    pub fn is_source(&self, c: usize) -> bool
        ensures { result ≡ is_source (channel_at self.now c) }
    {
        matches!(self.parts.channels.get(c), Some(ChannelSpec::Source))
    }

    /// Whether channel `c` is a sink, which the caller reads. A channel that is not there is no sink.
    pub fn is_sink(&self, c: usize) -> bool
        ensures { result ≡ is_sink (channel_at self.now c) }
    {
        matches!(self.parts.channels.get(c), Some(ChannelSpec::Sink(_)))
    }

    /// How many sources there are. It looks at each channel.
    pub fn sources(&self) -> usize
        ensures { result ≡ sources self.now }
    {
        self.parts
            .channels
            .iter()
            .filter(|channel| matches!(channel, ChannelSpec::Source))
            .count()
    }

    /// The capacity of channel `c`; none for a source.
    pub fn cap_of(&self, c: usize) -> Option<u32>
        requires { c < length self.now.channels }
        ensures { result ≡ capacity (channel_at self.now c) }
    {
        match self.parts.channels[c] {
            ChannelSpec::Inner(cap) | ChannelSpec::Sink(cap) => Some(cap),
            ChannelSpec::Source => None,
        }
    }

    /// The greatest capacity that a channel may have.
    pub fn limit(&self) -> u32
        ensures { result ≡ self.now.limit }
    {
        self.parts.limit
    }

    /// Which channels grow.
    pub fn policy(&self) -> Policy
        ensures { result ≡ self.now.policy }
    {
        self.parts.policy
    }

    /// How large a channel becomes when it grows.
    pub fn growth(&self) -> Growth
        ensures { result ≡ self.now.growth }
    {
        self.parts.growth
    }

    /// A copy of the network under another policy and growth. The error is that memory ran out.
    pub fn under(&self, policy: Policy, growth: Growth) -> Result<Network, AllocError>
        ensures { IfOk result (λ network. network ≡ under policy growth self.now) }
    {
        let alloc = *self.parts.programs.allocator();
        let programs = copy_programs(alloc, &self.parts.programs)?;
        let instances = copy_instances(alloc, &self.parts.instances)?;
        let channels = Vec::from_slice(alloc, &self.parts.channels)?;
        let writers = Vec::from_slice(alloc, &self.writers)?;
        let readers = Vec::from_slice(alloc, &self.readers)?;
        let parts = NetworkParts {
            programs,
            instances,
            channels,
            limit: self.parts.limit,
            policy,
            growth,
        };
        Ok(Network {
            parts,
            writers,
            readers,
        })
    }

    /// The capacity that a channel of capacity `cap` has after one growth. It is at most the limit.
    pub fn larger_capacity(&self, cap: u32) -> u32
        requires { cap < self.now.limit }
        ensures { result ≡ larger_capacity self.now cap }
    {
        match self.parts.growth {
            Growth::One => cap + 1,
            Growth::Double => (2 * cap).min(self.parts.limit),
        }
    }

    /// Does nothing. A caller's proof learns from it that the network keeps the rules.
    pub fn known(&self)
        ensures { IsNetwork self.now }
    {
        let _ = &self.parts;
    }
}

/// Whether two networks are equal by value: the same programs, instances, channels, limit, policy and growth.
pub fn same(left: &Network, right: &Network) -> bool
    ensures { IsTrue result ↔ (left.now ≡ right.now) }
{
    same_processes(&left.parts, &right.parts)
        && same_channels(&left.parts.channels, &right.parts.channels)
        && left.parts.limit == right.parts.limit
        && left.parts.policy == right.parts.policy
        && left.parts.growth == right.parts.growth
}
