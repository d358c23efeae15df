//! The parts of a network, which may break its rules, with a test for each rule.
ghost use Rattle.std.specs.Prelude.{◌≡◌, ℕ, ◌∷◌, [], length, position, None, All, if◌then◌else◌, nat_le};
ghost use Rattle.std.specs.List.{list_any};
ghost use Rattle.kpn_lang.specs.Parts.{IsProgram};
ghost use Rattle.kpn_net.specs.declared.tables.End.TheVariants.{Source, Sink};
ghost use Rattle.kpn_net.specs.Tables.{is_source, is_sink, channel_at, writers_of, readers_of};
ghost use Rattle.kpn_net.specs.Faults.{matches_program, exceeds, has_no_such_capacity, has_too_many, lacks_its_program, differs_from_its_program, lacks_a_channel, wrong_capacity, instances_fault, channels_fault};
ghost use Rattle.kpn_net.specs.Sides.{Keeps};
ghost use Rattle.kpn_net.specs.View.{tables_of};

use crate::fault::NetFault;
use crate::network::sides::{self, Side};
use crate::tables::{ChannelSpec, End, Growth, Instance, NetworkSize, Policy};
use kpn_lang::Program;
use kpn_limits::{MAX_CAPACITY, MAX_PROCESSES};

/// The programs, the instances, the channels, the limit of each capacity, and how channels grow.
#[derive(Drop)]
pub struct NetworkParts {
    pub programs: Vec<Program>,
    pub instances: Vec<Instance>,
    pub channels: Vec<ChannelSpec>,
    pub limit: u32,
    pub policy: Policy,
    pub growth: Growth,
}

fn matches_program(instance: &Instance, program: &Program) -> bool
    ensures { result ≡ matches_program instance.now program.now }
{
    instance.ins.as_slice().len() == program.ins()
        && instance.outs.as_slice().len() == program.outs()
        && instance.pars.as_slice().len() == program.pars()
}

fn exceeds(limit: u32, cap: u32) -> bool
    ensures { result ≡ exceeds limit cap }
{
    cap == 0 || cap > limit
}

fn has_no_such_capacity(limit: u32, channel: &ChannelSpec) -> bool
    ensures { result ≡ has_no_such_capacity limit channel.now }
{
    match channel {
        ChannelSpec::Inner(cap) | ChannelSpec::Sink(cap) => exceeds(limit, *cap),
        ChannelSpec::Source => false,
    }
}

fn first_wrong_capacity(limit: u32, channels: &[ChannelSpec]) -> Option<usize>
    ensures { result ≡ position (has_no_such_capacity limit) channels.now }
{
    channels
        .iter()
        .position(|channel| has_no_such_capacity(limit, channel))
}

fn names_past(channels: usize, ports: &[usize]) -> bool
    ensures { result ≡ list_any (nat_le channels) ports.now }
{
    ports.iter().any(|channel| *channel >= channels)
}

impl NetworkParts {
    /// The first rule that the instances break.
    pub fn instances_fault(&self, size: NetworkSize) -> Option<NetFault>
        ensures { result ≡ instances_fault size (tables_of self.now) }
    {
        if self.is_above(size) {
            return Some(NetFault::TooMany);
        }
        if let Some(instance) = self.first_without_program() {
            return Some(NetFault::NoSuchProgram(instance));
        }
        if let Some(instance) = self.first_unlike_its_program() {
            return Some(NetFault::PortCount(instance));
        }
        if let Some(instance) = self.first_without_channel() {
            return Some(NetFault::NoSuchChannel(instance));
        }
        None
    }

    /// The first rule that the channels break, if these are their sides.
    pub fn channels_fault(&self, writers: &[Side], readers: &[Side]) -> Option<NetFault>
        requires writers_len { length writers.now ≡ length self.now.channels.items }
        requires readers_len { length readers.now ≡ length self.now.channels.items }
        requires written { Keeps writers.now (writers_of (tables_of self.now)) }
        requires read { Keeps readers.now (readers_of (tables_of self.now)) }
        ensures { result ≡ channels_fault (tables_of self.now) }
    {
        if let Some(channel) = sides::first_nobody(writers) {
            return Some(NetFault::NoWriter(channel));
        }
        if let Some(channel) = sides::first_several(writers) {
            return Some(NetFault::TwoWriters(channel));
        }
        if let Some(channel) = sides::first_nobody(readers) {
            return Some(NetFault::NoReader(channel));
        }
        if let Some(channel) = sides::first_several(readers) {
            return Some(NetFault::TwoReaders(channel));
        }
        if let Some(channel) = self.wrong_capacity() {
            return Some(NetFault::Capacity(channel));
        }
        None
    }

    fn is_above(&self, size: NetworkSize) -> bool
        ensures { result ≡ has_too_many size (tables_of self.now) }
    {
        self.programs.len() > MAX_PROCESSES
            || self.instances.len() > size.processes()
            || self.channels.len() > size.channels()
    }

    fn first_without_program(&self) -> Option<usize>
        ensures { let t = tables_of self.now in
            result ≡ position (lacks_its_program t) t.instances }
    {
        let programs = self.programs.len();
        self.instances
            .iter()
            .position(|instance| instance.program >= programs)
    }

    fn differs_from_its_program(&self, instance: &Instance) -> bool
        ensures { result ≡ differs_from_its_program (tables_of self.now) instance.now }
    {
        match self.programs.get(instance.program) {
            Some(program) => !matches_program(instance, program),
            None => true,
        }
    }

    fn first_unlike_its_program(&self) -> Option<usize>
        ensures { let t = tables_of self.now in
            result ≡ position (differs_from_its_program t) t.instances }
    {
        self.instances
            .iter()
            .position(|instance| self.differs_from_its_program(instance))
    }

    fn lacks_a_channel(&self, instance: &Instance) -> bool
        ensures { result ≡ lacks_a_channel (tables_of self.now) instance.now }
    {
        let channels = self.channels.len();
        names_past(channels, instance.ins.as_slice())
            || names_past(channels, instance.outs.as_slice())
    }

    fn first_without_channel(&self) -> Option<usize>
        ensures { let t = tables_of self.now in
            result ≡ position (lacks_a_channel t) t.instances }
    {
        self.instances
            .iter()
            .position(|instance| self.lacks_a_channel(instance))
    }

    fn wrong_capacity(&self) -> Option<usize>
        ensures { result ≡ wrong_capacity (tables_of self.now) }
    {
        if exceeds(MAX_CAPACITY, self.limit) {
            return Some(self.channels.len());
        }
        first_wrong_capacity(self.limit, &self.channels)
    }

    /// Does nothing. A caller's proof learns from it that each program keeps the rules.
    pub fn known_programs(&self)
        ensures { All IsProgram self.now.programs.items }
    {
        for program in &self.programs {
            program.known();
        }
    }

    /// Counts the ends at each side of each channel.
    pub fn count_ends(&self, writers: &mut [Side], readers: &mut [Side])
        requires writers_len { length writers.old ≡ length self.now.channels.items }
        requires readers_len { length readers.old ≡ length self.now.channels.items }
        requires no_writers { Keeps writers.old (λ c. []) }
        requires no_readers { Keeps readers.old (λ c. []) }
        requires in_range { let t = tables_of self.now in
            position (lacks_a_channel t) t.instances ≡ None }
        ensures written { Keeps writers.new (writers_of (tables_of self.now)) }
        ensures read { Keeps readers.new (readers_of (tables_of self.now)) }
    {
        self.join_outside(writers, readers);
        for (p, instance) in self.instances.iter().enumerate() {
            sides::join(writers, instance.outs.as_slice(), p);
            sides::join(readers, instance.ins.as_slice(), p);
        }
    }

    fn join_outside(&self, writers: &mut [Side], readers: &mut [Side])
        requires writers_len { length writers.old ≡ length self.now.channels.items }
        requires readers_len { length readers.old ≡ length self.now.channels.items }
        requires no_writers { Keeps writers.old (λ c. []) }
        requires no_readers { Keeps readers.old (λ c. []) }
        ensures written { let t = tables_of self.now in
            Keeps writers.new (λ c. if is_source (channel_at t c) then Source ∷ [] else []) }
        ensures read { let t = tables_of self.now in
            Keeps readers.new (λ c. if is_sink (channel_at t c) then Sink ∷ [] else []) }
    {
        for (c, channel) in self.channels.iter().enumerate() {
            match channel {
                ChannelSpec::Inner(_) => {}
                ChannelSpec::Source => writers[c] = Side::One(End::Source),
                ChannelSpec::Sink(_) => readers[c] = Side::One(End::Sink),
            }
        }
    }
}
