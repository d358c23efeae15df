//! The items of the network: its channels and its instances.

ghost use Rattle.std.specs.Prelude.{◌≡◌, map, option_copied, IfOk, IfErr};
ghost use Rattle.kpn_text_grammar.specs.Syntax.{literal_value};
ghost use Rattle.kpn_text_grammar.specs.View.{literal_seen, instance_seen, item_seen};
ghost use Rattle.kpn_text_names.specs.Fault.{ResolvingGives};
ghost use Rattle.kpn_text_names.specs.Network as spec;
ghost use Rattle.kpn_text_names.specs.View.{wiring_seen};

use crate::fault::NameFault;
use crate::names::NameTable;
use kpn_lang::Sequence;
use kpn_net::{ChannelSpec, Instance};
use kpn_text_grammar::{Identifier, Item, Literal};
use kpn_text_tokens::Number;
use std::alloc::{AllocError, Global};

/// A capacity or a limit, as far as 32 bits can hold it.
pub(crate) fn within_32_bits(number: Number) -> u32
    ensures { result ≡ spec.within_32_bits number }
{
    let value = number.value() as u64;
    if value < u64::from(u32::MAX) {
        value as u32
    } else {
        u32::MAX
    }
}

/// The whole number that a literal writes.
pub(crate) fn value(literal: Literal) -> i64
    ensures { result ≡ literal_value (literal_seen literal) }
{
    match literal {
        Literal::Plain(number) => number.value(),
        Literal::Negated(number) => -number.value(),
    }
}

pub(crate) fn values(alloc: Global, literals: &[Literal]) -> Result<Sequence<i64>, AllocError>
    ensures { IfOk result (λ xs. xs ≡ map literal_value (map literal_seen literals.now)) }
{
    let mut values = Sequence::new(alloc);
    for literal in literals {
        values.push(value(*literal))?;
    }
    Ok(values)
}

/// The bytes of the name of the channel that an item declares.
fn channel_name<'a>(item: &Item<'a>) -> Option<&'a [u8]>
    ensures { option_copied result ≡ spec.channel_name (item_seen item.now) }
{
    match item {
        Item::Channel(name, _) | Item::Source(name) | Item::Sink(name, _) => Some(name.bytes),
        Item::Instance(_) => None,
    }
}

/// The channels that items declare, each once.
fn all_channels<'a>(alloc: Global, items: &[Item<'a>]) -> Result<NameTable<'a>, NameFault>
    ensures table { IfOk result (λ names. names ≡ spec.all_channels (map item_seen items.now)) }
    ensures only { IfErr result (λ fault. fault ≡ NameFault.NoMemory) }
{
    let mut names = NameTable::new(alloc);
    for item in items {
        if let Some(name) = channel_name(item) {
            names.number(name)?;
        }
    }
    Ok(names)
}

/// An instance of one of these programs, at these channels.
#[tactic(auto, unfolding(kpn_text_tokens::specs::Results::and_then))]
fn instance_of<'a>(
    alloc: Global,
    programs: &NameTable<'a>,
    channels: &NameTable<'a>,
    instance: &kpn_text_grammar::InstanceNode<'a>,
) -> Result<Instance, NameFault>
    ensures { ResolvingGives (λ i. i) result
        (spec.instance_of programs.now channels.now (instance_seen instance.now)) }
{
    let program = programs.known(&instance.program)?;
    let ins = channels.all_known(alloc, instance.ins.as_slice())?;
    let outs = channels.all_known(alloc, instance.outs.as_slice())?;
    let pars = values(alloc, instance.values.as_slice())?;
    Ok(Instance {
        program,
        ins,
        outs,
        pars,
    })
}

/// The channels and the instances so far, by number, with their names.
#[derive(Drop)]
pub(crate) struct Wiring<'a> {
    pub channel_names: NameTable<'a>,
    pub channels: Vec<ChannelSpec>,
    pub instance_names: NameTable<'a>,
    pub instances: Vec<Instance>,
}

impl<'a> Wiring<'a> {
    /// The items in the order of the text. What they name must be one of these programs, and a channel
    /// that some item declares.
    pub(crate) fn read(
        alloc: Global,
        programs: &NameTable<'a>,
        items: &[Item<'a>],
    ) -> Result<Wiring<'a>, NameFault>
        ensures { ResolvingGives wiring_seen result (spec.wiring programs.now (map item_seen items.now)) }
    {
        let channels = all_channels(alloc, items)?;
        let mut read = Wiring {
            channel_names: NameTable::new(alloc),
            channels: Vec::new(alloc),
            instance_names: NameTable::new(alloc),
            instances: Vec::new(alloc),
        };
        for item in items {
            read.add(alloc, programs, &channels, item)?;
        }
        Ok(read)
    }

    /// Adds an item, whose name must be new.
    fn add(
        &mut self,
        alloc: Global,
        programs: &NameTable<'a>,
        channels: &NameTable<'a>,
        item: &Item<'a>,
    ) -> Result<(), NameFault>
        ensures { ResolvingGives (λ _. wiring_seen self.new) result
            (spec.with_wired_item programs.now channels.now (wiring_seen self.old)
            (item_seen item.now)) }
    {
        match item {
            Item::Channel(name, capacity) => {
                self.add_channel(name, ChannelSpec::Inner(within_32_bits(*capacity)))
            }
            Item::Source(name) => self.add_channel(name, ChannelSpec::Source),
            Item::Sink(name, capacity) => {
                self.add_channel(name, ChannelSpec::Sink(within_32_bits(*capacity)))
            }
            Item::Instance(instance) => self.add_instance(alloc, programs, channels, instance),
        }
    }

    /// Adds a channel, whose name must be new.
    #[tactic(auto, unfolding(kpn_text_tokens::specs::Results::and_then))]
    fn add_channel(&mut self, name: &Identifier<'a>, channel: ChannelSpec) -> Result<(), NameFault>
        ensures { ResolvingGives (λ _. wiring_seen self.new) result
            (spec.with_wired_channel (wiring_seen self.old) name.now.bytes.now channel) }
    {
        self.channel_names.declare(name)?;
        self.channels.push(channel)?;
        Ok(())
    }

    /// Adds an instance, whose name must be new.
    #[tactic(auto, unfolding(kpn_text_tokens::specs::Results::and_then))]
    fn add_instance(
        &mut self,
        alloc: Global,
        programs: &NameTable<'a>,
        channels: &NameTable<'a>,
        instance: &kpn_text_grammar::InstanceNode<'a>,
    ) -> Result<(), NameFault>
        ensures { ResolvingGives (λ _. wiring_seen self.new) result
            (spec.with_instance programs.now channels.now (wiring_seen self.old)
            (instance_seen instance.now)) }
    {
        self.instance_names.declare(&instance.name)?;
        let made = instance_of(alloc, programs, channels, instance)?;
        self.instances.push(made)?;
        Ok(())
    }
}
