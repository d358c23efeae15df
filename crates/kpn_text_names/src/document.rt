//! A whole description with a number for each name.

ghost use Rattle.std.specs.Prelude.{◌≡◌, IfOk};
ghost use Rattle.kpn_text_grammar.specs.View.{document};
ghost use Rattle.kpn_text_names.specs.Fault.{ResolvingGives};
ghost use Rattle.kpn_text_names.specs.Named as spec;
ghost use Rattle.kpn_text_names.specs.Network.{growth_of, limit_of, policy_of};
ghost use Rattle.kpn_text_names.specs.View.{named_seen};

use crate::fault::NameFault;
use crate::names::NameTable;
use crate::network::{Wiring, within_32_bits};
use crate::process::{Processes, ProgramParts};
use crate::tables::SharedTables;
use kpn_limits::MAX_CAPACITY;
use kpn_net::{ChannelSpec, Growth, Instance, Policy};
use kpn_text_grammar::Description;
use kpn_text_tokens::{Language, Number};
use std::alloc::Global;

/// What a description names, by number: the parts of its programs, the tables of its network as `kpn_net::Network::new`
/// takes them, and the names. Each table of names is in the order of declaration, and belongs to the list of the same
/// things.
#[derive(Drop)]
pub struct Named<'a> {
    /// The tables before the processes.
    pub shared: SharedTables<'a>,
    /// The names of the processes.
    pub processes: NameTable<'a>,
    /// The parts of their programs.
    pub programs: Vec<ProgramParts<'a>>,
    /// The names of the instances.
    pub instance_names: NameTable<'a>,
    /// The instances.
    pub instances: Vec<Instance>,
    /// The names of the channels, sources and sinks among them.
    pub channel_names: NameTable<'a>,
    /// The channels.
    pub channels: Vec<ChannelSpec>,
    /// The greatest capacity that a channel may come to.
    pub limit: u32,
    /// Which channels grow.
    pub policy: Policy,
    /// How large a channel becomes when it grows.
    pub growth: Growth,
}

/// The limit as it is written, or [`MAX_CAPACITY`].
fn limit(written: Option<Number>) -> u32
    ensures { result ≡ limit_of written }
{
    match written {
        Some(number) => within_32_bits(number),
        None => MAX_CAPACITY,
    }
}

/// The policy as it is written, or `cycles`.
fn policy(written: Option<Policy>) -> Policy
    ensures { result ≡ policy_of written }
{
    match written {
        Some(policy) => policy,
        None => Policy::Cycles,
    }
}

/// The growth as it is written, or by one.
fn growth(written: Option<Growth>) -> Growth
    ensures { result ≡ growth_of written }
{
    match written {
        Some(growth) => growth,
        None => Growth::One,
    }
}

/// Looks up each name of a description of this language. In language 2 a process has the variables that are targets
/// anywhere in it; in language 1 each from its first target on.
///
/// If 32 bits cannot hold a capacity or a limit, the result has the greatest number that they can.
///
/// # Errors
///
/// What is first wrong with a name, in the order of the text: [`NameFault::UnknownName`] at a name that is not known at
/// its use, [`NameFault::DoubleName`] at one that is already in its table. [`NameFault::NoMemory`] comes only if memory
/// ran out.
#[tactic(auto, unfolding(kpn_text_tokens::specs::Results::and_then))]
pub fn resolve<'a>(
    alloc: Global,
    language: Language,
    description: &Description<'a>,
) -> Result<Named<'a>, NameFault>
    ensures exact { ResolvingGives named_seen result (spec.resolve language (document description.now)) }
    ensures each { IfOk result (λ n. spec.EachIsNamed (named_seen n)) }
{
    let shared = SharedTables::read(alloc, description.tables.as_slice())?;
    let processes = Processes::read(alloc, language, &shared, description.processes.as_slice())?;
    let Processes { names, programs } = processes;
    let wiring = Wiring::read(alloc, &names, description.network.items.as_slice())?;
    let Wiring {
        channel_names,
        channels,
        instance_names,
        instances,
    } = wiring;
    Ok(Named {
        shared,
        processes: names,
        programs,
        instance_names,
        instances,
        channel_names,
        channels,
        limit: limit(description.network.limit),
        policy: policy(description.network.policy),
        growth: growth(description.network.growth),
    })
}
