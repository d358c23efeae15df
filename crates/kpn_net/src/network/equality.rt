//! Equality of the parts of networks by value, wherever they are in memory.
ghost use Rattle.std.specs.Prelude.{◌≡◌, ◌↔◌, IsTrue};

use crate::network::parts::NetworkParts;
use crate::tables::{ChannelSpec, Instance};
use kpn_lang::{Program, same};

pub fn same_processes(left: &NetworkParts, right: &NetworkParts) -> bool
    ensures { IsTrue result
        ↔ ((left.now.programs.items ≡ right.now.programs.items)
        × (left.now.instances.items ≡ right.now.instances.items)) }
{
    same_programs(&left.programs, &right.programs)
        && same_instances(&left.instances, &right.instances)
}

fn same_programs(left: &[Program], right: &[Program]) -> bool
    ensures { IsTrue result ↔ (left.now ≡ right.now) }
{
    left.len() == right.len() && left.iter().zip(right).all(|(x, y)| same(x, y))
}

fn same_instances(left: &[Instance], right: &[Instance]) -> bool
    ensures { IsTrue result ↔ (left.now ≡ right.now) }
{
    left.len() == right.len() && left.iter().zip(right).all(|(x, y)| same_instance(x, y))
}

fn same_instance(left: &Instance, right: &Instance) -> bool
    ensures { IsTrue result ↔ (left.now ≡ right.now) }
{
    left.program == right.program
        && same_ends(left, right)
        && same_values(left.pars.as_slice(), right.pars.as_slice())
}

fn same_ends(left: &Instance, right: &Instance) -> bool
    ensures { IsTrue result
        ↔ ((left.now.ins ≡ right.now.ins) × (left.now.outs ≡ right.now.outs)) }
{
    same_ports(left.ins.as_slice(), right.ins.as_slice())
        && same_ports(left.outs.as_slice(), right.outs.as_slice())
}

pub fn same_channels(left: &[ChannelSpec], right: &[ChannelSpec]) -> bool
    ensures { IsTrue result ↔ (left.now ≡ right.now) }
{
    left.len() == right.len() && left.iter().zip(right).all(|(x, y)| same_channel(x, y))
}

fn same_channel(left: &ChannelSpec, right: &ChannelSpec) -> bool
    ensures { IsTrue result ↔ (left.now ≡ right.now) }
{
    left == right
}

fn same_ports(left: &[usize], right: &[usize]) -> bool
    ensures { IsTrue result ↔ (left.now ≡ right.now) }
{
    left == right
}

fn same_values(left: &[i64], right: &[i64]) -> bool
    ensures { IsTrue result ↔ (left.now ≡ right.now) }
{
    left == right
}
