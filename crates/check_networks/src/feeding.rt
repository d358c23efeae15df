//! A feed.
ghost use Rattle.std.specs.Prelude.{◌<◌, length};
ghost use Rattle.kpn_machine.specs.Machine.{IsMachine};

use kpn_machine::Machine;
use kpn_net::Network;
use std::alloc::{AllocError, Allocator};
use std::process::Abort;

/// Feeds an item to source `c`, and returns which process was woken.
pub fn feed<A: Allocator + Copy>(
    rt: &impl Abort,
    network: &Network,
    machine: &mut Machine<A>,
    c: usize,
    item: i64,
) -> Result<Option<usize>, AllocError>
    requires { IsMachine network.now machine.old }
    ensures { IsMachine network.now machine.new }
{
    assert!(rt; c < network.channels());
    assert!(rt; network.is_source(c));
    machine.reserve_one(c)?;
    assert!(rt; machine.channel(c).room());
    assert!(rt; !machine.is_closed(c));
    Ok(machine.feed(network, c, item))
}
