//! Events of a stored trace: which event a line of each version gives.
ghost use Rattle.std.specs.Prelude.{◌≡◌, ◌<◌, ◌^◌, ◌+◌, ℕ, List, length, Some};
ghost use Rattle.kpn_history.specs.declared.event.Event.{Event};
ghost use Rattle.kpn_machine.specs.Machine.{channel_in, IsMachine};
ghost use Rattle.kpn_machine.specs.Run.{IsRun};
ghost use Rattle.kpn_audit.specs.Stored.{told_in, told_capacity};

use kpn_history::{Event, Version};
use kpn_machine::Machine;
use kpn_net::Network;
use std::alloc::Allocator;

/// The event that stands next in a trace of this version. A growth of version 1 does not name the new capacity: the
/// machine shows it.
pub(crate) fn told<A: Allocator>(
    machine: &Machine<A>,
    network: &Network,
    version: Version,
    event: Event,
) -> Event
    requires run { (H : List Event) × IsRun network.now H machine.now }
    ensures { (H : List Event) → IsRun network.now H machine.now
        → result ≡ told_in version network.now H event }
{
    network.known();
    match version {
        Version::One => match event {
            Event::Grow(p, c, n) => {
                Event::Grow(p, c, told_capacity(machine, network, c.into(), n))
            }
            _ => event,
        },
        Version::Two => event,
    }
}

/// The capacity that a channel has after one more growth by one. The number stays for a source, and if there is no such
/// channel.
fn told_capacity<A: Allocator>(machine: &Machine<A>, network: &Network, c: usize, n: u32) -> u32
    requires shape { IsMachine network.now machine.now }
    requires room { (cap : ℕ) → c < length network.now.channels
        → (channel_in machine.now c).capacity ≡ Some cap → cap + 1 < 2 ^ 32 }
    ensures { result
        ≡ told_capacity network.now (channel_in machine.now c).capacity c n }
{
    if c >= network.channels() {
        return n;
    }
    match machine.channel(c).cap() {
        Some(cap) => cap + 1,
        None => n,
    }
}
