//! What stands before an event of a trace: the events before it are replayed.
ghost use Rattle.std.specs.Prelude.{◌≡◌, ◌<◌, ℕ, List, length, IfOk, IfErr};
ghost use Rattle.kpn_history.specs.declared.event.Event.{Event};
ghost use Rattle.kpn_machine.specs.Machine.{IsMachine};
ghost use Rattle.kpn_machine.specs.Owed.{IsAwaitedBelowLimit};
ghost use Rattle.kpn_machine.specs.Run.{IsRun};
ghost use Rattle.kpn_audit.specs.Audit.{IsFault};
ghost use Rattle.kpn_audit.specs.Judged.{IsOwing};
ghost use Rattle.kpn_audit.specs.Scene.{IsOwedAfter, IsScene, IsSceneBefore, IsFaultBefore};
ghost use Rattle.kpn_audit.specs.Stored.{history_of, told_in};

use crate::auditor::{Replayed, replay};
use crate::findings::AuditFault;
use crate::scene::{GrowthOwed, Scene};
use crate::seeing::seen;
use crate::stored::told;
use kpn_history::{Event, Trace, Version};
use kpn_machine::{Machine, OwedGrowth};
use kpn_net::{Growth, Network, Policy};
use std::alloc::Allocator;

/// What stands before event `k` of a trace: what a machine shows to which the events before it lead. If the
/// event's process may go on, it first makes steps to its next stop, `quota` at most.
///
/// The events before it have to be legal, else the answer is the fault that an audit of them has.
pub fn scene_before<A: Allocator + Copy, B: Allocator>(
    alloc: A,
    network: &Network,
    trace: &Trace<B>,
    k: usize,
    quota: u64,
) -> Result<Scene, AuditFault>
    requires { k < length trace.now.events }
    ensures scene { IfOk result (IsSceneBefore network.now trace.now k quota) }
    ensures refused { IfErr result (IsFaultBefore network.now trace.now k quota) }
{
    let events = trace.events.as_slice();
    let (before, event) = (&events[..k], events[k]);
    match trace.version {
        Version::Two => scene_after(alloc, network, Version::Two, before, event, quota),
        Version::One => {
            let plain = network.under(Policy::Cycles, Growth::One)?;
            scene_after(alloc, &plain, Version::One, before, event, quota)
        }
    }
}

/// What stands before the event that comes after these events of the same version.
fn scene_after<A: Allocator + Copy>(
    alloc: A,
    network: &Network,
    version: Version,
    before: &[Event],
    event: Event,
    quota: u64,
) -> Result<Scene, AuditFault>
    ensures scene { let H = history_of version network.now before.now in
        IfOk result (IsScene network.now H (told_in version network.now H event) quota) }
    ensures refused { let H = history_of version network.now before.now in
        IfErr result (IsFault network.now H quota) }
{
    let replayed = replay(alloc, network, version, before, quota)?;
    let Replayed { mut machine, owed } = replayed;
    let event = told(&machine, network, version, event);
    match owed {
        Some(owed) => Ok(Scene::Owes(growth_owed(&mut machine, network, owed))),
        None => Ok(seen(&mut machine, network, event, quota)),
    }
}

/// The growth that is owed, with the capacity that it gives the channel.
fn growth_owed<A: Allocator>(
    machine: &mut Machine<A>,
    network: &Network,
    owed: OwedGrowth,
) -> GrowthOwed
    requires shape { IsMachine network.now machine.old }
    requires process { owed.process < length network.now.instances }
    requires awaited { IsAwaitedBelowLimit network.now machine.old owed.channel }
    ensures { (H : List Event) → IsRun network.now H machine.old
        → IsOwing network.now H machine.old owed → IsOwedAfter network.now H result }
{
    let grown = machine.grow(network, owed.process, owed.channel);
    GrowthOwed {
        process: owed.process,
        channel: owed.channel,
        capacity: grown.capacity,
    }
}
