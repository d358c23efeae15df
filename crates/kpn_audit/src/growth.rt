//! Growth: what is owed once an event was made, and the event that takes it.
ghost use Rattle.std.specs.Prelude.{◌≡◌, ◌<◌, List, [], ◌∷◌, ◌++◌, length, Some};
ghost use Rattle.kpn_history.specs.declared.event.Event.{Event};
ghost use Rattle.kpn_history.specs.Legal.{HasNumbers, waiter};
ghost use Rattle.kpn_machine.specs.Machine.{IsMachine};
ghost use Rattle.kpn_machine.specs.Run.{IsRun};
ghost use Rattle.kpn_machine.specs.Owed.{IsAwaitedBelowLimit};
ghost use Rattle.kpn_audit.specs.Judged.{Owes, IsOwing, IsMade};

use crate::judged::Judged;
use kpn_history::Event;
use kpn_machine::{Machine, OwedGrowth};
use kpn_net::Network;
use std::alloc::Allocator;

/// The growth that is owed after an event, which was just made: for a cycle or for a stop.
pub(crate) fn owed_after<A: Allocator>(
    machine: &Machine<A>,
    network: &Network,
    event: Event,
) -> Option<OwedGrowth>
    requires shape { IsMachine network.now machine.now }
    requires numbers { HasNumbers network.now event }
    ensures { (H : List Event) → IsRun network.now (H ++ event ∷ []) machine.now
        → Owes network.now (H ++ event ∷ []) machine.now result }
{
    network.known();
    match event {
        Event::Get(_, _, _) | Event::Put(_, _, _) | Event::Feed(_, _) | Event::Grow(_, _, _) =>
            None,
        Event::WaitEmpty(p, _) | Event::WaitFull(p, _) => owed_after_wait(
            machine,
            network,
            p.into(),
        ),
        _ => machine.owed_at_stop(network),
    }
}

/// The growth that is owed after a wait of process `p`.
fn owed_after_wait<A: Allocator>(
    machine: &Machine<A>,
    network: &Network,
    p: usize,
) -> Option<OwedGrowth>
    requires shape { IsMachine network.now machine.now }
    requires process { p < length network.now.instances }
    ensures { (H : List Event) (event : Event) → waiter event ≡ Some p
        → IsRun network.now (H ++ event ∷ []) machine.now
        → Owes network.now (H ++ event ∷ []) machine.now result }
{
    match machine.owed(network, p) {
        Some(channel) => Some(OwedGrowth {
            process: p,
            channel,
        }),
        None => machine.owed_at_stop(network),
    }
}

/// Judges an event if this growth is owed: it has to be that growth, with the capacity that the channel has then.
pub(crate) fn judge_owed<A: Allocator>(
    machine: &mut Machine<A>,
    network: &Network,
    owed: OwedGrowth,
    event: Event,
) -> Judged
    requires shape { IsMachine network.now machine.old }
    requires process { owed.process < length network.now.instances }
    requires awaited { IsAwaitedBelowLimit network.now machine.old owed.channel }
    ensures shape { IsMachine network.now machine.new }
    ensures judged { (H : List Event) → IsRun network.now H machine.old
        → IsOwing network.now H machine.old owed
        → IsMade network.now H event machine.old machine.new result }
{
    network.known();
    let Event::Grow(p, c, capacity) = event else {
        return Judged::Illegal;
    };
    if usize::from(p) != owed.process || usize::from(c) != owed.channel {
        return Judged::Illegal;
    }
    let grown = machine.grow(network, owed.process, owed.channel);
    if grown.capacity == capacity {
        Judged::Follows(None)
    } else {
        Judged::Illegal
    }
}
