//! What a machine shows of the process or the channel of an event.
ghost use Rattle.std.specs.Prelude.{◌≡◌, ◌<◌, ℕ, true, false, List, length};
ghost use Rattle.kpn_step.specs.declared.stop.Stop.TheVariants.{WantRead, WantWrite, Paused};
ghost use Rattle.kpn_history.specs.declared.event.Event.{Event};
ghost use Rattle.kpn_history.specs.Talks.{is_of, is_of_process};
ghost use Rattle.kpn_history.specs.Legal.{HasNumbers};
ghost use Rattle.kpn_history.specs.Stops.{OwesNothing};
ghost use Rattle.kpn_machine.specs.Machine.{IsMachine, IsFree};
ghost use Rattle.kpn_machine.specs.Due.{Stands};
ghost use Rattle.kpn_machine.specs.Run.{IsRun};
ghost use Rattle.kpn_audit.specs.Audit.{IsOutOfSteps};
ghost use Rattle.kpn_audit.specs.Judged.{ArePlaces};
ghost use Rattle.kpn_audit.specs.Scene.{IsDoing, IsScene, source_side, sink_side};

use crate::judging::has_numbers;
use crate::scene::{Doing, OutsideEnd, Scene};
use crate::stepping::step_on;
use kpn_history::{Event, How};
use kpn_machine::{Machine, in_channel, out_channel};
use kpn_net::{Network, Wait};
use kpn_step::Stop;
use std::alloc::Allocator;

/// Process `p` is at a read.
fn reads<A: Allocator>(machine: &Machine<A>, network: &Network, p: usize, port: usize) -> Doing
    requires shape { IsMachine network.now machine.now }
    requires process { p < length network.now.instances }
    requires free { IsFree machine.now p }
    requires stands { Stands network.now machine.now p (WantRead port) }
    ensures { (H : List Event) (event : Event) (quota : ℕ)
        → IsDoing network.now H event quota machine.now p result }
{
    network.known();
    let c = in_channel(network, p, port);
    Doing::Reads(c, machine.channel(c).peek())
}

/// Process `p` is at a write.
fn writes<A: Allocator>(
    machine: &Machine<A>,
    network: &Network,
    p: usize,
    port: usize,
    item: i64,
) -> Doing
    requires shape { IsMachine network.now machine.now }
    requires process { p < length network.now.instances }
    requires free { IsFree machine.now p }
    requires stands { Stands network.now machine.now p (WantWrite port item) }
    ensures { (H : List Event) (event : Event) (quota : ℕ)
        → IsDoing network.now H event quota machine.now p result }
{
    network.known();
    let c = out_channel(network, p, port);
    Doing::Writes(c, item, machine.channel(c).is_full())
}

/// Process `p` is at this stop. It is paused there only if it has used up its steps.
fn at_stop<A: Allocator>(machine: &Machine<A>, network: &Network, p: usize, stop: Stop) -> Doing
    requires shape { IsMachine network.now machine.now }
    requires process { p < length network.now.instances }
    requires free { IsFree machine.now p }
    requires stands { Stands network.now machine.now p stop }
    ensures { (H : List Event) (event : Event) (quota : ℕ)
        → (stop ≡ Paused → IsOutOfSteps network.now H event quota)
        → IsDoing network.now H event quota machine.now p result }
{
    match stop {
        Stop::WantRead(port) => reads(machine, network, p, port),
        Stop::WantWrite(port, item) => writes(machine, network, p, port, item),
        Stop::Done => Doing::Ends(How::Done),
        Stop::Faulted(fault) => Doing::Ends(How::from(fault)),
        Stop::Paused => Doing::Elsewhere,
    }
}

/// What process `p` is doing. If it may go on, it first makes steps to its next stop, `quota` at most.
fn doing<A: Allocator>(machine: &mut Machine<A>, network: &Network, p: usize, quota: u64) -> Doing
    requires shape { IsMachine network.now machine.old }
    requires process { p < length network.now.instances }
    ensures run { (H : List Event) → IsRun network.now H machine.old
        → IsRun network.now H machine.new }
    ensures doing { (H : List Event) (event : Event) → IsRun network.now H machine.old
        → OwesNothing network.now H → ArePlaces network.now H machine.old
        → is_of p event ≡ true → HasNumbers network.now event
        → IsDoing network.now H event quota machine.new p result }
{
    network.known();
    if let Some(how) = machine.end_of(p) {
        return Doing::Ended(how);
    }
    match machine.wait(p) {
        Wait::Empty(c) => Doing::WaitsEmpty(c),
        Wait::Full(c) => Doing::WaitsFull(c),
        Wait::Nobody => {
            let stop = step_on(machine, network, p, quota);
            at_stop(machine, network, p, stop)
        }
    }
}

/// How channel `c` stands to the outside that feeds it.
fn source_side<A: Allocator>(machine: &Machine<A>, network: &Network, c: usize) -> OutsideEnd
    requires shape { IsMachine network.now machine.now }
    requires channel { c < length network.now.channels }
    ensures { result ≡ source_side network.now machine.now c }
{
    if !network.is_source(c) {
        OutsideEnd::NoSource
    } else if machine.is_closed(c) {
        OutsideEnd::Closed
    } else {
        OutsideEnd::Open
    }
}

/// How channel `c` stands to the outside that takes from it.
fn sink_side<A: Allocator>(machine: &Machine<A>, network: &Network, c: usize) -> OutsideEnd
    requires shape { IsMachine network.now machine.now }
    requires channel { c < length network.now.channels }
    ensures { result ≡ sink_side network.now machine.now c }
{
    if !network.is_sink(c) {
        OutsideEnd::NoSink
    } else if machine.channel(c).is_retired() {
        OutsideEnd::Left
    } else {
        OutsideEnd::Next(machine.channel(c).peek())
    }
}

/// What stands before an event that is of no process, if nothing is owed.
fn seen_outside<A: Allocator>(machine: &Machine<A>, network: &Network, event: Event) -> Scene
    requires shape { IsMachine network.now machine.now }
    requires numbers { HasNumbers network.now event }
    requires outside { is_of_process event ≡ false }
    ensures { (H : List Event) (quota : ℕ) → IsRun network.now H machine.now
        → OwesNothing network.now H → IsScene network.now H event quota result }
{
    match event {
        Event::Feed(c, _) => { Scene::Outside(c.into(), source_side(machine, network, c.into())) }
        Event::Close(c) => Scene::Outside(c.into(), source_side(machine, network, c.into())),
        Event::Take(c, _) => Scene::Outside(c.into(), sink_side(machine, network, c.into())),
        Event::Leave(c) => Scene::Outside(c.into(), sink_side(machine, network, c.into())),
        _ => Scene::OwesNothing,
    }
}

/// What stands before an event, if nothing is owed.
pub(crate) fn seen<A: Allocator>(
    machine: &mut Machine<A>,
    network: &Network,
    event: Event,
    quota: u64,
) -> Scene
    requires shape { IsMachine network.now machine.old }
    ensures { (H : List Event) → IsRun network.now H machine.old
        → OwesNothing network.now H → ArePlaces network.now H machine.old
        → IsScene network.now H event quota result }
{
    if !has_numbers(network, event) {
        return Scene::NotThere;
    }
    match event.process() {
        Some(p) => Scene::Process(p, doing(machine, network, p, quota)),
        None => seen_outside(machine, network, event),
    }
}
