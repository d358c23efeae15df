//! One event judged: first what can be judged before any step, then, once its process has come to a stop, whether it
//! is due there. If it is, it is made, and what is owed then is found.
ghost use Rattle.std.specs.Prelude.{◌≡◌, ◌≢◌, ◌↔◌, ◌<◌, ℕ, true, List, length, IsTrue, IfOk, Some, None, Ok};
ghost use Rattle.kpn_history.specs.declared.event.Event.{Event};
ghost use Rattle.kpn_history.specs.Talks.{is_of};
ghost use Rattle.kpn_history.specs.Legal.{HasNumbers};
ghost use Rattle.kpn_history.specs.Stops.{OwesNothing};
ghost use Rattle.kpn_machine.specs.Machine.{IsMachine};
ghost use Rattle.kpn_machine.specs.Owed.{IsAwaitedBelowLimit};
ghost use Rattle.kpn_machine.specs.Run.{IsRun};
ghost use Rattle.kpn_audit.specs.declared.judged.Judged.TheVariants.{Budget};
ghost use Rattle.kpn_audit.specs.Judged.{IsStopped, Owes, IsFound, IsJudged, StopsInTime, IsInTime};

use crate::growth::{judge_owed, owed_after};
use crate::judged::Judged;
use crate::stepping::come_to_stop;
use kpn_history::Event;
use kpn_machine::{Machine, OwedGrowth};
use kpn_net::Network;
use kpn_step::Stop;
use std::alloc::{AllocError, Allocator};

/// Whether these are the numbers of a process and a channel.
fn are_numbers(network: &Network, p: u16, c: u16) -> bool
    ensures { IsTrue result
        ↔ ((p < length network.now.instances) × (c < length network.now.channels)) }
{
    usize::from(p) < network.instances() && usize::from(c) < network.channels()
}

/// Whether the numbers of the event are numbers of the network.
pub(crate) fn has_numbers(network: &Network, event: Event) -> bool
    ensures { IsTrue result ↔ HasNumbers network.now event }
{
    match event {
        Event::Get(p, c, _) | Event::Put(p, c, _) => are_numbers(network, p, c),
        Event::WaitEmpty(p, c) | Event::WaitFull(p, c) => are_numbers(network, p, c),
        Event::Grow(p, c, _) => are_numbers(network, p, c),
        Event::Ended(p, _) => usize::from(p) < network.instances(),
        Event::Feed(c, _) | Event::Take(c, _) => usize::from(c) < network.channels(),
        Event::Close(c) | Event::Leave(c) => usize::from(c) < network.channels(),
    }
}

/// Judges an event if nothing is owed, where its process has come to this stop. One that is due is made. An event of no
/// process needs no stop.
fn judge_here<A: Allocator + Copy>(
    machine: &mut Machine<A>,
    network: &Network,
    event: Event,
    stop: Stop,
) -> Result<Judged, AllocError>
    requires shape { IsMachine network.now machine.old }
    requires numbers { HasNumbers network.now event }
    requires stopped { (p : ℕ) → is_of p event ≡ true
        → IsStopped network.now machine.old p stop }
    ensures shape { IsMachine network.now machine.new }
    ensures judged { IfOk result (IsFound network.now event machine.old machine.new) }
{
    network.known();
    if !machine.is_due(network, event, stop) {
        return Ok(Judged::Illegal);
    }
    machine.apply(network, event)?;
    Ok(Judged::Follows(owed_after(machine, network, event)))
}

/// Judges an event of process `p`: whether it may go on, at which stop it comes to stand, and what is due there.
fn judge_process<A: Allocator + Copy>(
    machine: &mut Machine<A>,
    network: &Network,
    p: usize,
    event: Event,
    quota: u64,
) -> Result<Judged, AllocError>
    requires shape { IsMachine network.now machine.old }
    requires numbers { HasNumbers network.now event }
    requires own { is_of p event ≡ true }
    ensures shape { IsMachine network.now machine.new }
    ensures in_time { result ≢ Ok Budget → StopsInTime network.now machine.old quota p }
    ensures judged { (H : List Event) → IsRun network.now H machine.old
        → OwesNothing network.now H
        → IfOk result
        (IsJudged network.now H event quota machine.old machine.new) }
{
    match come_to_stop(machine, network, p, quota) {
        Ok(stop) => judge_here(machine, network, event, stop),
        Err(judged) => Ok(judged),
    }
}

/// Judges an event if nothing is owed.
fn judge_next<A: Allocator + Copy>(
    machine: &mut Machine<A>,
    network: &Network,
    event: Event,
    quota: u64,
) -> Result<Judged, AllocError>
    requires shape { IsMachine network.now machine.old }
    ensures shape { IsMachine network.now machine.new }
    ensures in_time { result ≢ Ok Budget → IsInTime network.now machine.old quota event }
    ensures judged { (H : List Event) → IsRun network.now H machine.old
        → OwesNothing network.now H
        → IfOk result
        (IsJudged network.now H event quota machine.old machine.new) }
{
    if !has_numbers(network, event) {
        return Ok(Judged::Illegal);
    }
    match event.process() {
        Some(p) => judge_process(machine, network, p, event, quota),
        None => judge_here(machine, network, event, Stop::Paused),
    }
}

/// Judges the event that comes next, if this is owed, and makes it if it may follow. The error is that memory ran out.
pub(crate) fn judge<A: Allocator + Copy>(
    machine: &mut Machine<A>,
    network: &Network,
    owed: Option<OwedGrowth>,
    event: Event,
    quota: u64,
) -> Result<Judged, AllocError>
    requires shape { IsMachine network.now machine.old }
    requires owed { (growth : OwedGrowth) → owed ≡ Some growth
        → (growth.process < length network.now.instances)
        × IsAwaitedBelowLimit network.now machine.old growth.channel }
    ensures shape { IsMachine network.now machine.new }
    ensures in_time { owed ≡ None → result ≢ Ok Budget
        → IsInTime network.now machine.old quota event }
    ensures judged { (H : List Event) → IsRun network.now H machine.old
        → Owes network.now H machine.old owed
        → IfOk result
        (IsJudged network.now H event quota machine.old machine.new) }
{
    match owed {
        Some(growth) => Ok(judge_owed(machine, network, growth, event)),
        None => judge_next(machine, network, event, quota),
    }
}
