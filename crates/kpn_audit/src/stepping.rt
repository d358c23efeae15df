//! A process stepped to its next stop.
ghost use Rattle.std.specs.Prelude.{◌≡◌, ◌≤◌, ◌+◌, ◌↔◌, ◌≢◌, ◌<◌, ℕ, true, List, length, IsTrue, IfOk, IfErr, Result, Ok, Err};
ghost use Rattle.kpn_net.specs.Tables.{program_of};
ghost use Rattle.kpn_step.specs.Frame.{Frame};
ghost use Rattle.kpn_step.specs.Step.{Goes, step_of, Steps};
ghost use Rattle.kpn_step.specs.declared.stop.Stop.TheVariants.{Paused};
ghost use Rattle.kpn_history.specs.declared.event.Event.{Event};
ghost use Rattle.kpn_history.specs.Talks.{is_of};
ghost use Rattle.kpn_history.specs.Legal.{HasNumbers};
ghost use Rattle.kpn_history.specs.Stops.{OwesNothing};
ghost use Rattle.kpn_machine.specs.Machine.{frame_in, IsMachine, IsFree};
ghost use Rattle.kpn_machine.specs.Run.{IsRun};
ghost use Rattle.kpn_machine.specs.Due.{Stands};
ghost use Rattle.kpn_audit.specs.declared.judged.Judged.TheVariants.{Budget};
ghost use Rattle.kpn_audit.specs.Place.{StopsWithin};
ghost use Rattle.kpn_audit.specs.Judged.{IsStopped, StopsInTime, IsMoved, IsJudged};

use crate::judged::Judged;
use kpn_machine::Machine;
use kpn_net::{Network, Wait};
use kpn_step::Stop;
use std::alloc::Allocator;

/// Whether process `p` may go on: it has not ended and waits for nobody.
fn is_free<A: Allocator>(machine: &Machine<A>, network: &Network, p: usize) -> bool
    requires shape { IsMachine network.now machine.now }
    requires process { p < length network.now.instances }
    ensures { IsTrue result ↔ IsFree machine.now p }
{
    machine.end_of(p).is_none() && matches!(machine.wait(p), Wait::Nobody)
}

/// How many of these steps are made in one call: all, if they fit its number.
fn part_of(remaining: u64) -> u32
    ensures most { result ≤ remaining }
    ensures some { 0 < remaining → 0 < result }
{
    u32::try_from(remaining).unwrap_or(u32::MAX)
}

/// Steps process `p` on from its frame until it stops, or until `quota` steps were made, which is a pause. Paused it
/// has made them all.
pub(crate) fn step_on<A: Allocator>(
    machine: &mut Machine<A>,
    network: &Network,
    p: usize,
    quota: u64,
) -> Stop
    requires shape { IsMachine network.now machine.old }
    requires process { p < length network.now.instances }
    ensures shape { IsMachine network.now machine.new }
    ensures stands { Stands network.now machine.new p result }
    ensures free { IsFree machine.old p → IsFree machine.new p }
    ensures run { (H : List Event) → IsRun network.now H machine.old
        → IsRun network.now H machine.new }
    ensures moved { IsMoved network.now p machine.old machine.new }
    ensures paused { result ≡ Paused → Steps (program_of network.now p).blocks quota
        (frame_in machine.old p) (frame_in machine.new p) }
    ensures ends { result ≢ Paused → (next : Frame)
        → step_of (program_of network.now p).blocks (frame_in machine.new p) ≢ Goes next }
    ensures in_time { result ≢ Paused
        → StopsWithin (program_of network.now p).blocks quota (frame_in machine.old p) }
{
    let mut remaining = quota;
    'steps: loop {
        let (steps, stop) = machine.step(network, network.program(p), p, part_of(remaining));
        remaining -= u64::from(steps);
        if remaining == 0 || !matches!(stop, Stop::Paused) {
            return stop;
        }
    }
}

/// Steps process `p` to its next stop. Where it has ended or waits, or uses up its steps before it stops, that is what
/// is found of any event of it.
pub(crate) fn come_to_stop<A: Allocator>(
    machine: &mut Machine<A>,
    network: &Network,
    p: usize,
    quota: u64,
) -> Result<Stop, Judged>
    requires shape { IsMachine network.now machine.old }
    requires process { p < length network.now.instances }
    ensures shape { IsMachine network.now machine.new }
    ensures moved { IsMoved network.now p machine.old machine.new }
    ensures stopped { IfOk result (λ stop. IsStopped network.now machine.new p stop) }
    ensures run { (H : List Event) → IsRun network.now H machine.old
        → IsRun network.now H machine.new }
    ensures in_time { result ≢ Err Budget → StopsInTime network.now machine.old quota p }
    ensures judged { (H : List Event) → IsRun network.now H machine.old
        → OwesNothing network.now H → (event : Event) → is_of p event ≡ true
        → HasNumbers network.now event
        → IfErr result
        (IsJudged network.now H event quota machine.old machine.new) }
{
    network.known();
    if !is_free(machine, network, p) {
        return Err(Judged::Illegal);
    }
    match step_on(machine, network, p, quota) {
        Stop::Paused => Err(Judged::Budget),
        stop => Ok(stop),
    }
}
