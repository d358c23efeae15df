//! The rings of a run, by the states of its processes.
ghost use Rattle.std.specs.Prelude.{◌≡◌, List, map, IfOk};
ghost use Rattle.kpn_history.specs.declared.event.Event.{Event};
ghost use Rattle.kpn_history.specs.Waiting.{waits_of};
ghost use Rattle.kpn_history.specs.Legal.{Legal};
ghost use Rattle.kpn_deadlock.specs.Among.{AreStatesOf, wait_of_state};
ghost use Rattle.kpn_deadlock.specs.Told.{AreRings};

use crate::search::rings;
use kpn_history::State;
use kpn_lang::Sequence;
use kpn_net::{Network, Wait};
use std::alloc::{AllocError, Allocator};

/// The rings of a run in which the processes have these states, each as `rings` tells it.
///
/// `states` has the state of each process after a legal history. The error is that memory ran out.
pub fn rings_among<A: Allocator + Copy>(
    alloc: A,
    network: &Network,
    states: &[State],
) -> Result<Sequence<Sequence<usize, A>, A>, AllocError>
    ensures { (H : List Event) → Legal network.now H → AreStatesOf network.now H states.now
        → IfOk result (λ told. AreRings network.now (waits_of network.now H) told) }
{
    network.known();
    let waits = waits_in(alloc, states)?;
    rings(alloc, network, waits.as_slice())
}

/// What each process waits for.
fn waits_in<A: Allocator>(alloc: A, states: &[State]) -> Result<Vec<Wait, A>, AllocError>
    ensures { IfOk result (λ waits. waits.items ≡ map wait_of_state states.now) }
{
    let mut waits = Vec::with_capacity(alloc, states.len())?;
    for p in 0..states.len() {
        waits.push(wait_in(states[p]))?;
    }
    Ok(waits)
}

/// What a process in this state waits for.
fn wait_in(state: State) -> Wait
    ensures { result ≡ wait_of_state state }
{
    match state {
        State::WaitsEmpty(c) => Wait::Empty(c),
        State::WaitsFull(c) => Wait::Full(c),
        State::Ready | State::Held | State::Ended(_) => Wait::Nobody,
    }
}
