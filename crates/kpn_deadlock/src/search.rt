//! The cycles and the rings among waiting processes, found by a walk along the waits from each process.
ghost use Rattle.std.specs.Prelude.{◌≡◌, IfOk, All};
ghost use Rattle.kpn_net.specs.Waits.{wait_at};
ghost use Rattle.kpn_deadlock.specs.Ring.{AreFinal};
ghost use Rattle.kpn_deadlock.specs.Told.{AreCycles, AreRings, FindsFrom, IsCycleFrom, IsRingFrom, with_found, is_wait_for_item, all_await_items};

use kpn_cycle::awaited;
use kpn_lang::Sequence;
use kpn_net::{Network, Wait};
use std::alloc::{AllocError, Allocator};

/// The cycles of waiting processes: the members of each, from the one of least number on. Each of them waits for the
/// next, and the last for the first.
///
/// `waits` has what each process waits for. The error is that memory ran out. It makes a walk from each process.
pub fn cycles<A: Allocator + Copy>(
    alloc: A,
    network: &Network,
    waits: &[Wait],
) -> Result<Sequence<Sequence<usize, A>, A>, AllocError>
    ensures { IfOk result (λ told. AreCycles network.now waits.now told) }
{
    let mut told = Vec::new(alloc);
    for p in 0..network.instances() {
        let found = cycle_from(alloc, network, waits, p)?;
        push_found(&mut told, found)?;
    }
    Ok(Sequence::from_vec(told))
}

/// The rings: the cycles whose members all wait on empty channels, each as `cycles` tells it. If the waits are those at
/// the end of a history, no member of a ring has an event again, however the history legally goes on.
///
/// `waits` has what each process waits for. The error is that memory ran out. It makes a walk from each process.
pub fn rings<A: Allocator + Copy>(
    alloc: A,
    network: &Network,
    waits: &[Wait],
) -> Result<Sequence<Sequence<usize, A>, A>, AllocError>
    ensures exact { IfOk result (λ told. AreRings network.now waits.now told) }
    ensures last { IfOk result (λ told. All (AreFinal network.now waits.now) told) }
{
    network.known();
    let mut told = Vec::new(alloc);
    for p in 0..network.instances() {
        let found = ring_from(alloc, network, waits, p)?;
        push_found(&mut told, found)?;
    }
    Ok(Sequence::from_vec(told))
}

/// Puts what was found after what was found before.
fn push_found<A: Allocator>(
    told: &mut Vec<Sequence<usize, A>, A>,
    found: Option<Sequence<usize, A>>,
) -> Result<(), AllocError>
    ensures { IfOk result (λ _. told.new.items ≡ with_found told.old.items found) }
{
    if let Some(members) = found {
        told.push(members)?;
    }
    Ok(())
}

/// The members of the ring that has process `p` as its member of least number, if there is one.
fn ring_from<A: Allocator>(
    alloc: A,
    network: &Network,
    waits: &[Wait],
    p: usize,
) -> Result<Option<Sequence<usize, A>>, AllocError>
    ensures { IfOk result (λ found. FindsFrom (IsRingFrom network.now waits.now) p found) }
{
    let Some(members) = cycle_from(alloc, network, waits, p)? else {
        return Ok(None);
    };
    if do_all_await_items(waits, members.as_slice()) {
        Ok(Some(members))
    } else {
        Ok(None)
    }
}

/// The members of the cycle that has process `p` as its member of least number, if there is one.
fn cycle_from<A: Allocator>(
    alloc: A,
    network: &Network,
    waits: &[Wait],
    p: usize,
) -> Result<Option<Sequence<usize, A>>, AllocError>
    ensures { IfOk result (λ found. FindsFrom (IsCycleFrom network.now waits.now) p found) }
{
    let mut members = Vec::new(alloc);
    let mut at = p;
    for _step in 0..network.instances() {
        members.push(at)?;
        let Some(next) = awaited(network, wait_at(waits, at)) else {
            return Ok(None);
        };
        if next == p {
            return Ok(Some(Sequence::from_vec(members)));
        }
        if next < p {
            return Ok(None);
        }
        at = next;
    }
    Ok(None)
}

/// What process `p` waits for.
fn wait_at(waits: &[Wait], p: usize) -> Wait
    ensures { result ≡ wait_at waits.now p }
{
    waits.get(p).copied().unwrap_or(Wait::Nobody)
}

/// Whether all these processes wait on empty channels.
fn do_all_await_items(waits: &[Wait], members: &[usize]) -> bool
    ensures { result ≡ all_await_items waits.now members.now }
{
    members.iter().all(|p| is_empty_wait(wait_at(waits, *p)))
}

fn is_empty_wait(wait: Wait) -> bool
    ensures { result ≡ is_wait_for_item wait }
{
    match wait {
        Wait::Empty(_) => true,
        Wait::Nobody | Wait::Full(_) => false,
    }
}
