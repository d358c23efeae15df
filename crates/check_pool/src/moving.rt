//! A call of the outside moves all that it can under one hold of the lock.
ghost use Rattle.std.specs.Prelude.{◌≡◌};
ghost use Rattle.kpn_history.specs.declared.keeping.Keeping.TheVariants.{All};

use crate::always::Always;
use crate::networks::copying;
use kpn_net::Network;
use kpn_pool::{Opened, Shared, feed_when_room, take_each, take_when_due, take_when_there, work};
use kpn_pool_desk::{Awaited, Go, Job, Refused, SinkSeat};
use std::alloc::{AllocError, Global};
use std::marker::Brand;
use std::sync::Wait;
use std::sync::ledger::Blank;
use std::test::Fail;
use std::time::Clock;

/// By which call all items are taken.
#[derive(Clone, Copy, Debug)]
enum Call {
    Each,
    WhenDue,
    WhenThere,
}

/// Takes by this call once all workers have ended. Returns whether it answers as it has to.
fn takes<J: Job, R: Wait + Clock>(
    rt: &R,
    shared: &Shared<'_, J>,
    sinks: &mut [SinkSeat],
    call: Call,
) -> Result<bool, Refused> {
    match call {
        Call::Each => {
            take_each(rt, shared, sinks)?;
            Ok(true)
        }
        Call::WhenDue => Ok(!take_when_due(rt, shared, sinks)?),
        Call::WhenThere => match sinks.first_mut() {
            Some(sink) => Ok(take_when_there(rt, shared, sink)? == Awaited::Ended),
            None => Ok(false),
        },
    }
}

/// The commits that copy three items: a get and a put of each.
const THREE: u64 = 6;

/// Feeds three items by one call, lets a worker copy them until it has reached the limit of commits, and takes them by
/// one call. Returns whether all come.
fn moves_all<J: Job, R: Wait + Clock>(
    rt: &R,
    alloc: Global,
    blank: Blank,
    network: &Network,
    call: Call,
) -> Result<bool, AllocError>
    requires ledger { (blank.name ≡ J.name) × (blank.parts ≡ J.parts) }
    requires network { network.now ≡ J.network }
    requires kept { J.keeping ≡ All }
    requires one { J.parts ≡ 1 }
{
    let opened: Opened<'_, J> = Shared::new(alloc, blank, network, 1, THREE)?;
    let Opened {
        shared,
        mut workers,
        mut sources,
        mut sinks,
    } = opened;
    let (Some(worker), Some(mut source)) = (workers.pop(), sources.pop()) else {
        return Ok(false);
    };
    let is_fed = feed_when_room(rt, &shared, &mut source, &[1, 2, 3], 9) == Ok(3);
    let _seat = work(rt, &shared, &Always(Go::On), worker, 1_000);
    let is_answered = takes(rt, &shared, sinks.as_mut_slice(), call) == Ok(true);
    let are_taken = match sinks.first() {
        Some(sink) => sink.taken() == [1, 2, 3].as_slice(),
        None => false,
    };
    Ok(is_fed && is_answered && are_taken)
}

#[test]
fn one_call_moves_all(rt: HostRuntime) -> Result<(), Fail> {
    let network = copying(rt.alloc(), 9)?;
    for call in [Call::Each, Call::WhenDue, Call::WhenThere] {
        let blank = Blank::new(1);
        let moved = moves_all::<Brand, HostRuntime>(&rt, rt.alloc(), blank, &network, call)?;
        assert!(rt; moved, "{call:?}");
    }
    Ok(())
}
