//! A worker that rests comes to ready work, also if a gate holds all others.
ghost use Rattle.std.specs.Prelude.{◌≡◌};
ghost use Rattle.kpn_history.specs.declared.keeping.Keeping.TheVariants.{All};

use crate::gates::HoldingThree;
use crate::networks::three_spinning;
use crate::working::three_work;
use kpn_net::Network;
use kpn_pool::{Opened, Shared};
use kpn_pool_desk::{Job, Why};
use std::alloc::{AllocError, Global};
use std::marker::Brand;
use std::sync::Wait;
use std::sync::ledger::Blank;
use std::test::Fail;
use std::thread::Threads;
use std::time::Clock;

/// Whether three workers of a network come to be held at once, after turns so short that all but one have rested, and
/// then end as the gate has it.
fn are_held_at_once<J: Job + Send + Sync, R: Threads + Wait + Clock + Sync>(
    rt: &R,
    alloc: Global,
    blank: Blank,
    network: &Network,
) -> Result<bool, AllocError>
    requires ledger { (blank.name ≡ J.name) × (blank.parts ≡ J.parts) }
    requires network { network.now ≡ J.network }
    requires kept { J.keeping ≡ All }
    requires three { J.parts ≡ 3 }
{
    let opened: Opened<'_, J> = Shared::new(alloc, blank, network, 3, u64::MAX)?;
    let Opened {
        shared,
        mut workers,
        sources: _,
        sinks: _,
    } = opened;
    let (Some(third), Some(second), Some(first)) = (workers.pop(), workers.pop(), workers.pop())
    else {
        return Ok(false);
    };
    let gate = HoldingThree::new();
    let (first, (second, third)) = three_work(rt, &shared, &gate, first, second, third);
    let whys = (first.why(), second.why(), third.why());
    let abandoned = Some(Why::Abandoned);
    Ok(gate.have_met() && whys == (abandoned, abandoned, abandoned))
}

#[test]
fn those_that_rest_come_to_ready_work(rt: HostRuntime) -> Result<(), Fail> {
    let network = three_spinning(rt.alloc())?;
    let are_held = are_held_at_once::<Brand, HostRuntime>(
        &rt,
        rt.alloc(),
        Blank::new(3),
        &network,
    )?;
    assert!(rt; are_held);
    Ok(())
}
