//! Why a worker ends, and what is seen then.
ghost use Rattle.std.specs.Prelude.{◌≡◌};
ghost use Rattle.kpn_history.specs.declared.keeping.Keeping.TheVariants.{All};

use crate::always::Always;
use crate::networks::spinning;
use kpn_net::Network;
use kpn_pool::{Opened, Shared, work};
use kpn_pool_desk::{Gate, Go, Job, View, Why};
use std::alloc::{AllocError, Global};
use std::marker::Brand;
use std::sync::Wait;
use std::sync::ledger::Blank;
use std::test::Fail;
use std::time::Clock;

/// Why a lone worker ends, halted beforehand or not, and a snapshot then.
fn ends_alone<J: Job, G: Gate, R: Wait + Clock>(
    rt: &R,
    alloc: Global,
    blank: Blank,
    network: &Network,
    most: u64,
    is_told: bool,
    gate: &G,
) -> Result<(Option<Why>, Option<View>), AllocError>
    requires ledger { (blank.name ≡ J.name) × (blank.parts ≡ J.parts) }
    requires network { network.now ≡ J.network }
    requires kept { J.keeping ≡ All }
    requires one { J.parts ≡ 1 }
{
    let opened: Opened<'_, J> = Shared::new(alloc, blank, network, 1, most)?;
    let Opened {
        shared,
        mut workers,
        sources: _,
        sinks: _,
    } = opened;
    if is_told {
        shared.halt(rt);
    }
    let why = match workers.pop() {
        Some(seat) => work(rt, &shared, gate, seat, 1_000).why(),
        None => None,
    };
    Ok((why, shared.try_snapshot(alloc)?))
}

/// Whether the one process of a run is ready.
pub fn is_ready(view: &Option<View>) -> bool {
    match view {
        Some(view) => view.counts.ready == 1 && view.counts.held == 0,
        None => false,
    }
}

#[test]
fn a_worker_tells_why_it_ends(rt: HostRuntime) -> Result<(), Fail> {
    let network = spinning(rt.alloc())?;
    for (most, is_told, answer, wanted) in [
        (u64::MAX, true, Go::On, Why::Halted),
        (u64::MAX, false, Go::Abandon, Why::Abandoned),
        (100, false, Go::On, Why::Limit),
    ] {
        let gate = Always(answer);
        let blank = Blank::new(1);
        let (why, view) = ends_alone::<Brand, Always, HostRuntime>(
            &rt,
            rt.alloc(),
            blank,
            &network,
            most,
            is_told,
            &gate,
        )?;
        assert!(rt; why == Some(wanted) && is_ready(&view), "{wanted:?}");
    }
    Ok(())
}
