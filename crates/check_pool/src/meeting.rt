//! Two workers that are at work at once: a gate holds one of them until the other comes with another process.
ghost use Rattle.std.specs.Prelude.{◌≡◌};
ghost use Rattle.kpn_history.specs.declared.keeping.Keeping.TheVariants.{All};

use crate::holding::{Held, Holding};
use crate::networks::{two_readers, two_sevens};
use crate::turns::MOST_TURNS;
use crate::working::both_work;
use kpn_net::Network;
use kpn_pool::{Opened, Shared, gather};
use kpn_pool_desk::{Gate, Go, Job, Why, WorkerSeat};
use std::alloc::{AllocError, Global};
use std::marker::Brand;
use std::sync::Wait;
use std::sync::ledger::Blank;
use std::test::Fail;
use std::thread;
use std::thread::Threads;
use std::time::Clock;

/// Asks for a snapshot while a call is held, until it is given one, and then holds the call further.
#[derive(Drop)]
struct Meeting<'s, 'n, J: Job> {
    alloc: Global,
    shared: &'s Shared<'n, J>,
    holding: &'s Holding,
}

impl<'s, 'n, J: Job + Send + Sync> Gate for Meeting<'s, 'n, J> {
    fn between(&self, _worker: usize, process: usize) -> Go {
        if !self.holding.is_held(process) {
            return Go::On;
        }
        for _ in 0..MOST_TURNS {
            if matches!(self.shared.try_snapshot(self.alloc), Ok(Some(_))) {
                self.holding.hold(process);
                return Go::On;
            }
            thread::yield_now();
        }
        Go::On
    }
}

/// Two workers at work at once, with such a gate. Returns their seats, and whether they met.
fn work_till_met<J: Job + Send + Sync, R: Threads + Wait + Clock + Sync>(
    rt: &R,
    alloc: Global,
    shared: &Shared<'_, J>,
    first: WorkerSeat<J>,
    second: WorkerSeat<J>,
) -> (WorkerSeat<J>, WorkerSeat<J>, bool) {
    let holding = &Holding::new(Held {
        process: None,
        until: 1,
    });
    let gate = Meeting {
        alloc,
        shared,
        holding,
    };
    let (first, second) = both_work(rt, shared, &gate, first, second);
    (first, second, holding.have_met())
}

/// Whether two workers met, why they ended, and the commits of the two seats and of the book.
type Met = (bool, (Option<Why>, Option<Why>), (u64, u64));

/// What comes of two workers, which are allowed this many commits.
fn meet<J: Job + Send + Sync, R: Threads + Wait + Clock + Sync>(
    rt: &R,
    alloc: Global,
    blank: Blank,
    network: &Network,
    most: u64,
) -> Result<Option<Met>, AllocError>
    requires ledger { (blank.name ≡ J.name) × (blank.parts ≡ J.parts) }
    requires network { network.now ≡ J.network }
    requires kept { J.keeping ≡ All }
    requires two { J.parts ≡ 2 }
{
    let opened: Opened<'_, J> = Shared::new(alloc, blank, network, 2, most)?;
    let Opened {
        shared,
        mut workers,
        ..
    } = opened;
    let (Some(second), Some(first)) = (workers.pop(), workers.pop()) else {
        return Ok(None);
    };
    let (first, second, have_met) = work_till_met(rt, alloc, &shared, first, second);
    let whys = (first.why(), second.why());
    let sum = first.commits().saturating_add(second.commits());
    let book = gather(shared, vec![in alloc; first, second]?);
    Ok(Some((have_met, whys, (sum, book.commits()))))
}

/// Both are at work at once, with the lock free while the gate is asked. Each of the two processes writes once and
/// ends.
#[test]
fn refutes_one_worker_steps_everything(rt: HostRuntime) -> Result<(), Fail> {
    let network = two_sevens(rt.alloc())?;
    let met = meet::<Brand, HostRuntime>(&rt, rt.alloc(), Blank::new(2), &network, 4)?;
    let limit = Some(Why::Limit);
    assert_eq!(rt; met, Some((true, (limit, limit), (4, 4))));
    Ok(())
}

/// The same if each of the two processes waits for the other one.
#[test]
fn two_workers_settle(rt: HostRuntime) -> Result<(), Fail> {
    let network = two_readers(rt.alloc())?;
    let met = meet::<Brand, HostRuntime>(&rt, rt.alloc(), Blank::new(2), &network, 9)?;
    let settled = Some(Why::Settled);
    assert_eq!(rt; met, Some((true, (settled, settled), (2, 2))));
    Ok(())
}
