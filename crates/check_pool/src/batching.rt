//! What a worker claims in one hold: of nine processes eight, whose steps it commits in their order, up to the one for
//! which the gate ends it. This and the others are put back in their order.
ghost use Rattle.std.specs.Prelude.{◌≡◌};
ghost use Rattle.kpn_history.specs.declared.keeping.Keeping.TheVariants.{All};

use crate::flag::Flag;
use crate::networks::nine_sevens;
use kpn_book::{Book, Event};
use kpn_net::Network;
use kpn_pool::{Opened, Shared, gather, work};
use kpn_pool_desk::{Gate, Go, Job, View, Why, WorkerSeat};
use std::alloc::{AllocError, Allocator, Global};
use std::marker::Brand;
use std::sync::Wait;
use std::sync::atomic::{AtomicUsize, Ordering};
use std::sync::ledger::Blank;
use std::test::Fail;
use std::time::Clock;

/// The calls of a gate.
#[derive(Drop)]
struct Calls {
    made: AtomicUsize,
    /// At the first call eight processes are held and one is ready.
    shares: Flag,
    /// A call is not for the process that is due.
    strays: Flag,
}

impl Calls {
    fn new() -> Calls {
        Calls {
            made: AtomicUsize::new(0),
            shares: Flag::new(),
            strays: Flag::new(),
        }
    }

    /// Whether this many calls were made, each for the process that was due.
    fn are(&self, count: usize) -> bool {
        self.made.load(Ordering::SeqCst) == count
            && self.shares.is_raised()
            && !self.strays.is_raised()
    }
}

/// Is asked for these processes in their order, and ends the worker at the last one.
#[derive(Drop)]
struct Ending<'s, 'n, J: Job> {
    alloc: Global,
    shared: &'s Shared<'n, J>,
    processes: &'s [usize],
    calls: &'s Calls,
}

impl<'s, 'n, J: Job + Send + Sync> Gate for Ending<'s, 'n, J> {
    fn between(&self, _worker: usize, process: usize) -> Go {
        let call = self.calls.made.fetch_add(1, Ordering::SeqCst);
        if call == 0 {
            if let Ok(Some(view)) = self.shared.try_snapshot(self.alloc) {
                if view.counts.held == 8 && view.counts.ready == 1 {
                    self.calls.shares.raise();
                }
            }
        }
        if self.processes.get(call) != Some(&process) {
            self.calls.strays.raise();
        }
        if call.saturating_add(1) < self.processes.len() {
            Go::On
        } else {
            Go::Abandon
        }
    }
}

/// A worker is at work until the gate ends it at the last of these processes. Returns whether the gate was asked for
/// them in their order, and ended it.
fn works<J: Job + Send + Sync, R: Wait + Clock>(
    rt: &R,
    alloc: Global,
    shared: &Shared<'_, J>,
    seat: WorkerSeat<J>,
    processes: &[usize],
) -> (WorkerSeat<J>, bool) {
    let calls = Calls::new();
    let gate = Ending {
        alloc,
        shared,
        processes,
        calls: &calls,
    };
    let seat = work(rt, shared, &gate, seat, 1_000);
    let has_ended = seat.why() == Some(Why::Abandoned) && calls.are(processes.len());
    (seat, has_ended)
}

/// Whether all nine processes are ready, and the sinks of the first `written` have the item, and the others none.
fn shows(view: &Option<View>, written: usize) -> bool {
    let Some(view) = view else {
        return false;
    };
    let mut is_so = view.counts.ready == 9 && view.journals.as_slice().len() == 9;
    for c in 0..9 {
        let items: &[i64] = if c < written { &[7] } else { &[] };
        is_so = is_so && has_written(view, c, items);
    }
    is_so
}

/// Whether these are all items that were written on a channel, and they are kept.
pub fn has_written<A: Allocator>(view: &View<A>, c: usize, items: &[i64]) -> bool {
    match view.journal(c) {
        Some(journal) => journal.is(items),
        None => false,
    }
}

/// Whether the first items were put by these processes.
fn put_by(book: &Book<'_>, processes: &[u16]) -> bool {
    let mut is_so = true;
    for (k, process) in processes.iter().enumerate() {
        is_so = is_so && book.history().at(k) == Some(Event::Put(*process, *process, 7));
    }
    is_so
}

/// Two turns of a worker. Returns whether all is as it has to be after each.
fn ends_twice<J: Job + Send + Sync, R: Wait + Clock>(
    rt: &R,
    alloc: Global,
    blank: Blank,
    network: &Network,
) -> Result<bool, AllocError>
    requires ledger { (blank.name ≡ J.name) × (blank.parts ≡ J.parts) }
    requires network { network.now ≡ J.network }
    requires kept { J.keeping ≡ All }
    requires one { J.parts ≡ 1 }
{
    let opened: Opened<'_, J> = Shared::new(alloc, blank, network, 1, u64::MAX)?;
    let Opened {
        shared,
        mut workers,
        sources: _,
        sinks: _,
    } = opened;
    let Some(seat) = workers.pop() else {
        return Ok(false);
    };
    let (seat, first) = works(rt, alloc, &shared, seat, &[0, 1, 2]);
    let is_shown = shows(&shared.try_snapshot(alloc)?, 2);
    let (seat, second) = works(rt, alloc, &shared, seat, &[8, 0, 1, 2, 3, 4, 5, 6]);
    let book = gather(shared, vec![in alloc; seat]?);
    Ok(first && is_shown && second && put_by(&book, &[0, 1, 8]) && book.history().len() == 9)
}

/// The gate is asked for processes 0, 1 and 2, and ends the worker at the last. The queue is then 8, 0, 1, 2 and so on.
#[test]
fn refutes_batches_in_another_order(rt: HostRuntime) -> Result<(), Fail> {
    let network = nine_sevens(rt.alloc())?;
    let blank = Blank::new(1);
    let is_so = ends_twice::<Brand, HostRuntime>(&rt, rt.alloc(), blank, &network)?;
    assert!(rt; is_so);
    Ok(())
}
