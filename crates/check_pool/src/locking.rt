//! The lock is free while a process is stepped, and while an expression is evaluated.
ghost use Rattle.std.specs.Prelude.{◌≡◌};
ghost use Rattle.kpn_history.specs.declared.keeping.Keeping.TheVariants.{All};

use crate::flag::Flag;
use crate::networks::{spinning, summing};
use crate::turns::MOST_TURNS;
use kpn_net::Network;
use kpn_pool::{Opened, Shared, work};
use kpn_pool_desk::{Gate, Go, Job, Why, WorkerSeat};
use std::alloc::{AllocError, Global};
use std::marker::Brand;
use std::sync::Wait;
use std::sync::ledger::Blank;
use std::test::Fail;
use std::thread;
use std::thread::Threads;
use std::time::{Clock, Duration};

/// A worker makes at most this many steps before it comes to the gate.
const QUOTA: u32 = 100_000_000;

/// No more commits are made: a snapshot takes the longer, the more items the journal has.
const MOST_COMMITS: u64 = 200_000;

/// This many snapshots are asked for, one after another.
const LOOKS: u64 = 1_000;

/// This many microseconds go by before each of these.
const PAUSE: u64 = 300;

/// Shows that a worker has come. Lets commits through until it is shut, and then ends each worker.
#[derive(Drop)]
pub struct Door {
    reached: Flag,
    shut: Flag,
}

impl Gate for Door {
    fn between(&self, _worker: usize, _process: usize) -> Go {
        self.reached.raise();
        if self.shut.is_raised() {
            Go::Abandon
        } else {
            Go::On
        }
    }
}

/// Which snapshots are counted while one worker is at work.
#[derive(Clone, Copy)]
enum Looks {
    /// Those that show a process that is held, before the worker has come to the door for the first time.
    Held,
    /// Those that are not given, since the lock is taken. They are asked for with pauses, so their part of all is that
    /// of the time for which the worker has the lock.
    Taken,
}

/// How many snapshots show a process that is held, before the door is reached.
fn times_held<J: Job>(alloc: Global, shared: &Shared<'_, J>, door: &Door) -> u64 {
    let mut held: u64 = 0;
    for _ in 0..MOST_TURNS {
        let shows_held = match shared.try_snapshot(alloc) {
            Ok(Some(view)) => view.counts.held == 1,
            _ => false,
        };
        if door.reached.is_raised() {
            return held;
        }
        if shows_held {
            held = held.saturating_add(1);
        }
    }
    held
}

/// How many snapshots are not given. The door is shut then.
fn times_taken<J: Job, R: Clock>(
    rt: &R,
    alloc: Global,
    shared: &Shared<'_, J>,
    door: &Door,
) -> u64 {
    let mut taken: u64 = 0;
    for _ in 0..LOOKS {
        thread::sleep(rt, Duration::from_micros(PAUSE));
        if matches!(shared.try_snapshot(alloc), Ok(None)) {
            taken = taken.saturating_add(1);
        }
    }
    door.shut.raise();
    taken
}

/// Counts snapshots while one worker is at work, and returns why this ends. If those before the door are counted it is
/// shut.
fn work_and_look<J: Job + Send + Sync, R: Threads + Wait + Clock + Sync>(
    rt: &R,
    alloc: Global,
    shared: &Shared<'_, J>,
    seat: WorkerSeat<J>,
    looks: Looks,
) -> (u64, Option<Why>) {
    let door = &Door {
        reached: Flag::new(),
        shut: Flag::new(),
    };
    if matches!(looks, Looks::Held) {
        door.shut.raise();
    }
    let (seat, count) = thread::join(
        rt,
        move || work(rt, shared, door, seat, QUOTA),
        move || match looks {
            Looks::Held => times_held(alloc, shared, door),
            Looks::Taken => times_taken(rt, alloc, shared, door),
        },
    );
    (count, seat.why())
}

/// The same, of a run that is opened for it.
fn seen_while_working<J: Job + Send + Sync, R: Threads + Wait + Clock + Sync>(
    rt: &R,
    alloc: Global,
    blank: Blank,
    network: &Network,
    looks: Looks,
) -> Result<(u64, Option<Why>), AllocError>
    requires ledger { (blank.name ≡ J.name) × (blank.parts ≡ J.parts) }
    requires network { network.now ≡ J.network }
    requires kept { J.keeping ≡ All }
    requires one { J.parts ≡ 1 }
{
    let opened: Opened<'_, J> = Shared::new(alloc, blank, network, 1, MOST_COMMITS)?;
    let Opened {
        shared,
        mut workers,
        ..
    } = opened;
    let Some(seat) = workers.pop() else {
        return Ok((0, None));
    };
    Ok(work_and_look(rt, alloc, &shared, seat, looks))
}

/// A worker makes 100,000,000 steps, and many snapshots are given meanwhile.
#[test]
fn refutes_holds_the_lock_while_stepping(rt: HostRuntime) -> Result<(), Fail> {
    let network = spinning(rt.alloc())?;
    let blank = Blank::new(1);
    let (held, why) = seen_while_working::<Brand, HostRuntime>(
        &rt,
        rt.alloc(),
        blank,
        &network,
        Looks::Held,
    )?;
    assert!(rt;
        held >= 100 && why == Some(Why::Abandoned),
        "{held} snapshots"
    );
    Ok(())
}

/// A worker that evaluated the items under the lock, only there or there too, would have it for more than half of the
/// time. One that does not has it for a small part: for two commits at each item.
#[test]
fn refutes_evaluates_under_the_lock(rt: HostRuntime) -> Result<(), Fail> {
    let network = summing(rt.alloc())?;
    let blank = Blank::new(1);
    let (taken, why) = seen_while_working::<Brand, HostRuntime>(
        &rt,
        rt.alloc(),
        blank,
        &network,
        Looks::Taken,
    )?;
    let most = LOOKS * 4 / 10;
    assert!(rt;
        taken < most && why.is_some(),
        "taken at {taken} of {LOOKS} looks"
    );
    Ok(())
}
