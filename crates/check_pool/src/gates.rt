//! Gates that hold a process until another one has come, or pause.
use crate::flag::Flag;
use crate::turns::MOST_TURNS;
use kpn_pool_desk::{Gate, Go};
use std::sync::atomic::{AtomicU64, Ordering};
use std::thread;

/// This many calls pass at first: some ten milliseconds, in which all workers but one come to rest.
const PASSING: u64 = 100_000;

/// This many additions to an atomic number take longer than anybody looks on before it sleeps.
const PAUSE: u32 = 6_000;

/// Lets the first calls pass, and then holds each until three are held at once, and ends its worker.
#[derive(Drop)]
pub struct HoldingThree {
    calls: AtomicU64,
    held: AtomicU64,
    met: Flag,
}

impl HoldingThree {
    pub fn new() -> HoldingThree {
        HoldingThree {
            calls: AtomicU64::new(0),
            held: AtomicU64::new(0),
            met: Flag::new(),
        }
    }

    /// Holds a call.
    fn hold(&self) {
        self.held.fetch_add(1, Ordering::SeqCst);
        for _ in 0..MOST_TURNS {
            if self.held.load(Ordering::SeqCst) >= 3 {
                return self.met.raise();
            }
            thread::yield_now();
        }
        self.held.fetch_sub(1, Ordering::SeqCst);
    }

    /// Whether three calls were held at once.
    pub fn have_met(&self) -> bool {
        self.met.is_raised()
    }
}

impl Gate for HoldingThree {
    fn between(&self, _worker: usize, _process: usize) -> Go {
        if self.calls.fetch_add(1, Ordering::SeqCst) < PASSING {
            return Go::On;
        }
        self.hold();
        Go::Abandon
    }
}

/// Pauses at each call, and holds one process, if it is to, until somebody makes it let go.
#[derive(Drop)]
pub struct Pausing {
    held: Option<usize>,
    lets_go: Flag,
    pauses: AtomicU64,
}

impl Pausing {
    pub fn new(held: Option<usize>) -> Pausing {
        Pausing {
            held,
            lets_go: Flag::new(),
            pauses: AtomicU64::new(0),
        }
    }

    /// Lets go of the process that is held, now and from now on.
    pub fn let_go(&self) {
        self.lets_go.raise();
    }

    /// Holds a call.
    fn hold(&self) {
        for _ in 0..MOST_TURNS {
            if self.lets_go.is_raised() {
                return;
            }
            thread::yield_now();
        }
    }
}

impl Gate for Pausing {
    fn between(&self, _worker: usize, process: usize) -> Go {
        for _ in 0..PAUSE {
            self.pauses.fetch_add(1, Ordering::SeqCst);
        }
        if self.held == Some(process) {
            self.hold();
        }
        Go::On
    }
}
