//! A gate that holds one of two processes until the other comes.
use crate::flag::Flag;
use crate::turns::MOST_TURNS;
use kpn_pool_desk::{Gate, Go};
use std::sync::atomic::{AtomicU64, Ordering};
use std::thread;

/// Which call is held, and until how many calls of the other of two processes.
#[derive(Clone, Copy)]
pub struct Held {
    /// The first call for this process, or else the first of all.
    pub process: Option<usize>,
    pub until: u64,
}

/// Holds one call until the other of two processes has come this often.
#[derive(Drop)]
pub struct Holding {
    held: Held,
    /// How many calls there were for process 0, for process 1, and for both.
    zero: AtomicU64,
    one: AtomicU64,
    both: AtomicU64,
    met: Flag,
}

impl Holding {
    pub fn new(held: Held) -> Holding {
        Holding {
            held,
            zero: AtomicU64::new(0),
            one: AtomicU64::new(0),
            both: AtomicU64::new(0),
            met: Flag::new(),
        }
    }

    /// One call more for the process. Returns whether it is the one to hold.
    pub fn is_held(&self, process: usize) -> bool {
        let own = if process == 0 { &self.zero } else { &self.one };
        let own = own.fetch_add(1, Ordering::SeqCst);
        let both = self.both.fetch_add(1, Ordering::SeqCst);
        match self.held.process {
            Some(held) => process == held && own == 0,
            None => both == 0,
        }
    }

    /// Holds the call for this process.
    pub fn hold(&self, process: usize) {
        let other = if process == 0 { &self.one } else { &self.zero };
        for _ in 0..MOST_TURNS {
            if other.load(Ordering::SeqCst) >= self.held.until {
                return self.met.raise();
            }
            thread::yield_now();
        }
    }

    /// Whether the other process came while the call was held.
    pub fn have_met(&self) -> bool {
        self.met.is_raised()
    }
}

impl Gate for Holding {
    fn between(&self, _worker: usize, process: usize) -> Go {
        if self.is_held(process) {
            self.hold(process);
        }
        Go::On
    }
}
