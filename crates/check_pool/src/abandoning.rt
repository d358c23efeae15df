//! The gate of all these tests. It is one type, since a run is compiled and proved anew for each type of gate.
use crate::holding::{Held, Holding};
use kpn_pool_desk::{Gate, Go};
use std::sync::atomic::{AtomicU64, Ordering};

/// Counts its calls, and lets commits through but for some calls. It may hold one call.
#[derive(Drop)]
pub struct TestGate {
    /// Whether it says that it lets all through. Then it does.
    lets_all: bool,
    /// It abandons at this call, counted from 0, and at those after it that come before another one.
    from: u64,
    until: u64,
    calls: AtomicU64,
    holding: Option<Holding>,
}

impl TestGate {
    fn new(lets_all: bool, from: u64, until: u64, holding: Option<Holding>) -> TestGate {
        TestGate {
            lets_all,
            from,
            until,
            calls: AtomicU64::new(0),
            holding,
        }
    }

    /// Abandons at these calls.
    pub fn abandons(from: u64, until: u64) -> TestGate {
        TestGate::new(false, from, until, None)
    }

    /// Lets all through. It may say so.
    pub fn open(says_so: bool) -> TestGate {
        TestGate::new(says_so, 0, 0, None)
    }

    /// Lets all through, and holds a call. It may say that it lets all through.
    pub fn holds(held: Held, says_so: bool) -> TestGate {
        TestGate::new(says_so, 0, 0, Some(Holding::new(held)))
    }

    /// How often it was asked.
    pub fn calls(&self) -> u64 {
        self.calls.load(Ordering::SeqCst)
    }

    /// Whether the other process came while a call was held.
    pub fn have_met(&self) -> bool {
        self.holding
            .as_ref()
            .is_some_and(|holding| holding.have_met())
    }
}

impl Gate for TestGate {
    ghost use Rattle.std.specs.Prelude.{◌≡◌, true};
    ghost use Rattle.kpn_pool_desk.specs.declared.gate.Go.TheVariants.{On};

    ghost may_answer = { λ gate _ _ go. (gate.lets_all ≡ true) → go ≡ On };

    fn between(&self, _worker: usize, process: usize) -> Go {
        let call = self.calls.fetch_add(1, Ordering::SeqCst);
        if let Some(holding) = &self.holding {
            if holding.is_held(process) {
                holding.hold(process);
            }
        }
        if !self.lets_all && self.from <= call && call < self.until {
            Go::Abandon
        } else {
            Go::On
        }
    }

    fn lets_all(&self) -> bool {
        self.lets_all
    }
}
