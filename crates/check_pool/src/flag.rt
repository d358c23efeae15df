//! A flag.
use std::sync::atomic::{AtomicU64, Ordering};

/// Somebody raises it once, and nobody lowers it.
#[derive(Drop)]
pub struct Flag {
    raised: AtomicU64,
}

impl Flag {
    pub fn new() -> Flag {
        Flag {
            raised: AtomicU64::new(0),
        }
    }

    pub fn raise(&self) {
        self.raised.store(1, Ordering::SeqCst);
    }

    pub fn is_raised(&self) -> bool {
        self.raised.load(Ordering::SeqCst) == 1
    }
}
