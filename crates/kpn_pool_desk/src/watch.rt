//! How the steps of a process are timed.
use std::time::{Clock, Instant};

/// Reads a clock, or none.
pub(crate) trait Watch {
    fn read(&self) -> Option<Instant>;
}

/// Reads none.
#[derive(Drop)]
pub(crate) struct NoWatch;

impl Watch for NoWatch {
    fn read(&self) -> Option<Instant> {
        None
    }
}

/// Reads this clock.
#[derive(Drop)]
pub(crate) struct ClockWatch<'r, R: Clock> {
    pub(crate) rt: &'r R,
}

impl<'r, R: Clock> Watch for ClockWatch<'r, R> {
    fn read(&self) -> Option<Instant> {
        Instant::now(self.rt).ok()
    }
}
