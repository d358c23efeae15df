//! The cycles of waiting processes after a history, and which processes and channels are parts of them.

use kpn_audit::Audit;
use kpn_deadlock::cycles;
use kpn_lang::Sequence;
use kpn_net::{Network, Wait};
use std::alloc::{AllocError, Global};

/// The cycles of waiting processes: rings, and those with full channels.
#[derive(Drop)]
pub(crate) struct Knots {
    cycles: Sequence<Sequence<usize>>,
}

impl Knots {
    /// The cycles after an audited history; none without an audit.
    pub(crate) fn of(
        alloc: Global,
        network: &Network,
        audit: Option<&Audit>,
    ) -> Result<Self, AllocError> {
        let cycles = match audit {
            Some(audit) => cycles(alloc, network, audit.waits.as_slice())?,
            None => Sequence::new(alloc),
        };
        Ok(Knots { cycles })
    }

    /// Whether there are cycles.
    pub(crate) fn is_some(&self) -> bool {
        0 < self.cycles.as_slice().len()
    }

    /// Whether a process is a member of a cycle.
    pub(crate) fn is_member(&self, p: usize) -> bool {
        for members in self.cycles.as_slice() {
            for member in members.as_slice() {
                if *member == p {
                    return true;
                }
            }
        }
        false
    }

    /// Whether a member of a cycle waits on a channel.
    pub(crate) fn is_awaited(&self, audit: Option<&Audit>, c: usize) -> bool {
        let Some(audit) = audit else {
            return false;
        };
        for (p, wait) in audit.waits.as_slice().iter().enumerate() {
            if is_on(*wait, c) && self.is_member(p) {
                return true;
            }
        }
        false
    }

    /// Whether a member of a cycle waits for room on a channel.
    pub(crate) fn jams(&self, audit: &Audit, c: usize) -> bool {
        for (p, wait) in audit.waits.as_slice().iter().enumerate() {
            if *wait == Wait::Full(c) && self.is_member(p) {
                return true;
            }
        }
        false
    }
}

// Whether a wait is on this channel.
fn is_on(wait: Wait, c: usize) -> bool {
    match wait {
        Wait::Empty(d) | Wait::Full(d) => d == c,
        Wait::Nobody => false,
    }
}
