//! What an audit finds.
ghost use Rattle.std.specs.Prelude.{◌≡◌};
ghost use Rattle.kpn_audit.specs.declared.findings.AuditFault.TheVariants.{NoMemory};

use kpn_chan::Journal;
use kpn_history::How;
use kpn_lang::Sequence;
use kpn_net::Wait;
use std::alloc::{AllocError, Allocator, Global};
use thiserror::Error;

/// What stands after a legal history. Each list has an entry for each channel, or for each process, in order of number.
pub struct Audit<A: Allocator = Global> {
    /// All items that were written on the channel, in order.
    pub journals: Sequence<Journal<A>, A>,
    /// How many items were read from the channel.
    pub reads: Sequence<usize, A>,
    /// How many may lie unread; None for a source.
    pub caps: Sequence<Option<u32>, A>,
    /// Whether the channel is complete: its writer is finished, or it is a closed source, so nothing more is put there.
    pub complete: Sequence<bool, A>,
    /// What the process waits for.
    pub waits: Sequence<Wait, A>,
    /// How the process has ended; None if it has not.
    pub ends: Sequence<Option<How>, A>,
    /// Whether each process has ended or is blocked on an empty channel.
    pub exact: bool,
}

/// It is written out, so that what drops an audit proves nothing about its lists.
impl<A: Allocator> Drop for Audit<A> {
    fn drop(self) {
        let Audit {
            journals,
            reads,
            caps,
            complete,
            waits,
            ends,
            exact: _,
        } = self;
        drop(journals);
        drop(reads);
        drop(caps);
        drop(complete);
        drop(waits);
        drop(ends);
    }
}

/// Why a trace is not accepted, with its number.
#[derive(Clone, Copy, Debug, PartialEq, Eq, Error)]
pub enum AuditFault {
    /// 50: this event, counted from 0, is the first after which no legal history goes on.
    #[error("event {0} makes the trace illegal")]
    Illegal(usize),
    /// 51: memory ran out.
    #[error("memory ran out")]
    NoMemory,
    /// 52: the process of this event used up its steps before it came to the event.
    #[error("the process of event {0} used up its steps before it came to the event")]
    Budget(usize),
    /// 53: the policy or the growth of the trace is not that of the network. Looked for first.
    #[error("the policy or the growth of the trace is not that of the network")]
    PolicyDiffers,
}

impl From<AllocError> for AuditFault {
    ghost from_gives = { λ _ fault. fault ≡ NoMemory };

    fn from(_error: AllocError) -> AuditFault {
        AuditFault::NoMemory
    }
}
