//! What an audit shows of a process and of a channel.
ghost use Rattle.std.specs.Prelude.{◌≡◌, ◌<◌, [], length, slice_index_or, option_map};
ghost use Rattle.kpn_net.specs.Tables.{capacity, channel_at};
ghost use Rattle.kpn_command_views.specs.Found.{standing_state, state_in, state_of, capacity_grown_to, flow_in, flow_of};

use kpn_audit::Audit;
use kpn_history::{How, State};
use kpn_net::{Network, Wait};

/// What went over a channel in a history.
#[derive(Clone, Copy)]
pub(crate) struct ChannelFlow {
    /// How many items were put on it.
    pub put: usize,
    /// How many of them are unread.
    pub unread: usize,
    /// The capacity that it has grown to, if it has grown.
    pub grown: Option<u32>,
    /// Whether the channel is complete.
    pub is_complete: bool,
}

/// The state of process `p` after the history that was audited; ready if there is none.
pub(crate) fn state_of(audit: Option<&Audit>, p: usize) -> State
    ensures { result ≡ state_of (option_map (λ a. a.now) audit.entry) p }
{
    match audit {
        Some(audit) => state_in(audit, p),
        None => State::Ready,
    }
}

fn state_in(audit: &Audit, p: usize) -> State
    ensures { result ≡ state_in audit.now p }
{
    let end = audit.ends.as_slice().get(p).copied().unwrap_or(None);
    let wait = audit
        .waits
        .as_slice()
        .get(p)
        .copied()
        .unwrap_or(Wait::Nobody);
    standing(end, wait)
}

// The state of a process that has ended in this way or not, and waits for this.
fn standing(end: Option<How>, wait: Wait) -> State
    ensures { result ≡ standing_state end wait }
{
    match (end, wait) {
        (Some(how), _) => State::Ended(how),
        (None, Wait::Empty(channel)) => State::WaitsEmpty(channel),
        (None, Wait::Full(channel)) => State::WaitsFull(channel),
        (None, Wait::Nobody) => State::Ready,
    }
}

/// What went over channel `c` in the history that was audited; none if there is none.
pub(crate) fn flow_of(network: &Network, audit: Option<&Audit>, c: usize) -> Option<ChannelFlow>
    requires { c < length network.now.channels }
    ensures { result ≡ flow_of network.now (option_map (λ a. a.now) audit.entry) c }
{
    match audit {
        Some(audit) => Some(flow_in(network, audit, c)),
        None => None,
    }
}

fn flow_in(network: &Network, audit: &Audit, c: usize) -> ChannelFlow
    requires { c < length network.now.channels }
    ensures { result ≡ flow_in network.now audit.now c }
{
    let put = put_in(audit, c);
    let read = audit.reads.as_slice().get(c).copied().unwrap_or(0);
    let cap = audit.caps.as_slice().get(c).copied().unwrap_or(None);
    ChannelFlow {
        put,
        unread: put.saturating_sub(read),
        grown: grown_to(network.cap_of(c), cap),
        is_complete: audit.complete.as_slice().get(c).copied().unwrap_or(false),
    }
}

// How many items were put on channel `c`.
fn put_in(audit: &Audit, c: usize) -> usize
    ensures { result ≡ length (slice_index_or audit.now.journals c []) }
{
    match audit.journals.as_slice().get(c) {
        Some(journal) => journal.len(),
        None => 0,
    }
}

// The capacity that a channel has grown to from its first one; none if it has not grown.
fn grown_to(first: Option<u32>, now: Option<u32>) -> Option<u32>
    ensures { result ≡ capacity_grown_to first now }
{
    match (first, now) {
        (Some(first), Some(now)) if first < now => Some(now),
        _ => None,
    }
}
