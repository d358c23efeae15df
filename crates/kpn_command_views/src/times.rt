//! When the gets and puts of a history take place.
ghost use Rattle.std.specs.Prelude.{◌≡◌, count_by, IfOk};
ghost use Rattle.kpn_audit.specs.Stored.{tables_for, history_in};
ghost use Rattle.kpn_command_views.specs.HistoryTimes.{is_move, AreTimes};

use kpn_history::{Event, Trace};
use kpn_net::Network;
use kpn_ticks::{Clocks, clocks_of, shares_of};
use std::alloc::{AllocError, Global};

/// The clocks after a history, and how much happens in it.
#[derive(Drop)]
pub(crate) struct HistoryTimes {
    /// With the capacities of the network.
    pub(crate) bounded: Clocks,
    /// Without capacities.
    pub(crate) free: Clocks,
    /// For how many ticks each process binds the run.
    pub(crate) shares: Vec<usize>,
    /// How many events there are.
    pub(crate) events: usize,
    /// How many of them are gets and puts.
    pub(crate) moves: usize,
}

/// The times of the history of a trace.
pub(crate) fn times_of(
    alloc: Global,
    network: &Network,
    trace: &Trace,
) -> Result<HistoryTimes, AllocError>
    ensures { IfOk result
        (AreTimes (tables_for network.now trace.now) (history_in network.now trace.now)) }
{
    let shares = shares_of(alloc, network, trace)?;
    let bounded = clocks_of(alloc, network, trace, true)?;
    let free = clocks_of(alloc, network, trace, false)?;
    let events = trace.events.as_slice();
    let moves = moves_among(events);
    Ok(HistoryTimes {
        bounded,
        free,
        shares,
        events: events.len(),
        moves,
    })
}

// How many of these events are gets and puts.
fn moves_among(events: &[Event]) -> usize
    ensures { result ≡ count_by is_move events.now }
{
    events.iter().filter(|event| is_move(**event)).count()
}

fn is_move(event: Event) -> bool
    ensures { result ≡ is_move event }
{
    matches!(event, Event::Get(_, _, _) | Event::Put(_, _, _))
}
