//! The clocks of the history of a trace.
ghost use Rattle.std.specs.Prelude.{◌≡◌, IfOk};
ghost use Rattle.kpn_audit.specs.Stored.{audited_under, tables_for, history_in};
ghost use Rattle.kpn_ticks.specs.Ticks.{clocks_after};
ghost use Rattle.kpn_ticks.specs.Shown.{shown};

use crate::clocks::{Clocks, clocks_after};
use kpn_history::{Event, Trace, Version};
use kpn_net::{Growth, Network, Policy};
use std::alloc::{AllocError, Global};

/// What is known of time after the history of a trace, under the rules of growth of its version.
pub fn clocks_of(
    alloc: Global,
    network: &Network,
    trace: &Trace,
    has_capacities: bool,
) -> Result<Clocks, AllocError>
    ensures { IfOk result (λ clocks. shown clocks
        ≡ clocks_after (tables_for network.now trace.now) has_capacities
        (history_in network.now trace.now)) }
{
    let events = trace.events.as_slice();
    clocks_under(alloc, network, trace.version, events, has_capacities)
}

// The clocks after these events, under the rules of growth of their version.
fn clocks_under(
    alloc: Global,
    network: &Network,
    version: Version,
    events: &[Event],
    has_capacities: bool,
) -> Result<Clocks, AllocError>
    ensures { IfOk result (λ clocks. shown clocks
        ≡ clocks_after (audited_under version network.now) has_capacities events.now) }
{
    match version {
        Version::One => {
            let plain = network.under(Policy::Cycles, Growth::One)?;
            clocks_after(alloc, &plain, has_capacities, events)
        }
        Version::Two => clocks_after(alloc, network, has_capacities, events),
    }
}
