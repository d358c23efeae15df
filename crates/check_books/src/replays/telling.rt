//! All that a machine shows, written as lines.
ghost use Rattle.std.specs.Prelude.{◌<◌, length};
ghost use Rattle.kpn_machine.specs.Machine.{IsMachine};

use anyhow::{Result, bail};
use kpn_machine::Machine;
use kpn_net::{Network, Policy};
use std::alloc::Global;
use std::io::Write;

/// What a channel holds: all items that were ever put on it, how many of them were read, its capacity, and whether it
/// is a closed source and whether its reader is gone.
fn write_channel<O: Write>(
    alloc: Global,
    network: &Network,
    state: &Machine,
    c: usize,
    out: &mut O,
) -> Result<()>
    requires shape { IsMachine network.now state.now }
    requires channel { c < length network.now.channels }
{
    let channel = state.channel(c);
    let Ok(journal) = state.copy_journal(alloc, c) else {
        bail!("there is no journal");
    };
    let (items, read, capacity) = (journal.as_slice(), channel.read_count(), channel.cap());
    let (closed, left) = (state.is_closed(c), channel.is_retired());
    writeln!(
        out,
        "  channel {c}: {items:?} read {read} cap {capacity:?} closed {closed} left {left}"
    )?;
    Ok(())
}

/// What a process waits for, how it ended, and which channel has to grow if it has just come to wait.
fn write_process<O: Write>(network: &Network, state: &Machine, p: usize, out: &mut O) -> Result<()>
    requires shape { IsMachine network.now state.now }
    requires process { p < length network.now.instances }
{
    let (wait, end, owed) = (state.wait(p), state.end_of(p), state.owed(network, p));
    writeln!(
        out,
        "  process {p}: wait {wait:?} end {end:?} owes {owed:?}"
    )?;
    Ok(())
}

fn write_channels<O: Write>(
    alloc: Global,
    network: &Network,
    state: &Machine,
    out: &mut O,
) -> Result<()>
    requires { IsMachine network.now state.now }
{
    for c in 0..network.channels() {
        write_channel(alloc, network, state, c, out)?;
    }
    Ok(())
}

fn write_processes<O: Write>(network: &Network, state: &Machine, out: &mut O) -> Result<()>
    requires { IsMachine network.now state.now }
{
    for p in 0..network.instances() {
        write_process(network, state, p, out)?;
    }
    Ok(())
}

/// Under the policy `all`, the growth that is owed for a stop.
fn write_growth_at_stop<O: Write>(network: &Network, state: &Machine, out: &mut O) -> Result<()>
    requires { IsMachine network.now state.now }
{
    if network.policy() == Policy::All {
        let owed = state.owed_at_stop(network);
        writeln!(out, "  owes at the stop {owed:?}")?;
    }
    Ok(())
}

/// The channels, the processes, a line that says whether all is quiet and which verdict there is, and the growth that
/// is owed for a stop.
pub(crate) fn write_state<O: Write>(
    alloc: Global,
    network: &Network,
    state: &Machine,
    out: &mut O,
) -> Result<()>
    requires { IsMachine network.now state.now }
{
    write_channels(alloc, network, state, out)?;
    write_processes(network, state, out)?;
    let (quiet, verdict) = (state.is_quiet(network), state.verdict(network));
    writeln!(out, "  quiet {quiet} verdict {verdict:?}")?;
    write_growth_at_stop(network, state, out)
}
