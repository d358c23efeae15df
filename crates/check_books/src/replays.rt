//! A history, replayed by the calls of a machine.
ghost use Rattle.kpn_machine.specs.Machine.{IsMachine};

mod events;
mod telling;

use crate::replays::events::happen;
use crate::replays::telling::write_state;
use anyhow::{Result, bail};
use kpn_machine::Machine;
use kpn_net::Network;
use kpn_trace::{Version, read_event};
use std::alloc::Global;
use std::io::Write;

/// Makes the event of a line, and writes what came of it.
fn replay_line<O: Write>(
    alloc: Global,
    network: &Network,
    state: &mut Machine,
    line: &str,
    out: &mut O,
) -> Result<()>
    requires { IsMachine network.now state.old }
    ensures { IsMachine network.now state.new }
{
    let Ok(event) = read_event(line.as_bytes(), Version::One) else {
        bail!("a line is no event");
    };
    let woken = happen(state, network, event)?;
    let processes = woken.as_slice();
    writeln!(out, "{line}\n  wakes {processes:?}")?;
    write_state(alloc, network, state, out)
}

/// Replays the events of these lines.
fn replay_lines<O: Write>(
    alloc: Global,
    network: &Network,
    state: &mut Machine,
    lines: &str,
    out: &mut O,
) -> Result<()>
    requires { IsMachine network.now state.old }
{
    write_state(alloc, network, state, out)?;
    for line in lines.lines() {
        replay_line(alloc, network, state, line, out)?;
    }
    Ok(())
}

/// Replays a trace without its first line.
pub(crate) fn replay<O: Write>(
    alloc: Global,
    network: &Network,
    lines: &str,
    out: &mut O,
) -> Result<()> {
    let mut state = Machine::new(alloc, network)?;
    replay_lines(alloc, network, &mut state, lines, out)
}
