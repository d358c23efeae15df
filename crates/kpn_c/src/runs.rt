//! Descriptions are checked, and networks are run on whole lists.
ghost use Rattle.std.specs.Prelude.{◌≡◌};
ghost use Rattle.kpn_c.specs.Exports.{Checks};
ghost use Rattle.kpn_c.specs.Runs.{limits_from, buffers_of, PutsIfAllFits, RunsNetwork};

use crate::codes::{FaultPlace, LISTS, NO_MEMORY, OK, TOO_SMALL, code_of_outcome, tell};
use crate::fault::fault_of;
use crate::slices::{put_bytes, put_items, put_lengths};
use crate::texts::{TextRunFault, check, run};
use std::alloc::Global;

/// When a run stops.
#[repr(C)]
#[derive(Clone, Copy)]
pub struct GivenLimits {
    pub commits: u64,
    pub has_take: bool,
    pub take: u64,
    pub quota: u32,
}

/// What a run has come to, and how much room its items, sinks and trace want.
#[repr(C)]
#[derive(Clone, Copy)]
pub struct RunSizes {
    pub outcome: u32,
    pub commits: u64,
    pub items: usize,
    pub sinks: usize,
    pub trace: usize,
}

/// Reads a description. Returns 0, or the number of the fault.
#[unsafe(no_mangle)]
pub extern "C" fn kpn_c_check(alloc: Global, text: &[u8], place: &mut FaultPlace) -> u32
    ensures { Checks text.now result place.new }
{
    match check(alloc, text) {
        Ok(()) => OK,
        Err(fault) => tell(fault_of(fault), place),
    }
}

/// Runs a network on lists.
#[unsafe(no_mangle)]
pub extern "C" fn kpn_c_run(
    alloc: Global,
    text: &[u8],
    items: &[i64],
    lengths: &[usize],
    limits: &GivenLimits,
    room: &mut [i64],
    sinks: &mut [usize],
    trace: &mut [u8],
    ran: &mut RunSizes,
    place: &mut FaultPlace,
) -> u32
    ensures { RunsNetwork text.now items.now lengths.now limits.now result place.new ran.old ran.new
        (buffers_of room.old sinks.old trace.old) (buffers_of room.new sinks.new trace.new) }
{
    match run(alloc, text, items, lengths, &limits_of(limits)) {
        Ok(told) => put(&told, room, sinks, trace, ran),
        Err(TextRunFault::Text(fault)) => tell(fault_of(fault), place),
        Err(TextRunFault::Lists) => LISTS,
        Err(TextRunFault::NoMemory) => NO_MEMORY,
    }
}

fn limits_of(limits: &GivenLimits) -> kpn_book::Limits
    ensures { result ≡ limits_from limits.now }
{
    kpn_book::Limits {
        commits: limits.commits,
        take: if limits.has_take {
            Some(limits.take)
        } else {
            None
        },
        quota: limits.quota,
    }
}

/// Puts what a run tells where C wants it, if all of it fits.
fn put(
    told: &crate::running::RunResult,
    room: &mut [i64],
    sinks: &mut [usize],
    trace: &mut [u8],
    ran: &mut RunSizes,
) -> u32
    ensures { PutsIfAllFits told.now result ran.new
        (buffers_of room.old sinks.old trace.old) (buffers_of room.new sinks.new trace.new) }
{
    let items = told.items.as_slice();
    let lengths = told.lengths.as_slice();
    let text = told.trace.as_slice();
    *ran = RunSizes {
        outcome: code_of_outcome(told.outcome),
        commits: told.commits,
        items: items.len(),
        sinks: lengths.len(),
        trace: text.len(),
    };
    if room.len() < items.len() || sinks.len() < lengths.len() || trace.len() < text.len() {
        return TOO_SMALL;
    }
    put_items(room, items);
    put_lengths(sinks, lengths);
    put_bytes(trace, text);
    OK
}
