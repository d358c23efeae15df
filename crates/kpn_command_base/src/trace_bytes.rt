//! The text of the trace of a run, and its file.
ghost use Rattle.std.specs.Prelude.{◌≡◌, IfOk, IfErr, OnOk};
ghost use Rattle.kpn_trace.specs.TraceText.{trace_text};
ghost use Rattle.kpn_command_base.specs.Stored.{IsReadable, Stores};

use crate::refusal::Refusal;
use kpn_history::{History, Version};
use kpn_limits::MAX_INPUT_BYTES;
use kpn_net::Network;
use kpn_shelf::Shelf;
use kpn_text_items::WriteFault;
use kpn_trace::write_trace;
use std::alloc::Global;

// How many bytes are reserved for each line. The longest has 37 with its line feed: a `put` of the least item, if the
// two numbers are 65535.
const LINE_BYTES: usize = 40;

/// The text of a trace. There is room for each line before the first is made.
pub fn trace_of(alloc: Global, network: &Network, history: &History) -> Result<Vec<u8>, Refusal>
    ensures ok { let t = network.now in IfOk result (λ text.
        text.items ≡ trace_text Version.Two t.policy t.growth history.now.events) }
    ensures refused { IfErr result (λ refusal. refusal ≡ Refusal.NoMemory) }
{
    let lines = history.len().saturating_add(2);
    let mut text = Vec::with_capacity(alloc, lines.saturating_mul(LINE_BYTES))?;
    match write_trace(&mut text, network.policy(), network.growth(), history) {
        Ok(()) => Ok(text),
        Err(_) => Err(Refusal::NoMemory),
    }
}

/// Stores the text of a trace under this name, unless it has more bytes than are read of a file.
pub fn store_trace<S: Shelf>(
    alloc: Global,
    name: &str,
    network: &Network,
    history: &History,
    shelf: &mut S,
) -> Result<(), Refusal>
    ensures readable { let t = network.now in OnOk result
        (IsReadable (trace_text Version.Two t.policy t.growth history.now.events)) }
    ensures stores { let t = network.now in Stores S.may_give
        (record {
          name = name.now;
          bytes = trace_text Version.Two t.policy t.growth history.now.events;
        }) shelf.old shelf.new result }
{
    let bytes = match trace_of(alloc, network, history) {
        Ok(bytes) => bytes,
        Err(refusal) => return Err(refusal),
    };
    if bytes.len() > MAX_INPUT_BYTES {
        return Err(Refusal::Output(WriteFault::Write));
    }
    match shelf.store(name, &bytes) {
        Ok(()) => Ok(()),
        Err(fault) => Err(Refusal::Output(fault)),
    }
}
