//! The trace of a run, as text.
ghost use Rattle.std.specs.Prelude.{◌≡◌, IfOk};
ghost use Rattle.kpn_history.specs.declared.stored.Version.TheVariants.{Two};
ghost use Rattle.kpn_trace.specs.TraceText.{trace_text};

use kpn_history::History;
use kpn_net::Network;
use kpn_trace::write_trace;
use std::alloc::{AllocError, Global};

// How many bytes are reserved for each line. The longest has 37 with its line feed: a `put` of the least item, if the
// two numbers are 65535.
const BYTES_PER_LINE: usize = 40;

/// The text of a trace. There is room for each line before the first is made. The error is that memory ran out.
pub(crate) fn trace_of(
    alloc: Global,
    network: &Network,
    history: &History,
) -> Result<Vec<u8>, AllocError>
    ensures { let t = network.now in IfOk result (λ text.
        text.items ≡ trace_text Two t.policy t.growth history.now.events) }
{
    let lines = history.len().saturating_add(2);
    let mut text = Vec::with_capacity(alloc, lines.saturating_mul(BYTES_PER_LINE))?;
    match write_trace(&mut text, network.policy(), network.growth(), history) {
        Ok(()) => Ok(text),
        Err(_) => Err(AllocError),
    }
}
