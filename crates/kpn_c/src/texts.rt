//! The network that a text describes is checked, or run on lists.
ghost use Rattle.std.specs.Prelude.{IfOk, IfErr, OnOk};
ghost use Rattle.kpn_text.specs.Phases.{Refuses};
ghost use Rattle.kpn_c.specs.Texts.{IsText, RunsText, RefusesRun, RefusesRunOn};
ghost use Rattle.kpn_c.specs.Running.{IsRunOn};

use crate::lists::CutFault;
use crate::running::{RunResult, run_network};
use kpn_book::Limits;
use kpn_net::Network;
use kpn_text::{TextFault, read_network};
use std::alloc::Global;

/// Why there is no run.
#[derive(Clone, Copy)]
pub enum TextRunFault {
    /// The text is no description.
    Text(TextFault),
    /// There is not one length for each source, or the lengths do not sum up to the number of items.
    Lists,
    /// Memory ran out.
    NoMemory,
}

/// Reads a description, and says why it is none.
pub fn check(alloc: Global, text: &[u8]) -> Result<(), TextFault>
    ensures ok { OnOk result (IsText text.now) }
    ensures fault { IfErr result (Refuses text.now) }
{
    match read_network(alloc, text) {
        Ok(_) => Ok(()),
        Err(fault) => Err(fault),
    }
}

/// Runs the network that a text describes on lists, one for each source, until there is an outcome under the limits.
/// The lists stand one after the other in `items`, and have these lengths.
pub fn run(
    alloc: Global,
    text: &[u8],
    items: &[i64],
    lengths: &[usize],
    limits: &Limits,
) -> Result<RunResult, TextRunFault>
    ensures ran { IfOk result (RunsText text.now items.now lengths.now limits.now) }
    ensures fault { IfErr result (RefusesRun text.now items.now lengths.now) }
{
    match read_network(alloc, text) {
        Ok(document) => run_described(alloc, document.network(), items, lengths, limits),
        Err(fault) => Err(TextRunFault::Text(fault)),
    }
}

/// Runs the network of a description.
fn run_described(
    alloc: Global,
    network: &Network,
    items: &[i64],
    lengths: &[usize],
    limits: &Limits,
) -> Result<RunResult, TextRunFault>
    ensures ran { IfOk result (IsRunOn network.now items.now lengths.now limits.now) }
    ensures fault { IfErr result (RefusesRunOn network.now items.now lengths.now) }
{
    match run_network(alloc, network, items, lengths, limits) {
        Ok(ran) => Ok(ran),
        Err(CutFault::Lengths) => Err(TextRunFault::Lists),
        Err(CutFault::NoMemory) => Err(TextRunFault::NoMemory),
    }
}
