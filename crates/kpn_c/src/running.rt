//! A network is run on lists that stand in one flat list.
ghost use Rattle.std.specs.Prelude.{◌≡◌, ℕ, ℤ, List, IfOk, IfErr};
ghost use Rattle.kpn_c.specs.Lists.{AreLists};
ghost use Rattle.kpn_c.specs.Running.{TellsReport, IsRunOn, RefusesLists};

use crate::lists::{CutFault, cut, flat_of};
use crate::telling::trace_of;
use kpn_book::{Limits, Outcome, Report, run_here};
use kpn_lang::Sequence;
use kpn_net::Network;
use std::alloc::Global;

/// What a run tells.
#[derive(Drop)]
pub struct RunResult {
    pub outcome: Outcome,
    /// How many commits were made.
    pub commits: u64,
    /// The items that were read of the sinks, sink by sink, in order of channel number: of each the first ones, as many
    /// as are wanted at most.
    pub items: Vec<i64>,
    /// How many of these items are of each sink.
    pub lengths: Vec<usize>,
    /// The text of its trace.
    pub trace: Vec<u8>,
}

/// Runs a network on the lists of these lengths, which stand one after the other in `items`.
pub(crate) fn run_network(
    alloc: Global,
    network: &Network,
    items: &[i64],
    lengths: &[usize],
    limits: &Limits,
) -> Result<RunResult, CutFault>
    ensures ran { IfOk result (IsRunOn network.now items.now lengths.now limits.now) }
    ensures fault { IfErr result (RefusesLists network.now items.now lengths.now) }
{
    let lists = cut(alloc, items, lengths)?;
    run_lists(alloc, network, lists.as_slice(), limits)
}

/// Runs a network on these lists.
fn run_lists(
    alloc: Global,
    network: &Network,
    lists: &[Sequence<i64>],
    limits: &Limits,
) -> Result<RunResult, CutFault>
    ensures ran { IfOk result (λ ran. (items : List ℤ) (lengths : List ℕ) → AreLists items lengths lists.now
        → IsRunOn network.now items lengths limits.now ran) }
    ensures fault { IfErr result (λ fault. (items : List ℤ) (lengths : List ℕ)
        → AreLists items lengths lists.now → RefusesLists network.now items lengths fault) }
{
    if lists.len() != network.sources() {
        return Err(CutFault::Lengths);
    }
    match run_here(alloc, network, lists, limits) {
        Ok(report) => told_of(alloc, network, &report, limits.take),
        Err(_) => Err(CutFault::NoMemory),
    }
}

/// What a report tells, if this many items of each sink are wanted.
fn told_of(
    alloc: Global,
    network: &Network,
    report: &Report,
    wanted: Option<u64>,
) -> Result<RunResult, CutFault>
    ensures told { IfOk result (TellsReport network.now wanted report.now) }
    ensures fault { IfErr result (λ fault. fault ≡ CutFault.NoMemory) }
{
    let (items, lengths) = flat_of(alloc, report.taken.as_slice(), wanted)?;
    let trace = trace_of(alloc, network, &report.history)?;
    Ok(RunResult {
        outcome: report.outcome,
        commits: report.commits,
        items,
        lengths,
        trace,
    })
}
