//! What is measured of a legal history: its figures and its times.
ghost use Rattle.std.specs.Prelude.{IfOk};
ghost use Rattle.kpn_audit.specs.Stored.{tables_for, history_in};
ghost use Rattle.kpn_command_views.specs.Measured.{AreMeasured};

use crate::figures::{Figures, count};
use crate::steps::steps_of;
use crate::times::{HistoryTimes, times_of};
use kpn_history::Trace;
use kpn_text::Document;
use std::alloc::{AllocError, Global};

/// The figures and the times of a history, and how many steps each process makes in it.
#[derive(Drop)]
pub(crate) struct Measured {
    pub(crate) figures: Figures,
    pub(crate) times: HistoryTimes,
    pub(crate) steps: Vec<usize>,
}

/// Measures the history of a trace of the document's network, in which each process makes at most `quota` steps before
/// each of its events.
pub(crate) fn measure(
    alloc: Global,
    document: &Document,
    trace: &Trace,
    quota: u64,
) -> Result<Measured, AllocError>
    ensures { IfOk result (AreMeasured document.now trace.now) }
{
    let network = document.network();
    let figures = count(alloc, network, trace.events.as_slice())?;
    let times = times_of(alloc, network, trace)?;
    let steps = steps_of(alloc, network, trace.events.as_slice(), quota)?;
    Ok(Measured {
        figures,
        times,
        steps,
    })
}
