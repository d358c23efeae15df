//! The command reads a network and a trace, audits the trace, and writes the figures of its history.
ghost use Rattle.std.specs.Prelude.{IfOk, IfErr};
ghost use Rattle.kpn_command_base.specs.Conclusion.{TellsOnly};
ghost use Rattle.kpn_command_base.specs.Audited.{IsAnyToldOf, IsAnyTextFor, IsRefusalOfAudit};

use crate::measured::measure;
use crate::stats_text::{MeasuredRun, text_of};
use kpn_command_base::{Audited, Conclusion, Finding, Refusal, StatsTables, load_audited};
use kpn_shelf::Shelf;
use std::alloc::{AllocError, Global};

/// What `kpn stats FILE TRACE` comes to. Each process may make `steps` steps before each of its events. It reads the
/// description first, then the trace. It tells these tables of a legal trace, and what an audit tells of any other.
pub fn stats_command<S: Shelf>(
    alloc: Global,
    file: &str,
    trace: &str,
    steps: u64,
    tables: StatsTables,
    shelf: &S,
) -> Result<Conclusion, Refusal>
    ensures ok { IfOk result
        (TellsOnly (IsAnyToldOf (S.may_give shelf.now) file.now trace.now steps)) }
    ensures refused { IfErr result (IsRefusalOfAudit (S.may_give shelf.now) file.now trace.now) }
{
    let audited = load_audited(alloc, shelf, file, trace, steps)?;
    let conclusion = conclusion_of(alloc, tables, &audited, steps)?;
    Ok(conclusion)
}

// The text for a finding, and its status.
fn conclusion_of(
    alloc: Global,
    tables: StatsTables,
    audited: &Audited,
    steps: u64,
) -> Result<Conclusion, AllocError>
    ensures { IfOk result (TellsOnly (IsAnyTextFor audited.now.finding)) }
{
    match &audited.finding {
        Finding::Legal(audit) => {
            let (document, trace) = (&audited.document, &audited.trace);
            let measured = measure(alloc, document, trace, steps)?;
            let told = MeasuredRun {
                document,
                trace,
                audit,
                measured: &measured,
            };
            let text = text_of(alloc, tables, told)?;
            Ok(Conclusion {
                text,
                status: 0,
                files: Vec::new(alloc),
            })
        }
        Finding::NotLegal(flaw) => flaw.conclusion(alloc),
    }
}
