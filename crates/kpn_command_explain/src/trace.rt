//! The command reads a network and a trace, and explains what an audit of the trace finds.
ghost use Rattle.std.specs.Prelude.{◌≡◌, ◌≢◌, ◌⊎◌, ◌<◌, ℕ, length, IfOk, IfErr};
ghost use Rattle.kpn_command_base.specs.Conclusion.{TellsOnly};
ghost use Rattle.kpn_audit.specs.declared.findings.AuditFault.TheVariants.{Illegal};
ghost use Rattle.kpn_audit.specs.Audit.{IsRefusal};
ghost use Rattle.kpn_command_base.specs.Audited.{IsNoFinding};
ghost use Rattle.kpn_command_base.specs.Refusal.{status_of};
ghost use Rattle.kpn_command_explain.specs.TraceAnswers.{ExplainsFault, IsConclusion, IsExplained, IsExplanation};
ghost use Rattle.kpn_command_explain.specs.TraceAnswers.{IsNoExplanation, IsRefusalOfExplaining};

use crate::trace_text::{illegal_text, legal_text, refused_text};
use kpn_audit::scene_before;
use kpn_command_base::{Conclusion, Finding, Flaw, Refusal, audit_trace, load_document};
use kpn_history::Trace;
use kpn_shelf::Shelf;
use kpn_text::Document;
use kpn_trace::{TraceFault, read_trace};
use std::alloc::Global;

/// What `kpn explain FILE TRACE` comes to. Each process may make `steps` steps before each of its events. It reads the
/// description first, then the trace. For a trace that is legal, and for one out of steps, it tells what `kpn audit`
/// tells, but of each channel no more than the first 20 items. Of a legal one it tells the rings and the faults first,
/// and if it is not exact, also which sinks are complete and why nobody reads where a writer waits.
pub fn explain_trace_command<S: Shelf>(
    alloc: Global,
    file: &str,
    trace: &str,
    steps: u64,
    shelf: &S,
) -> Result<Conclusion, Refusal>
    ensures ok { IfOk result
        (TellsOnly (IsExplained (S.may_give shelf.now) file.now trace.now steps)) }
    ensures refused { IfErr result
        (IsRefusalOfExplaining (S.may_give shelf.now) file.now trace.now) }
{
    let document = load_document(alloc, shelf, file)?;
    match shelf.load(alloc, trace) {
        Ok(bytes) => explanation(alloc, &document, trace, &bytes, steps),
        Err(fault) => Err(Refusal::Input(fault)),
    }
}

// What is explained of the bytes of a trace.
fn explanation(
    alloc: Global,
    document: &Document,
    name: &str,
    bytes: &[u8],
    steps: u64,
) -> Result<Conclusion, Refusal>
    ensures ok { IfOk result
        (TellsOnly (IsExplanation document.now name.now bytes.now steps)) }
    ensures refused { IfErr result (IsNoExplanation document.now.tables bytes.now) }
{
    match read_trace(alloc, bytes) {
        Ok(trace) => conclusion(alloc, document, name, bytes, &trace, steps),
        Err(fault) => wrong(alloc, name, bytes, fault),
    }
}

// Why the bytes of a trace are refused, explained. A fault of memory is refused.
fn wrong(alloc: Global, name: &str, bytes: &[u8], fault: TraceFault) -> Result<Conclusion, Refusal>
    ensures ok { IfOk result (TellsOnly (λ text status. (fault ≢ TraceFault.NoMemory)
        × ExplainsFault name.now bytes.now fault text × (status ≡ 1))) }
    ensures refused { IfErr result (λ refusal. (refusal ≡ Refusal.NoMemory)
        ⊎ ((refusal ≡ Refusal.Trace fault) × (status_of (Refusal.Trace fault) ≡ 6))) }
{
    match fault {
        TraceFault::NoMemory => Err(Refusal::Trace(TraceFault::NoMemory)),
        fault => Ok(Conclusion {
            text: refused_text(alloc, name.as_bytes(), bytes, &fault)?,
            status: 1,
            files: Vec::new(alloc),
        }),
    }
}

// What is explained of what an audit finds.
fn conclusion(
    alloc: Global,
    document: &Document,
    name: &str,
    bytes: &[u8],
    trace: &Trace,
    steps: u64,
) -> Result<Conclusion, Refusal>
    ensures ok { IfOk result
        (TellsOnly (IsConclusion document.now name.now bytes.now trace.now steps)) }
    ensures refused { IfErr result (IsNoFinding document.now.tables trace.now) }
{
    let finding = audit_trace(alloc, document.network(), trace, steps)?;
    match finding {
        Finding::Legal(audit) => Ok(Conclusion {
            text: legal_text(alloc, document, trace, &audit)?,
            status: 0,
            files: Vec::new(alloc),
        }),
        Finding::NotLegal(flaw) => match flaw {
            Flaw::Illegal(k) => illegal(alloc, document, name, bytes, trace, k, steps),
            Flaw::Budget(_) => Ok(flaw.conclusion(alloc)?),
        },
    }
}

// What is explained of event `k`, which is not legal.
fn illegal(
    alloc: Global,
    document: &Document,
    name: &str,
    bytes: &[u8],
    trace: &Trace,
    k: usize,
    steps: u64,
) -> Result<Conclusion, Refusal>
    requires { IsRefusal document.now.tables trace.now steps (Illegal k) }
    ensures ok { IfOk result
        (TellsOnly (IsConclusion document.now name.now bytes.now trace.now steps)) }
    ensures refused { IfErr result (IsNoFinding document.now.tables trace.now) }
{
    let Ok(scene) = scene_before(alloc, document.network(), trace, k, steps) else {
        return Err(Refusal::NoMemoryToAudit);
    };
    let text = illegal_text(alloc, document, name.as_bytes(), bytes, trace, k, scene)?;
    Ok(Conclusion {
        text,
        status: 1,
        files: Vec::new(alloc),
    })
}
