//! A trace that is read from a file and audited, for each command that reads one.
ghost use Rattle.std.specs.Prelude.{IfOk, IfErr};
ghost use Rattle.kpn_command_base.specs.Audited.{IsAudited, IsFinding, IsNoFinding, IsRefusalOfAudit, IsRefusalOfTrace, IsTraced};

use crate::description::load_document;
use crate::flaw::Flaw;
use crate::refusal::Refusal;
use kpn_audit::{Audit, AuditFault, audit};
use kpn_history::Trace;
use kpn_net::Network;
use kpn_shelf::Shelf;
use kpn_text::Document;
use kpn_trace::read_trace;
use std::alloc::Global;

/// What an audit finds.
#[derive(Drop)]
pub enum Finding {
    /// The history is legal, and leads to this.
    Legal(Audit),
    /// The history is not found legal.
    NotLegal(Flaw),
}

/// A network and a trace, and what an audit of the trace finds.
pub struct Audited {
    pub document: Document,
    pub trace: Trace,
    pub finding: Finding,
}

/// It is written out, so that a crate that drops it proves nothing about what is inside.
impl Drop for Audited {
    fn drop(self) {
        let Audited {
            document,
            trace,
            finding,
        } = self;
        drop(document);
        drop(trace);
        drop(finding);
    }
}

/// Reads a description, then a trace, and audits the trace. Each process may make `steps` steps before each of its
/// events.
pub fn load_audited<S: Shelf>(
    alloc: Global,
    shelf: &S,
    file: &str,
    trace: &str,
    steps: u64,
) -> Result<Audited, Refusal>
    ensures ok { IfOk result (IsAudited (S.may_give shelf.now) file.now trace.now steps) }
    ensures refused { IfErr result (IsRefusalOfAudit (S.may_give shelf.now) file.now trace.now) }
{
    let document = load_document(alloc, shelf, file)?;
    let trace = load_trace(alloc, shelf, trace)?;
    let finding = audit_trace(alloc, document.network(), &trace, steps)?;
    Ok(Audited {
        document,
        trace,
        finding,
    })
}

// The trace in a file.
fn load_trace<S: Shelf>(alloc: Global, shelf: &S, file: &str) -> Result<Trace, Refusal>
    ensures ok { IfOk result (IsTraced (S.may_give shelf.now) file.now) }
    ensures refused { IfErr result (IsRefusalOfTrace (S.may_give shelf.now) file.now) }
{
    let bytes = shelf.load(alloc, file).map_err(Refusal::Input)?;
    let trace = read_trace(alloc, &bytes).map_err(Refusal::Trace)?;
    Ok(trace)
}

/// What an audit of the trace finds, if each process may make `steps` steps before each of its events.
pub fn audit_trace(
    alloc: Global,
    network: &Network,
    trace: &Trace,
    steps: u64,
) -> Result<Finding, Refusal>
    ensures found { IfOk result (IsFinding network.now trace.now steps) }
    ensures refused { IfErr result (IsNoFinding network.now trace.now) }
{
    match audit(alloc, network, trace, steps) {
        Ok(audit) => Ok(Finding::Legal(audit)),
        Err(AuditFault::Illegal(k)) => Ok(Finding::NotLegal(Flaw::Illegal(k))),
        Err(AuditFault::Budget(k)) => Ok(Finding::NotLegal(Flaw::Budget(k))),
        Err(AuditFault::PolicyDiffers) => Err(Refusal::PolicyDiffers),
        Err(AuditFault::NoMemory) => Err(Refusal::NoMemoryToAudit),
    }
}
