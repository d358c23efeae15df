//! The command reads a network and a trace, and tells what an audit finds.
ghost use Rattle.std.specs.Prelude.{IfOk, IfErr};
ghost use Rattle.kpn_command_base.specs.Conclusion.{TellsOnly};
ghost use Rattle.kpn_command_base.specs.Audited.{IsRefusalOfAudit, IsTextFor};
ghost use Rattle.kpn_commands.specs.Answers.{AnswersAudit, IsAuditText};

use kpn_command_base::{Audited, Conclusion, Finding, Refusal, load_audited, text_of_audit};
use kpn_shelf::Shelf;
use std::alloc::{AllocError, Global};

/// What `kpn audit FILE TRACE` comes to. Each process may make `steps` steps before each of its events. It reads the
/// description first, then the trace.
pub fn audit_command<S: Shelf>(
    alloc: Global,
    file: &str,
    trace: &str,
    steps: u64,
    shelf: &S,
) -> Result<Conclusion, Refusal>
    ensures ok { IfOk result
        (TellsOnly (AnswersAudit (S.may_give shelf.now) file.now trace.now steps)) }
    ensures refused { IfErr result (IsRefusalOfAudit (S.may_give shelf.now) file.now trace.now) }
{
    let audited = load_audited(alloc, shelf, file, trace, steps)?;
    let conclusion = conclusion_of(alloc, &audited)?;
    Ok(conclusion)
}

// The text for a finding, and its status.
fn conclusion_of(alloc: Global, audited: &Audited) -> Result<Conclusion, AllocError>
    ensures { IfOk result (TellsOnly (IsTextFor (IsAuditText audited.now.document audited.now.trace)
        audited.now.finding)) }
{
    match &audited.finding {
        Finding::Legal(audit) => Ok(Conclusion {
            text: text_of_audit(alloc, &audited.document, audit)?,
            status: 0,
            files: Vec::new(alloc),
        }),
        Finding::NotLegal(flaw) => flaw.conclusion(alloc),
    }
}
