//! The command reads a network and a trace, audits the trace, and sends the timeline of its history while it makes it.
ghost use Rattle.std.specs.Prelude.{IfOk, IfErr, OnOk};
ghost use Rattle.std.specs.Io.KnownBytes.{Appends};
ghost use Rattle.kpn_audit.specs.Stored.{audited_under};
ghost use Rattle.kpn_command_base.specs.Flaw.{IsFlawTold};
ghost use Rattle.kpn_command_views.specs.TimelineText.{timeline};
ghost use Rattle.kpn_command_views.specs.Sent.{IsUnsent};
ghost use Rattle.kpn_command_views.specs.TimelineAnswers.{HasGoneOut, IsTimeline, IsToldTimeline, IsNoTimeline};

use crate::sending::{SendFault, send_last};
use crate::timeline::send_timeline;
use kpn_command_base::{Audited, Finding, Flaw, Refusal, load_audited};
use kpn_history::{Event, Version};
use kpn_net::{Growth, Policy, Wait};
use kpn_shelf::Shelf;
use kpn_text::Document;
use std::alloc::Global;
use std::io::Write;

/// Writes what `kpn timeline FILE TRACE` tells, and returns the status. Each process may make `steps` steps before each
/// of its events. It reads the description first, then the trace. It tells the timeline of a legal trace, and what an
/// audit tells of any other. A timeline goes out while it is made.
pub fn timeline_command<S: Shelf, W: Write>(
    alloc: Global,
    file: &str,
    trace: &str,
    steps: u64,
    shelf: &S,
    out: &mut W,
) -> Result<u8, Refusal>
    ensures ok { IfOk result
        (HasGoneOut (IsTimeline (S.may_give shelf.now) file.now trace.now steps)
        (W.contents out.old) (W.contents out.new)) }
    ensures refused { IfErr result
        (IsNoTimeline (S.may_give shelf.now) file.now trace.now out.old out.new) }
{
    let audited = load_audited(alloc, shelf, file, trace, steps)?;
    let status = send_told(alloc, &audited, out)?;
    Ok(status)
}

// Sends the text for a finding, and returns its status.
fn send_told<W: Write>(alloc: Global, audited: &Audited, out: &mut W) -> Result<u8, Refusal>
    ensures ok { IfOk result
        (HasGoneOut (IsToldTimeline audited.now) (W.contents out.old) (W.contents out.new)) }
    ensures refused { IfErr result IsUnsent }
{
    match told(alloc, audited, out) {
        Ok(status) => Ok(status),
        Err(fault) => Err(fault.refusal()),
    }
}

fn told<W: Write>(alloc: Global, audited: &Audited, out: &mut W) -> Result<u8, SendFault>
    ensures { IfOk result
        (HasGoneOut (IsToldTimeline audited.now) (W.contents out.old) (W.contents out.new)) }
{
    match &audited.finding {
        Finding::Legal(audit) => {
            let trace = &audited.trace;
            let events = trace.events.as_slice();
            let waits = audit.waits.as_slice();
            send_under(alloc, &audited.document, trace.version, waits, events, out)?;
            Ok(0)
        }
        Finding::NotLegal(flaw) => send_flaw(alloc, *flaw, out),
    }
}

// Sends what an audit tells.
fn send_flaw<W: Write>(alloc: Global, flaw: Flaw, out: &mut W) -> Result<u8, SendFault>
    ensures { IfOk result
        (HasGoneOut (IsFlawTold flaw) (W.contents out.old) (W.contents out.new)) }
{
    let made = flaw.conclusion(alloc)?;
    send_last(out, &made.text)?;
    Ok(made.status)
}

// The timeline of events of this version, under the rules of growth that it has.
fn send_under<W: Write>(
    alloc: Global,
    document: &Document,
    version: Version,
    waits: &[Wait],
    events: &[Event],
    out: &mut W,
) -> Result<(), SendFault>
    ensures { OnOk result (Appends (W.contents out.old) (W.contents out.new)
        (timeline document.now (audited_under version document.now.tables) waits.now
        events.now)) }
{
    let network = document.network();
    match version {
        Version::One => {
            let plain = network.under(Policy::Cycles, Growth::One)?;
            send_timeline(alloc, document, &plain, waits, events, out)
        }
        Version::Two => send_timeline(alloc, document, network, waits, events, out),
    }
}
