//! The command reads a network, and a trace if there is one, and draws the network.
ghost use Rattle.std.specs.Prelude.{IfOk, IfErr, option_map};
ghost use Rattle.kpn_command_base.specs.Conclusion.{TellsOnly};
ghost use Rattle.kpn_command_base.specs.Description.{IsRefusalOfCommand};
ghost use Rattle.kpn_command_base.specs.Audited.{IsAnyTextFor, IsAnyToldOf, IsRefusalOfAudit};
ghost use Rattle.kpn_command_views.specs.DrawAnswers.{IsDrawnAlone, IsDrawn, IsRefusalOfDrawing};

use crate::drawing::text_of;
use kpn_command_base::{
    Audited, Conclusion, Direction, Finding, Refusal, load_audited, load_document,
};
use kpn_shelf::Shelf;
use std::alloc::{AllocError, Global};

/// What `kpn draw FILE` or `kpn draw FILE TRACE` comes to, in this direction. Each process may make `steps` steps
/// before each of its events in the trace. It reads the description first, then the trace. For a trace that is not
/// legal it tells what `kpn audit` tells.
pub fn draw_command<S: Shelf>(
    alloc: Global,
    file: &str,
    trace: Option<&str>,
    direction: Direction,
    steps: u64,
    shelf: &S,
) -> Result<Conclusion, Refusal>
    ensures ok { IfOk result (TellsOnly (IsDrawn (S.may_give shelf.now) file.now
        (option_map (λ name. name.now) trace.entry) steps)) }
    ensures refused { IfErr result (IsRefusalOfDrawing (S.may_give shelf.now) file.now
        (option_map (λ name. name.now) trace.entry)) }
{
    match trace {
        Some(trace) => drawn_after(alloc, file, trace, direction, steps, shelf),
        None => drawn_alone(alloc, file, direction, shelf),
    }
}

// The drawing of the network.
fn drawn_alone<S: Shelf>(
    alloc: Global,
    file: &str,
    direction: Direction,
    shelf: &S,
) -> Result<Conclusion, Refusal>
    ensures ok { IfOk result (TellsOnly (IsDrawnAlone (S.may_give shelf.now) file.now)) }
    ensures refused { IfErr result (IsRefusalOfCommand (S.may_give shelf.now) file.now) }
{
    let document = load_document(alloc, shelf, file)?;
    let text = text_of(alloc, &document, direction, None)?;
    Ok(Conclusion {
        text,
        status: 0,
        files: Vec::new(alloc),
    })
}

// The drawing of the network after the history of a trace, or what is wrong with the trace.
fn drawn_after<S: Shelf>(
    alloc: Global,
    file: &str,
    trace: &str,
    direction: Direction,
    steps: u64,
    shelf: &S,
) -> Result<Conclusion, Refusal>
    ensures ok { IfOk result
        (TellsOnly (IsAnyToldOf (S.may_give shelf.now) file.now trace.now steps)) }
    ensures refused { IfErr result (IsRefusalOfAudit (S.may_give shelf.now) file.now trace.now) }
{
    let audited = load_audited(alloc, shelf, file, trace, steps)?;
    let conclusion = conclusion_of(alloc, direction, &audited)?;
    Ok(conclusion)
}

// The text for what an audit finds, and its status.
fn conclusion_of(
    alloc: Global,
    direction: Direction,
    audited: &Audited,
) -> Result<Conclusion, AllocError>
    ensures { IfOk result (TellsOnly (IsAnyTextFor audited.now.finding)) }
{
    match &audited.finding {
        Finding::Legal(audit) => Ok(Conclusion {
            text: text_of(alloc, &audited.document, direction, Some(audit))?,
            status: 0,
            files: Vec::new(alloc),
        }),
        Finding::NotLegal(flaw) => flaw.conclusion(alloc),
    }
}
