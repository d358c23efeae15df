//! What is said of a legal history that is not exact: which sinks are complete, and why nobody reads from a channel on
//! which a writer waits for room.

use crate::trace_names::{channel, process};
use kpn_audit::Audit;
use kpn_command_base::Pushed;
use kpn_deadlock::awaited;
use kpn_net::{End, Network, Wait};
use kpn_text::Document;

/// A line for each sink, and for each process that waits for room.
pub(crate) fn push_not_exact(text: &mut String, document: &Document, audit: &Audit) -> Pushed {
    push_sinks(text, document, audit)?;
    for wait in audit.waits.as_slice() {
        if let Wait::Full(c) = *wait {
            push_full(text, document, audit, c)?;
        }
    }
    Ok(())
}

// Which sinks are complete, and what gives more on the others.
fn push_sinks(text: &mut String, document: &Document, audit: &Audit) -> Pushed {
    for (c, is_complete) in audit.complete.as_slice().iter().enumerate() {
        if !document.network().is_sink(c) {
            continue;
        }
        let sink = channel(document, c);
        if *is_complete {
            write!(text, "{sink} is complete: nothing more is ever put there\n")?;
        } else {
            let lacking = lacking_for(document.network(), audit, c);
            write!(
                text,
                "{sink} is not complete: {lacking} may put more there\n"
            )?;
        }
    }
    Ok(())
}

// What gives more on a channel that is not complete: turns, if it waits for a process that can continue; input, if it
// waits for a source that is open; or else room. Its writer waits for it, or for a process that waits for it, and so on.
fn lacking_for(network: &Network, audit: &Audit, c: usize) -> &'static str {
    let mut wait = Wait::Empty(c);
    for _step in 0..=network.instances() {
        let Some(p) = awaited(network, wait) else {
            break;
        };
        let has_ended = matches!(audit.ends.as_slice().get(p), Some(Some(_)));
        wait = audit
            .waits
            .as_slice()
            .get(p)
            .copied()
            .unwrap_or(Wait::Nobody);
        match wait {
            Wait::Nobody if !has_ended => return "a longer run",
            Wait::Empty(d) if is_open(network, audit, d) => return "more input",
            _ => {}
        }
    }
    "more room (`cap`, `limit`)"
}

// Whether a channel is a source that is still open.
fn is_open(network: &Network, audit: &Audit, c: usize) -> bool {
    let is_complete = audit.complete.as_slice().get(c).copied().unwrap_or(false);
    network.is_source(c) && !is_complete
}

// Why nobody reads a full channel.
fn push_full(text: &mut String, document: &Document, audit: &Audit, c: usize) -> Pushed {
    let full = channel(document, c);
    if document.network().channels() <= c {
        return Ok(());
    }
    let End::Process(r) = document.network().reader_of(c) else {
        return write!(text, "{full} is full: the outside would have to take\n");
    };
    let reader = process(document, r);
    match audit.waits.as_slice().get(r).copied() {
        Some(Wait::Empty(e)) if audit.complete.as_slice().get(e).copied().unwrap_or(false) => {
            let why = if document.network().is_source(e) {
                "closed"
            } else {
                "complete"
            };
            let awaited = channel(document, e);
            write!(
                text,
                "{full} holds an item that nobody will read: its reader {reader} waits on "
            )?;
            write!(text, "{awaited}, which is {why} and used up\n")
        }
        Some(Wait::Empty(e)) => {
            let awaited = channel(document, e);
            write!(
                text,
                "{full} is full: its reader {reader} waits on {awaited}, which is empty\n"
            )
        }
        Some(Wait::Full(e)) => {
            let awaited = channel(document, e);
            write!(
                text,
                "{full} is full: its reader {reader} waits on {awaited}, which is full\n"
            )
        }
        _ => write!(text, "{full} is full: its reader {reader} can go on\n"),
    }
}
