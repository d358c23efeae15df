//! What is said of a legal history with a ring: who waits for whom, what waits behind it, and on which sources items
//! are left because of it. Rows show its words.
ghost use Rattle.std.specs.Prelude.{◌≡◌, ◌<◌, true, length, IfOk};
ghost use Rattle.kpn_deadlock.specs.Told.{AreRings, are_some};
ghost use Rattle.kpn_command_explain.specs.TraceAnswers.{BeginsByRings, TellsRings};

use kpn_audit::Audit;
use kpn_command_base::Pushed;
use kpn_deadlock::{awaited, rings};
use kpn_lang::Sequence;
use kpn_net::{End, Wait};
use kpn_text::Document;
use std::alloc::{AllocError, Global};

/// A line for each ring, and more after them. Nothing is said if there is none.
pub(crate) fn deadlock_text(
    alloc: Global,
    document: &Document,
    audit: &Audit,
) -> Result<Vec<u8>, AllocError>
    ensures { IfOk result (λ text.
        TellsRings document.now.tables audit.now.waits text.items) }
{
    let told = rings_of(alloc, document, audit)?;
    let each = told.as_slice();
    let words = words_of(alloc, document, audit, each)?;
    let text = begun(alloc, are_some(each), words.as_str())?;
    Ok(text)
}

fn rings_of(
    alloc: Global,
    document: &Document,
    audit: &Audit,
) -> Result<Sequence<Sequence<usize>>, AllocError>
    ensures { IfOk result (λ told.
        AreRings document.now.tables audit.now.waits told) }
{
    rings(alloc, document.network(), audit.waits.as_slice())
}

fn are_some(rings: &[Sequence<usize>]) -> bool
    ensures { result ≡ are_some rings.now }
{
    0 < rings.len()
}

// The words after `deadlock: `, if there is a ring.
fn begun(alloc: Global, is_there: bool, words: &str) -> Result<Vec<u8>, AllocError>
    ensures { IfOk result (λ text. BeginsByRings is_there text.items) }
{
    if is_there {
        begun_text(alloc, words)
    } else {
        Ok(Vec::new(alloc))
    }
}

fn begun_text(alloc: Global, words: &str) -> Result<Vec<u8>, AllocError>
    ensures { IfOk result (λ text. BeginsByRings true text.items) }
{
    let mut text = String::new(alloc);
    text.push_str("deadlock: ")?;
    text.push_str(words)?;
    Ok(text.into_bytes())
}

fn words_of(
    alloc: Global,
    document: &Document,
    audit: &Audit,
    rings: &[Sequence<usize>],
) -> Result<String, AllocError> {
    let mut text = String::new(alloc);
    for (k, members) in rings.iter().enumerate() {
        if 0 < k {
            text.push_str("deadlock: ")?;
        }
        push_ring(&mut text, document, audit, members.as_slice())?;
    }
    push_behind(&mut text, document, audit, rings)?;
    push_left(&mut text, document, audit, rings)?;
    Ok(text)
}

// Who waits for whom, and what helps.
fn push_ring(text: &mut String, document: &Document, audit: &Audit, members: &[usize]) -> Pushed {
    for (k, p) in members.iter().enumerate() {
        if 0 < k {
            text.push_str(", ")?;
        }
        push_wait(text, document, audit, *p)?;
    }
    let who = if members.len() == 1 {
        "it has"
    } else {
        "one of them has"
    };
    write!(
        text,
        "; {who} to write before it reads (a first item before its loop)\n"
    )
}

// On which channel a process waits, and for whom.
fn push_wait(text: &mut String, document: &Document, audit: &Audit, p: usize) -> Pushed {
    let name = document.instance_name(p);
    let (Some(c), Some(next)) = (channel_of(audit, p), awaited_by(document, audit, p)) else {
        return text.push_str(name);
    };
    let channel = document.channel_name(c);
    let writer = document.instance_name(next);
    write!(text, "{name} waits on {channel} for {writer}")
}

// The channel on which a process waits.
fn channel_of(audit: &Audit, p: usize) -> Option<usize> {
    match audit.waits.as_slice().get(p) {
        Some(Wait::Empty(c) | Wait::Full(c)) => Some(*c),
        Some(Wait::Nobody) | None => None,
    }
}

// The process for which a process waits.
fn awaited_by(document: &Document, audit: &Audit, p: usize) -> Option<usize> {
    let wait = audit.waits.as_slice().get(p).copied()?;
    awaited(document.network(), wait)
}

// Whether a process is a member of a ring.
fn is_member(rings: &[Sequence<usize>], p: usize) -> bool {
    for members in rings {
        for member in members.as_slice() {
            if *member == p {
                return true;
            }
        }
    }
    false
}

// Whether a process is a member of a ring, or waits for one that is or that waits behind one.
fn is_held(document: &Document, audit: &Audit, rings: &[Sequence<usize>], p: usize) -> bool {
    let mut at = p;
    for _step in 0..document.network().instances() {
        if is_member(rings, at) {
            return true;
        }
        let Some(next) = awaited_by(document, audit, at) else {
            return false;
        };
        at = next;
    }
    false
}

// The processes that wait behind rings, on one line.
fn push_behind(
    text: &mut String,
    document: &Document,
    audit: &Audit,
    rings: &[Sequence<usize>],
) -> Pushed {
    let mut count = 0u32;
    for p in 0..document.network().instances() {
        if is_member(rings, p) || !is_held(document, audit, rings, p) {
            continue;
        }
        text.push_str(lead(count, "waiting behind it: "))?;
        text.push_str(document.instance_name(p))?;
        count = count.saturating_add(1);
    }
    push_end(text, count)
}

// What stands before an entry of a line, of which this is the number.
fn lead(count: u32, first: &'static str) -> &'static str {
    if count == 0 { first } else { ", " }
}

// The line feed of a line that has entries.
fn push_end(text: &mut String, count: u32) -> Pushed {
    if count == 0 {
        return Ok(());
    }
    text.push_str("\n")
}

// The sources that have items left because of rings, on one line, with how many items these are.
fn push_left(
    text: &mut String,
    document: &Document,
    audit: &Audit,
    rings: &[Sequence<usize>],
) -> Pushed {
    let mut count = 0u32;
    for c in 0..document.network().channels() {
        let left = left_on(audit, c);
        if left == 0 || !is_source_held(document, audit, rings, c) {
            continue;
        }
        let lead = lead(count, "items left because of it: ");
        let name = document.channel_name(c);
        write!(text, "{lead}{name} {left}")?;
        count = count.saturating_add(1);
    }
    push_end(text, count)
}

// Whether a channel is a source whose reader is a member of a ring or waits behind one.
fn is_source_held(document: &Document, audit: &Audit, rings: &[Sequence<usize>], c: usize) -> bool
    requires { c < length document.now.tables.channels }
{
    let network = document.network();
    match network.reader_of(c) {
        End::Process(p) => network.is_source(c) && is_held(document, audit, rings, p),
        End::Source | End::Sink => false,
    }
}

// How many items of a channel nobody has read.
fn left_on(audit: &Audit, c: usize) -> usize {
    let Some(journal) = audit.journals.as_slice().get(c) else {
        return 0;
    };
    let read = audit.reads.as_slice().get(c).copied().unwrap_or(0);
    journal.len().saturating_sub(read)
}
