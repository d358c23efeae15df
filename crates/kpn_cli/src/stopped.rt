//! What the processes of a run did that was stopped: a short run of the same network on the same items shows it.
ghost use Rattle.std.specs.Prelude.{◌≡◌, length};
ghost use Rattle.kpn_net.specs.Iteration.{sources};

use crate::pieces::{file_in, push, push_name};
use crate::waits::{NetworkWaits, waits_among};
use crate::words::Evidence;
use kpn_book::{Limits, run_here};
use kpn_command_base::{QUOTA, RunRequest, load_inputs};
use kpn_history::State;
use kpn_lang::Sequence;
use kpn_net::Network;
use kpn_shelf::Shelf;
use kpn_text::Document;
use std::alloc::{AllocError, Global};
use std::fs;
use std::rt::Files;

// How many commits the short run makes at most.
const MOST_COMMITS: u64 = 20_000;

// This many turns without an event are a loop.
const TURNS_OF_LOOP: u64 = 10;

// A source whose items are read once more may have this many bytes.
const MOST_SOURCE_BYTES: u64 = 16_777_216;

// What the processes of a run have come to, and how many events each has made.
#[derive(Drop)]
struct Seen {
    states: Sequence<State>,
    events: Vec<usize>,
}

/// Adds which processes loop without an event, and which others have gone on to the end.
pub(crate) fn push_looks<R: Files, S: Shelf>(
    text: &mut Vec<u8>,
    run: &RunRequest<'_>,
    document: &Document,
    evidence: &Evidence<'_, R, S>,
) -> Result<(), AllocError> {
    let alloc = evidence.alloc;
    if !are_short(evidence.rt, &run.sources) {
        return Ok(());
    }
    let Ok(inputs) = load_inputs(alloc, evidence.shelf, run.file, &run.sources) else {
        return Ok(());
    };
    let network = inputs.document.network();
    let commits = run.commits.min(MOST_COMMITS);
    let first = look(alloc, network, &inputs.given, run.take, commits / 2)?;
    let last = look(alloc, network, &inputs.given, run.take, commits)?;
    waits_among(alloc, last.states.as_slice())?.push_rings(text, document, &[])?;
    let turns = TURNS_OF_LOOP.saturating_mul(network.instances() as u64);
    let can_tell = turns <= commits / 2;
    if can_tell && push_ready(text, document, &first, &last, Some(true))? {
        push(text, LOOPS)?;
    }
    let loops = if can_tell { Some(false) } else { None };
    if push_ready(text, document, &first, &last, loops)? {
        push(
            text,
            if commits < run.commits {
                GO_ON
            } else {
                WENT_ON
            },
        )?;
    }
    Ok(())
}

const LOOPS: &str = "\
: a loop without a read or a write, for as long as this was looked at. Let it come to one, or to its end.
";

const GO_ON: &str = " went on after 20,000 commits.\n";

const WENT_ON: &str = " went on to the end.\n";

/// Whether the files of these options are plain and have few bytes.
pub(crate) fn are_short<R: Files>(rt: &R, options: &[&str]) -> bool {
    options.iter().all(|option| {
        fs::metadata(rt, file_in(option)).is_ok_and(|found| found.is_file()
            && found.len() <= MOST_SOURCE_BYTES)
    })
}

// A run with at most this many commits.
fn look(
    alloc: Global,
    network: &Network,
    lists: &[Sequence<i64>],
    take: Option<u64>,
    commits: u64,
) -> Result<Seen, AllocError>
    requires { length lists.now ≡ sources network.now }
{
    let limits = Limits {
        commits,
        take,
        quota: QUOTA,
    };
    let report = run_here(alloc, network, lists, &limits)?;
    let mut events = Vec::new(alloc);
    for _process in 0..network.instances() {
        events.push(0)?;
    }
    for k in 0..report.history.len() {
        if let Some(event) = report.history.at(k) {
            if let Some(p) = event.process() {
                count(&mut events, p);
            }
        }
    }
    Ok(Seen {
        states: report.view.states,
        events,
    })
}

// Counts one event more of a process.
fn count(events: &mut [usize], p: usize) {
    if p < events.len() {
        events[p] = events[p].saturating_add(1);
    }
}

// Adds the names of the processes that can go on: of those that loop, of the others, or, if nothing is said, of both. It
// returns whether there are some.
fn push_ready(
    text: &mut Vec<u8>,
    document: &Document,
    first: &Seen,
    last: &Seen,
    loops: Option<bool>,
) -> Result<bool, AllocError> {
    let mut before = "";
    for p in 0..document.network().instances() {
        let is_ready = matches!(last.states.as_slice().get(p), Some(State::Ready));
        let has_stayed = first.events.as_slice().get(p) == last.events.as_slice().get(p);
        if is_ready && loops.unwrap_or(has_stayed) == has_stayed {
            push_name(text, before, document.instance_name(p), "")?;
            before = ", ";
        }
    }
    Ok(before == ", ")
}

/// Adds which processes do not wait at the end of a stream.
pub(crate) fn push_others(
    text: &mut Vec<u8>,
    document: &Document,
    waits: &NetworkWaits,
) -> Result<(), AllocError> {
    let mut before = "";
    for p in 0..document.network().instances() {
        if !waits.has(p) {
            push_name(text, before, document.instance_name(p), "")?;
            before = ", ";
        }
    }
    if before == ", " {
        push(
            text,
            " waited for nothing: each went on, looped without a read or a write, or had ended.\n",
        )?;
    }
    Ok(())
}
