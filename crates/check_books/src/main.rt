//! Books and machines, by public calls. Standard input has sections that end with a line `.`: a description of a
//! network, and then a line `calls` with calls below it, one on a line, or `scene NAME`, whose calls stand in the
//! program, or a trace.
//!
//! The program makes each call of a book on a heap with ever more bytes left, from none on, until memory suffices. So
//! each request for memory fails in turn, and all that the book holds has to stay as it was. Then the program writes the
//! answer, whether the call failed at first, and the events that it appended.
//!
//! - `claim` claims the first process of the queue, and steps it to its next stop. These steps are numbered from 0.
//! - `onward K` makes further steps from where the steps K have stopped, and `twin P K` steps of process P of an equal
//!   network from where the steps K began. They are numbered too.
//! - `commit P K` commits the steps K as those of process P.
//! - `put-back P` puts process P back.
//! - `feed C ITEM BOUND`, `close C`, `take C` and `leave C` are the calls of the outside.
//! - `begins C ITEM` asks whether the journal of a channel begins with an item.
//! - `view` makes a snapshot on that heap.
//!
//! Of a trace it steps each process to its stop before its event. It repeats the event on a machine, and writes
//! which processes it woke and all that the machine then shows.
//!
//! What calls of books must give was worked out by hand. Another program (tools/machines.py) computed what comes
//! of the traces, only from the histories.
#![tactic(auto)]

mod books;
mod replays;

use crate::books::make_beside_twin;
use crate::books::scenes::calls_of;
use crate::replays::replay;
use anyhow::{Result, bail};
use kpn_net::Network;
use kpn_text::read_network;
use std::alloc::Global;
use std::io::Write;

/// The lines of a section below its description.
#[derive(Clone, Copy)]
enum Below<'a> {
    /// Calls of a book.
    Calls(&'a str),
    /// A trace without its first line.
    Events(&'a str),
}

/// The description of a section, and what stands below it.
fn parts_of(section: &str) -> Result<(&str, Below<'_>)> {
    if let Some((description, events)) = section.split_once("\nkpn-trace 1\n") {
        return Ok((description, Below::Events(events)));
    }
    if let Some((description, name)) = section.split_once("\nscene ") {
        return Ok((description, Below::Calls(calls_of(name.trim_end())?)));
    }
    match section.split_once("\ncalls\n") {
        Some((description, calls)) => Ok((description, Below::Calls(calls))),
        None => bail!("a section is a description and calls or a trace"),
    }
}

fn answer_below<O: Write>(
    alloc: Global,
    network: &Network,
    description: &str,
    below: Below<'_>,
    out: &mut O,
) -> Result<()> {
    match below {
        Below::Calls(calls) => make_beside_twin(alloc, network, description.as_bytes(), calls, out),
        Below::Events(events) => replay(alloc, network, events, out),
    }
}

fn answer_section<O: Write>(alloc: Global, section: &str, out: &mut O) -> Result<()> {
    let (description, below) = parts_of(section)?;
    writeln!(out, "{description}")?;
    match read_network(alloc, description.as_bytes()) {
        Ok(document) => answer_below(alloc, document.network(), description, below, out),
        Err(_) => bail!("a description is none"),
    }
}

/// Adds a line to a section, or answers one that is whole.
fn add_line<O: Write>(alloc: Global, section: &mut String, line: &str, out: &mut O) -> Result<()> {
    if line == "." {
        answer_section(alloc, section.as_str(), out)?;
        section.clear();
        return Ok(());
    }
    section.push_str(line)?;
    section.push('\n')?;
    Ok(())
}

fn main(rt: HostRuntime) -> Result<()> {
    let mut out = rt.stdout();
    let mut section = String::new(rt.alloc());
    for line in rt.lines(rt.alloc()) {
        add_line(rt.alloc(), &mut section, line?.as_str(), &mut out)?;
    }
    Ok(())
}
