//! The drawing of a network: a directed graph in the language of Graphviz, with a line for each process, source, sink
//! and channel. Rows show its words; what an audit shows of each part, `found` proves.
ghost use Rattle.std.specs.Prelude.{◌<◌, length};

use crate::found::{ChannelFlow, flow_of, state_of};
use crate::knots::Knots;
use kpn_audit::Audit;
use kpn_command_base::{Direction, Pushed, parameters_of};
use kpn_history::{How, State};
use kpn_net::End;
use kpn_text::Document;
use kpn_trace::how_word;
use std::alloc::{AllocError, Global};

/// The network in this direction and, if there is an audit of it, what its history leads to.
pub(crate) fn text_of(
    alloc: Global,
    document: &Document,
    direction: Direction,
    audit: Option<&Audit>,
) -> Result<Vec<u8>, AllocError> {
    let mut text = String::new(alloc);
    push_head(&mut text, direction)?;
    let network = document.network();
    let knots = Knots::of(alloc, network, audit)?;
    for p in 0..network.instances() {
        let is_knotted = knots.is_member(p);
        push_process(
            alloc,
            &mut text,
            document,
            p,
            state_of(audit, p),
            is_knotted,
        )?;
    }
    for c in 0..network.channels() {
        push_outside(&mut text, document, c)?;
        let is_knotted = knots.is_awaited(audit, c);
        push_edge(
            &mut text,
            document,
            c,
            flow_of(network, audit, c),
            is_knotted,
        )?;
    }
    push_legend(&mut text, audit.is_some(), knots.is_some())?;
    text.push_str("}\n")?;
    Ok(text.into_bytes())
}

// What the colours mean.
fn push_legend(text: &mut String, is_audited: bool, is_knotted: bool) -> Pushed {
    if !is_audited {
        return Ok(());
    }
    text.push_str("  label=\"green: complete, nothing more is ever put there")?;
    if is_knotted {
        text.push_str("\\norange: processes that wait for each other")?;
    }
    text.push_str("\";\n")
}

// The lines that hold for the whole drawing.
fn push_head(text: &mut String, direction: Direction) -> Pushed {
    let direction = match direction {
        Direction::LeftToRight => "LR",
        Direction::TopToBottom => "TB",
    };
    write!(text, "digraph network {{\n  rankdir={direction};\n")?;
    text.push_str("  node [fontname=\"sans-serif\", shape=box];\n")?;
    text.push_str("  edge [fontname=\"sans-serif\", fontsize=11];\n")
}

// The line of a process: `INSTANCE: PROCESS`, its parameters, and what it waits for or how it has ended. A box is grey
// if its process is done, red if it has faulted, orange if it waits in a cycle, and yellow if it waits otherwise.
fn push_process(
    alloc: Global,
    text: &mut String,
    document: &Document,
    p: usize,
    state: State,
    is_knotted: bool,
) -> Pushed
    requires { p < length document.now.tables.instances }
{
    let name = document.instance_name(p);
    let process = document.process_name(document.network().program_number(p));
    let parameters = parameters_of(alloc, document, p)?;
    write!(text, "  p{p} [label=\"{name}: {process}{parameters}")?;
    let filling = match state {
        State::WaitsEmpty(c) => {
            write!(text, "\\nwaits {}", document.channel_name(c))?;
            waiting(is_knotted)
        }
        State::WaitsFull(c) => {
            write!(text, "\\nwaits {} full", document.channel_name(c))?;
            waiting(is_knotted)
        }
        State::Ended(how) => {
            write!(text, "\\n{}", how_word(how))?;
            match how {
                How::Done => ", style=filled, fillcolor=lightgrey",
                _ => ", style=filled, fillcolor=lightpink",
            }
        }
        State::Ready | State::Held => "",
    };
    write!(text, "\"{filling}];\n")
}

// How a box of a process that waits is filled.
fn waiting(is_knotted: bool) -> &'static str {
    if is_knotted {
        ", style=filled, fillcolor=orange"
    } else {
        ", style=filled, fillcolor=lightyellow"
    }
}

// The ellipse of the outside at a channel, if it is a source or a sink.
fn push_outside(text: &mut String, document: &Document, c: usize) -> Pushed {
    let network = document.network();
    if network.is_source(c) {
        write!(text, "  c{c} [label=\"source\", shape=ellipse];\n")
    } else if network.is_sink(c) {
        write!(
            text,
            "  c{c} [label=\"sink\", shape=ellipse, peripheries=2];\n"
        )
    } else {
        Ok(())
    }
}

// The edge of a channel from its writer to its reader: its name, its capacity at first, and what went over it. It is
// bold if the channel has grown, orange if a cycle waits on it, and else green if it is complete.
fn push_edge(
    text: &mut String,
    document: &Document,
    c: usize,
    flow: Option<ChannelFlow>,
    is_knotted: bool,
) -> Pushed
    requires { c < length document.now.tables.channels }
{
    let network = document.network();
    text.push_str("  ")?;
    push_end(text, c, network.writer_of(c))?;
    text.push_str(" -> ")?;
    push_end(text, c, network.reader_of(c))?;
    write!(text, " [label=\"{}", document.channel_name(c))?;
    if let Some(cap) = network.cap_of(c) {
        write!(text, " ({cap})")?;
    }
    let mut style = "";
    let mut colour = "";
    if let Some(flow) = flow {
        write!(text, "\\n{} put, {} unread", flow.put, flow.unread)?;
        if let Some(cap) = flow.grown {
            write!(text, ", grown to {cap}")?;
        }
        if flow.grown.is_some() {
            style = ", style=bold";
        }
        colour = colour_of(flow, is_knotted);
    }
    write!(text, "\"{style}{colour}];\n")
}

// The colour of an edge.
fn colour_of(flow: ChannelFlow, is_knotted: bool) -> &'static str {
    if is_knotted {
        ", color=orangered, penwidth=3"
    } else if flow.is_complete {
        ", color=darkgreen"
    } else {
        ""
    }
}

// The box or the ellipse at an end of a channel.
fn push_end(text: &mut String, c: usize, end: End) -> Pushed {
    match end {
        End::Process(p) => write!(text, "p{p}"),
        End::Source | End::Sink => write!(text, "c{c}"),
    }
}
