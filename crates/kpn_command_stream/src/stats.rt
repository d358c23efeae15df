//! The tables of what the channels and the processes of a stream did. Rows of tests show their words and columns; the
//! counters in them are proved where they are read.

use crate::counters::ChannelCounts;
use kpn_command_base::{TableRow, TextTable};
use kpn_history::State;
use kpn_text::Document;
use kpn_trace::how_word;
use std::alloc::{AllocError, Global};

/// The headings of the two tables.
const STREAM_CHANNEL_HEADINGS: [&str; 5] = ["channel", "put", "read", "unread", "most"];

const STREAM_PROCESS_HEADINGS: [&str; 2] = ["process", "end"];

/// A row for each channel, and a row for each process, which says how it ended or what it waits for. The tables stand
/// alone, or after an empty line.
pub(crate) fn tables_of(
    alloc: Global,
    document: &Document,
    channels: &[ChannelCounts],
    states: &[State],
    alone: bool,
) -> Result<String, AllocError> {
    let mut text = String::new(alloc);
    if !alone {
        text.push_str("\n")?;
    }
    channel_table(alloc, document, channels)?.push_aligned(alloc, &mut text)?;
    text.push_str("\n")?;
    process_table(alloc, document, states)?.push_aligned(alloc, &mut text)?;
    Ok(text)
}

fn channel_table(
    alloc: Global,
    document: &Document,
    channels: &[ChannelCounts],
) -> Result<TextTable, AllocError> {
    let mut table = TextTable::new(alloc, &STREAM_CHANNEL_HEADINGS)?;
    for (c, counts) in channels.iter().enumerate() {
        let row = channel_row(alloc, document.channel_name(c), *counts)?;
        table.add(row)?;
    }
    Ok(table)
}

fn channel_row(alloc: Global, name: &str, counts: ChannelCounts) -> Result<TableRow, AllocError> {
    let mut row = TableRow::new(alloc, name)?;
    let put = format!(in alloc; "{}", counts.put)?;
    row.add(put.as_str())?;
    row.add_number(Some(counts.read))?;
    row.add_number(Some(counts.unread))?;
    row.add_number(Some(counts.most))?;
    Ok(row)
}

fn process_table(
    alloc: Global,
    document: &Document,
    states: &[State],
) -> Result<TextTable, AllocError> {
    let mut table = TextTable::new(alloc, &STREAM_PROCESS_HEADINGS)?;
    for (p, state) in states.iter().enumerate() {
        let mut row = TableRow::new(alloc, document.instance_name(p))?;
        let end = end_of(alloc, document, *state)?;
        row.add(end.as_str())?;
        table.add(row)?;
    }
    Ok(table)
}

// How a process ended, or else what it waits for.
fn end_of(alloc: Global, document: &Document, state: State) -> Result<String, AllocError> {
    match state {
        State::Ended(how) => String::from_str(alloc, how_word(how)),
        State::WaitsEmpty(c) => format!(in alloc; "waits {}", document.channel_name(c)),
        State::WaitsFull(c) => format!(in alloc; "waits {} full", document.channel_name(c)),
        State::Ready | State::Held => String::from_str(alloc, "-"),
    }
}
