//! Which processes wait, as the lines of a report say, and what follows from it.

use crate::pieces::{is_said, push, push_name, text_of};
use kpn_history::State;
use kpn_net::End;
use kpn_text::Document;
use std::alloc::{AllocError, Global};

// A wait of a process on a channel: for room, or else for an item.
#[derive(Clone, Copy)]
struct Waiting {
    channel: usize,
    is_full: bool,
}

/// For each process of a network whether it waits, and on what.
#[derive(Drop)]
pub(crate) struct NetworkWaits {
    of: Vec<Option<Waiting>>,
}

/// The waits that the lines `waits INSTANCE CHANNEL` and `waits INSTANCE CHANNEL full` of a text tell.
pub(crate) fn waits_in(
    alloc: Global,
    document: &Document,
    report: &str,
) -> Result<NetworkWaits, AllocError> {
    let mut of = Vec::new(alloc);
    for p in 0..document.network().instances() {
        of.push(wait_of(document, document.instance_name(p), report))?;
    }
    Ok(NetworkWaits { of })
}

// The wait that a text tells of a process of this name.
fn wait_of(document: &Document, name: &str, report: &str) -> Option<Waiting> {
    for line in report.lines() {
        if let Some(rest) = line.strip_prefix("waits ") {
            if let Some((instance, channel)) = rest.split_once(' ') {
                if instance == name {
                    return wait_on(document, channel);
                }
            }
        }
    }
    None
}

// The wait on the channel that the end of a line names.
fn wait_on(document: &Document, words: &str) -> Option<Waiting> {
    let (name, is_full) = match words.split_once(' ') {
        Some((name, _)) => (name, true),
        None => (words, false),
    };
    let channel = document.find_channel(name)?;
    Some(Waiting { channel, is_full })
}

/// The waits of these states.
pub(crate) fn waits_among(alloc: Global, states: &[State]) -> Result<NetworkWaits, AllocError> {
    let mut of = Vec::new(alloc);
    for state in states {
        of.push(match *state {
            State::WaitsEmpty(channel) => Some(Waiting {
                channel,
                is_full: false,
            }),
            State::WaitsFull(channel) => Some(Waiting {
                channel,
                is_full: true,
            }),
            _ => None,
        })?;
    }
    Ok(NetworkWaits { of })
}

impl NetworkWaits {
    /// Adds a line for each ring that was not said: a cycle of processes that each wait for an item of the next one.
    pub(crate) fn push_rings(
        &self,
        text: &mut Vec<u8>,
        document: &Document,
        said: &[u8],
    ) -> Result<(), AllocError> {
        for start in 0..self.of.len() {
            if self.begins_ring(document, start) {
                let mut line = Vec::new(*text.allocator());
                self.push_ring(&mut line, document, start)?;
                if !is_said(said, text_of(&line)) {
                    text.extend_from_slice(&line)?;
                    push(text, "\n")?;
                }
            }
        }
        Ok(())
    }

    /// Whether a process stands in a ring.
    pub(crate) fn is_in_ring(&self, document: &Document, p: usize) -> bool {
        let mut at = p;
        for _turn in 0..self.of.len() {
            match self.next(document, at) {
                Some(next) if next == p => return true,
                Some(next) => at = next,
                None => return false,
            }
        }
        false
    }

    // Whether a process stands in a ring, and is the first of it in order of number.
    fn begins_ring(&self, document: &Document, start: usize) -> bool {
        let mut at = start;
        for _turn in 0..self.of.len() {
            match self.next(document, at) {
                Some(next) if next == start => return true,
                Some(next) if next > start => at = next,
                _ => return false,
            }
        }
        false
    }

    // The process for whose item a process waits.
    fn next(&self, document: &Document, p: usize) -> Option<usize> {
        match self.of.get(p) {
            Some(Some(wait)) if !wait.is_full => writer(document, wait.channel),
            _ => None,
        }
    }

    // Adds the line of the ring that begins here.
    fn push_ring(
        &self,
        text: &mut Vec<u8>,
        document: &Document,
        start: usize,
    ) -> Result<(), AllocError> {
        let (mut at, mut before) = (start, "deadlock: ");
        for _turn in 0..self.of.len() {
            let (Some(Some(wait)), Some(next)) = (self.of.get(at), self.next(document, at)) else {
                break;
            };
            push(text, before)?;
            push(text, document.instance_name(at))?;
            push(text, " waits on ")?;
            push(text, document.channel_name(wait.channel))?;
            push(text, " for ")?;
            push(text, document.instance_name(next))?;
            before = ", ";
            at = next;
            if at == start {
                break;
            }
        }
        push(text, FIRST_ITEM)
    }

    /// Whether each sink is complete, if this is who waits at the end of a run: nobody after it waits for room.
    pub(crate) fn are_sinks_complete(&self, document: &Document) -> bool {
        let network = document.network();
        for channel in 0..network.channels() {
            if network.is_sink(channel) && !self.is_complete(document, channel) {
                return false;
            }
        }
        true
    }

    /// Whether a process waits.
    pub(crate) fn has(&self, p: usize) -> bool {
        matches!(self.of.get(p), Some(Some(_)))
    }

    /// Adds the names of the full channels on which processes wait. It returns whether there are some.
    pub(crate) fn push_full(
        &self,
        text: &mut Vec<u8>,
        document: &Document,
    ) -> Result<bool, AllocError> {
        let mut before = "Full: ";
        for wait in self.of.as_slice() {
            if let Some(wait) = *wait {
                if wait.is_full && wait.channel < document.network().channels() {
                    push_name(text, before, document.channel_name(wait.channel), "")?;
                    before = ", ";
                }
            }
        }
        Ok(before == ", ")
    }

    /// Whether one of these channels has as much room at the start as the limit allows.
    pub(crate) fn is_one_at_limit(&self, document: &Document) -> bool {
        let network = document.network();
        for wait in self.of.as_slice() {
            if let Some(wait) = *wait {
                if wait.is_full
                    && wait.channel < network.channels()
                    && network.cap_of(wait.channel) == Some(network.limit())
                {
                    return true;
                }
            }
        }
        false
    }

    // Whether nothing more comes on a channel. Behind a ring nothing does.
    fn is_complete(&self, document: &Document, channel: usize) -> bool {
        let mut channel = channel;
        for _turn in 0..self.of.len() {
            let Some(p) = writer(document, channel) else {
                return true;
            };
            match self.of.get(p) {
                Some(Some(wait)) if wait.is_full => return false,
                Some(Some(wait)) => channel = wait.channel,
                _ => return true,
            }
        }
        true
    }
}

const FIRST_ITEM: &str = "\
; one of them has to write before it reads (a first item before its loop)";

// The process that writes a channel.
fn writer(document: &Document, channel: usize) -> Option<usize> {
    let network = document.network();
    if channel >= network.channels() {
        return None;
    }
    match network.writer_of(channel) {
        End::Process(p) if p < network.instances() => Some(p),
        _ => None,
    }
}
