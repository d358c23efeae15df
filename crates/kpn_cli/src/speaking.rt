//! A place for faults that tells at once what a stream comes to while it runs: a process that faults, a ring, and a
//! process that never gets room.
ghost use Rattle.std.specs.Prelude.{⊤};

use crate::faults::{lines_of_stream, push_faults, push_meaning, unsaid_faults};
use crate::keeping::EndKeeper;
use crate::pieces::{is_said, push, push_name, text_of};
use crate::waits::{NetworkWaits, waits_among};
use crate::words::{Evidence, SeenBytes};
use kpn_book::Book;
use kpn_command_base::{Teller, push_faults as push_fault_lines};
use kpn_command_line::{Request, read_words};
use kpn_history::State;
use kpn_net::{End, Policy};
use kpn_shelf::{FileShelf, System};
use kpn_text::Document;
use std::alloc::{AllocError, Global};
use std::io;
use std::io::Write;
use std::thread::Threads;

/// A place for faults, the end of what it was told, and what words it has said of a stream while that ran.
#[derive(Drop)]
pub struct Speaker<'s, R, W: Drop> {
    rt: &'s R,
    words: &'s [String],
    err: EndKeeper<W>,
    speaks: bool,
    said: Vec<u8>,
}

impl<'s, R, W: Drop> Speaker<'s, R, W> {
    /// A place for faults of a command of these words, and whether it keeps what it is told and says words.
    pub fn new(
        alloc: Global,
        rt: &'s R,
        words: &'s [String],
        err: W,
        speaks: bool,
    ) -> Speaker<'s, R, W> {
        Speaker {
            rt,
            words,
            err: EndKeeper::new(alloc, err, speaks),
            speaks,
            said: Vec::new(alloc),
        }
    }

    /// The end of what it was told, with the words that it has said.
    pub fn kept(&self) -> &[u8] {
        self.err.kept()
    }

    /// The place for faults.
    pub fn into_inner(self) -> W {
        self.err.into_inner()
    }

    /// What it has said, as lines of a report or of words.
    pub fn said(&self) -> &[u8] {
        &self.said
    }
}

impl<R, W: Write + Drop> Write for Speaker<'_, R, W> {
    ghost contents = { λ speaker. W.contents speaker.err.inner };

    fn write(&mut self, buf: &[u8]) -> io::Result<usize> {
        self.err.write(buf)
    }

    fn flush(&mut self) -> io::Result<()> {
        self.err.flush()
    }
}

impl<R: System + AllocGlobal + Threads, W: Write + Drop> Teller for Speaker<'_, R, W> {
    ghost tells = { λ _ _ _ _. ⊤ };

    fn tell(&mut self, document: &Document, book: &Book<'_>) {
        if !self.speaks {
            return;
        }
        let mut text = Vec::new(self.rt.alloc());
        let news = push_news(
            &mut text,
            self.rt,
            self.words,
            document,
            book,
            &mut self.said,
        );
        if news.is_ok() && !text.is_empty() {
            let _ = self.err.write_all(&text);
            let _ = self.err.flush();
        }
    }
}

// Adds what is new in a book.
fn push_news<R: System + AllocGlobal + Threads>(
    text: &mut Vec<u8>,
    rt: &R,
    words: &[String],
    document: &Document,
    book: &Book<'_>,
    said: &mut Vec<u8>,
) -> Result<(), AllocError> {
    let alloc = rt.alloc();
    let mut states = Vec::new(alloc);
    for p in 0..book.network().instances() {
        states.push(book.state(p))?;
    }
    let mut report = String::new(alloc);
    push_fault_lines(&mut report, document, &states)?;
    let faults = unsaid_faults(alloc, report.as_str(), said)?;
    if push_news_of_faults(text, rt, words, document, text_of(&faults))? {
        push_meaning(text, said)?;
    }
    said.extend_from_slice(&faults)?;
    let waits = waits_among(alloc, &states)?;
    let mut lines = Vec::new(alloc);
    waits.push_rings(&mut lines, document, said)?;
    if book.network().policy() == Policy::Cycles {
        push_clogged(&mut lines, document, book, &states, &waits, said)?;
    }
    said.extend_from_slice(&lines)?;
    text.extend_from_slice(&lines)
}

// Adds the words for lines of a report that tell faults. It returns whether there are some.
fn push_news_of_faults<R: System + AllocGlobal + Threads>(
    text: &mut Vec<u8>,
    rt: &R,
    words: &[String],
    document: &Document,
    faults: &str,
) -> Result<bool, AllocError> {
    if faults.is_empty() {
        return Ok(false);
    }
    let (shelf, known) = (FileShelf::new(rt), SeenBytes::nothing());
    let evidence = Evidence {
        alloc: rt.alloc(),
        rt,
        shelf: &shelf,
        known: &known,
    };
    match read_words(evidence.alloc, words) {
        Ok(Request::Stream(stream)) => {
            let inputs = lines_of_stream(stream.file, &stream.sources, &stream.formats, document);
            push_faults(text, faults, inputs, &evidence)
        }
        _ => Ok(false),
    }
}

// Adds each process that waits for room on a channel whose reader can never read again, if that was not said.
fn push_clogged(
    text: &mut Vec<u8>,
    document: &Document,
    book: &Book<'_>,
    states: &[State],
    waits: &NetworkWaits,
    said: &[u8],
) -> Result<(), AllocError> {
    for (p, state) in states.iter().enumerate() {
        let State::WaitsFull(channel) = *state else {
            continue;
        };
        let Some(reader) = reader_of(document, channel) else {
            continue;
        };
        let is_first = !matches!(states.get(reader), Some(State::WaitsFull(_)));
        if is_first && is_stuck(document, book, states, waits, reader) {
            let before = text.len();
            push_name(
                text,
                "clogged: ",
                document.instance_name(p),
                " waits for room on ",
            )?;
            push_name(text, "", document.channel_name(channel), ", and ")?;
            push_name(text, "", document.instance_name(reader), NEVER)?;
            if is_said(said, text_of(text.get(before..).unwrap_or(&[]))) {
                text.truncate(before);
            } else {
                push(text, "\n")?;
            }
        }
    }
    Ok(())
}

const NEVER: &str = " never reads there again";

// Whether a process has ended, or waits for what can never come.
fn is_stuck(
    document: &Document,
    book: &Book<'_>,
    states: &[State],
    waits: &NetworkWaits,
    p: usize,
) -> bool {
    let mut at = p;
    for _step in 0..states.len() {
        match states.get(at) {
            Some(State::Ended(_)) => return true,
            Some(State::WaitsEmpty(channel)) => match writer_of(document, *channel) {
                Some(writer) => at = writer,
                None => return is_closed(book, *channel),
            },
            Some(State::WaitsFull(channel)) => match reader_of(document, *channel) {
                Some(reader) => at = reader,
                None => return false,
            },
            _ => return false,
        }
    }
    waits.is_in_ring(document, at)
}

fn is_closed(book: &Book<'_>, channel: usize) -> bool {
    channel < book.network().channels() && book.is_closed(channel)
}

fn writer_of(document: &Document, channel: usize) -> Option<usize> {
    process_of(document, channel, true)
}

fn reader_of(document: &Document, channel: usize) -> Option<usize> {
    process_of(document, channel, false)
}

// The process that writes or reads a channel.
fn process_of(document: &Document, channel: usize, writes: bool) -> Option<usize> {
    let network = document.network();
    if channel >= network.channels() {
        return None;
    }
    let end = if writes {
        network.writer_of(channel)
    } else {
        network.reader_of(channel)
    };
    match end {
        End::Process(p) if p < network.instances() => Some(p),
        _ => None,
    }
}
