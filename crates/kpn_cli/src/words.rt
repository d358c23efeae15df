//! Words for a person, after the fixed line: which file it is about, what stands there, and what to do.
//!
//! What they say is found anew from the words of the command line, from plain files and from what was kept of what the
//! program has read and written, so they change nothing of what it has done. They are tested, not proved.

use crate::advice::push_advice;
use crate::causes::push_causes;
use crate::options::{push_unclear, push_wrong_format};
use crate::pieces::is_plain;
use kpn_command_base::load_document;
use kpn_command_line::{Request, read_words};
use kpn_shelf::{FileShelf, Shelf, System};
use kpn_text::Document;
use std::alloc::{AllocError, Global};
use std::fs;
use std::rt::Files;
use std::thread::Threads;

/// When words follow the fixed line.
#[derive(Clone, Copy, PartialEq, Eq)]
pub enum WordsWanted {
    Always,
    Never,
    /// If standard error is a terminal.
    Terminal,
}

impl WordsWanted {
    /// What a word after `--words` says.
    pub fn of_word(word: &str) -> Option<WordsWanted> {
        match word {
            "always" => Some(WordsWanted::Always),
            "never" => Some(WordsWanted::Never),
            "terminal" => Some(WordsWanted::Terminal),
            _ => None,
        }
    }

    /// Whether words follow.
    pub fn holds<R: Files + AllocGlobal>(self, rt: &R) -> bool {
        match self {
            WordsWanted::Always => true,
            WordsWanted::Never => false,
            WordsWanted::Terminal => is_terminal(rt),
        }
    }
}

// Whether standard error is a terminal, by the name of its device.
fn is_terminal<R: Files + AllocGlobal>(rt: &R) -> bool {
    let Ok(path) = fs::read_link(rt, "/proc/self/fd/2") else {
        return false;
    };
    let device = path.into_string();
    let name = device.as_str();
    name.starts_with("/dev/pts/") || name.starts_with("/dev/tty") || name == "/dev/console"
}

/// What is known of what a command has read and written.
#[derive(Clone, Copy)]
pub struct SeenBytes<'k> {
    /// The end of what it wrote.
    pub written: &'k [u8],
    /// The end of what it told where faults go.
    pub told: &'k [u8],
    /// What was said of a stream while it ran.
    pub said: &'k [u8],
    /// What a quiet stream would have told of its end.
    pub unsaid: &'k [u8],
    /// The beginning of what it read of standard input, and how many bytes it read there.
    pub given: &'k [u8],
    pub count: u64,
}

impl SeenBytes<'static> {
    /// Nothing is known.
    pub(crate) fn nothing() -> SeenBytes<'static> {
        SeenBytes {
            written: &[],
            told: &[],
            said: &[],
            unsaid: &[],
            given: &[],
            count: 0,
        }
    }
}

/// What words are found from: plain files, and what is known of the command.
#[derive(Drop)]
pub(crate) struct Evidence<'e, R, S> {
    pub(crate) alloc: Global,
    pub(crate) rt: &'e R,
    pub(crate) shelf: &'e S,
    pub(crate) known: &'e SeenBytes<'e>,
}

impl<'e, R: Files, S: Shelf> Evidence<'e, R, S> {
    /// The network of a file, if it can be read once more.
    pub(crate) fn plain_document(&self, file: &str) -> Option<Document> {
        if !is_plain(self.rt, file) {
            return None;
        }
        load_document(self.alloc, self.shelf, file).ok()
    }
}

/// The words after what a command has told that came to this status. There are none if there is nothing to say, or no
/// memory to say it.
pub fn words_for<R: System + AllocGlobal + Threads>(
    rt: &R,
    words: &[String],
    status: u8,
    known: &SeenBytes<'_>,
) -> Vec<u8> {
    let mut text = Vec::new(rt.alloc());
    match push_words(&mut text, rt, words, status, known) {
        Ok(()) => text,
        Err(_) => Vec::new(rt.alloc()),
    }
}

fn push_words<R: System + AllocGlobal + Threads>(
    text: &mut Vec<u8>,
    rt: &R,
    words: &[String],
    status: u8,
    known: &SeenBytes<'_>,
) -> Result<(), AllocError> {
    let alloc = rt.alloc();
    let Ok(request) = read_words(alloc, words) else {
        return push_unclear(text, alloc, words, known);
    };
    let shelf = FileShelf::new(rt);
    let evidence = Evidence {
        alloc,
        rt,
        shelf: &shelf,
        known,
    };
    match (status, &request) {
        (1, _) => push_causes(text, &request, &evidence),
        (2, Request::Stream(stream)) => push_wrong_format(text, stream, &evidence),
        _ => push_advice(text, &request, status, &evidence),
    }
}
