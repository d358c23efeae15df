//! A writer that keeps the end of what it has written, and a reader that keeps the beginning of what it has read.
ghost use Rattle.std.specs.Prelude.{◌≡◌};

use kpn_shelf::NonblockingRead;
use std::alloc::Global;
use std::io;
use std::io::{Read, Write};

// How many bytes are kept at most. The lines of a report that are read again are the last ones, and take less.
const MOST_KEPT: usize = 65_536;

/// How many bytes of an input are kept at most.
pub(crate) const MOST_GIVEN: usize = 4_096;

/// A writer, and the end of what went through it, as far as there was memory for it.
#[derive(Drop)]
pub struct EndKeeper<W: Drop> {
    pub(crate) inner: W,
    keeps: bool,
    kept: Vec<u8>,
}

impl<W: Drop> EndKeeper<W> {
    /// This writer, and whether it keeps what is written.
    pub fn new(alloc: Global, inner: W, keeps: bool) -> EndKeeper<W>
        ensures { result.inner ≡ inner }
    {
        EndKeeper {
            inner,
            keeps,
            kept: Vec::new(alloc),
        }
    }

    /// The writer.
    pub fn into_inner(self) -> W {
        self.inner
    }

    /// The end of what was written.
    pub fn kept(&self) -> &[u8] {
        &self.kept
    }
}

impl<W: Write + Drop> Write for EndKeeper<W> {
    ghost contents = { λ keeping. W.contents keeping.inner };

    fn write(&mut self, buf: &[u8]) -> io::Result<usize> {
        let answer = self.inner.write(buf);
        if let Ok(count) = &answer {
            if self.keeps {
                keep(&mut self.kept, buf, *count);
            }
        }
        answer
    }

    fn flush(&mut self) -> io::Result<()> {
        self.inner.flush()
    }
}

// Keeps the end of the first `count` bytes, after those before if there is room.
fn keep(kept: &mut Vec<u8>, bytes: &[u8], count: usize) {
    let from = count.saturating_sub(MOST_KEPT);
    let Some(end) = bytes.get(from..count) else {
        return;
    };
    if kept.len() > MOST_KEPT - end.len().min(MOST_KEPT) {
        kept.clear();
    }
    let _ = kept.extend_from_slice(end);
}

/// A reader, the beginning of what came through it, as far as there was memory for it, and how many bytes came.
#[derive(Drop)]
pub struct BeginningKeeper<I: Drop> {
    inner: I,
    given: Vec<u8>,
    count: u64,
}

impl<I: Drop> BeginningKeeper<I> {
    /// This reader.
    pub fn new(alloc: Global, inner: I) -> BeginningKeeper<I> {
        BeginningKeeper {
            inner,
            given: Vec::new(alloc),
            count: 0,
        }
    }

    /// The beginning of what was read.
    pub fn given(&self) -> &[u8] {
        &self.given
    }

    /// How many bytes were read.
    pub fn count(&self) -> u64 {
        self.count
    }
}

impl<I: Read + Drop> Read for BeginningKeeper<I> {
    ghost remaining = { λ opening. I.remaining opening.inner };

    fn read(&mut self, buf: &mut [u8]) -> io::Result<usize> {
        let answer = self.inner.read(buf);
        if let Ok(count) = &answer {
            begin(&mut self.given, buf, *count);
            self.count = self.count.saturating_add(*count as u64);
        }
        answer
    }
}

impl<I: NonblockingRead + Drop> NonblockingRead for BeginningKeeper<I> {
    fn look(&mut self, buf: &mut [u8]) -> io::Result<Option<usize>> {
        let answer = self.inner.look(buf);
        if let Ok(Some(count)) = &answer {
            begin(&mut self.given, buf, *count);
            self.count = self.count.saturating_add(*count as u64);
        }
        answer
    }

    fn can_look(&self) -> bool {
        self.inner.can_look()
    }

    fn linger(&self) {
        self.inner.linger();
    }
}

// Keeps the first `count` bytes after those before, as long as there is room.
fn begin(given: &mut Vec<u8>, bytes: &[u8], count: usize) {
    let room = MOST_GIVEN.saturating_sub(given.len());
    if let Some(first) = bytes.get(..count.min(room)) {
        let _ = given.extend_from_slice(first);
    }
}
