//! The inputs of the system's files, read piece by piece.
ghost use Rattle.std.specs.Prelude.{◌≡◌, IfOk};
ghost use Rattle.std.specs.String.{string_bytes};

use crate::job::System;
use crate::look::NonblockingRead;
use crate::opening::Opening;
use crate::place::is_pipe;
use crate::source::{Device, ThreadedInput};
use std::fs::{File, OpenOptions};
use std::io::{ErrorKind, Read};
use std::rt::Files;
use std::thread::Threads;
use std::time::Clock;
use std::{fs, io};

/// A file that is read piece by piece.
pub struct FileInput<'a, R: Files<File = File> + Threads> {
    rt: &'a R,
    pub(crate) name: String,
    // Until a FIFO is open it has no source, and none if it can't be opened.
    source: Option<ThreadedInput<'a, R>>,
    opening: Option<Opening>,
}

impl<'a, R: System + Clock + AllocGlobal + Threads> FileInput<'a, R> {
    /// Opens the file of this name. A FIFO is open when it is first read. If no thread can be made for it, this waits.
    pub(crate) fn open(rt: &'a R, name: &str) -> io::Result<FileInput<'a, R>>
        ensures { IfOk result (λ input. string_bytes input.name ≡ name.now) }
    {
        let word = String::from_str(rt.alloc(), name)?;
        let opening = open_apart(rt, name);
        let source = match opening {
            Some(_) => None,
            None => Some(source_of(rt, fs::open(rt, name)?)?),
        };
        Ok(FileInput {
            rt,
            name: word,
            source,
            opening,
        })
    }

    // Waits until the file is open.
    fn wait_until_open(&mut self) -> io::Result<()> {
        if let Some(opening) = self.opening.take() {
            self.source = Some(source_of(self.rt, opening.finish(self.rt)?)?);
        }
        Ok(())
    }
}

// A read of a plain file never waits.
fn source_of<R: Clock + AllocGlobal>(rt: &R, file: File) -> io::Result<ThreadedInput<'_, R>> {
    let is_plain = file.metadata()?.is_file();
    Ok(ThreadedInput::new(rt, Device::File(file), is_plain))
}

// Begins to open a FIFO.
fn open_apart<R: System + AllocGlobal + Threads>(rt: &R, name: &str) -> Option<Opening> {
    if !is_pipe(rt, name) {
        return None;
    }
    let mut options = OpenOptions::new();
    options.read(true);
    Opening::start(rt, name, options).ok()
}

impl<R: System + Clock + AllocGlobal + Threads> Read for FileInput<'_, R> {
    fn read(&mut self, buf: &mut [u8]) -> io::Result<usize> {
        self.wait_until_open()?;
        match &mut self.source {
            Some(source) => source.read(buf),
            None => Err(io::Error::from(ErrorKind::Other)),
        }
    }
}

impl<R: System + Clock + AllocGlobal + Threads> NonblockingRead for FileInput<'_, R> {
    fn look(&mut self, buf: &mut [u8]) -> io::Result<Option<usize>> {
        if let Some(opening) = &self.opening {
            if !opening.is_done() {
                return Ok(None);
            }
        }
        self.wait_until_open()?;
        match &mut self.source {
            Some(source) => source.look(buf),
            None => Err(io::Error::from(ErrorKind::Other)),
        }
    }

    fn can_look(&self) -> bool {
        match &self.source {
            Some(source) => source.can_look(),
            None => true,
        }
    }
}

impl<R: Files<File = File> + Threads> Drop for FileInput<'_, R> {
    /// Who waits to write to a FIFO that was never read finds that nobody reads.
    fn drop(self) {
        let FileInput {
            rt,
            name,
            source: _,
            opening,
        } = self;
        if let Some(opening) = opening {
            opening.give_up(rt, name.as_str());
        }
    }
}
