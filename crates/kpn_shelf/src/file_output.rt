//! The outputs of the system's files, written piece by piece.
ghost use Rattle.std.specs.Prelude.{◌≡◌, IfOk};
ghost use Rattle.std.specs.String.{string_bytes};

use crate::job::System;
use crate::opening::Opening;
use crate::place::is_pipe;
use std::fs::{File, OpenOptions, TryLockError};
use std::io::{ErrorKind, Write};
use std::rt::Files;
use std::thread::Threads;
use std::{fs, io};

/// A file that is written piece by piece.
pub struct FileOutput<'a, R: Files<File = File> + Threads> {
    rt: &'a R,
    pub(crate) name: String,
    // Until a FIFO is open it has no file, and none if it can't be opened.
    file: Option<File>,
    opening: Option<Opening>,
    // Whether all outputs were opened, and whether the file was made for this one.
    is_begun: bool,
    is_new: bool,
    // How many bytes were written, and how many of them up to the last flush.
    written: u64,
    flushed: u64,
}

impl<'a, R: System + AllocGlobal + Threads> FileOutput<'a, R> {
    /// Opens the file of this name. A FIFO is open when it is first written. If no thread can be made for it, this
    /// waits. A plain file keeps what it holds, and is locked.
    pub(crate) fn open(rt: &'a R, name: &str) -> io::Result<FileOutput<'a, R>>
        ensures { IfOk result (λ output. string_bytes output.name ≡ name.now) }
    {
        let word = String::from_str(rt.alloc(), name)?;
        let opening = open_apart(rt, word.as_str());
        let (file, is_new) = match opening {
            Some(_) => (None, false),
            None => {
                let (file, is_new) = open_locked(rt, word.as_str())?;
                (Some(file), is_new)
            }
        };
        Ok(FileOutput {
            rt,
            name: word,
            file,
            opening,
            is_begun: false,
            is_new,
            written: 0,
            flushed: 0,
        })
    }
}

/// Begins to open a FIFO.
pub(crate) fn open_apart<R: System + AllocGlobal + Threads>(rt: &R, name: &str) -> Option<Opening> {
    if !is_pipe(rt, name) {
        return None;
    }
    let mut options = OpenOptions::new();
    options.write(true);
    Opening::start(rt, name, options).ok()
}

// Opens a file, and tells whether it was made. Another program that writes a plain file so keeps it locked. Some file
// systems have no locks.
fn open_locked<R: Files<File = File>>(rt: &R, name: &str) -> io::Result<(File, bool)> {
    let made = OpenOptions::new()
        .write(true)
        .create_new(true)
        .open(rt, name);
    let is_new = made.is_ok();
    let file = match made {
        Ok(file) => file,
        Err(_) => OpenOptions::new().write(true).create(true).open(rt, name)?,
    };
    if file.metadata()?.is_file() {
        if let Err(TryLockError::WouldBlock) = file.try_lock() {
            return Err(io::Error::from(ErrorKind::WouldBlock));
        }
    }
    Ok((file, is_new))
}

impl<R: Files<File = File> + Threads> FileOutput<'_, R> {
    /// Removes what a plain file holds.
    pub(crate) fn empty(&mut self) -> io::Result<()>
        ensures { self.new.name ≡ self.old.name }
    {
        self.is_begun = true;
        match &self.file {
            Some(file) if file.metadata()?.is_file() => file.set_len(0),
            _ => Ok(()),
        }
    }

    // Removes from a plain file what was written since the last flush: it may end within an item.
    fn cut_back(&self) {
        if let Some(file) = &self.file {
            if file.metadata().is_ok_and(|found| found.is_file()) {
                let _ = file.set_len(self.flushed);
            }
        }
    }

    // Waits until the file is open.
    fn wait_until_open(&mut self) -> io::Result<()> {
        if let Some(opening) = self.opening.take() {
            self.file = Some(opening.finish(self.rt)?);
        }
        Ok(())
    }
}

impl<R: Files<File = File> + Threads> Write for FileOutput<'_, R> {
    fn write(&mut self, buf: &[u8]) -> io::Result<usize> {
        self.wait_until_open()?;
        let answer = match &mut self.file {
            Some(file) => file.write(buf),
            None => Err(io::Error::from(ErrorKind::Other)),
        };
        match &answer {
            Ok(count) => self.written = self.written.saturating_add(*count as u64),
            Err(error) if error.kind() == ErrorKind::Interrupted => {}
            Err(_) => self.cut_back(),
        }
        answer
    }

    fn flush(&mut self) -> io::Result<()> {
        self.flushed = self.written;
        Ok(())
    }
}

impl<R: Files<File = File> + Threads> Drop for FileOutput<'_, R> {
    /// Waits until somebody reads a FIFO to which nothing was written, so that its reader comes to an end. If not all
    /// outputs could be opened, nobody is waited for, and no new file stays.
    fn drop(self) {
        let FileOutput {
            rt,
            name,
            file: _,
            opening,
            is_begun,
            is_new,
            written: _,
            flushed: _,
        } = self;
        match opening {
            Some(opening) if is_begun => {
                let _ = opening.finish(rt);
            }
            Some(opening) => opening.give_up(rt, name.as_str()),
            None if is_new && !is_begun => {
                let _ = fs::remove_file(rt, name.as_str());
            }
            None => {}
        }
    }
}
