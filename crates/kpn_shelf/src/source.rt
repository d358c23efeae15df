//! An input that is read, or looked at without waiting.
ghost use Rattle.std.specs.Io.{ReadsAtMost};
ghost use Rattle.kpn_shelf.specs.NonblockingRead.{LooksAtMost};

use crate::job::{System, ThreadCall};
use crate::look::NonblockingRead;
use crate::patient::Patient;
use std::fs::File;
use std::io::{Cursor, ErrorKind, Read};
use std::rt::{LibcRuntime, Stdin};
use std::thread::Threads;
use std::time::{Clock, Duration};
use std::{io, thread};

// How many bytes the read of a thread asks for.
const THREAD_READ_BYTES: usize = 65_536;

/// What a source reads.
#[derive(Drop)]
pub(crate) enum Device {
    File(File),
    Standard(Stdin),
}

impl Device {
    /// The same device, for a thread.
    fn twin(&self) -> io::Result<Device> {
        match self {
            Device::File(file) => Ok(Device::File(file.try_clone()?)),
            Device::Standard(input) => Ok(Device::Standard(*input)),
        }
    }
}

impl Read for Device {
    fn read(&mut self, buf: &mut [u8]) -> io::Result<usize> {
        match self {
            Device::File(file) => file.read(buf),
            Device::Standard(input) => input.read(buf),
        }
    }
}

// What the read of a thread brought: no bytes at the end of the input.
type Brought = Result<Vec<u8>, ErrorKind>;

/// An input that can be looked at. A look lets a thread read, and a later look or read gets what it brought.
#[derive(Drop)]
pub struct ThreadedInput<'r, R> {
    rt: &'r R,
    reader: Patient<'r, R, Device>,
    never_waits: bool,
    reading: Option<ThreadCall<Brought>>,
    // What a thread has brought.
    brought: Cursor<Vec<u8>>,
    // Whether a thread could be made for the last look that wanted one.
    can_look: bool,
}

impl<'r, R: Clock + AllocGlobal> ThreadedInput<'r, R> {
    /// A source that reads this device, and whether a read never waits.
    pub(crate) fn new(rt: &'r R, device: Device, never_waits: bool) -> ThreadedInput<'r, R> {
        ThreadedInput {
            rt,
            reader: Patient::new(rt, device),
            never_waits,
            reading: None,
            brought: Cursor::new(Vec::new(rt.alloc())),
            can_look: true,
        }
    }
}

impl<R: Clock + System + AllocGlobal + Threads> ThreadedInput<'_, R> {
    fn is_used_up(&self) -> bool {
        self.brought.position() >= self.brought.get_ref().len() as u64
    }

    // Lets a thread read.
    fn start(&self) -> io::Result<ThreadCall<Brought>> {
        let system = self.rt.system();
        let twin = self.reader.inner.twin()?;
        let chunk = vec![in self.rt.alloc(); 0; THREAD_READ_BYTES]?;
        ThreadCall::start(self.rt, move || -> Brought { bring(system, twin, chunk) })
    }

    // Waits for a thread's read, and reads what it brought.
    fn hand_over(&mut self, reading: ThreadCall<Brought>, buf: &mut [u8]) -> io::Result<usize>
        ensures { ReadsAtMost result buf.new }
    {
        let bytes = reading.finish(self.rt).map_err(io::Error::from)?;
        self.brought = Cursor::new(bytes);
        self.brought.read(buf)
    }
}

// One read into these bytes.
fn bring(system: LibcRuntime, device: Device, mut bytes: Vec<u8>) -> Brought {
    match Patient::new(&system, device).read(&mut bytes) {
        Ok(count) => {
            bytes.truncate(count);
            Ok(bytes)
        }
        Err(error) => Err(error.kind()),
    }
}

impl<R: Clock + System + AllocGlobal + Threads> Read for ThreadedInput<'_, R> {
    fn read(&mut self, buf: &mut [u8]) -> io::Result<usize> {
        match self.reading.take() {
            Some(reading) => self.hand_over(reading, buf),
            None if self.is_used_up() => self.reader.read(buf),
            None => self.brought.read(buf),
        }
    }
}

impl<R: Clock + System + AllocGlobal + Threads> NonblockingRead for ThreadedInput<'_, R> {
    fn look(&mut self, buf: &mut [u8]) -> io::Result<Option<usize>> {
        match self.reading.take() {
            Some(reading) if reading.is_done() => Ok(Some(self.hand_over(reading, buf)?)),
            Some(reading) => {
                self.reading = Some(reading);
                Ok(None)
            }
            None if self.never_waits || !self.is_used_up() => Ok(Some(self.read(buf)?)),
            None => {
                self.reading = self.start().ok();
                self.can_look = self.reading.is_some();
                Ok(None)
            }
        }
    }

    fn can_look(&self) -> bool {
        self.can_look
    }

    fn linger(&self) {
        thread::sleep(self.rt, Duration::from_millis(1));
    }
}
