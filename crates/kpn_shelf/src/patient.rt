//! Readers and writers that others share. Somebody else may let them not wait: then they wait here.
ghost use Rattle.std.specs.Prelude.{◌≡◌, true, IsErr};

use std::io::{ErrorKind, Read, Write};
use std::time::{Clock, Duration};
use std::{io, thread};

// How many milliseconds lie between two tries at most.
const LONGEST_PAUSE: u64 = 20;

/// A reader or a writer that tries again, a little later each time, as long as it would have to wait.
#[derive(Drop)]
pub struct Patient<'r, R, T: Drop> {
    rt: &'r R,
    pub(crate) inner: T,
}

impl<'r, R: Clock, T: Drop> Patient<'r, R, T> {
    /// This reader or writer, and the clock by which it waits.
    pub fn new(rt: &'r R, inner: T) -> Patient<'r, R, T>
        ensures { result.inner ≡ inner }
    {
        Patient { rt, inner }
    }
}

// Waits this many milliseconds, and returns how many to wait the next time.
fn wait<R: Clock>(rt: &R, milliseconds: u64) -> u64 {
    thread::sleep(rt, Duration::from_millis(milliseconds));
    if milliseconds < LONGEST_PAUSE / 2 {
        return milliseconds * 2;
    }
    LONGEST_PAUSE
}

// Whether a try would have had to wait.
fn would_wait<T>(answer: &io::Result<T>) -> bool
    ensures { result ≡ true → IsErr answer.now }
{
    match answer {
        Ok(_) => false,
        Err(error) => error.kind() == ErrorKind::WouldBlock,
    }
}

impl<R: Clock, T: Read + Drop> Read for Patient<'_, R, T> {
    ghost remaining = { λ patient. T.remaining patient.inner };

    fn read(&mut self, buf: &mut [u8]) -> io::Result<usize> {
        let mut pause = 1;
        for _attempt in 0..u64::MAX {
            let answer = self.inner.read(buf);
            if !would_wait(&answer) {
                return answer;
            }
            pause = wait(self.rt, pause);
        }
        Err(io::Error::from(ErrorKind::WouldBlock))
    }
}

impl<R: Clock, T: Write + Drop> Write for Patient<'_, R, T> {
    ghost contents = { λ patient. T.contents patient.inner };

    fn write(&mut self, buf: &[u8]) -> io::Result<usize> {
        let mut pause = 1;
        for _attempt in 0..u64::MAX {
            let answer = self.inner.write(buf);
            if !would_wait(&answer) {
                return answer;
            }
            pause = wait(self.rt, pause);
        }
        Err(io::Error::from(ErrorKind::WouldBlock))
    }

    fn flush(&mut self) -> io::Result<()> {
        self.inner.flush()
    }
}
