//! FIFOs that are being opened. To open one waits for somebody who opens its other end, and that one may wait for what
//! this program does with another file. So each is opened by a thread of its own, and no order of opening can hang.

use crate::job::{System, ThreadCall};
use std::fs::{File, OpenOptions};
use std::io;
use std::io::ErrorKind;
use std::rt::Files;
use std::thread::Threads;

/// A FIFO that a thread opens.
#[derive(Drop)]
pub(crate) struct Opening {
    job: ThreadCall<Option<File>>,
}

impl Opening {
    /// Lets a thread open the file of this name.
    pub(crate) fn start<R: System + AllocGlobal + Threads>(
        rt: &R,
        name: &str,
        options: OpenOptions,
    ) -> io::Result<Opening> {
        let files = rt.system();
        let path = String::from_str(rt.alloc(), name)?;
        let open = move || -> Option<File> { options.open(&files, path.as_str()).ok() };
        Ok(Opening {
            job: ThreadCall::start(rt, open)?,
        })
    }

    /// Whether the file is open, or can't be opened.
    pub(crate) fn is_done(&self) -> bool {
        self.job.is_done()
    }

    /// The open file. This waits for who opens the other end.
    pub(crate) fn finish<R: Threads>(self, rt: &R) -> io::Result<File> {
        let Opening { job } = self;
        match job.finish(rt) {
            Some(file) => Ok(file),
            None => Err(io::Error::from(ErrorKind::Other)),
        }
    }

    /// Ends the thread, and wakes who waits for this end. Opened for both, a FIFO waits for nobody. Where the user has
    /// no right to that, the thread is left to the end of the program.
    pub(crate) fn give_up<R: Files<File = File> + Threads>(self, rt: &R, name: &str) {
        if let Ok(_other_end) = OpenOptions::new().read(true).write(true).open(rt, name) {
            let _ = self.finish(rt);
        }
    }
}
