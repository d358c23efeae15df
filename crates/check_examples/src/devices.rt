//! The one type of input and of output that all command lines have. They are in memory, and calls of them may fail.

use kpn_cli::NonblockingRead;
use std::alloc::Global;
use std::io;
use std::io::{ErrorKind, Read, Write};

/// Which calls of a device fail.
#[derive(Clone, Copy)]
pub(crate) struct Failure {
    /// How many calls succeed before one fails, or `None` if none fails any more.
    pub before: Option<u8>,
    /// Whether each call after that fails too.
    pub lasts: bool,
    pub kind: ErrorKind,
}

/// No call fails.
pub(crate) const NONE: Failure = Failure {
    before: None,
    lasts: false,
    kind: ErrorKind::Other,
};

impl Failure {
    fn call(&mut self) -> io::Result<()> {
        match self.before {
            None => Ok(()),
            Some(0) => {
                if !self.lasts {
                    self.before = None;
                }
                Err(io::Error::from(self.kind))
            }
            Some(calls) => {
                self.before = Some(calls - 1);
                Ok(())
            }
        }
    }
}

/// Gives its bytes: as many as it is asked for, or one by one if a call of it fails.
#[derive(Drop)]
pub(crate) struct Input<'a> {
    bytes: &'a [u8],
    failure: Failure,
    gives_single_bytes: bool,
}

impl Input<'_> {
    pub(crate) fn new(bytes: &[u8], failure: Failure) -> Input<'_> {
        Input {
            bytes,
            failure,
            gives_single_bytes: failure.before.is_some(),
        }
    }
}

impl Read for Input<'_> {
    fn read(&mut self, buf: &mut [u8]) -> io::Result<usize> {
        if !self.gives_single_bytes {
            return self.bytes.read(buf);
        }
        self.failure.call()?;
        let Some((byte, rest)) = self.bytes.split_first() else {
            return Ok(0);
        };
        self.bytes = rest;
        io::repeat(*byte).take(1).read(buf)
    }
}

/// All has come.
impl NonblockingRead for Input<'_> {
    fn look(&mut self, buf: &mut [u8]) -> io::Result<Option<usize>> {
        Ok(Some(self.read(buf)?))
    }

    fn can_look(&self) -> bool {
        true
    }
}

/// Keeps what is written.
#[derive(Drop)]
pub(crate) struct Output {
    pub(crate) kept: Vec<u8>,
    pub(crate) failure: Failure,
}

impl Output {
    pub(crate) fn new(alloc: Global, failure: Failure) -> Output {
        Output {
            kept: Vec::new(alloc),
            failure,
        }
    }
}

impl Write for Output {
    fn write(&mut self, buf: &[u8]) -> io::Result<usize> {
        self.failure.call()?;
        self.kept.write(buf)
    }

    fn flush(&mut self) -> io::Result<()> {
        self.failure.call()
    }
}
