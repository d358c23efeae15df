//! An output of items that fails.

use kpn_text::{WriteFault, write_items};
use std::io;
use std::io::{ErrorKind, Write};

/// Fails at each call.
#[derive(Drop)]
struct Broken;

impl Write for Broken {
    fn write(&mut self, _buf: &[u8]) -> io::Result<usize> {
        Err(io::Error::from(ErrorKind::Other))
    }

    fn flush(&mut self) -> io::Result<()> {
        Err(io::Error::from(ErrorKind::Other))
    }
}

#[test]
fn tells_an_output_that_fails(rt: HostRuntime) {
    assert!(rt; write_items(&mut Broken, &[]) == Ok(()));
    assert!(rt; write_items(&mut Broken, &[1]) == Err(WriteFault::Write));
}
