//! The program's standard input, and its standard descriptors where they are closed.

use crate::place::Node;
use crate::source::{Device, ThreadedInput};
use std::fs;
use std::fs::File;
use std::os::fd::{AsRawFd, IntoRawFd};
use std::rt::{Files, Stdin};
use std::time::Clock;

const STANDARD_INPUT: &str = "/dev/stdin";

const NOTHING: &str = "/dev/null";

const FOLDER: &str = "/";

/// Standard input, by this handle.
pub fn standard_input<R: Files<File = File> + Clock + AllocGlobal>(
    rt: &R,
    input: Stdin,
) -> ThreadedInput<'_, R> {
    ThreadedInput::new(rt, Device::Standard(input), never_waits(rt))
}

// Whether a read of standard input never waits: of a plain file, and of what stands for no input.
fn never_waits<R: Files>(rt: &R) -> bool {
    match (fs::metadata(rt, STANDARD_INPUT), fs::metadata(rt, NOTHING)) {
        (Ok(found), _) if found.is_file() => true,
        (Ok(found), Ok(nothing)) => Node::new(&found) == Node::new(&nothing),
        _ => false,
    }
}

/// Opens standard input, output and error where the program was started without them, so that no file gets their
/// numbers. They are a folder then: no read of it succeeds and no write, by the descriptor or by a path of it, as
/// `/dev/stdin`.
pub fn fill_standard<R: Files<File = File>>(rt: &R) {
    for _number in 0..3 {
        match fs::open(rt, FOLDER) {
            // A new file always gets the lowest free number.
            Ok(file) if file.as_raw_fd() < 3 => keep(file),
            _ => return,
        }
    }
}

// Leaves a file open until the program ends.
fn keep(file: File) {
    let _ = file.into_raw_fd();
}
