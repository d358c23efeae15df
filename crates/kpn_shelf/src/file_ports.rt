//! The system's files as inputs and outputs that are read and written piece by piece.
ghost use Rattle.std.specs.Prelude.{⊤};
ghost use Rattle.std.specs.String.{string_bytes};

use crate::file_input::FileInput;
use crate::file_output::FileOutput;
use crate::files::{FileShelf, fault_of};
use crate::job::System;
use crate::place::Node;
use crate::ports::Ports;
use kpn_text_items::{ItemFault, WriteFault};
use std::fs;
use std::io::ErrorKind;
use std::rt::Files;
use std::thread::Threads;
use std::time::Clock;

/// The name of standard input and of standard output.
pub const STANDARD: &str = "-";

// A path of standard input.
const STANDARD_PATH: &str = "/dev/stdin";

impl<'a, R: System + Clock + AllocGlobal + Threads> Ports for FileShelf<'a, R> {
    type Input = FileInput<'a, R>;

    type Output = FileOutput<'a, R>;

    ghost comes_from = { λ input. string_bytes input.name };

    ghost goes_to = { λ output. string_bytes output.name };

    ghost are_two_inputs = { λ _ _ _. ⊤ };

    ghost may_share = { λ _ _ _. ⊤ };

    fn open_input(&self, name: &str) -> Result<FileInput<'a, R>, ItemFault> {
        match FileInput::open(self.rt, name) {
            Ok(input) => Ok(input),
            Err(error) if error.kind() == ErrorKind::OutOfMemory => Err(ItemFault::NoMemory),
            Err(_) => Err(ItemFault::Read),
        }
    }

    fn open_output(&self, name: &str) -> Result<FileOutput<'a, R>, WriteFault> {
        match FileOutput::open(self.rt, name) {
            Ok(output) => Ok(output),
            Err(error) => Err(fault_of(error)),
        }
    }

    fn empty(&self, output: &mut FileOutput<'a, R>) -> Result<(), WriteFault> {
        output.empty().map_err(fault_of)
    }

    fn is_one_input(&self, name: &str, other: &str) -> bool {
        if name == STANDARD && other == STANDARD {
            return true;
        }
        match (device_of(self.rt, name), device_of(self.rt, other)) {
            (Some(device), Some(other)) => device == other,
            _ => false,
        }
    }
}

// What an input of this name reads, if it is there and no plain file.
fn device_of<R: Files>(rt: &R, name: &str) -> Option<Node> {
    let path = if name == STANDARD {
        STANDARD_PATH
    } else {
        name
    };
    match fs::metadata(rt, path) {
        Ok(found) if !found.is_file() => Some(Node::new(&found)),
        _ => None,
    }
}
