//! The inputs of a shelf in memory. It has no outputs that are written piece by piece.
ghost use Rattle.std.specs.Prelude.{◌≡◌, ◌≢◌, Some, [], codes};
ghost use Rattle.std.specs.Io.Cursor.{cursor_remaining};
ghost use Rattle.std.specs.String.{string_bytes};

use crate::Shelf;
use crate::file_ports::STANDARD;
use crate::look::NonblockingRead;
use crate::memory::MemoryShelf;
use crate::ports::Ports;
use kpn_text_items::{ItemFault, WriteFault};
use std::io;
use std::io::{Cursor, Read};

/// An input of a shelf in memory: the bytes that a file held when it was opened.
#[derive(Drop)]
pub struct MemoryInput {
    name: String,
    bytes: Cursor<Vec<u8>>,
}

impl Read for MemoryInput {
    ghost remaining = { λ input. cursor_remaining (λ bytes. Some bytes.items) input.bytes };

    fn read(&mut self, buf: &mut [u8]) -> io::Result<usize> {
        self.bytes.read(buf)
    }
}

impl NonblockingRead for MemoryInput {
    fn look(&mut self, buf: &mut [u8]) -> io::Result<Option<usize>> {
        self.bytes.look(buf)
    }

    fn can_look(&self) -> bool {
        true
    }
}

impl Ports for MemoryShelf {
    type Input = MemoryInput;

    type Output = Vec<u8>;

    ghost comes_from = { λ input. string_bytes input.name };

    ghost goes_to = { λ _. [] };

    ghost are_two_inputs = { λ _ name other. name ≡ codes "-" → other ≢ codes "-" };

    ghost may_share = { λ _ name other. (name ≡ codes "-") × (other ≡ codes "-") };

    fn open_input(&self, name: &str) -> Result<MemoryInput, ItemFault> {
        let bytes = self.load(self.alloc, name)?;
        match String::from_str(self.alloc, name) {
            Ok(name) => Ok(MemoryInput {
                name,
                bytes: Cursor::new(bytes),
            }),
            Err(_) => Err(ItemFault::NoMemory),
        }
    }

    fn open_output(&self, _name: &str) -> Result<Vec<u8>, WriteFault> {
        Err(WriteFault::Write)
    }

    fn empty(&self, output: &mut Vec<u8>) -> Result<(), WriteFault> {
        output.clear();
        Ok(())
    }

    /// A file is read by each one whole. Standard input, which is none of its files, has one reader.
    fn is_one_input(&self, name: &str, other: &str) -> bool {
        name == STANDARD && other == STANDARD
    }
}
