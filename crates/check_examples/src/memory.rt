//! A shelf in memory, which no command line uses.

use crate::files::{bytes_of, make_file};
use anyhow::Result;
use kpn_cli::{MemoryShelf, NonblockingRead, Ports};
use std::alloc::Global;
use std::io::Write;

/// How many bytes a look asks for.
const CHUNK: usize = 64;

/// What a first look at a file shows, and nothing if it can't be opened.
fn shown<S: Ports>(alloc: Global, shelf: &S, name: &str) -> Vec<u8> {
    let Ok(mut input) = shelf.open_input(name) else {
        return Vec::new(alloc);
    };
    let mut chunk = [0; CHUNK];
    let count = match input.look(&mut chunk) {
        Ok(Some(count)) => count,
        _ => 0,
    };
    match chunk[..count.min(CHUNK)].to_vec(alloc) {
        Ok(bytes) => bytes,
        Err(_) => Vec::new(alloc),
    }
}

/// Makes the file that `NAME TEXT` says on a shelf in memory. Writes what that then holds under the name `a`, what a
/// look shows of it, and what is left in an output that had as much and was emptied.
pub(crate) fn keep<O: Write>(alloc: Global, out: &mut O, words: &str) -> Result<()> {
    let mut shelf = MemoryShelf::new(alloc);
    let made = make_file(alloc, &mut shelf, words);
    let bytes = bytes_of(alloc, &shelf, "a");
    let looked = shown(alloc, &shelf, "a");
    let mut output = bytes_of(alloc, &shelf, "a");
    let emptied = shelf.empty(&mut output);
    drop(shelf);
    made?;
    emptied?;
    out.write_all(&bytes)?;
    out.write_all(&looked)?;
    out.write_all(&output)?;
    Ok(())
}
