//! The files of a shelf, as lines say them.

use anyhow::Result;
use kpn_cli::Shelf;
use std::alloc::Global;

/// The bytes that a text of a line means.
fn unescaped(alloc: Global, text: &str) -> Result<String> {
    let text = text.replace(alloc, "\\n", "\n")?;
    let text = text.replace(alloc, "\\r", "\r")?;
    Ok(text.replace(alloc, "\\0", "\0")?)
}

/// Makes the file that `NAME TEXT` says.
pub(crate) fn make_file<S: Shelf>(alloc: Global, shelf: &mut S, line: &str) -> Result<()> {
    let Some((name, text)) = line.split_once(' ') else {
        return Ok(());
    };
    let text = unescaped(alloc, text)?;
    shelf.store(name, text.as_bytes())?;
    Ok(())
}

/// Makes the file longer that `NAME COUNT TEXT` says.
pub(crate) fn extend_file<S: Shelf>(alloc: Global, shelf: &mut S, line: &str) -> Result<()> {
    let Some((name, rest)) = line.split_once(' ') else {
        return Ok(());
    };
    let Some((count, text)) = rest.split_once(' ') else {
        return Ok(());
    };
    let count = count.parse::<u32>()?;
    let text = unescaped(alloc, text)?;
    let mut bytes = bytes_of(alloc, shelf, name);
    bytes.reserve(text.len().saturating_mul(count as usize))?;
    for _time in 0..count {
        bytes.extend_from_slice(text.as_bytes())?;
    }
    shelf.store(name, &bytes)?;
    Ok(())
}

/// What a file holds, and nothing if it can't be read.
pub(crate) fn bytes_of<S: Shelf>(alloc: Global, files: &S, name: &str) -> Vec<u8> {
    match files.load(alloc, name) {
        Ok(bytes) => bytes,
        Err(_) => Vec::new(alloc),
    }
}
