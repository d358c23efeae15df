//! The files that are written when something is stored under a name.

use crate::place::{PathTarget, behind_links, beside, split};
use std::alloc::AllocError;
use std::io::ErrorKind;
use std::rt::Files;

// How the name of a part file ends.
const ENDING: &str = ".kpn-part";

// How many bytes of the name of a file begin the name of its part file: names have 255 bytes at most.
const MOST_NAME_BYTES: usize = 255 - ENDING.len();

/// The path of the part file of a plain file, which stands beside it.
pub(super) fn part_of(rt: &impl AllocGlobal, path: &str) -> Result<String, AllocError> {
    let (_, last) = split(path);
    beside(rt, path, beginning(last), ENDING)
}

// The beginning of a name after which there is room for the ending. A character has four bytes at most.
fn beginning(last: &str) -> &str {
    if last.len() <= MOST_NAME_BYTES {
        return last;
    }
    for cut in (MOST_NAME_BYTES - 3..=MOST_NAME_BYTES).rev() {
        if let Some(front) = last.get(..cut) {
            return front;
        }
    }
    last
}

/// What is written to store something under a name: the file itself, and its part file.
#[derive(Drop)]
pub(super) struct WrittenPaths {
    itself: PathTarget,
    part: PathTarget,
}

impl WrittenPaths {
    /// What is written for this name. It fails only for want of memory.
    pub(super) fn new<R: Files + AllocGlobal>(
        rt: &R,
        name: &str,
    ) -> Result<WrittenPaths, AllocError> {
        let itself = PathTarget::new(rt, name)?;
        let part = match behind_links(rt, name) {
            Ok(Some(path)) => PathTarget::new(rt, part_of(rt, path.as_str())?.as_str())?,
            Err(error) if error.kind() == ErrorKind::OutOfMemory => return Err(AllocError),
            _ => PathTarget::Other,
        };
        Ok(WrittenPaths { itself, part })
    }

    /// Whether the file that another name leads to is written.
    pub(super) fn has_file_of(&self, other: &WrittenPaths) -> bool {
        self.itself.is_same(&other.itself) || self.part.is_same(&other.itself)
    }

    /// Whether both write one file.
    pub(super) fn meets(&self, other: &WrittenPaths) -> bool {
        self.has_file_of(other)
            || self.itself.is_same(&other.part)
            || self.part.is_same(&other.part)
    }
}
