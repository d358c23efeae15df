//! What a path leads to. Links are followed to the name of a plain file, which is there or can be made.

use std::alloc::AllocError;
use std::fs::Metadata;
use std::io::ErrorKind;
use std::os::unix::fs::{FileTypeExt, MetadataExt};
use std::rt::Files;
use std::{fs, io};

// How many links in a row the system follows.
const MOST_LINKS: usize = 40;

/// The folder of a path, and the last name of the path, which is empty after a slash.
pub(super) fn split(path: &str) -> (&str, &str) {
    match path.rsplit_once('/') {
        Some(("", last)) => ("/", last),
        Some((folder, last)) => (folder, last),
        None => (".", path),
    }
}

/// Another name in the folder of a path, with an ending after it.
pub(super) fn beside(
    rt: &impl AllocGlobal,
    path: &str,
    name: &str,
    ending: &str,
) -> Result<String, AllocError> {
    let (_, last) = split(path);
    let folder = path.strip_suffix(last).unwrap_or("");
    format!(in rt.alloc(); "{folder}{name}{ending}")
}

/// Whether a path leads to a FIFO or a pipe.
pub(crate) fn is_pipe<R: Files>(rt: &R, path: &str) -> bool {
    fs::metadata(rt, path).is_ok_and(|found| found.file_type().is_fifo())
}

/// A file by its device and its inode.
#[derive(Clone, Copy, PartialEq, Eq)]
pub(crate) struct Node {
    device: u64,
    inode: u64,
}

impl Node {
    /// The file that this describes.
    pub(crate) fn new(metadata: &Metadata) -> Node {
        Node {
            device: metadata.dev(),
            inode: metadata.ino(),
        }
    }
}

/// The path, after all links, of the plain file that a path names, or of the one that can be made there. None if what
/// the path leads to is written itself: a device, a terminal, a pipe, a socket, or a file by a descriptor of a process,
/// as `/dev/fd/3`. Such a file need have no name.
pub(super) fn behind_links<R: Files + AllocGlobal>(
    rt: &R,
    path: &str,
) -> io::Result<Option<String>> {
    if fs::metadata(rt, path).is_ok_and(|found| !found.is_file()) {
        return Ok(None);
    }
    let mut path = String::from_str(rt.alloc(), path)?;
    for _link in 0..=MOST_LINKS {
        match fs::symlink_metadata(rt, path.as_str()) {
            Ok(found) if found.is_symlink() => {
                if is_of_a_process(rt, &found) {
                    return Ok(None);
                }
                path = behind_link(rt, path.as_str())?;
            }
            _ => return Ok(Some(path)),
        }
    }
    Err(io::Error::from(ErrorKind::FilesystemLoop))
}

// The path that a link leads to.
fn behind_link<R: Files + AllocGlobal>(rt: &R, link: &str) -> io::Result<String> {
    let text = fs::read_link(rt, link)?.into_string();
    if text.as_str().starts_with('/') {
        return Ok(text);
    }
    Ok(beside(rt, link, text.as_str(), "")?)
}

// Whether a link stands where the system shows processes. Its text need not be the path of the file that it leads to.
fn is_of_a_process(rt: &impl Files, link: &Metadata) -> bool {
    fs::symlink_metadata(rt, "/proc/self").is_ok_and(|own| own.dev() == link.dev())
}

/// What a path leads to.
#[derive(Drop)]
pub(super) enum PathTarget {
    /// A plain file.
    Plain(Node),
    /// Nothing yet, but a name in a folder.
    Free(Node, String),
    /// A folder, or a device, a terminal, a pipe or a socket: several outputs may go there, since none overwrites
    /// another. Or nothing that could be a file.
    Other,
}

impl PathTarget {
    /// The place of a path. It fails only for want of memory.
    pub(super) fn new<R: Files + AllocGlobal>(
        rt: &R,
        path: &str,
    ) -> Result<PathTarget, AllocError> {
        match fs::metadata(rt, path) {
            Ok(found) if found.is_file() => Ok(PathTarget::Plain(Node::new(&found))),
            Ok(_) => Ok(PathTarget::Other),
            Err(_) => match behind_links(rt, path) {
                Ok(Some(path)) => PathTarget::free(rt, path.as_str()),
                Ok(None) => Ok(PathTarget::Other),
                Err(error) if error.kind() == ErrorKind::OutOfMemory => Err(AllocError),
                Err(_) => Ok(PathTarget::Other),
            },
        }
    }

    // The place of a path where nothing is.
    fn free<R: Files + AllocGlobal>(rt: &R, path: &str) -> Result<PathTarget, AllocError> {
        let (folder, last) = split(path);
        match fs::metadata(rt, folder) {
            Ok(found) => {
                let last = String::from_str(rt.alloc(), last)?;
                Ok(PathTarget::Free(Node::new(&found), last))
            }
            Err(_) => Ok(PathTarget::Other),
        }
    }

    /// Whether both are one plain file, or would be once it is made.
    pub(super) fn is_same(&self, other: &PathTarget) -> bool {
        match (self, other) {
            (PathTarget::Plain(a), PathTarget::Plain(b)) => *a == *b,
            (PathTarget::Free(a, name), PathTarget::Free(b, other)) => {
                *a == *b && name.as_str() == other.as_str()
            }
            _ => false,
        }
    }
}
