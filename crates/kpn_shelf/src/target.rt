//! A file of the system that is ready to take what is stored. A plain file is not written itself: a new file beside it,
//! its part file, takes its place once it holds everything. The program that makes a part file keeps it locked. Until
//! then each target has one open file.

use crate::file_output::open_apart;
use crate::job::System;
use crate::opening::Opening;
use crate::place::{Node, behind_links, split};
use crate::written::part_of;
use std::fs::{File, Metadata, OpenOptions, Permissions};
use std::io::{ErrorKind, Write};
use std::os::unix::fs::{OpenOptionsExt, PermissionsExt};
use std::rt::Files;
use std::thread::Threads;
use std::{fs, io};

// How often an old part file is removed that stands in the way of a new one.
const ATTEMPTS: usize = 16;

// The rights of a new file, before the system takes away those that the user does not give.
const RIGHTS: u32 = 0o666;

/// A file that is open for what is to be stored under a name.
#[derive(Drop)]
pub(super) struct Target {
    name: String,
    // Until a FIFO is open it has no file.
    file: Option<File>,
    opening: Option<Opening>,
    part: Option<PartFile>,
}

// The path of a part file, and of the file whose place it takes.
#[derive(Drop)]
struct PartFile {
    path: String,
    place: String,
}

impl Target {
    /// Whether this is the file for what is stored under the name.
    pub(super) fn is_of(&self, name: &str) -> bool {
        self.name.as_str() == name
    }

    /// Opens the file for a name: a part file for a plain file, which is there or not yet and which links may lead to,
    /// and else what is there itself, as a device or a pipe.
    pub(super) fn open<R: System + AllocGlobal + Threads>(
        rt: &R,
        name: &str,
    ) -> io::Result<Target> {
        let word = String::from_str(rt.alloc(), name)?;
        match behind_links(rt, name)? {
            Some(place) => {
                let part = part_of(rt, place.as_str())?;
                let file = open_part(rt, part.as_str(), place.as_str())?;
                Ok(Target {
                    name: word,
                    file: Some(file),
                    opening: None,
                    part: Some(PartFile { path: part, place }),
                })
            }
            None => Target::itself(rt, word),
        }
    }

    // What is there is written itself. A FIFO is open when it is written.
    fn itself<R: System + AllocGlobal + Threads>(rt: &R, name: String) -> io::Result<Target> {
        let opening = open_apart(rt, name.as_str());
        let file = match opening {
            Some(_) => None,
            None => Some(open_to_write(rt, name.as_str())?),
        };
        Ok(Target {
            name,
            file,
            opening,
            part: None,
        })
    }

    /// Removes the part file, if there is one: nothing is stored. Who waits to read a FIFO comes to an end.
    pub(super) fn give_up<R: Files<File = File> + Threads>(self, rt: &R) {
        let Target {
            name,
            file: _,
            opening,
            part,
        } = self;
        if let Some(part) = part {
            let _ = fs::remove_file(rt, part.path.as_str());
        }
        if let Some(opening) = opening {
            opening.give_up(rt, name.as_str());
        }
    }

    /// Stores bytes under the name.
    pub(super) fn fill<R: Files<File = File> + Threads>(
        self,
        rt: &R,
        bytes: &[u8],
    ) -> io::Result<()> {
        let Target {
            name: _,
            file,
            opening,
            part,
        } = self;
        let mut file = match (file, opening) {
            (Some(file), _) => file,
            (None, Some(opening)) => opening.finish(rt)?,
            (None, None) => return Err(io::Error::from(ErrorKind::Other)),
        };
        match part {
            Some(part) => {
                take_place(rt, file, &part, bytes)?;
                open_folder(rt, part.place.as_str())?.sync_all()
            }
            None => write_itself(&mut file, bytes),
        }
    }
}

// Writes a part file, and lets it take the place of its file. It stays open, and so locked, until then.
fn take_place<R: Files>(rt: &R, mut file: File, part: &PartFile, bytes: &[u8]) -> io::Result<()> {
    let (path, place) = (part.path.as_str(), part.place.as_str());
    let written = write_synced(&mut file, bytes);
    let placed = written.and_then(|()| fs::rename(rt, path, place));
    if placed.is_err() {
        let _ = fs::remove_file(rt, path);
    }
    placed
}

fn open_to_write<R: Files<File = File>>(rt: &R, path: &str) -> io::Result<File> {
    OpenOptions::new().write(true).open(rt, path)
}

// The folder of a file, to be synced.
fn open_folder<R: Files<File = File>>(rt: &R, path: &str) -> io::Result<File> {
    let (folder, _) = split(path);
    OpenOptions::new().read(true).open(rt, folder)
}

// The part file of this path for a file at this place, if it can take that place.
fn open_part<R: Files<File = File>>(rt: &R, part: &str, place: &str) -> io::Result<File> {
    let (_, last) = split(place);
    if last.is_empty() || last == "." || last == ".." {
        return Err(io::Error::from(ErrorKind::InvalidInput));
    }
    let rights = match fs::symlink_metadata(rt, place) {
        Ok(old) => Some(rights_to_replace(rt, place, &old)?),
        Err(error) if error.kind() == ErrorKind::NotFound => None,
        Err(error) => return Err(error),
    };
    open_folder(rt, place)?;
    lock_part(rt, part, rights)
}

// The rights of an old file. One that may not be written is not replaced.
fn rights_to_replace<R: Files<File = File>>(
    rt: &R,
    path: &str,
    old: &Metadata,
) -> io::Result<Permissions> {
    if !old.is_file() {
        return Err(io::Error::from(ErrorKind::InvalidInput));
    }
    open_to_write(rt, path)?;
    Ok(old.permissions())
}

// Writes what is no part file: only a plain file, which a descriptor names, can be made shorter and synced.
fn write_itself(file: &mut File, bytes: &[u8]) -> io::Result<()> {
    if file.metadata()?.is_file() {
        file.set_len(0)?;
        return write_synced(file, bytes);
    }
    file.write_all(bytes)
}

fn write_synced(file: &mut File, bytes: &[u8]) -> io::Result<()> {
    file.write_all(bytes)?;
    file.sync_all()
}

// A new part file, locked, with the rights of the old file from its beginning on.
fn lock_part<R: Files<File = File>>(
    rt: &R,
    part: &str,
    rights: Option<Permissions>,
) -> io::Result<File> {
    let mode = rights.as_ref().map_or(RIGHTS, |rights| rights.mode());
    for _attempt in 0..ATTEMPTS {
        let mut options = OpenOptions::new();
        options.write(true).create_new(true).mode(mode);
        match options.open(rt, part) {
            Ok(file) => {
                if is_locked(rt, part, &file)? {
                    return with_rights(file, rights);
                }
            }
            Err(error) if error.kind() == ErrorKind::AlreadyExists => remove_old(rt, part)?,
            Err(error) => return Err(error),
        }
    }
    Err(io::Error::from(ErrorKind::WouldBlock))
}

// Gives a new file the rights of the old one, some of which the system may have taken away from it.
fn with_rights(file: File, rights: Option<Permissions>) -> io::Result<File> {
    if let Some(rights) = rights {
        file.set_permissions(rights)?;
    }
    Ok(file)
}

// Locks a file, and returns whether it still has its name then. It fails if somebody else has locked it.
fn is_locked<R: Files>(rt: &R, name: &str, file: &File) -> io::Result<bool> {
    file.try_lock()?;
    let own = Node::new(&file.metadata()?);
    match fs::symlink_metadata(rt, name) {
        Ok(found) => Ok(Node::new(&found) == own),
        Err(error) if error.kind() == ErrorKind::NotFound => Ok(false),
        Err(error) => Err(error),
    }
}

// Removes a part file that nobody has locked: the program that made it was killed. It fails at what is no plain file:
// to open a pipe would wait for its reader.
fn remove_old<R: Files<File = File>>(rt: &R, part: &str) -> io::Result<()> {
    match old_part(rt, part) {
        Ok(file) => {
            if is_locked(rt, part, &file)? {
                fs::remove_file(rt, part)?;
            }
            Ok(())
        }
        Err(error) if error.kind() == ErrorKind::NotFound => Ok(()),
        Err(error) => Err(error),
    }
}

fn old_part<R: Files<File = File>>(rt: &R, part: &str) -> io::Result<File> {
    if !fs::symlink_metadata(rt, part)?.is_file() {
        return Err(io::Error::from(ErrorKind::AlreadyExists));
    }
    open_to_write(rt, part)
}
