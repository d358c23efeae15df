//! The files of the system as a shelf. What a file held stays if something new can't be stored in its place.
ghost use Rattle.std.specs.Prelude.{⊤};

use crate::Shelf;
use crate::job::System;
use crate::target::Target;
use crate::written::WrittenPaths;
use kpn_limits::MAX_INPUT_BYTES;
use kpn_text_items::{ItemFault, WriteFault, read_up_to};
use std::alloc::{AllocError, Global};
use std::cell::Cell;
use std::collections::BTreeMap;
use std::io::ErrorKind;
use std::rt::Files;
use std::thread::Threads;
use std::{fs, io};

// What is written for names.
type Looks = BTreeMap<String, WrittenPaths>;

/// The files that a runtime reaches, by their paths. Nothing is known of what they hold.
pub struct FileShelf<'a, R: System + AllocGlobal + Threads> {
    pub(crate) rt: &'a R,
    ready: Cell<Option<Vec<Target>>>,
    // Since files were changed. Each name is looked at once: outputs are compared in pairs, and may be many.
    looks: Cell<Option<Looks>>,
}

impl<'a, R: System + AllocGlobal + Threads> FileShelf<'a, R> {
    /// The files of this runtime.
    pub fn new(rt: &'a R) -> FileShelf<'a, R> {
        FileShelf {
            rt,
            ready: Cell::new(None),
            looks: Cell::new(None),
        }
    }

    // The files that are ready. The caller puts back those that it does not use.
    fn take_ready(&self) -> Vec<Target> {
        match self.ready.take() {
            Some(targets) => targets,
            None => Vec::new(self.rt.alloc()),
        }
    }

    // The file that is ready for this name, or else a new one.
    fn target(&self, name: &str) -> io::Result<Target> {
        let mut targets = self.take_ready();
        for at in 0..targets.len() {
            if targets[at].is_of(name) {
                let target = targets.swap_remove(at);
                self.ready.set(Some(targets));
                return Ok(target);
            }
        }
        self.ready.set(Some(targets));
        Target::open(self.rt, name)
    }

    // Keeps a file until something is stored in it.
    fn keep(&self, target: Target) -> Result<(), WriteFault> {
        let mut targets = self.take_ready();
        let room = targets.reserve(1);
        match room {
            Ok(()) => targets.push_reserved(target),
            Err(_) => target.give_up(self.rt),
        }
        self.ready.set(Some(targets));
        room.map_err(|_| WriteFault::NoMemory)
    }

    // What is written for these names. The caller puts it back.
    fn looks_at(&self, name: &str, other: &str) -> Result<Looks, AllocError> {
        let mut looks = match self.looks.take() {
            Some(looks) => looks,
            None => BTreeMap::new(self.rt.alloc()),
        };
        look_at(self.rt, &mut looks, name)?;
        look_at(self.rt, &mut looks, other)?;
        Ok(looks)
    }
}

// Looks at what is written for a name, if nobody has looked yet.
fn look_at<R: Files + AllocGlobal>(
    rt: &R,
    looks: &mut Looks,
    name: &str,
) -> Result<(), AllocError> {
    if looks.get(name).is_none() {
        let word = String::from_str(rt.alloc(), name)?;
        looks.insert(word, WrittenPaths::new(rt, name)?)?;
    }
    Ok(())
}

impl<R: System + AllocGlobal + Threads> Drop for FileShelf<'_, R> {
    fn drop(self) {
        let FileShelf {
            rt,
            ready,
            looks: _,
        } = self;
        if let Some(targets) = ready.into_inner() {
            for target in targets {
                target.give_up(rt);
            }
        }
    }
}

// Which fault an error of a file is.
pub(crate) fn fault_of(error: io::Error) -> WriteFault {
    match error.kind() {
        ErrorKind::OutOfMemory => WriteFault::NoMemory,
        _ => WriteFault::Write,
    }
}

impl<R: System + AllocGlobal + Threads> Shelf for FileShelf<'_, R> {
    ghost may_give = { λ _ _ _. ⊤ };

    ghost may_alias = { λ _ _ _. ⊤ };

    fn load(&self, alloc: Global, name: &str) -> Result<Vec<u8>, ItemFault> {
        let mut file = fs::open(self.rt, name).map_err(|_| ItemFault::Read)?;
        read_up_to(alloc, &mut file, MAX_INPUT_BYTES)
    }

    fn store(&mut self, name: &str, bytes: &[u8]) -> Result<(), WriteFault> {
        self.looks.set(None);
        match self.target(name) {
            Ok(target) => target.fill(self.rt, bytes).map_err(fault_of),
            Err(error) => Err(fault_of(error)),
        }
    }

    /// Whether the other name leads to the plain file that is stored under the first, or to its part file, or would
    /// once it is made.
    fn is_same_file(&self, name: &str, other: &str) -> Result<bool, AllocError> {
        let looks = self.looks_at(name, other)?;
        let is = match (looks.get(name), looks.get(other)) {
            (Some(written), Some(other)) => written.has_file_of(other),
            _ => false,
        };
        self.looks.set(Some(looks));
        Ok(is)
    }

    /// Whether one plain file would be written for both names, as what is stored or as a part file.
    fn is_one_output(&self, name: &str, other: &str) -> Result<bool, AllocError> {
        let looks = self.looks_at(name, other)?;
        let is = match (looks.get(name), looks.get(other)) {
            (Some(written), Some(other)) => written.meets(other),
            _ => false,
        };
        self.looks.set(Some(looks));
        Ok(is)
    }

    /// Opens the file that takes what is stored, and locks it until then or until the shelf is dropped.
    fn make_ready(&self, name: &str) -> Result<(), WriteFault> {
        self.looks.set(None);
        match self.target(name) {
            Ok(target) => self.keep(target),
            Err(error) => Err(fault_of(error)),
        }
    }
}
