//! What a thread of its own does while the program goes on.

use std::fs::File;
use std::io;
use std::rt::{Files, LibcRuntime};
use std::sync::Arc;
use std::sync::atomic::{AtomicBool, Ordering};
use std::thread::{Builder, JoinHandle, Threads};

// The bytes of the stack of such a thread, which makes one call.
const STACK: usize = 131_072;

/// A runtime whose files another thread reaches too.
pub trait System: Files<File = File> {
    /// What that thread reaches them by.
    fn system(&self) -> LibcRuntime;
}

impl System for LibcRuntime {
    fn system(&self) -> LibcRuntime {
        *self
    }
}

/// A call that a thread makes. If it is dropped, the thread is left to the end of the program.
#[derive(Drop)]
pub(crate) struct ThreadCall<T: Drop> {
    thread: JoinHandle<T>,
    is_done: Arc<AtomicBool>,
}

impl<T: Send + Drop + 'static> ThreadCall<T> {
    /// Lets a thread make this call.
    pub(crate) fn start<R: AllocGlobal + Threads, F: FnOnce() -> T + Send + Drop + 'static>(
        rt: &R,
        call: F,
    ) -> io::Result<ThreadCall<T>>
        requires { F.pre call }
    {
        let is_done = Arc::new(rt.alloc(), AtomicBool::new(false))?;
        let told = Arc::try_clone(&is_done)?;
        let job = move || -> T
            requires { F.pre call }
        {
            let result = call();
            told.store(true, Ordering::SeqCst);
            result
        };
        let thread = Builder::new().stack_size(STACK).spawn(rt, job)?;
        Ok(ThreadCall { thread, is_done })
    }

    /// Whether the call has returned.
    pub(crate) fn is_done(&self) -> bool {
        self.is_done.load(Ordering::SeqCst)
    }

    /// Waits until the call has returned, and hands over what it returned.
    pub(crate) fn finish<R: Threads>(self, rt: &R) -> T {
        let ThreadCall { thread, is_done: _ } = self;
        thread.join(rt)
    }
}
