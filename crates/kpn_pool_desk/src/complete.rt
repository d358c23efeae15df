//! Which channels of a run get nothing more, as the desk knows it.
ghost use Rattle.std.specs.Prelude.{◌↔◌, ◌<◌, length, IsTrue};
ghost use Rattle.kpn_history.specs.Complete.{IsComplete};

use crate::desk::Desk;
use crate::job::Job;
use std::alloc::Allocator;

impl<'n, J: Job, A: Allocator> Desk<'n, J, A> {
    /// Whether a channel is complete: its writer is finished, or it is a closed source. Then nothing more is ever put
    /// there, whatever the capacities, and its journal is the least solution there. It takes no memory.
    pub fn is_complete(&self, c: usize) -> bool
        requires { c < length J.network.channels }
        ensures { IsTrue result ↔ IsComplete J.network self.now.book.history c }
    {
        self.book.is_complete(c)
    }
}
