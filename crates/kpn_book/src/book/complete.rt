//! Which channels of a run get nothing more.
ghost use Rattle.std.specs.Prelude.{◌↔◌, ◌<◌, length, IsTrue};
ghost use Rattle.kpn_history.specs.Complete.{IsComplete};

use super::Book;
use std::alloc::Allocator;

impl<'n, A: Allocator> Book<'n, A> {
    /// Whether a channel is complete: its writer is finished, or it is a closed source. Then nothing more is ever put
    /// there, whatever the capacities, and its journal is the least solution there. It takes no memory.
    pub fn is_complete(&self, c: usize) -> bool
        requires { c < length self.now.tables.channels }
        ensures { IsTrue result ↔ IsComplete self.now.tables self.now.history c }
    {
        self.parts.machine.is_complete(self.parts.network, c)
    }
}
