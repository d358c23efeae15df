//! A book leaves its network, and comes back to it.
ghost use Rattle.std.specs.Prelude.{◌≡◌};
ghost use Rattle.kpn_book.specs.Kept.{IsBook};
ghost use Rattle.kpn_book.specs.Detached.{book_on};

use super::Book;
use crate::detached::Detached;
use crate::open_book::OpenBook;
use kpn_net::Network;

impl<'n> Book<'n> {
    /// Detaches the book from its network. It takes no memory.
    pub fn detach(self) -> Detached
        ensures same { book_on self.entry.tables result ≡ self.entry }
        ensures book { IsBook (book_on self.entry.tables result) }
    {
        self.known();
        let Book { parts } = self;
        Detached {
            machine: parts.machine,
            history: parts.history,
            schedule: parts.schedule,
            commits: parts.commits,
        }
    }

    /// Attaches a book to its network again. It takes no memory.
    pub fn attach(network: &'n Network, detached: Detached) -> Book<'n>
        requires { IsBook (book_on network.now detached) }
        ensures { result ≡ book_on network.now detached }
    {
        Book {
            parts: OpenBook {
                network,
                machine: detached.machine,
                history: detached.history,
                schedule: detached.schedule,
                commits: detached.commits,
            },
        }
    }
}
