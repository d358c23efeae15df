//! Who is told of a stream while it runs.
ghost use Rattle.kpn_book.specs.Book.{Book as Seen};
ghost use Rattle.kpn_text.specs.Document.{Document as Described};

use kpn_book::Book;
use kpn_text::Document;

/// Who is told of a stream while it runs.
pub trait Teller {
    /// What it may do when it is told of a book: the teller before it, the network with its names, the book, and the
    /// teller after it.
    ghost tells: { Self → Described → Seen → Self → Type 0 };

    /// Is told of a book. The devices of the sinks have handed on all that they took.
    fn tell(&mut self, document: &Document, book: &Book<'_>)
        ensures { tells self.old document.now book.now self.new };
}
