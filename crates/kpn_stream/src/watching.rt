//! What looks at a stream while it runs.
ghost use Rattle.std.specs.Prelude.{◌≡◌, Bool, false, ⊤};
ghost use Rattle.kpn_book.specs.Book.{Book as Seen};

use kpn_book::Book;

/// Looks at a stream while it runs, and may end it.
pub trait Watcher {
    /// What it has to know of a book before a source is read.
    ghost knows: { Self → Seen → Type 0 };

    /// What a look may do: the watcher before it, the book, whether the stream is to end, and the watcher after it.
    ghost sees: { Self → Seen → Bool → Self → Type 0 };

    /// Whether a book has something that it has to know and does not. It is asked in each turn.
    fn has_news(&self, book: &Book<'_>) -> bool
        ensures { result ≡ false → knows self.now book.now };

    /// Looks at a book. The devices of the sinks have handed on all that they took. Returns whether the stream is to
    /// end.
    fn look(&mut self, book: &Book<'_>) -> bool
        ensures sees { sees self.old book.now result self.new }
        ensures knows { knows self.new book.now };
}

/// Nobody looks.
#[derive(Clone, Copy, Debug)]
pub struct Unwatched;

impl Watcher for Unwatched {
    ghost knows = { λ _ _. ⊤ };

    ghost sees = { λ _ _ halts _. halts ≡ false };

    fn has_news(&self, _book: &Book<'_>) -> bool {
        false
    }

    fn look(&mut self, _book: &Book<'_>) -> bool {
        false
    }
}
