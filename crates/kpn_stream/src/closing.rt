//! The end of a stream that rests: nobody reads from its sources any more.
ghost use Rattle.std.specs.Prelude.{◌+◌, IfOk};
ghost use Rattle.kpn_book.specs.Book.{Book as Seen};
ghost use Rattle.kpn_stream.specs.Closing.{AreClosed, AreClosedBelow};

use kpn_book::Book;
use std::alloc::AllocError;

/// Closes each source that is open. The error is that memory ran out.
pub fn close_sources(book: &mut Book<'_>) -> Result<(), AllocError>
    ensures { IfOk result (λ _. AreClosed book.old book.new) }
{
    'channels: for c in 0..book.network().channels() {
        close(book, c)?;
    }
    Ok(())
}

/// Closes channel `c`, if it is a source.
fn close(book: &mut Book<'_>, c: usize) -> Result<(), AllocError>
    ensures { IfOk result (λ _. (first : Seen)
        → AreClosedBelow c first book.old → AreClosedBelow (c + 1) first book.new) }
{
    if !book.network().is_source(c) {
        return Ok(());
    }
    book.known();
    match book.close_source(c) {
        Ok(()) => Ok(()),
        Err(_) => Err(AllocError),
    }
}
