//! A slice of items is fed to a source.
ghost use Rattle.kpn_c.specs.Calls.{FeedsEach};

use kpn_book::{Book, Refused};

/// How many items of a slice were fed, and why the next one was refused, if it was.
#[derive(Clone, Copy)]
pub struct FedCount {
    pub count: usize,
    pub cause: Option<Refused>,
}

/// Feeds these items to a source, on which any number of items may be unread. If there are none, it still says why a
/// feed would be refused.
pub(crate) fn feed_each(book: &mut Book<'_>, source: usize, items: &[i64]) -> FedCount
    ensures { FeedsEach source items.now result book.old book.new }
{
    if items.is_empty() {
        return FedCount {
            count: 0,
            cause: book.feed_fault(source, 0, usize::MAX),
        };
    }
    'items: for count in 0..items.len() {
        match book.feed(source, items[count], usize::MAX) {
            Ok(()) => book.known(),
            Err(cause) => {
                return FedCount {
                    count,
                    cause: Some(cause),
                };
            }
        }
    }
    FedCount {
        count: items.len(),
        cause: None,
    }
}
