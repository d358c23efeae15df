//! What the channels of a stream did, by the counters of its book: they need no history.
ghost use Rattle.std.specs.Prelude.{◌≡◌, ◌<◌, length, IfOk};
ghost use Rattle.kpn_command_stream.specs.Counters.{AreCounted, AreCountsIf, IsCounted};

use kpn_book::Book;
use std::alloc::{AllocError, Global};

/// What a channel did.
#[derive(Clone, Copy)]
pub(crate) struct ChannelCounts {
    /// Items that were put on it or fed to it.
    pub(crate) put: u128,
    /// Items that were got or taken from it.
    pub(crate) read: usize,
    /// Items that are left.
    pub(crate) unread: usize,
    /// The most items that were ever unread while its reader was there.
    pub(crate) most: usize,
}

/// The counters of the channels of a book in order, if they are asked for.
pub(crate) fn counts_if(
    alloc: Global,
    asked: bool,
    book: &Book<'_>,
) -> Result<Vec<ChannelCounts>, AllocError>
    ensures { IfOk result (λ counts. AreCountsIf asked book.now counts.items) }
{
    if asked {
        counts_of(alloc, book)
    } else {
        Ok(Vec::new(alloc))
    }
}

fn counts_of(alloc: Global, book: &Book<'_>) -> Result<Vec<ChannelCounts>, AllocError>
    ensures counted { IfOk result (λ counts. AreCounted book.now counts.items) }
    ensures all { IfOk result (λ counts.
        length counts.items ≡ length book.now.tables.channels) }
{
    let mut counts = Vec::new(alloc);
    for c in 0..book.network().channels() {
        counts.push(channel_counts(book, c))?;
    }
    Ok(counts)
}

fn channel_counts(book: &Book<'_>, c: usize) -> ChannelCounts
    requires { c < length book.now.tables.channels }
    ensures { IsCounted book.now c result }
{
    book.known();
    let read = book.read_count(c);
    let unread = book.unread_count(c);
    ChannelCounts {
        put: read as u128 + unread as u128,
        read,
        unread,
        most: book.most_unread(c),
    }
}
