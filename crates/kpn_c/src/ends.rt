//! How many parts a network has, and the state of a channel with what is at its ends.
ghost use Rattle.std.specs.Prelude.{◌≡◌};
ghost use Rattle.kpn_c.specs.Telling.{TellsState, number_of_end};

use kpn_book::Book;
use kpn_net::End;

/// How many processes and channels a network has.
#[repr(C)]
#[derive(Clone, Copy)]
pub struct PartCounts {
    pub processes: usize,
    pub channels: usize,
}

/// The state of a channel.
#[repr(C)]
#[derive(Clone, Copy)]
pub struct ChannelStatus {
    /// The process that writes it; the greatest number for a source.
    pub writer: usize,
    /// The process that reads it; the greatest number for a sink.
    pub reader: usize,
    /// How many items were got or taken.
    pub got: usize,
    /// How many were put and not got.
    pub unread: usize,
    /// Whether it is a source that was closed.
    pub is_closed: bool,
    /// Whether its reader has ended, or the outside has left the sink.
    pub is_left: bool,
}

/// The number at an end where the outside is.
const OUTSIDE_END: usize = usize::MAX;

/// The state of a channel. `None` if no channel has this number.
pub(crate) fn channel_state(book: &Book<'_>, channel: usize) -> Option<ChannelStatus>
    ensures { TellsState channel result book.now }
{
    let network = book.network();
    if network.channels() <= channel {
        return None;
    }
    Some(ChannelStatus {
        writer: number_of_end(network.writer_of(channel)),
        reader: number_of_end(network.reader_of(channel)),
        got: book.read_count(channel),
        unread: book.unread_count(channel),
        is_closed: book.is_closed(channel),
        is_left: book.is_left(channel),
    })
}

fn number_of_end(end: End) -> usize
    ensures { result ≡ number_of_end end }
{
    match end {
        End::Process(process) => process,
        End::Source | End::Sink => OUTSIDE_END,
    }
}
