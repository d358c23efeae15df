//! Channels between parts, and where channels are written.

/// A channel between two parts: sink `sink` of part `writer` is source `source` of part `reader`.
#[derive(Clone, Copy, Debug, PartialEq, Eq)]
pub struct PartLink {
    /// The part that writes the channel.
    pub writer: usize,
    /// The channel's number there.
    pub sink: usize,
    /// The part that reads the channel.
    pub reader: usize,
    /// The channel's number there.
    pub source: usize,
}

/// Where a channel of the whole network is written: the part of its writer, or that of the reader of a source.
#[derive(Clone, Copy)]
pub struct ChannelHome {
    /// The part.
    pub part: usize,
    /// The channel's number there.
    pub channel: usize,
}
