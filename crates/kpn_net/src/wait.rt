//! What a process waits for.

/// What a process waits for. A wait table has a wait for each process.
#[derive(Clone, Copy, Debug, PartialEq, Eq)]
pub enum Wait {
    /// For nobody.
    Nobody,
    /// For an item on this empty channel.
    Empty(usize),
    /// Until this full channel is not full any more.
    Full(usize),
}
