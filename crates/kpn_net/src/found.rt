//! What a search for a cycle finds.

/// What a search for a cycle of waiting processes finds.
#[derive(Clone, Copy, PartialEq, Eq)]
pub enum Found {
    /// There is no cycle.
    NoCycle,
    /// There is a cycle, and each of its members waits on an empty channel.
    AllEmpty,
    /// There is a cycle, and this is the smallest of the channels on which its members wait as full: the one of least
    /// capacity, on a tie the one of least number.
    Full(usize),
}
