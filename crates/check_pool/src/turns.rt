//! Commit gates for tests: what a gate answers a worker between the steps of a process and their commit.

/// For how many turns somebody waits for somebody else, at most.
pub const MOST_TURNS: u64 = 100_000_000;
