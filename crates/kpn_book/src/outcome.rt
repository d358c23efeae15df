//! Limits of a run, and what it has come to.
ghost use Rattle.std.specs.Prelude.{◌≡◌, Some};
ghost use Rattle.kpn_book.specs.Outcomes.{verdict_of};

use kpn_history::Verdict;

/// When a run stops, and how many steps a process makes at once.
#[derive(Clone, Copy, Debug, PartialEq, Eq)]
pub struct Limits {
    /// The run stops after this many commits.
    pub commits: u64,
    /// If this is given, the run stops once this many items were read of each sink: at once if there is no sink.
    pub take: Option<u64>,
    /// The most steps that a process makes before it is the turn of the next. 0 counts as 1.
    pub quota: u32,
}

/// What a run has come to.
#[derive(Clone, Copy, Debug, PartialEq, Eq)]
pub enum Outcome {
    /// Each process has ended or waits on an empty channel.
    Ended,
    /// Some process waits on a full channel, and no cycle of waiting processes has a full channel.
    Clogged,
    /// Some cycle of waiting processes has a full channel.
    Jammed,
    /// As many items as were wanted were read of each sink.
    Enough,
    /// The commits have reached their limit.
    Stopped,
}

impl From<Verdict> for Outcome {
    ghost from_gives = { λ verdict outcome. verdict_of outcome ≡ Some verdict };

    fn from(verdict: Verdict) -> Outcome {
        match verdict {
            Verdict::Ended => Outcome::Ended,
            Verdict::Clogged => Outcome::Clogged,
            Verdict::Jammed => Outcome::Jammed,
        }
    }
}
