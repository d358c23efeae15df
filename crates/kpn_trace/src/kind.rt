//! The kinds of events, and the word for each.
ghost use Rattle.std.specs.Prelude.{◌≡◌, ◌≢◌, MatchOption};
ghost use Rattle.kpn_history.specs.declared.event.How.{How};
ghost use Rattle.kpn_trace.specs.EventLine.{kind_word, kind_named, how_word};

use kpn_history::How;

/// The kind of an event: the first word of its line.
#[derive(Clone, Copy, PartialEq, Eq)]
pub enum Kind {
    Get,
    Put,
    WaitEmpty,
    WaitFull,
    Ended,
    Feed,
    Close,
    Take,
    Leave,
    Grow,
}

impl Kind {
    /// Every kind.
    pub const ALL: [Kind; 10] = [
        Kind::Get,
        Kind::Put,
        Kind::WaitEmpty,
        Kind::WaitFull,
        Kind::Ended,
        Kind::Feed,
        Kind::Close,
        Kind::Take,
        Kind::Leave,
        Kind::Grow,
    ];

    /// The kind with this word.
    #[tactic(auto, unfolding(crate::specs::EventLine::kind_named))]
    pub fn named(word: &[u8]) -> Option<Kind>
        ensures { result ≡ kind_named word.now }
    {
        Kind::ALL.iter().copied().find(|kind| kind.word() == word)
    }

    /// The word of a kind.
    pub fn word(self) -> &'static [u8]
        ensures { result.now ≡ kind_word self }
    {
        match self {
            Kind::Get => b"get",
            Kind::Put => b"put",
            Kind::WaitEmpty => b"wait-empty",
            Kind::WaitFull => b"wait-full",
            Kind::Ended => b"end",
            Kind::Feed => b"feed",
            Kind::Close => b"close",
            Kind::Take => b"take",
            Kind::Leave => b"leave",
            Kind::Grow => b"grow",
        }
    }
}

/// How a process ended, by its word.
pub fn how_named(word: &[u8]) -> Option<How>
    ensures { MatchOption result ((how : How) → word.now ≢ how_word how)
        (λ how. word.now ≡ how_word how) }
{
    match word {
        b"done" => Some(How::Done),
        b"overflow" => Some(How::Overflow),
        b"zero-divisor" => Some(How::ZeroDivisor),
        b"index" => Some(How::Index),
        b"shift" => Some(How::Shift),
        _ => None,
    }
}

/// The word for how a process ended.
pub fn how_word(how: How) -> &'static str
    ensures { result.now ≡ how_word how }
{
    match how {
        How::Done => "done",
        How::Overflow => "overflow",
        How::ZeroDivisor => "zero-divisor",
        How::Index => "index",
        How::Shift => "shift",
    }
}
