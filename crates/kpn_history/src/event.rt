//! The events of a run.
ghost use Rattle.std.specs.Prelude.{◌≡◌, true, false, IfSome, IfNone};
ghost use Rattle.kpn_history.specs.Talks.{is_of, is_of_process, process_of, channel_of, how_of};

use kpn_lang::Fault;

/// One event of a run: what a process did or met, or what the caller did. Processes and channels go by
/// their numbers in the network, processes first.
#[derive(Clone, Copy, Debug, PartialEq, Eq)]
pub enum Event {
    /// `Get(process, channel, item)`: the process took the oldest unread item.
    Get(u16, u16, i64),
    /// `Put(process, channel, item)`: the process put an item.
    Put(u16, u16, i64),
    /// `WaitEmpty(process, channel)`: the process would read, and nothing was unread.
    WaitEmpty(u16, u16),
    /// `WaitFull(process, channel)`: the process would write, and the channel was full.
    WaitFull(u16, u16),
    /// `Ended(process, how)`: the process ended.
    Ended(u16, How),
    /// `Feed(channel, item)`: the caller put an item on a source.
    Feed(u16, i64),
    /// `Close(channel)`: the caller closed a source.
    Close(u16),
    /// `Take(channel, item)`: the caller took the oldest unread item of a sink.
    Take(u16, i64),
    /// `Leave(channel)`: the caller left a sink.
    Leave(u16),
    /// `Grow(process, channel, capacity)`: the capacity of the channel became larger, since the process waits.
    /// `capacity` is the new one.
    Grow(u16, u16, u32),
}

/// How a process ended.
#[derive(Clone, Copy, Debug, PartialEq, Eq)]
pub enum How {
    /// Its body came to its end.
    Done,
    /// A value was outside of -2^63 to 2^63 - 1.
    Overflow,
    /// A divisor was 0.
    ZeroDivisor,
    /// An array or a table had no such cell.
    Index,
    /// The count of a shift was below 0 or above 63.
    Shift,
}

impl Event {
    /// The process whose event this is; none if it is an event of the caller or a growth.
    pub fn process(self) -> Option<usize>
        ensures exact { result ≡ process_of self }
        ensures own { IfSome result (λ p. is_of p self ≡ true) }
        ensures none { IfNone result (is_of_process self ≡ false) }
    {
        match self {
            Event::Get(p, _, _) | Event::Put(p, _, _) => Some(p.into()),
            Event::WaitEmpty(p, _) | Event::WaitFull(p, _) | Event::Ended(p, _) => Some(p.into()),
            _ => None,
        }
    }

    /// The channel of the event; none if a process ends.
    pub fn channel(self) -> Option<usize>
        ensures { result ≡ channel_of self }
    {
        match self {
            Event::Get(_, c, _) | Event::Put(_, c, _) | Event::Grow(_, c, _) => Some(c.into()),
            Event::WaitEmpty(_, c) | Event::WaitFull(_, c) => Some(c.into()),
            Event::Feed(c, _) | Event::Take(c, _) => Some(c.into()),
            Event::Close(c) | Event::Leave(c) => Some(c.into()),
            Event::Ended(_, _) => None,
        }
    }
}

impl From<Fault> for How {
    ghost from_gives = { λ fault how. how ≡ how_of fault };

    fn from(fault: Fault) -> How {
        match fault {
            Fault::Overflow => How::Overflow,
            Fault::ZeroDivisor => How::ZeroDivisor,
            Fault::Index => How::Index,
            Fault::Shift => How::Shift,
        }
    }
}
