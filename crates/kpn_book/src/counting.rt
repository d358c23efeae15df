//! Counts of processes by state, kept step by step.
ghost use Rattle.std.specs.Prelude.{◌≡◌, ◌+◌, ◌<◌, ◌^◌};
ghost use Rattle.kpn_book.specs.Counting.{count_in, one_more_in, one_less};

use kpn_history::State;

/// The counts that are stored. Each stays the same when a ready process becomes held, and when it is put back.
#[derive(Debug, Drop)]
pub(crate) struct Tally {
    /// How many processes are ready or held.
    pub(crate) going: usize,
    /// Those that wait on an empty channel.
    pub(crate) empty: usize,
    /// Those that wait on a full channel.
    pub(crate) full: usize,
    pub(crate) ended: usize,
}

/// Counts one more process in this state.
#[inline(always)]
pub(crate) fn enter(tally: &mut Tally, state: State)
    requires { count_in state tally.old + 1 < 2 ^ 64 }
    ensures { tally.new ≡ one_more_in state tally.old }
{
    match state {
        State::Ready | State::Held => tally.going += 1,
        State::WaitsEmpty(_) => tally.empty += 1,
        State::WaitsFull(_) => tally.full += 1,
        State::Ended(_) => tally.ended += 1,
    }
}

/// Counts one process fewer in this state.
#[inline(always)]
pub(crate) fn leave(tally: &mut Tally, state: State)
    requires { 0 < count_in state tally.old }
    ensures { tally.new ≡ one_less state tally.old }
{
    match state {
        State::Ready | State::Held => tally.going -= 1,
        State::WaitsEmpty(_) => tally.empty -= 1,
        State::WaitsFull(_) => tally.full -= 1,
        State::Ended(_) => tally.ended -= 1,
    }
}
