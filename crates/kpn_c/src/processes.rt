//! The states of processes, for C.
ghost use Rattle.std.specs.Prelude.{◌≡◌, map};
ghost use Rattle.kpn_c.specs.Slices.{PutsToFront};
ghost use Rattle.kpn_c.specs.States.{state_alone, waiting_on, state_as};

use crate::codes::{OK, TOO_SMALL};
use kpn_book::Book;
use kpn_history::{How, State};

/// The state of a process, by number, and the channel on which it waits if it does.
#[repr(C)]
#[derive(Clone, Copy)]
pub struct ProcessState {
    pub state: u32,
    pub channel: usize,
}

/// Puts the states of all processes to the front of a slice if they fit there. Returns the number that says whether they
/// do, and how many they are.
pub(crate) fn put_states(book: &Book<'_>, room: &mut [ProcessState]) -> (u32, usize)
    ensures { PutsToFront (map state_as book.now.schedule.states) result.0 result.1 room.old room.new }
{
    book.known();
    let processes = book.network().instances();
    if room.len() < processes {
        return (TOO_SMALL, processes);
    }
    'processes: for p in 0..processes {
        room[p] = state_as(book.state(p));
    }
    (OK, processes)
}

fn state_as(state: State) -> ProcessState
    ensures { result ≡ state_as state }
{
    match state {
        State::Ready | State::Held => alone(0),
        State::WaitsEmpty(channel) => waiting_on(1, channel),
        State::WaitsFull(channel) => waiting_on(2, channel),
        State::Ended(How::Done) => alone(3),
        State::Ended(How::Overflow) => alone(4),
        State::Ended(How::ZeroDivisor) => alone(5),
        State::Ended(How::Index) => alone(6),
        State::Ended(How::Shift) => alone(7),
    }
}

fn waiting_on(state: u32, channel: usize) -> ProcessState
    ensures { result ≡ waiting_on state channel }
{
    ProcessState { state, channel }
}

fn alone(state: u32) -> ProcessState
    ensures { result ≡ state_alone state }
{
    ProcessState { state, channel: 0 }
}
