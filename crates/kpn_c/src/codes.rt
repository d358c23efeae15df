//! The numbers that calls return. 0 means that a call did all that it was asked for. The numbers below 60 are those of
//! faults of descriptions and of reasons why a book refuses a call.
ghost use Rattle.std.specs.Prelude.{◌≡◌};
ghost use Rattle.kpn_c.specs.Exports.{code_of_cause, code_of_verdict, place_as};
ghost use Rattle.kpn_c.specs.Runs.{code_of_outcome};

use crate::fault::{NumberedFault, number_of};
use kpn_book::{Outcome, Refused, Verdict};

pub(crate) const OK: u32 = 0;

/// No memory for a description.
pub(crate) const TEXT_NO_MEMORY: u32 = 28;

pub(crate) const NO_MEMORY: u32 = 42;

pub(crate) const LISTS: u32 = 60;

pub(crate) const TOO_SMALL: u32 = 61;

pub(crate) const NO_SUCH_CHANNEL: u32 = 64;

pub(crate) const NO_TRACE: u32 = 66;

pub(crate) const NO_SUCH_PROCESS: u32 = 67;

/// The place of a fault, as C has it.
#[repr(C)]
#[derive(Clone, Copy)]
pub struct FaultPlace {
    pub has_place: bool,
    pub place: usize,
}

/// Tells the place of a fault, and returns its number.
pub(crate) fn tell(fault: NumberedFault, place: &mut FaultPlace) -> u32
    ensures number { result ≡ fault.number }
    ensures place { place.new ≡ place_as fault.place }
{
    *place = match fault.place {
        Some(place) => FaultPlace {
            has_place: true,
            place,
        },
        None => FaultPlace {
            has_place: false,
            place: 0,
        },
    };
    fault.number
}

pub(crate) fn code_of_cause(cause: Option<Refused>) -> u32
    ensures { result ≡ code_of_cause cause }
{
    match cause {
        Some(cause) => number_of(cause),
        None => OK,
    }
}

pub(crate) fn code_of_verdict(verdict: Option<Verdict>) -> u32
    ensures { result ≡ code_of_verdict verdict }
{
    match verdict {
        None => 0,
        Some(Verdict::Ended) => 1,
        Some(Verdict::Clogged) => 2,
        Some(Verdict::Jammed) => 3,
    }
}

pub(crate) fn code_of_outcome(outcome: Outcome) -> u32
    ensures { result ≡ code_of_outcome outcome }
{
    match outcome {
        Outcome::Ended => 1,
        Outcome::Clogged => 2,
        Outcome::Jammed => 3,
        Outcome::Enough => 4,
        Outcome::Stopped => 5,
    }
}
