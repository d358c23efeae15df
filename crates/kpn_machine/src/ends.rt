//! The ends of processes as stops.
ghost use Rattle.std.specs.Prelude.{◌≡◌};
ghost use Rattle.kpn_machine.specs.Due.{stop_of};

use kpn_history::How;
use kpn_lang::Fault;
use kpn_step::Stop;

/// The stop of a process that ends in this way.
pub fn stop_of(how: How) -> Stop
    ensures { result ≡ stop_of how }
{
    match how {
        How::Done => Stop::Done,
        How::Overflow => Stop::Faulted(Fault::Overflow),
        How::ZeroDivisor => Stop::Faulted(Fault::ZeroDivisor),
        How::Index => Stop::Faulted(Fault::Index),
        How::Shift => Stop::Faulted(Fault::Shift),
    }
}
