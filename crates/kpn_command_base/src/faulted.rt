//! Processes that ended by a fault, and the line of one.
ghost use Rattle.std.specs.Prelude.{◌≡◌};
ghost use Rattle.kpn_command_base.specs.Added.{Adds};
ghost use Rattle.kpn_command_base.specs.Faulted.{faulted_line, has_fault, is_faulted};

use crate::pieces::Pushed;
use kpn_history::{How, State};
use kpn_trace::how_word;

/// `fault NAME CAUSE`, and a line feed. The word for the cause is that of a trace. Call it only for an end by a fault.
pub fn push_faulted(text: &mut String, name: &str, how: How) -> Pushed
    ensures { Adds result text.old text.new (faulted_line name.now how) }
{
    let cause = how_word(how);
    writeln!(text, "fault {name} {cause}")
}

/// Whether a process ended by a fault.
pub fn has_fault(states: &[State]) -> bool
    ensures { result ≡ has_fault states.now }
{
    states.iter().any(|state| is_faulted(*state))
}

/// Whether a process in this state ended by a fault.
pub fn is_faulted(state: State) -> bool
    ensures { result ≡ is_faulted state }
{
    match state {
        State::Ended(How::Done) => false,
        State::Ended(_) => true,
        _ => false,
    }
}
