//! Why the history of a trace is not found legal.
ghost use Rattle.std.specs.Prelude.{◌≡◌, IfOk};
ghost use Rattle.kpn_command_base.specs.Conclusion.{TellsOnly};
ghost use Rattle.kpn_command_base.specs.Flaw.{event_line};

use crate::conclusion::Conclusion;
use std::alloc::{AllocError, Global};

/// Why the history of a trace is not found legal. Events are counted from 0.
#[derive(Clone, Copy)]
pub enum Flaw {
    /// This event is the first after which no legal history goes on.
    Illegal(usize),
    /// The process of this event did not come to it within its steps.
    Budget(usize),
}

impl Flaw {
    ghost use Rattle.std.specs.Prelude.{IfOk};
    ghost use Rattle.kpn_command_base.specs.Conclusion.{TellsOnly};
    ghost use Rattle.kpn_command_base.specs.Flaw.{IsFlawTold};

    /// The line that names the event, under the status of the flaw.
    pub fn conclusion(self, alloc: Global) -> Result<Conclusion, AllocError>
        ensures { IfOk result (TellsOnly (IsFlawTold self)) }
    {
        match self {
            Flaw::Illegal(k) => told(alloc, "illegal", k, 1),
            Flaw::Budget(k) => told(alloc, "budget", k, 5),
        }
    }
}

// The line `WORD at K`.
fn told(alloc: Global, word: &str, k: usize, status: u8) -> Result<Conclusion, AllocError>
    ensures { IfOk result
        (TellsOnly (λ text ends. (text ≡ event_line word.now k) × (ends ≡ status))) }
{
    let line = format!(in alloc; "{word} at {k}\n")?;
    Ok(Conclusion {
        text: line.into_bytes(),
        status,
        files: Vec::new(alloc),
    })
}
