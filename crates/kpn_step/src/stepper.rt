//! Steps of a process, with the frame from which they began.
ghost use Rattle.std.specs.Prelude.{◌≡◌, ◌≤◌, length, IfOk, IsTrue};
ghost use Rattle.kpn_limits.specs.declared.TheConstants.{MAX_VARIABLES};
ghost use Rattle.kpn_step.specs.Frame.{fits};
ghost use Rattle.kpn_step.specs.Stops.{IsAdvance, IsWithinQuota};

use crate::advanced::Advance;
use crate::frame::Frame;
use kpn_lang::Program;
use std::alloc::AllocError;

/// Makes at most `quota` steps from a frame of the program, until the process stops.
///
/// At each step it takes the first of these that applies:
///
/// - If no place is left, the stop is `Done`.
/// - At a read it is `WantRead`.
/// - At a write, the item is evaluated, and the stop is `WantWrite` or `Faulted`.
/// - If `quota` steps were made, it is `Paused`.
/// - If the expression of the assignment or test faults, it is `Faulted`, and this is no step.
/// - Else it makes one step: an assignment, a test of an `if` or a `while`, or the leaving of a finished block.
///
/// The frame has no cells.
pub fn advance(program: &Program, frame: Frame, quota: u32) -> Advance<'_>
    requires fits { IsTrue (fits program.now frame) }
    requires plain { length frame.variables ≤ MAX_VARIABLES }
    ensures program { result.program ≡ program.now }
    ensures from { result.from ≡ frame }
    ensures advance { IsAdvance result }
    ensures quota { IsWithinQuota quota result }
{
    let from = frame.copy();
    let mut to = frame;
    let (steps, stop) = to.run(program, quota);
    Advance::new(program, from, to, steps, stop)
}

/// The same from each frame. The error is that memory ran out.
pub fn try_advance(program: &Program, frame: Frame, quota: u32) -> Result<Advance<'_>, AllocError>
    requires { IsTrue (fits program.now frame) }
    ensures program { IfOk result (λ made. made.program ≡ program.now) }
    ensures from { IfOk result (λ made. made.from ≡ frame) }
    ensures advance { IfOk result IsAdvance }
    ensures quota { IfOk result (IsWithinQuota quota) }
{
    let from = frame.try_copy()?;
    let mut to = frame;
    let (steps, stop) = to.run(program, quota);
    Ok(Advance::new(program, from, to, steps, stop))
}
