//! Steps made in place, one after another.
ghost use Rattle.std.specs.Prelude.{◌≡◌, ◌≤◌, IsTrue};
ghost use Rattle.kpn_step.specs.Frame.{fits};
ghost use Rattle.kpn_step.specs.Standing.{standing};
ghost use Rattle.kpn_step.specs.Stepped.{Walked};

use crate::frame::Frame;
use crate::stop::Stop;
use kpn_lang::Program;

/// No code takes more steps.
const STEPS_OF_A_CODE: u64 = 3;

/// Makes at most `quota` steps from the code `from` on, until the process stops. It returns how many, and the stop.
// It goes along the codes of the program and keeps its position there. A code may take several steps. So the last ones
// go by the statement, and so does a pause.
pub(crate) fn walk(program: &Program, frame: &mut Frame, from: usize, quota: u64) -> (u64, Stop)
    requires fits { IsTrue (fits program.now frame.old) }
    requires here { standing program.now.blocks from frame.old ≡ frame.old }
    ensures { Walked program.now.blocks quota frame.old result.0 result.1 frame.new }
{
    program.known();
    let codes = program.codes();
    let mut at = from;
    let mut left = quota;
    'steps: loop {
        if left < STEPS_OF_A_CODE {
            match frame.step_by_tree(program, at, left == 0) {
                Ok(next) => {
                    at = next;
                    left -= 1;
                    continue 'steps;
                }
                Err(stop) => return (quota - left, stop),
            }
        }
        if let Some(stop) = frame.follow(program, codes, &mut at, &mut left) {
            frame.stand(program, at);
            return (quota - left, stop);
        }
    }
}
