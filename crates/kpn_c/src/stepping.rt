//! Processes are stepped, turn by turn.
ghost use Rattle.kpn_c.specs.Calls.{StepsEach};

use kpn_book::Book;

/// How many commits were made, and whether there are no more because memory ran out.
#[derive(Clone, Copy)]
pub struct StepCount {
    pub commits: u64,
    pub is_refused: bool,
}

/// Makes turns of the front of the queue, each of at most `quota` steps of a process: `most` of them, or fewer if no
/// process is ready.
pub(crate) fn step_each(book: &mut Book<'_>, quota: u32, most: u64) -> StepCount
    ensures { StepsEach quota most result book.old book.new }
{
    'turns: for commits in 0..most {
        match book.step_next(quota) {
            Ok(Some(_)) => {}
            Ok(None) => {
                return StepCount {
                    commits,
                    is_refused: false,
                };
            }
            Err(_) => {
                return StepCount {
                    commits,
                    is_refused: true,
                };
            }
        }
    }
    StepCount {
        commits: most,
        is_refused: false,
    }
}
