//! A process stepped alone on whole lists, without any other.
ghost use Rattle.std.specs.Prelude.{◌≡◌, ◌<◌, ◌≤◌, length, IsTrue, IfOk, MatchResult};
ghost use Rattle.arrayvec.specs.ArrayVec.{array_vec_len};
ghost use Rattle.kpn_lang.specs.Lists.{remaining};
ghost use Rattle.kpn_step.specs.Frame.{fits};
ghost use Rattle.kpn_step.specs.Stops.{StandsAt};
ghost use Rattle.kpn_step.specs.Walk.{AloneGives, Speaks};
ghost use Rattle.kpn_step.specs.Ended.{EndsAs};

use crate::alone_run::AloneRun;
use crate::frame::Frame;
use crate::stop::{AloneStop, Stop};
use crate::walk::walk;
use arrayvec::ArrayVec;
use kpn_lang::{Program, Said, Sequence, next_item};
use kpn_limits::MAX_PORTS;
use std::alloc::{AllocError, Global};

/// Steps a program from its start, on a list for each in port, until it ends or has made `quota` steps. There are as
/// many values as parameters. Only the talk and the cells take memory.
pub fn alone(
    alloc: Global,
    program: &Program,
    pars: &[i64],
    lists: &[Sequence<i64>],
    quota: u64,
) -> Result<AloneRun, AllocError>
    requires pars { length pars.now ≡ program.now.pars }
    requires lists { length lists.now ≡ program.now.ins }
    ensures { IfOk result (λ r. AloneGives program.now pars.now lists.now quota r.talk r.stop) }
{
    program.known();
    let mut frame = Frame::try_start(program, pars)?;
    let mut taken = none_taken(lists);
    let mut talk = Sequence::new(alloc);
    let mut unused = quota;
    'says: loop {
        let at = frame.position(program);
        let (steps, stop) = walk(program, &mut frame, at, unused);
        unused -= steps;
        match say(program, &mut frame, lists, &mut taken, stop) {
            Ok(said) => talk.push(said)?,
            Err(stop) => return Ok(AloneRun { talk, stop }),
        }
    }
}

/// Says what the frame says at its stop, and goes past it; or returns how the process ended there.
fn say(
    program: &Program,
    frame: &mut Frame,
    lists: &[Sequence<i64>],
    taken: &mut ArrayVec<usize, MAX_PORTS>,
    stop: Stop,
) -> Result<Said, AloneStop>
    requires lists { length lists.now ≡ program.now.ins }
    requires taken { array_vec_len taken.old ≡ length lists.now }
    requires fits { IsTrue (fits program.now frame.old) }
    requires stands { StandsAt program.now.blocks frame.old stop }
    ensures says { MatchResult result
        (λ said. Speaks program.now.blocks frame.old (remaining lists.now taken.old.items) said
        frame.new (remaining lists.now taken.new.items))
        (λ ended. EndsAs stop (remaining lists.now taken.old.items) ended) }
    ensures taken { array_vec_len taken.new ≡ array_vec_len taken.old }
{
    program.known();
    match stop {
        Stop::WantRead(port) => match next_item(lists, taken.as_mut_slice(), port) {
            Some(item) => {
                frame.pass_read(program, item);
                Ok(Said::Got(port, item))
            }
            None => Err(AloneStop::Starved(port)),
        },
        Stop::WantWrite(port, item) => {
            frame.pass_write(program);
            Ok(Said::Put(port, item))
        }
        Stop::Done => Err(AloneStop::Done),
        Stop::Faulted(fault) => Err(AloneStop::Faulted(fault)),
        Stop::Paused => Err(AloneStop::Paused),
    }
}

fn none_taken(lists: &[Sequence<i64>]) -> ArrayVec<usize, MAX_PORTS>
    requires { length lists.now ≤ MAX_PORTS }
    ensures remaining { remaining lists.now result.items ≡ lists.now }
    ensures len { array_vec_len result ≡ length lists.now }
{
    let mut taken = ArrayVec::new();
    for _ in lists {
        taken.push(0);
    }
    taken
}
