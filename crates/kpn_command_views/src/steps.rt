//! How many steps each process makes in a history.
ghost use Rattle.std.specs.Prelude.{IsTrue};
ghost use Rattle.kpn_step.specs.Frame.{fits};
ghost use Rattle.kpn_step.specs.Stops.{IsAtPort};

use kpn_history::Event;
use kpn_lang::Program;
use kpn_net::Network;
use kpn_step::{Frame, Stop};
use std::alloc::{AllocError, Global};

/// A process on its way through a history: where it stands, and how many steps have led there.
#[derive(Drop)]
struct SteppedProcess {
    frame: Frame,
    steps: usize,
}

impl SteppedProcess {
    // Goes to the stop of this event of the process, and past it. Its frame is always one of its program. A test of that
    // costs less than a proof about all processes.
    fn go_by(&mut self, program: &Program, event: Event, quota: u64) {
        if !self.frame.fits(program) {
            return;
        }
        match (self.go_to_stop(program, quota), event) {
            (Stop::WantRead(_), Event::Get(_, _, item)) => self.frame.pass_read(program, item),
            (Stop::WantWrite(_, _), Event::Put(_, _, _)) => self.frame.pass_write(program),
            _ => {}
        }
    }

    // Makes steps to the next stop, or about as many as it may.
    fn go_to_stop(&mut self, program: &Program, quota: u64) -> Stop
        requires { IsTrue (fits program.now self.old.frame) }
        ensures fits { IsTrue (fits program.now self.new.frame) }
        ensures port { IsAtPort program.now self.new.frame result }
    {
        'parts: for _part in 0..quota / u64::from(u32::MAX) {
            let (steps, stop) = self.frame.run(program, u32::MAX);
            self.steps = self.steps.saturating_add(steps as usize);
            if !matches!(stop, Stop::Paused) {
                return stop;
            }
        }
        let (steps, stop) = self.frame.run(program, u32::MAX);
        self.steps = self.steps.saturating_add(steps as usize);
        stop
    }
}

/// How many steps each process makes up to the last of these events of it, by a replay. Before each event it may make
/// `quota` steps.
pub(crate) fn steps_of(
    alloc: Global,
    network: &Network,
    events: &[Event],
    quota: u64,
) -> Result<Vec<usize>, AllocError> {
    network.known();
    let mut processes = Vec::with_capacity(alloc, network.instances())?;
    for p in 0..network.instances() {
        let frame = Frame::try_start(network.program(p), network.pars(p))?;
        processes.push(SteppedProcess { frame, steps: 0 })?;
    }
    for event in events {
        if let Some(p) = event.process() {
            go_on(&mut processes, network, p, *event, quota);
        }
    }
    let mut steps = Vec::with_capacity(alloc, processes.len())?;
    for process in &processes {
        steps.push(process.steps)?;
    }
    Ok(steps)
}

fn go_on(
    processes: &mut Vec<SteppedProcess>,
    network: &Network,
    p: usize,
    event: Event,
    quota: u64,
) {
    if p < processes.len() && p < network.instances() {
        let process = &mut processes[p];
        process.go_by(network.program(p), event, quota);
    }
}
