//! A stream over devices of its own: a sensor that this program simulates, and a display. Each mean is shown before the
//! sensor is read again.
#![tactic(auto)]

ghost use Rattle.std.specs.Bool.{⊤};

use anyhow::Result;
use kpn_net::Network;
use kpn_stream::{
    Keeping, Limits, Readiness, SinkFault, Sinks, SourceFault, Sources, Unwatched, stream,
};
use kpn_text::read_network;
use std::alloc::Global;
use std::io::Write;

/// Each reading is replaced by the mean of it and the one before.
const SMOOTHER: &str = "
process smooth(in readings; out means) {
  before = 0;
  while 1 { read readings now; write means ((before + now) / 2); before = now; }
}
network { source sensor; sink display cap 1; smooth = smooth(sensor; display); }
";

const LIMITS: Limits = Limits {
    commits: u64::MAX,
    take: None,
    quota: 1_000,
};

/// A sensor that is read 10 times.
#[derive(Drop)]
struct Sensor {
    readings: u32,
}

impl Sources for Sensor {
    ghost gives = { λ _ _ _ _. ⊤ };

    ghost looks = { λ _ _ _. ⊤ };

    ghost at_hand = { λ _ _. ⊤ };

    fn next(&mut self, _source: usize) -> Result<Option<i64>, SourceFault> {
        if self.readings >= 10 {
            return Ok(None);
        }
        self.readings += 1;
        Ok(Some(i64::from(self.readings) * 10))
    }

    fn is_at_hand(&self, _source: usize) -> bool {
        true
    }

    // Each reading is made when it is asked for.
    fn next_at_hand(&mut self, _source: usize) -> Option<i64> {
        None
    }

    fn look(&mut self, _source: usize) -> Readiness {
        Readiness::AtHand
    }

    fn linger(&self) {}
}

/// Shows each item in a line.
#[derive(Drop)]
struct Display<'o, O> {
    out: &'o mut O,
}

impl<O: Write> Sinks for Display<'_, O> {
    ghost takes = { λ _ _ _ _ _. ⊤ };

    ghost flushes = { λ _ _ _ _. ⊤ };

    fn put(&mut self, _sink: usize, item: i64) -> Result<(), SinkFault> {
        writeln!(self.out, "{item}").map_err(|_| SinkFault::Write)
    }

    fn flush(&mut self, _sink: usize) -> Result<(), SinkFault> {
        self.out.flush().map_err(|_| SinkFault::Write)
    }
}

fn run<O: Write>(alloc: Global, network: &Network, out: &mut O) -> Result<()> {
    let mut sensor = Sensor { readings: 0 };
    let streamed = stream(
        alloc,
        network,
        &mut sensor,
        &mut Display { out },
        &LIMITS,
        Keeping::Nothing,
        &mut Unwatched,
    )?;
    writeln!(out, "{:?}", streamed.ending)?;
    Ok(())
}

fn main(rt: HostRuntime) -> Result<()> {
    let document = read_network(rt.alloc(), SMOOTHER.as_bytes())?;
    run(rt.alloc(), document.network(), &mut rt.stdout())
}
