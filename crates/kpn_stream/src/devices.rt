//! What stands at the sources and at the sinks of a network while it runs.
ghost use Rattle.std.specs.Prelude.{◌≡◌, ℕ, ℤ, IsTrue, IfSome, IfNone, Some, Ok, Option as Maybe, Result as Answer};
ghost use Rattle.kpn_stream.specs.declared.devices.Readiness.TheVariants as look;
ghost use Rattle.kpn_stream.specs.declared.faults.SourceFault.{SourceFault as Refusal};
ghost use Rattle.kpn_stream.specs.declared.faults.SinkFault.{SinkFault as Failure};

use crate::faults::{SinkFault, SourceFault};

/// What a look at a source shows.
#[derive(Clone, Copy, Debug, PartialEq, Eq)]
pub enum Readiness {
    /// Its answer is at hand.
    AtHand,
    /// Its answer has not come yet.
    NotYet,
    /// Nobody can tell without waiting for the device.
    Unknown,
}

/// The devices of the sources. A source goes by the number of its channel.
pub trait Sources {
    /// What `next` may answer for a source: the devices before the call, the source, the answer, and the devices
    /// after it.
    ghost gives: { Self → ℕ → Answer (Maybe ℤ) Refusal → Self → Type 0 };

    /// What a look at a source may do: the devices before it, the source, and the devices after it.
    ghost looks: { Self → ℕ → Self → Type 0 };

    /// When the answer for a source is at hand: `next` does not wait for its device then.
    ghost at_hand: { Self → ℕ → Type 0 };

    /// The next item of a source, or `None` at the end of its input. It waits for the device if it has to. After
    /// `None` or a fault it is not called for this source again.
    fn next(&mut self, source: usize) -> Result<Option<i64>, SourceFault>
        ensures { gives self.old source result self.new };

    /// Whether `next` would answer for this source without waiting for its device, by what was taken in already.
    fn is_at_hand(&self, source: usize) -> bool
        ensures { IsTrue result → at_hand self.now source };

    /// The next item of a source, if it is at hand and no fault. It never waits, and leaves the end of the input and
    /// faults to `next`.
    fn next_at_hand(&mut self, source: usize) -> Option<i64>
        ensures item { IfSome result (λ item. gives self.old source (Ok (Some item)) self.new) }
        ensures at_hand { IfSome result (λ item. at_hand self.old source) }
        ensures as_before { IfNone result (self.new ≡ self.old) };

    /// Takes in what has come for a source, and shows whether its answer is at hand now. It never waits.
    fn look(&mut self, source: usize) -> Readiness
        ensures looks { looks self.old source self.new }
        ensures at_hand { result ≡ look.AtHand → at_hand self.new source };

    /// Waits a little while. It is called if no process is ready, several sources are awaited, and the answer of none
    /// has come.
    fn linger(&self);
}

/// The devices of the sinks. A sink goes by the number of its channel.
pub trait Sinks {
    /// What `put` may answer for a sink and an item.
    ghost takes: { Self → ℕ → ℤ → Answer (Unit {0}) Failure → Self → Type 0 };

    /// What `flush` may answer for a sink.
    ghost flushes: { Self → ℕ → Answer (Unit {0}) Failure → Self → Type 0 };

    /// Takes an item of a sink. It may keep it for a while. After a fault it is not called for this sink again.
    fn put(&mut self, sink: usize, item: i64) -> Result<(), SinkFault>
        ensures { takes self.old sink item result self.new };

    /// Hands on what it kept of a sink.
    fn flush(&mut self, sink: usize) -> Result<(), SinkFault>
        ensures { flushes self.old sink result self.new };
}
