//! The seats of the outside, as a run is opened, and how they are found by channel.
ghost use Rattle.std.specs.Prelude.{◌≡◌, ◌<◌, ◌∷◌, [], ◌++◌, length, IfOk, IfSome, IfNone, if◌then◌else◌};
ghost use Rattle.kpn_net.specs.Tables.{channel_at, is_source, is_sink};
ghost use Rattle.kpn_pool_desk.specs.OutsideSeats.{new_end, new_ends, GivesSeat, HasNoSeat};

use crate::outside_seats::{SinkSeat, SourceSeat};
use kpn_net::Network;
use std::alloc::{AllocError, Allocator, Global};

/// The seats of some sources and of some sinks, in order of number.
#[derive(Drop)]
pub struct EndSeats<A: Allocator = Global> {
    pub sources: Vec<SourceSeat<A>, A>,
    pub sinks: Vec<SinkSeat<A>, A>,
}

impl<A: Allocator> EndSeats<A> {
    /// Takes the seat of a source from these, and returns it. It returns `None` only if it is not among them.
    pub fn take_source(&mut self, channel: usize) -> Option<SourceSeat<A>>
        ensures some { IfSome result (λ seat.
            GivesSeat channel seat self.old.sources.items self.new.sources.items) }
        ensures none { IfNone result (HasNoSeat channel self.old.sources.items) }
        ensures same { IfNone result (self.new.sources.items ≡ self.old.sources.items) }
        ensures sinks { self.new.sinks ≡ self.old.sinks }
    {
        'seats: for i in 0..self.sources.len() {
            if self.sources[i].channel() == channel {
                return Some(self.sources.remove(i));
            }
        }
        None
    }

    /// Takes the seat of a sink from these, and returns it. It returns `None` only if it is not among them.
    pub fn take_sink(&mut self, channel: usize) -> Option<SinkSeat<A>>
        ensures some { IfSome result (λ seat.
            GivesSeat channel seat self.old.sinks.items self.new.sinks.items) }
        ensures none { IfNone result (HasNoSeat channel self.old.sinks.items) }
        ensures same { IfNone result (self.new.sinks.items ≡ self.old.sinks.items) }
        ensures sources { self.new.sources ≡ self.old.sources }
    {
        'seats: for i in 0..self.sinks.len() {
            if self.sinks[i].channel() == channel {
                return Some(self.sinks.remove(i));
            }
        }
        None
    }
}

/// A seat for each source and for each sink of a network. The error is that memory ran out.
pub fn end_seats<A: Allocator + Copy>(
    alloc: A,
    network: &Network,
) -> Result<EndSeats<A>, AllocError>
    ensures sources { IfOk result (λ seats.
        seats.sources.items ≡ new_ends is_source network.now) }
    ensures sinks { IfOk result (λ seats. seats.sinks.items ≡ new_ends is_sink network.now) }
{
    let mut sources = Vec::new(alloc);
    let mut sinks = Vec::new(alloc);
    for c in 0..network.channels() {
        add_seat(alloc, network, c, &mut sources, &mut sinks)?;
    }
    Ok(EndSeats { sources, sinks })
}

/// Adds a seat, if the channel is a source or a sink.
fn add_seat<A: Allocator + Copy>(
    alloc: A,
    network: &Network,
    c: usize,
    sources: &mut Vec<SourceSeat<A>, A>,
    sinks: &mut Vec<SinkSeat<A>, A>,
) -> Result<(), AllocError>
    requires { c < length network.now.channels }
    ensures sources { IfOk result (λ _. sources.new.items ≡ sources.old.items
        ++ (if is_source (channel_at network.now c) then new_end c ∷ [] else [])) }
    ensures sinks { IfOk result (λ _. sinks.new.items ≡ sinks.old.items
        ++ (if is_sink (channel_at network.now c) then new_end c ∷ [] else [])) }
{
    if network.is_source(c) {
        sources.push(SourceSeat::new(alloc, c))?;
    }
    if network.is_sink(c) {
        sinks.push(SinkSeat::new(alloc, c))?;
    }
    Ok(())
}
