//! The machine at the start, when nothing has happened yet.
ghost use Rattle.std.specs.Prelude.{◌≡◌, ◌<◌, ℕ, [], false, length, replicate, IsTrue, IfOk, Some, None, slice_index_or};
ghost use Rattle.std.specs.Option.{unwrap_or};
ghost use Rattle.kpn_net.specs.Tables.{channel_at, instance_at, program_of, capacity};
ghost use Rattle.kpn_step.specs.Frame.{start_frame, fits};
ghost use Rattle.kpn_chan.specs.Channel.{opened, opened_as};
ghost use Rattle.kpn_history.specs.Keeping.{keeps_items};
ghost use Rattle.kpn_machine.specs.Machine.{no_frame, frame_in, channel_in, AreKept};
ghost use Rattle.kpn_machine.specs.Run.{IsRun};

use super::Machine;
use super::marked_waits::MarkedWaits;
use kpn_chan::Channel;
use kpn_history::{How, Keeping};
use kpn_net::Network;
use kpn_step::Frame;
use std::alloc::{AllocError, Allocator};

impl<A: Allocator + Copy> Machine<A> {
    /// The machine of a network at the start: its channels are empty, and each process is at its beginning. It
    /// will keep all items. The error is that memory ran out.
    pub fn new(alloc: A, network: &Network) -> Result<Self, AllocError>
        ensures run { IfOk result (λ made. IsRun network.now [] made) }
        ensures frames { let t = network.now in
            IfOk result (λ made. (p : ℕ) → p < length t.instances
            → frame_in made p ≡ start_frame (program_of t p) (instance_at t p).pars) }
        ensures kept { IfOk result AreKept }
    {
        Machine::keeping(alloc, network, Keeping::All)
    }

    /// The same machine, which will keep what it is told to keep.
    pub fn keeping(alloc: A, network: &Network, keeping: Keeping) -> Result<Self, AllocError>
        ensures run { IfOk result (λ made. IsRun network.now [] made) }
        ensures frames { let t = network.now in
            IfOk result (λ made. (p : ℕ) → p < length t.instances
            → frame_in made p ≡ start_frame (program_of t p) (instance_at t p).pars) }
        ensures kept { IfOk result (λ made. (c : ℕ) → c < length made.channels
            → (channel_in made c).is_kept ≡ keeps_items keeping network.now c) }
    {
        network.known();
        let channels = channels_at_start(alloc, network, keeping)?;
        let capacities = capacities_at_start(alloc, network)?;
        let closed = none_closed(alloc, network.channels())?;
        let waits = MarkedWaits::new(alloc, network.instances(), network.channels())?;
        let ends = none_ended(alloc, network.instances())?;
        let frames = frames_at_start(alloc, network)?;
        Ok(Machine {
            channels,
            closed,
            capacities,
            waits,
            ends,
            frames,
        })
    }
}

fn channels_at_start<A: Allocator + Copy>(
    alloc: A,
    network: &Network,
    keeping: Keeping,
) -> Result<Vec<Channel<A>, A>, AllocError>
    ensures len { IfOk result (λ channels. length channels.items ≡ length network.now.channels) }
    ensures each { IfOk result (λ channels. (c : ℕ) → c < length network.now.channels
        → (let channel = slice_index_or channels.items c (opened None false) in
        channel ≡ opened_as (keeps_items keeping network.now c)
        (capacity (channel_at network.now c)) channel.is_reserved)) }
{
    let mut channels = Vec::with_capacity(alloc, network.channels())?;
    for c in 0..network.channels() {
        let keeps = keeping.keeps_items(network, c);
        let channel = Channel::keeping(alloc, network.cap_of(c), keeps)?;
        channels.push(channel)?;
    }
    Ok(channels)
}

fn capacities_at_start<A: Allocator>(alloc: A, network: &Network) -> Result<Vec<u32, A>, AllocError>
    ensures len { IfOk result
        (λ capacities. length capacities.items ≡ length network.now.channels) }
    ensures each { IfOk result (λ capacities. (c : ℕ) → c < length network.now.channels
        → slice_index_or capacities.items c 0 ≡ unwrap_or (capacity (channel_at network.now c)) 0) }
{
    let mut capacities = Vec::with_capacity(alloc, network.channels())?;
    for c in 0..network.channels() {
        capacities.push(network.cap_of(c).unwrap_or(0))?;
    }
    Ok(capacities)
}

/// The frames of the processes of a network at their starts. The error is that memory ran out.
pub fn frames_at_start<A: Allocator>(
    alloc: A,
    network: &Network,
) -> Result<Vec<Frame, A>, AllocError>
    ensures len { IfOk result (λ frames. length frames.items ≡ length network.now.instances) }
    ensures each { IfOk result (λ frames. (p : ℕ) → p < length network.now.instances
        → slice_index_or frames.items p no_frame
        ≡ start_frame (program_of network.now p) (instance_at network.now p).pars) }
    ensures fit { IfOk result (λ frames. (p : ℕ) → p < length network.now.instances
        → IsTrue (fits (program_of network.now p) (slice_index_or frames.items p no_frame))) }
{
    network.known();
    let mut frames = Vec::with_capacity(alloc, network.instances())?;
    for p in 0..network.instances() {
        let frame = Frame::try_start(network.program(p), network.pars(p))?;
        frames.push(frame)?;
    }
    Ok(frames)
}

fn none_closed<A: Allocator>(alloc: A, channels: usize) -> Result<Vec<bool, A>, AllocError>
    ensures { IfOk result (λ closed. closed.items ≡ replicate channels false) }
{
    vec![in alloc; false; channels]
}

fn none_ended<A: Allocator>(alloc: A, processes: usize) -> Result<Vec<Option<How>, A>, AllocError>
    ensures { IfOk result (λ ends. ends.items ≡ replicate processes None) }
{
    vec![in alloc; None; processes]
}
