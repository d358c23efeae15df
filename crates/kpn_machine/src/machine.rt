//! A machine as it is stored: the channels, and for each process its wait, its end and its frame.
ghost use Rattle.std.specs.Prelude.{◌≡◌, ◌↔◌, ◌<◌, false, List, length, map, IsTrue, IsOk, IfOk, IfErr, is_ok, is_some, if◌then◌else◌};
ghost use Rattle.kpn_chan.specs.Channel.{ChannelState, with_room, next_item, kept_journal};
ghost use Rattle.kpn_chan.specs.declared.unread.Unread.TheVariants.{Forgotten};
ghost use Rattle.kpn_machine.specs.Machine.{channel_in, closed_in, wait_in, end_in, frame_in, with_channel, all_put, are_kept, AreKept, IsMachine};
ghost use Rattle.kpn_machine.specs.Run.{IsRun};
ghost use Rattle.kpn_net.specs.Tables.{Tables};
ghost use Rattle.kpn_history.specs.declared.event.Event.{Event};

use kpn_chan::{Channel, Journal, Unread, Written};
use kpn_history::How;
use kpn_lang::Sequence;
use kpn_net::Wait;
use kpn_step::Frame;
use std::alloc::{AllocError, Allocator, Global};
use std::marker::Model;

mod applying;
mod complete;
mod growth;
mod joining;
mod marked_waits;
mod outside;
mod processes;
mod start;
mod steps;
mod verdicts;

pub use growth::{Grown, OwedGrowth};
use marked_waits::MarkedWaits;
pub use processes::Got;
pub use start::frames_at_start;

/// The states of the processes of a network and the contents of its channels at one moment of a run.
///
/// Each call takes the network whose machine it is. Contracts see what each channel holds, which
/// sources are closed, what each process waits for, how it ended if it did, and its frame.
#[derive(Debug, Drop)]
pub struct Machine<A: Allocator = Global> {
    channels: Vec<Channel<A>, A>,
    closed: Vec<bool, A>,
    // the capacities once more, in the form that the walk along the waits reads; the invariant keeps them equal
    capacities: Vec<u32, A>,
    waits: MarkedWaits<A>,
    ends: Vec<Option<How>, A>,
    frames: Vec<Frame, A>,
}

impl<A: Allocator> Model for Machine<A> {
    ghost use Rattle.std.specs.Prelude.{◌≡◌, map};
    ghost use Rattle.std.specs.Option.{unwrap_or};
    ghost use Rattle.kpn_machine.specs.Machine.{Machine as Seen};

    ghost Value = { Seen };

    ghost view = { λ c. record {
      channels = c.channels.items;
      closed = c.closed.items;
      waits = c.waits;
      ends = c.ends.items;
      frames = c.frames.items;
    } };

    ghost invariant = { λ c.
        c.capacities.items ≡ map (λ x. unwrap_or x.capacity 0) c.channels.items };
}

impl<A: Allocator + Copy> Machine<A> {
    /// Makes room for one more item on a channel, so that the next put or feed there takes no memory. No history
    /// records it. The error is that memory ran out; the machine is then as before.
    #[inline(always)]
    pub fn reserve_one(&mut self, c: usize) -> Result<(), AllocError>
        requires { c < length self.old.channels }
        ensures after { self.new ≡ (if is_ok result then
            with_channel c (with_room (channel_in self.old c)) self.old else self.old) }
        ensures already { IsTrue (channel_in self.old c).is_reserved → IsOk result }
        ensures shape { (t : Tables) → IsMachine t self.old → IsMachine t self.new }
        ensures run { (t : Tables) (H : List Event) → IsRun t H self.old → IsRun t H self.new }
    {
        let channel = &mut self.channels[c];
        channel.reserve_one()
    }
}

impl<A: Allocator> Machine<A> {
    /// A channel.
    pub fn channel(&self, c: usize) -> &Channel<A>
        requires { c < length self.now.channels }
        ensures { result.now ≡ channel_in self.now c }
    {
        &self.channels[c]
    }

    /// Moves the journals out of the machine, in order of the channels' numbers.
    pub fn into_journals(self, alloc: A) -> Result<Sequence<Journal<A>, A>, Unread>
        ensures journals { let s = self in IfOk result (λ journals.
            journals ≡ map (λ (channel : ChannelState). channel.journal) s.channels) }
        ensures forgotten { let s = self in IfErr result (λ why. why ≡ Forgotten → ¬ AreKept s) }
    {
        let Machine { channels, .. } = self;
        if !all_kept(&channels) {
            return Err(Unread::Forgotten);
        }
        match moved_journals(alloc, channels) {
            Ok(journals) => Ok(journals),
            Err(_) => Err(Unread::NoMemory),
        }
    }

    /// Moves what was written out of the machine, kept or not, in order of the channels' numbers. The error is
    /// that memory ran out.
    pub fn into_written(self, alloc: A) -> Result<Sequence<Written<A>, A>, AllocError>
        ensures { let s = self in IfOk result (λ written. written ≡ map all_put s.channels) }
    {
        let Machine { channels, .. } = self;
        moved_written(alloc, channels)
    }

    /// A copy of all items that were ever put on a channel, oldest first.
    pub fn copy_journal<B: Allocator>(&self, alloc: B, c: usize) -> Result<Vec<i64, B>, Unread>
        requires { c < length self.now.channels }
        ensures items { IfOk result (λ items. items.items ≡ (channel_in self.now c).journal) }
        ensures forgotten { IfErr result (λ why.
            (why ≡ Forgotten) ↔ ((channel_in self.now c).is_kept ≡ false)) }
    {
        self.channels[c].copy_journal(alloc)
    }

    /// Whether a get from the channel, or a take, would give an item: its reader is there, and an item is
    /// unread.
    pub fn has_item(&self, c: usize) -> bool
        requires { c < length self.now.channels }
        ensures { result ≡ is_some (next_item (channel_in self.now c)) }
    {
        self.channels[c].peek().is_some()
    }

    /// Whether a source is closed.
    pub fn is_closed(&self, c: usize) -> bool
        requires { c < length self.now.closed }
        ensures { result ≡ closed_in self.now c }
    {
        self.closed[c]
    }

    /// What a process waits for.
    pub fn wait(&self, p: usize) -> Wait
        requires { p < length self.now.waits }
        ensures { result ≡ wait_in self.now p }
    {
        self.waits.table().get(p)
    }

    /// How a process has ended, or `None` if it has not.
    pub fn end_of(&self, p: usize) -> Option<How>
        requires { p < length self.now.ends }
        ensures { result ≡ end_in self.now p }
    {
        self.ends[p]
    }

    /// The frame of a process.
    pub fn frame(&self, p: usize) -> &Frame
        requires { p < length self.now.frames }
        ensures { result.now ≡ frame_in self.now p }
    {
        &self.frames[p]
    }
}

/// The journals of these channels, those that are kept. The error is that memory ran out.
fn moved_journals<A: Allocator>(
    alloc: A,
    channels: Vec<Channel<A>, A>,
) -> Result<Sequence<Journal<A>, A>, AllocError>
    ensures { let given = channels.items in IfOk result (λ journals.
        journals ≡ map kept_journal given) }
{
    let mut journals = Vec::with_capacity(alloc, channels.len())?;
    'channels: for channel in channels {
        journals.push(channel.into_journal())?;
    }
    Ok(Sequence::from_vec(journals))
}

/// What was written on these channels, moved out of them. The error is that memory ran out.
fn moved_written<A: Allocator>(
    alloc: A,
    channels: Vec<Channel<A>, A>,
) -> Result<Sequence<Written<A>, A>, AllocError>
    ensures { let given = channels.items in IfOk result (λ written. written ≡ map all_put given) }
{
    let mut written = Vec::with_capacity(alloc, channels.len())?;
    'channels: for channel in channels {
        written.push(channel.into_written())?;
    }
    Ok(Sequence::from_vec(written))
}

/// Whether all items of each of these channels are kept.
fn all_kept<A: Allocator>(channels: &[Channel<A>]) -> bool
    ensures { result ≡ are_kept channels.now }
{
    channels.iter().all(|channel| channel.is_kept())
}
