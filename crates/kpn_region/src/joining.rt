//! How a batch is joined to a machine.
ghost use Rattle.std.specs.Prelude.{◌≡◌, ℕ, ◌+◌, ◌<◌, ◌≤◌, ◌^◌, length, IsTrue, if◌then◌else◌};
ghost use Rattle.kpn_net.specs.Tables.{program_of};
ghost use Rattle.kpn_net.specs.Waits.{AreWaits};
ghost use Rattle.kpn_step.specs.Frame.{fits};
ghost use Rattle.kpn_chan.specs.Channel.{unread};
ghost use Rattle.kpn_machine.specs.Machine.{channel_in, frame_in, with_frame, IsMachine};
ghost use Rattle.kpn_region.specs.Local.{is_in_region, frame_at, side_at};
ghost use Rattle.kpn_region.specs.Joining.{ChannelAgrees, AgreesWith, Joins};
ghost use Rattle.kpn_region.specs.JoiningParts.{most_seen, JoinsChannel, JoinsChannels, JoinsFrames};

use crate::batch::Batch;
use crate::side::RegionSide;
use kpn_chan::Channel;
use kpn_machine::Machine;
use kpn_net::Network;
use std::alloc::Allocator;

impl<'n, A: Allocator> Batch<'n, A> {
    /// Joins the batch to a machine with which it agrees, at once. It takes no memory.
    pub fn join<B: Allocator + Copy>(&self, machine: &mut Machine<B>)
        requires shape { IsMachine self.now.tables machine.old }
        requires agrees { AgreesWith self.now machine.old }
        ensures { Joins self.now machine.old machine.new }
    {
        self.known();
        self.join_channels(machine);
        self.join_frames(machine);
    }

    /// What was taken from the channels counts as read, and what was put is put there.
    fn join_channels<B: Allocator + Copy>(&self, machine: &mut Machine<B>)
        requires shape { IsMachine self.now.tables machine.old }
        requires agrees { AgreesWith self.now machine.old }
        ensures { JoinsChannels self.now (length self.now.tables.channels)
            machine.old machine.new }
    {
        let network = self.network();
        network.known();
        'channels: for c in 0..network.channels() {
            self.join_channel(network, c, machine);
        }
    }

    /// The same for one channel.
    fn join_channel<B: Allocator + Copy>(
        &self,
        network: &Network,
        c: usize,
        machine: &mut Machine<B>,
    )
        requires tables { network.now ≡ self.now.tables }
        requires channel { c < length self.now.tables.channels }
        requires channels { length machine.old.channels ≡ length self.now.tables.channels }
        requires waits { AreWaits self.now.tables machine.old.waits }
        requires agrees { ChannelAgrees self.now.tables c
            (side_at self.now.now c) (channel_in machine.old c) }
        ensures { JoinsChannel self.now c machine.old machine.new }
    {
        self.known();
        let side = self.side(c);
        side.known();
        let taken = side.taken();
        let put = side.items().split_at(side.claimed()).1;
        if taken == 0 && put.is_empty() {
            return;
        }
        let channel = machine.channel(c);
        channel.known();
        let most = most_seen(side, channel);
        machine.join_channel(network, c, taken, put, most);
    }

    /// The processes of the region go to where they stand in the batch.
    fn join_frames<B: Allocator + Copy>(&self, machine: &mut Machine<B>)
        requires frames { length machine.old.frames ≡ length self.now.tables.instances }
        requires fit { (p : ℕ) → p < length self.now.tables.instances
            → IsTrue (fits (program_of self.now.tables p) (frame_in machine.old p)) }
        ensures { JoinsFrames self.now (length self.now.tables.instances)
            machine.old machine.new }
    {
        let network = self.network();
        self.known();
        'processes: for p in 0..network.instances() {
            self.join_frame(p, machine);
        }
    }

    /// Process `p` goes to where it stands in the batch, if it is in the region.
    fn join_frame<B: Allocator + Copy>(&self, p: usize, machine: &mut Machine<B>)
        requires process { p < length self.now.tables.instances }
        requires frames { length machine.old.frames ≡ length self.now.tables.instances }
        requires size { length (frame_at self.now.now p).variables
            ≡ length (frame_in machine.old p).variables }
        ensures { machine.new ≡ (if is_in_region self.now.now p
            then with_frame p (frame_at self.now.now p) machine.old else machine.old) }
    {
        if self.is_within(p) {
            machine.set_frame(p, self.frame(p));
        }
    }
}

/// The most items that were unread on a channel when the region had put one; 0 if it has put none, or the reader is
/// gone.
fn most_seen<A: Allocator, B: Allocator>(side: &RegionSide<A>, channel: &Channel<B>) -> usize
    requires claimed { side.now.claimed ≤ length (unread channel.now) }
    requires bound { length (unread channel.now) + side.now.most < 2 ^ 64 }
    ensures { result ≡ most_seen side.now channel.now }
{
    if channel.is_retired() || side.most() == 0 {
        return 0;
    }
    channel.len() - side.claimed() + side.most()
}
