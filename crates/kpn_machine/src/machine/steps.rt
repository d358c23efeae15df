//! Steps of a process between its events. They change only its frame, and no event records them.
ghost use Rattle.std.specs.Prelude.{◌≡◌, ◌<◌, List, length};
ghost use Rattle.kpn_net.specs.Tables.{program_of};
ghost use Rattle.kpn_step.specs.Stops.{IsAdvance, IsAtPort, IsWithinQuota, advanced_of};
ghost use Rattle.kpn_history.specs.declared.event.Event.{Event};
ghost use Rattle.kpn_machine.specs.Machine.{frame_in, with_frame, IsMachine};
ghost use Rattle.kpn_machine.specs.Run.{IsRun};
ghost use Rattle.kpn_machine.specs.Due.{Stands};

use super::Machine;
use kpn_lang::Program;
use kpn_net::Network;
use kpn_step::{Frame, Stop};
use std::alloc::Allocator;

impl<A: Allocator> Machine<A> {
    /// Makes at most `quota` steps of process `p`, which has this program, from its frame on. It returns how many, and
    /// the stop after them.
    // A caller that makes many calls looks up the program once.
    #[inline(always)]
    pub fn step(
        &mut self,
        network: &Network,
        program: &Program,
        p: usize,
        quota: u32,
    ) -> (u32, Stop)
        requires shape { IsMachine network.now self.old }
        requires process { p < length network.now.instances }
        requires program { program.now ≡ program_of network.now p }
        ensures advance { let t = network.now in
            IsAdvance (advanced_of (program_of t p)
            (frame_in self.old p) (frame_in self.new p) result.0 result.1) }
        ensures quota { let t = network.now in IsWithinQuota quota
            (advanced_of (program_of t p)
            (frame_in self.old p) (frame_in self.new p) result.0 result.1) }
        ensures port { IsAtPort (program_of network.now p) (frame_in self.new p) result.1 }
        ensures after { self.new ≡ with_frame p (frame_in self.new p) self.old }
        ensures shape { IsMachine network.now self.new }
        ensures run { (H : List Event) → IsRun network.now H self.old
            → IsRun network.now H self.new }
    {
        // Only the contract names the network.
        let _network = network;
        let frame = &mut self.frames[p];
        frame.run(program, quota)
    }

    /// Takes process `p` to this frame, the end of this many steps from its own, and their stop.
    pub fn step_to(&mut self, network: &Network, p: usize, to: &Frame, made: (u32, Stop))
        requires shape { IsMachine network.now self.old }
        requires process { p < length network.now.instances }
        requires advance { IsAdvance (advanced_of (program_of network.now p)
            (frame_in self.old p) to.now made.0 made.1) }
        ensures after { self.new ≡ with_frame p to.now self.old }
        ensures stands { Stands network.now self.new p made.1 }
        ensures shape { IsMachine network.now self.new }
        ensures run { (H : List Event) → IsRun network.now H self.old
            → IsRun network.now H self.new }
    {
        // Only the contract names the steps.
        let _made = made;
        let frame = &mut self.frames[p];
        frame.copy_from(to);
    }
}
