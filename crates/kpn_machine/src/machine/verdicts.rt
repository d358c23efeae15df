//! What a run has come to if nothing goes on by itself: quiet moments, settled ones, and the verdict.
ghost use Rattle.std.specs.Prelude.{◌≡◌, ◌≢◌, ◌↔◌, ◌⊎◌, ℕ, ◌<◌, List, length, Option, Some, IsTrue};
ghost use Rattle.kpn_net.specs.declared.wait.Wait.TheVariants as wait;
ghost use Rattle.kpn_history.specs.declared.event.Event.{Event};
ghost use Rattle.kpn_history.specs.declared.event.How.{How};
ghost use Rattle.kpn_history.specs.declared.state.Verdict.{Verdict};
ghost use Rattle.kpn_history.specs.Ends.{IsQuiet, IsVerdict};
ghost use Rattle.kpn_machine.specs.Machine.{wait_in, end_in, is_full_wait, IsMachine};
ghost use Rattle.kpn_machine.specs.Quiet.{IsQuietNow};
ghost use Rattle.kpn_machine.specs.Run.{IsRun};
ghost use Rattle.kpn_machine.specs.Settled.{HaveStoppedIn, IsOutsideDone, IsSettledNow, HasFullCycleNow, HasFullWaitNow, IsVerdictNow};
ghost use Rattle.kpn_machine.specs.Stopped.{is_quiet_at, has_stopped, awaits_outside};

use super::Machine;
use kpn_history::Verdict;
use kpn_net::{Found, Network, Wait};
use std::alloc::Allocator;

impl<A: Allocator> Machine<A> {
    /// Whether each process has ended or waits on an empty channel.
    pub fn is_quiet(&self, network: &Network) -> bool
        requires shape { IsMachine network.now self.now }
        ensures exact { IsTrue result ↔ IsQuietNow network.now self.now }
        ensures history { (H : List Event) → IsRun network.now H self.now
            → (IsTrue result ↔ IsQuiet network.now H) }
    {
        network.known();
        for p in 0..network.instances() {
            if !self.is_quiet_at(p) {
                return false;
            }
        }
        true
    }

    /// The verdict on a run: none unless each process has ended or waits, each source is closed, and each sink is empty
    /// or left. It walks along the waits from each process.
    pub fn verdict(&self, network: &Network) -> Option<Verdict>
        requires shape { IsMachine network.now self.now }
        ensures exact { (verdict : Option Verdict)
            → ((result ≡ verdict) ↔ IsVerdictNow network.now self.now verdict) }
        ensures history { (H : List Event) → IsRun network.now H self.now
            → (verdict : Option Verdict)
            → ((result ≡ verdict) ↔ IsVerdict network.now H verdict) }
    {
        network.known();
        self.judge(network)
    }

    /// It tests in this order: settled, a cycle with a full channel, a wait on a full channel.
    fn judge(&self, network: &Network) -> Option<Verdict>
        requires shape { IsMachine network.now self.now }
        ensures { IsVerdictNow network.now self.now result }
    {
        if !self.is_settled(network) {
            return None;
        }
        if self.has_full_cycle(network) {
            return Some(Verdict::Jammed);
        }
        if self.has_full_wait(network) {
            return Some(Verdict::Clogged);
        }
        Some(Verdict::Ended)
    }

    /// Whether each process has ended or waits, each source is closed, and each sink is empty or left.
    pub(super) fn is_settled(&self, network: &Network) -> bool
        requires shape { IsMachine network.now self.now }
        ensures { IsTrue result ↔ IsSettledNow network.now self.now }
    {
        self.all_stopped(network) && self.is_outside_done(network)
    }

    fn all_stopped(&self, network: &Network) -> bool
        requires shape { IsMachine network.now self.now }
        ensures { IsTrue result ↔ HaveStoppedIn network.now self.now }
    {
        for p in 0..network.instances() {
            if !self.has_stopped(p) {
                return false;
            }
        }
        true
    }

    fn is_outside_done(&self, network: &Network) -> bool
        requires shape { IsMachine network.now self.now }
        ensures { IsTrue result ↔ IsOutsideDone network.now self.now }
    {
        for c in 0..network.channels() {
            if self.awaits_outside(network, c) {
                return false;
            }
        }
        true
    }

    fn has_full_wait(&self, network: &Network) -> bool
        requires shape { IsMachine network.now self.now }
        ensures { IsTrue result ↔ HasFullWaitNow network.now self.now }
    {
        for p in 0..network.instances() {
            if self.is_full_wait(p) {
                return true;
            }
        }
        false
    }

    fn has_full_cycle(&self, network: &Network) -> bool
        requires shape { IsMachine network.now self.now }
        ensures { IsTrue result ↔ HasFullCycleNow network.now self.now }
    {
        for p in 0..network.instances() {
            if let Found::Full(_) = self.walk(network, p) {
                return true;
            }
        }
        false
    }

    fn is_quiet_at(&self, p: usize) -> bool
        requires end { p < length self.now.ends }
        requires wait { p < length self.now.waits }
        ensures { result ≡ is_quiet_at self.now p }
    {
        self.end_of(p).is_some() || matches!(self.wait(p), Wait::Empty(_))
    }

    fn has_stopped(&self, p: usize) -> bool
        requires end { p < length self.now.ends }
        requires wait { p < length self.now.waits }
        ensures { result ≡ has_stopped self.now p }
    {
        self.end_of(p).is_some() || !matches!(self.wait(p), Wait::Nobody)
    }

    fn is_full_wait(&self, p: usize) -> bool
        requires { p < length self.now.waits }
        ensures { result ≡ is_full_wait (wait_in self.now p) }
    {
        matches!(self.wait(p), Wait::Full(_))
    }

    fn awaits_outside(&self, network: &Network, c: usize) -> bool
        requires there { c < length network.now.channels }
        requires channel { c < length self.now.channels }
        requires closed { c < length self.now.closed }
        ensures { result ≡ awaits_outside network.now self.now c }
    {
        if network.is_source(c) {
            return !self.is_closed(c);
        }
        network.is_sink(c) && self.has_item(c)
    }
}
