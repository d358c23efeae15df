//! How many items a channel has to hold for its puts to have their ticks.
ghost use Rattle.std.specs.Prelude.{◌≡◌, ◌+◌, ◌<◌, ◌≤◌, ◌-◌, ℕ, max, drop, length};
ghost use Rattle.kpn_ticks.specs.Held.{reads_before, most_held, capacity_needed};
ghost use Rattle.kpn_ticks.specs.Shown.{shown};

use crate::clocks::Clocks;

impl Clocks {
    /// The capacity with which the puts on channel `c` have the ticks that they have.
    pub fn capacity_needed(&self, c: usize) -> usize
        ensures { result ≡ capacity_needed (shown self.now) c }
    {
        most_held(self.written_of(c), self.read_of(c)).max(1)
    }
}

fn most_held(written: &[usize], reads: &[usize]) -> usize
    ensures { result ≡ most_held 0 written.now reads.now }
{
    let mut most = 0;
    let mut held: usize = 0;
    let mut place = 0;
    for tick in written {
        let gone = reads_before(*tick, &reads[place..]);
        held = (held + 1).saturating_sub(gone);
        most = most.max(held);
        place += gone;
    }
    most
}

/// How many of these reads, in order, have ticks before this one.
pub fn reads_before(tick: usize, reads: &[usize]) -> usize
    ensures exact { result ≡ reads_before tick reads.now }
    ensures within { result ≤ length reads.now }
{
    reads.iter().take_while(|read| **read < tick).count()
}
