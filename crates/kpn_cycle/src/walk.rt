//! The cycle through a process, found by a walk along the waits, and a scan of all processes.
ghost use Rattle.std.specs.Prelude.{◌≡◌, ℕ, ◌<◌, ◌++◌, List, [], ◌∷◌, length, IfSome};
ghost use Rattle.std.specs.Option.{option_to_list};
ghost use Rattle.kpn_net.specs.Waits.{AreWaits, awaited_as_full, full_channel, IsSmallest, FindsSmallest};
ghost use Rattle.kpn_net.specs.Finding.{Finds};
ghost use Rattle.kpn_cycle.specs.Scan.{cap_in, ScanFinds};
ghost use Rattle.kpn_cycle.specs.WalkSoFar.{found_on, IsOnChannelBelow};

use crate::awaiting::awaited;
use crate::waits::Waits;
use kpn_net::{Found, Network, Wait};
use std::alloc::Allocator;

/// The cycle of waiting processes in which process `p` waits for the next and the last for `p`, and its smallest full
/// channel, whether below the limit or not.
///
/// `caps` has the capacity of each channel; it ignores the entry of a source. The walk makes at most as many steps as
/// there are processes.
pub fn cycle_through<A: Allocator>(
    network: &Network,
    waits: &Waits<A>,
    caps: &[u32],
    p: usize,
) -> Found
    requires process { p < length network.now.instances }
    requires waits { AreWaits network.now waits.now }
    requires caps { length caps.now ≡ length network.now.channels }
    ensures exact { Finds network.now waits.now (cap_in caps.now) p result }
    ensures channel { (c : ℕ) → result ≡ Found.Full c → c < length network.now.channels }
{
    network.known();
    let mut at = p;
    let mut smallest = None;
    for _step in 0..network.instances() {
        let wait = waits.get(at);
        smallest = smallest_with(caps, smallest, wait);
        let Some(next) = awaited(network, wait) else {
            return Found::NoCycle;
        };
        if next == p {
            return on_cycle(smallest);
        }
        at = next;
    }
    Found::NoCycle
}

/// The first `Full` of a cycle through process 0, 1, .. whose channel is below the limit, else `NoCycle`.
///
/// `caps` has the capacity of each channel; it ignores the entry of a source. It makes a walk from each process.
pub fn scan_all<A: Allocator>(network: &Network, waits: &Waits<A>, caps: &[u32]) -> Found
    requires waits { AreWaits network.now waits.now }
    requires caps { length caps.now ≡ length network.now.channels }
    ensures { ScanFinds network.now waits.now (cap_in caps.now) result }
{
    for p in 0..network.instances() {
        if let Found::Full(c) = cycle_through(network, waits, caps, p) {
            if caps[c] < network.limit() {
                return Found::Full(c);
            }
        }
    }
    Found::NoCycle
}

/// Among the channels on which a process waits as full, the one of least capacity, on a tie the one of least number.
/// `None` if nobody waits so.
///
/// `caps` has the capacity of each channel; it ignores the entry of a source. It looks at each process once.
pub fn smallest_waited<A: Allocator>(
    network: &Network,
    waits: &Waits<A>,
    caps: &[u32],
) -> Option<usize>
    requires waits { AreWaits network.now waits.now }
    requires caps { length caps.now ≡ length network.now.channels }
    ensures exact { FindsSmallest (cap_in caps.now) (awaited_as_full network.now waits.now) result }
    ensures channel { IfSome result (λ c. c < length network.now.channels) }
{
    network.known();
    let mut smallest = None;
    for p in 0..network.instances() {
        smallest = smallest_with(caps, smallest, waits.get(p));
    }
    smallest
}

/// What a search finds on a cycle with this smallest full channel.
fn on_cycle(smallest: Option<usize>) -> Found
    ensures { result ≡ found_on smallest }
{
    match smallest {
        Some(c) => Found::Full(c),
        None => Found::AllEmpty,
    }
}

/// The smallest full channel so far, with one wait more.
fn smallest_with(caps: &[u32], smallest: Option<usize>, wait: Wait) -> Option<usize>
    requires wait { IsOnChannelBelow (length caps.now) wait }
    requires smallest { IfSome smallest (λ c. c < length caps.now) }
    ensures smallest { (channels : List ℕ) → FindsSmallest (cap_in caps.now) channels smallest
        → FindsSmallest (cap_in caps.now)
        (channels ++ option_to_list (full_channel wait)) result }
    ensures channel { IfSome result (λ c. c < length caps.now) }
{
    let Wait::Full(d) = wait else {
        return smallest;
    };
    match smallest {
        Some(c) => Some(smaller(caps, c, d)),
        None => Some(d),
    }
}

/// The smaller of two channels: that of less capacity, on a tie that of less number.
fn smaller(caps: &[u32], c: usize, d: usize) -> usize
    requires c { c < length caps.now }
    requires d { d < length caps.now }
    ensures smallest { IsSmallest (cap_in caps.now) (c ∷ d ∷ []) result }
    ensures channel { result < length caps.now }
{
    if caps[d] < caps[c] || (caps[d] == caps[c] && d < c) {
        d
    } else {
        c
    }
}
