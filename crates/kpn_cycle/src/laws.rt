//! What holds of the cycles of waiting processes in every network, as contracts of functions that do nothing. The
//! layers above cite them.
ghost use Rattle.std.specs.Prelude.{◌≡◌, ◌↔◌, ℕ, ◌<◌, ◌≤◌, false, List, ◌∷◌, length, replicate, slice_set, Contains};
ghost use Rattle.std.specs.List.Sorted.{IsPermutation};
ghost use Rattle.kpn_net.specs.declared.wait.Wait.{Wait};
ghost use Rattle.kpn_net.specs.declared.wait.Wait.TheVariants.{Nobody};
ghost use Rattle.kpn_net.specs.Tables.{Tables, is_source, channel_at};
ghost use Rattle.kpn_net.specs.Waits.{IsCycle, IsSmallest, full_channels};
ghost use Rattle.kpn_net.specs.declared.found.Found.{Found};
ghost use Rattle.kpn_net.specs.Waits.{AreWaits, IsOwnWait};
ghost use Rattle.kpn_net.specs.Finding.{Finds, IsSmallestOfCycle};
ghost use Rattle.kpn_cycle.specs.Scan.{ScanFinds};

/// A table in which each process waits for nobody is a table of waits of the network, so the searches accept it.
pub fn nobody_waits()
    ensures { (t : Tables) → AreWaits t (replicate (length t.instances) Nobody) }
{}

/// It stays one if a process comes to another wait, on a channel of its own.
pub fn wait_is_set()
    ensures { (t : Tables) (waits : List Wait) (p : ℕ) (wait : Wait) → AreWaits t waits
        → IsOwnWait t p wait → AreWaits t (slice_set waits p wait) }
{}

/// It stays one if a process that waited is woken, and waits for nobody from then on.
pub fn waiter_is_woken()
    ensures { (t : Tables) (waits : List Wait) (p : ℕ) → AreWaits t waits
        → AreWaits t (slice_set waits p Nobody) }
{}

/// There is at most one cycle through a process.
pub fn cycle_is_unique()
    ensures { (t : Tables) (waits : List Wait) (p : ℕ) (others more : List ℕ)
        → IsCycle t waits p others → IsCycle t waits p more → others ≡ more }
{}

/// A cycle has at most as many members as there are processes.
pub fn cycles_are_bounded()
    ensures { (t : Tables) (waits : List Wait) (p : ℕ) (others : List ℕ) → IsCycle t waits p others
        → length (p ∷ others) ≤ length t.instances }
{}

/// A cycle through a process is one through each of its members: with the same members and the same full
/// channels, from another place on.
pub fn cycle_from_each_member()
    ensures { (t : Tables) (waits : List Wait) (p : ℕ) (others : List ℕ) → IsCycle t waits p others
        → (q : ℕ) → Contains (p ∷ others) q
        → (rest : List ℕ) × IsCycle t waits q rest × IsPermutation (p ∷ others) (q ∷ rest)
        × IsPermutation (full_channels waits (p ∷ others)) (full_channels waits (q ∷ rest)) }
{}

/// Of channels at most one is the smallest.
pub fn smallest_is_unique()
    ensures { (cap : ℕ → ℕ) (channels : List ℕ) (c d : ℕ)
        → IsSmallest cap channels c → IsSmallest cap channels d → c ≡ d }
{}

/// The smallest of some channels is the smallest of the same channels in another order.
pub fn smallest_in_any_order()
    ensures { (cap : ℕ → ℕ) (channels others : List ℕ) (c : ℕ)
        → IsPermutation channels others → IsSmallest cap channels c → IsSmallest cap others c }
{}

/// A search finds only one thing of the cycle through a process.
pub fn finding_is_unique()
    ensures { (t : Tables) (waits : List Wait) (cap : ℕ → ℕ) (p : ℕ) (found other : Found)
        → Finds t waits cap p found → Finds t waits cap p other → found ≡ other }
{}

/// What a search finds depends only on the capacities of channels that are no sources.
pub fn finding_looks_at_no_source()
    ensures { (t : Tables) (waits : List Wait) → AreWaits t waits → (cap other : ℕ → ℕ)
        → ((c : ℕ) → is_source (channel_at t c) ≡ false → cap c ≡ other c)
        → (p : ℕ) (found : Found) → Finds t waits cap p found → Finds t waits other p found }
{}

/// Suppose that no cycle but the one through `p` has a full channel below the limit. Then a scan finds a channel if and
/// only if the search from `p` finds it and it is below the limit.
pub fn scan_is_search()
    ensures { (t : Tables) (waits : List Wait) (cap : ℕ → ℕ) (p : ℕ) → p < length t.instances
        → ((q : ℕ) (others : List ℕ) (d : ℕ) → IsCycle t waits q others
        → Contains (full_channels waits (q ∷ others)) d → cap d < t.limit → Contains (q ∷ others) p)
        → (found : Found) → ScanFinds t waits cap found
        → (c : ℕ)
        → (found ≡ Found.Full c) ↔ (IsSmallestOfCycle t waits cap p c × (cap c < t.limit)) }
{}

/// If a scan finds none, each full channel of each cycle is at the limit.
pub fn scan_misses_no_cycle()
    ensures { (t : Tables) (waits : List Wait) (cap : ℕ → ℕ) → ScanFinds t waits cap Found.NoCycle
        → (p : ℕ) (others : List ℕ) (d : ℕ) → IsCycle t waits p others
        → Contains (full_channels waits (p ∷ others)) d → t.limit ≤ cap d }
{}
