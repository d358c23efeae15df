//! What growth leaves behind and what a stop depends on, as contracts of functions that do nothing. The layers above
//! cite them.
ghost use Rattle.std.specs.Prelude.{◌≡◌, ◌↔◌, ℕ, ◌<◌, ◌≤◌, List, [], ◌∷◌, ◌++◌, true, length, Option, Some, None};
ghost use Rattle.kpn_net.specs.Tables.{Tables};
ghost use Rattle.kpn_net.specs.Faults.{IsNetwork};
ghost use Rattle.kpn_net.specs.declared.tables.Policy.TheVariants.{Cycles, All};
ghost use Rattle.kpn_net.specs.declared.wait.Wait.TheVariants.{Full as FullOn};
ghost use Rattle.kpn_net.specs.declared.found.Found.{Found};
ghost use Rattle.kpn_net.specs.declared.found.Found.TheVariants.{Full};
ghost use Rattle.kpn_net.specs.Finding.{Finds};
ghost use Rattle.kpn_history.specs.declared.event.Event.{Event};
ghost use Rattle.kpn_history.specs.declared.event.Event.TheVariants.{Leave};
ghost use Rattle.kpn_history.specs.declared.state.Verdict.{Verdict};
ghost use Rattle.kpn_history.specs.declared.state.Verdict.TheVariants.{Ended, Clogged, Jammed};
ghost use Rattle.kpn_history.specs.Channels.{capacity_after, capacity_or_zero};
ghost use Rattle.kpn_history.specs.Waiting.{wait_of, waits_of, HasFullCycle};
ghost use Rattle.kpn_history.specs.Legal.{waiter, OwesCycleGrowth, OwesGrowth, Legal};
ghost use Rattle.kpn_history.specs.Ends.{WaitsOnFull, IsQuiet, IsSettled, IsVerdict};
ghost use Rattle.kpn_history.specs.Stops.{OwesNothing, OwesNoCycleGrowth, OwesNoStopGrowth, lets_go_on, IsAwaitedByWriter, HasCapacityBelow, CanGrow, IsJammedAtLimit, WaitsForBlocked};

use kpn_limits::MAX_CAPACITY;

// ---- growth

/// Each capacity stays from 1 to the limit.
pub fn capacities_stay_within_the_limit()
    ensures { (t : Tables) → IsNetwork t → (H : List Event) → Legal t H → (c cap : ℕ)
        → c < length t.channels
        → capacity_after t H c ≡ Some cap → (0 < cap) × (cap ≤ t.limit) }
{}

/// At most one growth is owed. None is owed at first. None is owed for a cycle unless the last event is a wait. None is
/// owed for a stop after an event that moves an item or lets a channel grow, or under the policy `cycles`.
pub fn one_growth_is_owed()
    ensures one { (t : Tables) → IsNetwork t → (H : List Event) → Legal t H → (p d q e : ℕ)
        → OwesGrowth t H p d → OwesGrowth t H q e → (p ≡ q) × (d ≡ e) }
    ensures none_at_first { (t : Tables) → OwesNothing t [] }
    ensures waits { (t : Tables) (B : List Event) (event : Event) → waiter event ≡ None
        → OwesNoCycleGrowth t (B ++ event ∷ []) }
    ensures stops { (t : Tables) → IsNetwork t → (B : List Event) (event : Event)
        → Legal t (B ++ event ∷ []) → lets_go_on event ≡ true
        → OwesNoStopGrowth t (B ++ event ∷ []) }
    ensures cycles { (t : Tables) (H : List Event) → t.policy ≡ Cycles → OwesNoStopGrowth t H }
{}

/// After a wait of `p` a growth is owed for a cycle if and only if the search from `p` finds a full channel, and that
/// channel is below the limit. The growth is that of this channel. Else none is owed for a cycle.
pub fn growth_is_owed_by_the_cycle()
    ensures owed { (t : Tables) (B : List Event) (event : Event) (p : ℕ) → waiter event ≡ Some p
        → (found : Found)
        → Finds t (waits_of t (B ++ event ∷ [])) (capacity_or_zero t (B ++ event ∷ [])) p found
        → (d : ℕ) → (OwesCycleGrowth t (B ++ event ∷ []) p d
        ↔ ((found ≡ Full d) × (capacity_or_zero t (B ++ event ∷ []) d < t.limit))) }
    ensures nothing { (t : Tables) (B : List Event) (event : Event) (p : ℕ) → waiter event ≡ Some p
        → (found : Found)
        → Finds t (waits_of t (B ++ event ∷ [])) (capacity_or_zero t (B ++ event ∷ [])) p found
        → (OwesNoCycleGrowth t (B ++ event ∷ [])
        ↔ ((d : ℕ) → found ≡ Full d → t.limit ≤ capacity_or_zero t (B ++ event ∷ []) d)) }
{}

/// The channel of an owed growth has a process as its writer, which waits on it as full, and a capacity below the
/// limit, so below the largest of all.
pub fn an_owed_growth_can_be_made()
    ensures awaited { (t : Tables) → IsNetwork t → (H : List Event) → Legal t H → (p d : ℕ)
        → OwesGrowth t H p d → IsAwaitedByWriter t H d }
    ensures below_limit { (t : Tables) → IsNetwork t → (H : List Event) → Legal t H → (p d : ℕ)
        → OwesGrowth t H p d → HasCapacityBelow t H t.limit d }
    ensures below_largest { (t : Tables) → IsNetwork t → (H : List Event) → Legal t H → (p d : ℕ)
        → OwesGrowth t H p d → HasCapacityBelow t H MAX_CAPACITY d }
{}

/// A legal history that owes no growth has no blocked cycle with a full channel below the limit: no
/// artificial deadlock is left in a cycle.
pub fn no_cycle_is_left_to_grow()
    ensures { (t : Tables) → IsNetwork t → (H : List Event) → Legal t H → OwesNothing t H
        → ¬ CanGrow t H }
{}

/// Under the policy `all`, if a settled legal history owes no growth, each channel on which a process waits as full is
/// at the limit.
pub fn no_wait_is_left_to_grow()
    ensures { (t : Tables) → IsNetwork t → (H : List Event) → Legal t H → OwesNothing t H
        → t.policy ≡ All → IsSettled t H → (p c : ℕ) → p < length t.instances
        → wait_of t H p ≡ FullOn c → capacity_after t H c ≡ Some t.limit }
{}

// ---- verdicts

/// A settled history has one verdict, and a history has at most one.
pub fn one_verdict()
    ensures some { (t : Tables) (H : List Event) → IsSettled t H
        → ((verdict : Verdict) × IsVerdict t H (Some verdict)) }
    ensures one { (t : Tables) (H : List Event) (verdict other : Option Verdict)
        → IsVerdict t H verdict → IsVerdict t H other → verdict ≡ other }
{}

/// If the verdict is `Ended`, the history is quiet: each process has ended or waits on an empty channel.
pub fn ended_is_quiet()
    ensures { (t : Tables) (H : List Event) → IsVerdict t H (Some Ended) → IsQuiet t H }
{}

/// If the verdict is `Jammed`, some blocked cycle has full channels, all of them at the limit.
pub fn jammed_is_at_the_limit()
    ensures { (t : Tables) → IsNetwork t → (H : List Event) → Legal t H → OwesNothing t H
        → IsVerdict t H (Some Jammed) → IsJammedAtLimit t H }
{}

/// If the verdict is `Clogged`, each process that is blocked on a full channel waits for a blocked process, and no
/// blocked cycle has a full channel. If no growth is owed, no legal event but a leave can follow.
pub fn clogged_waits_for_the_blocked()
    ensures waits { (t : Tables) → IsNetwork t → (H : List Event) → Legal t H
        → IsVerdict t H (Some Clogged)
        → (p : ℕ) → WaitsOnFull t H p → WaitsForBlocked t H p }
    ensures no_cycle { (t : Tables) (H : List Event) → IsVerdict t H (Some Clogged)
        → ¬ HasFullCycle t H }
    ensures last { (t : Tables) (H : List Event) → OwesNothing t H → IsVerdict t H (Some Clogged)
        → (event : Event) → Legal t (H ++ event ∷ []) → ((c : ℕ) × (event ≡ Leave c)) }
{}

/// After a settled history that owes no growth, no legal event but a leave can follow.
pub fn a_stop_is_final()
    ensures { (t : Tables) (H : List Event) → IsSettled t H → OwesNothing t H
        → (event : Event) → Legal t (H ++ event ∷ []) → ((c : ℕ) × (event ≡ Leave c)) }
{}
