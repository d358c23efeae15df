//! What holds of all ticks, as contracts of functions that do nothing.
ghost use Rattle.std.specs.Prelude.{◌≡◌, ℕ, Bool, true, false, List, sum};
ghost use Rattle.kpn_net.specs.Tables.{Tables};
ghost use Rattle.kpn_net.specs.Faults.{IsNetwork};
ghost use Rattle.kpn_history.specs.declared.event.Event.{Event};
ghost use Rattle.kpn_history.specs.Talks.{talk_of};
ghost use Rattle.kpn_history.specs.Legal.{Legal};
ghost use Rattle.kpn_ticks.specs.Ticks.{clocks_after};
ghost use Rattle.kpn_ticks.specs.Chain.{shares_of};
ghost use Rattle.kpn_ticks.specs.Reordered.{AreReordered};
ghost use Rattle.kpn_ticks.specs.Schedules.{ticks_of, GrowsNothing, DifferBySchedule};

/// Ticks do not depend on the schedule. Take two legal histories in which each process gets and puts the same, and at
/// each put its channel has the same capacity. Then each get and put of a process has the same tick in both, and the
/// last tick of all is the same. Capacities are the same if no channel grows, and if none has a capacity.
pub fn schedules_change_no_tick()
    ensures ticks { (t : Tables) → IsNetwork t → (has_capacities : Bool) (H G : List Event)
        → Legal t H → Legal t G → DifferBySchedule t has_capacities H G
        → (p : ℕ) → ticks_of t has_capacities H p ≡ ticks_of t has_capacities G p }
    ensures length { (t : Tables) → IsNetwork t → (has_capacities : Bool) (H G : List Event)
        → Legal t H → Legal t G → DifferBySchedule t has_capacities H G
        → (clocks_after t has_capacities H).last ≡ (clocks_after t has_capacities G).last }
    ensures without_growth { (t : Tables) → IsNetwork t → (has_capacities : Bool) (H G : List Event)
        → Legal t H → Legal t G → ((p : ℕ) → talk_of H p ≡ talk_of G p)
        → GrowsNothing H → GrowsNothing G → DifferBySchedule t has_capacities H G }
    ensures without_capacities { (t : Tables) → IsNetwork t → (H G : List Event)
        → Legal t H → Legal t G → ((p : ℕ) → talk_of H p ≡ talk_of G p)
        → DifferBySchedule t false H G }
{}

/// Events that could come in either order have the same ticks in both, and idle events change none, also in histories
/// that are not legal.
pub fn order_changes_no_tick()
    ensures { (t : Tables) (has_capacities : Bool) (H G : List Event)
        → AreReordered t has_capacities H G
        → clocks_after t has_capacities H ≡ clocks_after t has_capacities G }
{}

/// A longest chain has a get or put for each tick: the shares of the processes sum up to the last tick.
pub fn shares_sum_up()
    ensures { (t : Tables) → IsNetwork t → (H : List Event) → Legal t H
        → sum (shares_of t H) ≡ (clocks_after t true H).last }
{}
