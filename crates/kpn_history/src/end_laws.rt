//! One end: a final run has made all that any other run from the same lists makes, so all final runs end alike. These
//! are contracts of functions that do nothing. The layers above cite them.
ghost use Rattle.std.specs.Prelude.{◌≡◌, ◌↔◌, ℕ, false, List, Some};
ghost use Rattle.kpn_net.specs.Tables.{Tables};
ghost use Rattle.kpn_net.specs.Faults.{IsNetwork};
ghost use Rattle.kpn_net.specs.Process.{Family};
ghost use Rattle.kpn_history.specs.declared.event.Event.{Event};
ghost use Rattle.kpn_history.specs.declared.state.Verdict.{Verdict};
ghost use Rattle.kpn_history.specs.declared.state.View.{View};
ghost use Rattle.kpn_history.specs.Channels.{is_left, capacity_after};
ghost use Rattle.kpn_history.specs.Ends.{IsVerdict};
ghost use Rattle.kpn_history.specs.Complete.{IsComplete};
ghost use Rattle.kpn_history.specs.Views.{Agrees};
ghost use Rattle.kpn_history.specs.OneEnd.{IsRunFrom, IsFinalRun, HasMadeNoMore, EndAlike};

use std::alloc::Allocator;

/// No run from the same lists makes more than a final one: not in what its processes say, nor on any channel, nor by
/// growths. That holds whatever the schedules are, whenever the caller feeds, closes, takes and leaves, and under each
/// policy and growth.
pub fn no_run_makes_more()
    ensures { (t : Tables) → IsNetwork t → (given : Family) (H G : List Event)
        → IsRunFrom t given H → IsFinalRun t given G → HasMadeNoMore t H G }
{}

/// Two final runs from the same lists end alike. They have the same verdict and the same complete channels. Channels
/// that have grown as often have the same capacity.
pub fn one_end()
    ensures alike { (t : Tables) → IsNetwork t → (given : Family) (H G : List Event)
        → IsFinalRun t given H → IsFinalRun t given G → EndAlike t H G }
    ensures verdict { (t : Tables) → IsNetwork t → (given : Family) (H G : List Event)
        → IsFinalRun t given H → IsFinalRun t given G → (verdict : Verdict)
        → (IsVerdict t H (Some verdict) ↔ IsVerdict t G (Some verdict)) }
    ensures complete { (t : Tables) → IsNetwork t → (given : Family) (H G : List Event)
        → IsFinalRun t given H → IsFinalRun t given G → (c : ℕ) → (IsComplete t H c ↔ IsComplete t G c) }
    ensures capacities { (t : Tables) (H G : List Event) → EndAlike t H G
        → (c : ℕ) → capacity_after t H c ≡ capacity_after t G c }
{}

/// The views of two final runs from the same lists have the same journals, capacities, states and counts. If no sink
/// was left, they are the same.
pub fn final_views_agree<A: Allocator>()
    ensures alike { (t : Tables) → IsNetwork t → (given : Family) (H G : List Event)
        → IsFinalRun t given H → IsFinalRun t given G
        → (view other : View A) → Agrees t H view → Agrees t G other
        → (view.journals ≡ other.journals) × (view.caps ≡ other.caps)
        × (view.states ≡ other.states) × (view.counts ≡ other.counts) }
    ensures same { (t : Tables) → IsNetwork t → (given : Family) (H G : List Event)
        → IsFinalRun t given H → IsFinalRun t given G
        → ((c : ℕ) → is_left H c ≡ false) → ((c : ℕ) → is_left G c ≡ false)
        → (view other : View A) → Agrees t H view → Agrees t G other → view ≡ other }
{}
