//! What follows from the states of the processes, as contracts of functions that do nothing. The layers above cite
//! them.
ghost use Rattle.std.specs.Prelude.{◌≡◌, ◌↔◌, ◌⊎◌, ℕ, ◌<◌, true, false, List, length, slice_index_or};
ghost use Rattle.kpn_net.specs.Tables.{Tables};
ghost use Rattle.kpn_history.specs.declared.event.Event.{Event};
ghost use Rattle.kpn_history.specs.declared.state.State.{State};
ghost use Rattle.kpn_history.specs.declared.state.State.TheVariants.{Ready};
ghost use Rattle.kpn_history.specs.declared.state.View.{View};
ghost use Rattle.kpn_history.specs.Legal.{Legal};
ghost use Rattle.kpn_history.specs.Ends.{HasStopped, HaveStopped};
ghost use Rattle.kpn_history.specs.Views.{IsStateOf, is_stopped, Agrees};

use std::alloc::Allocator;

/// A process has ended or is blocked if and only if its state says that it has ended or waits. In a view that agrees
/// with the history, all have stopped if and only if all states say so, and if and only if the counts of ready and held
/// processes are 0.
pub fn stopped_processes<A: Allocator>()
    ensures one { (t : Tables) (H : List Event) (p : ℕ) (state : State) → IsStateOf t H p state
        → ((is_stopped state ≡ true) ↔ HasStopped t H p) }
    ensures all { (t : Tables) (H : List Event) (view : View A) → Agrees t H view → (HaveStopped t H
        ↔ ((p : ℕ) → p < length t.instances
        → is_stopped (slice_index_or view.states p Ready) ≡ true)) }
    ensures counted { (t : Tables) (H : List Event) (view : View A) → Agrees t H view
        → (HaveStopped t H ↔ ((view.counts.ready ≡ 0) × (view.counts.held ≡ 0))) }
{}

/// In a legal history a process has one state, except that a history does not distinguish ready from held.
pub fn a_process_has_one_state()
    ensures { (t : Tables) (H : List Event) → Legal t H → (p : ℕ) (state other : State)
        → IsStateOf t H p state → IsStateOf t H p other
        → ((state ≡ other) ⊎ ((is_stopped state ≡ false) × (is_stopped other ≡ false))) }
{}
