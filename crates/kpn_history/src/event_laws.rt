//! What one more event does to a history, by cases of the event, as contracts of functions that do nothing. The layers
//! above compute with them.
ghost use Rattle.std.specs.Prelude.{◌≡◌, ◌↔◌, ℕ, ◌+◌, true, not, ◌&&◌, ◌||◌, if◌then◌else◌, List, [], ◌∷◌, ◌++◌, Some, slice_get, Contains};
ghost use Rattle.kpn_net.specs.Tables.{Tables};
ghost use Rattle.kpn_history.specs.declared.event.How.{How};
ghost use Rattle.kpn_history.specs.declared.event.Event.{Event};
ghost use Rattle.kpn_history.specs.declared.event.Event.TheVariants.{Ended};
ghost use Rattle.kpn_history.specs.Talks.{is_of, is_of_process, process_events, said_in, talk_of, is_end_of, has_ended};
ghost use Rattle.kpn_history.specs.Channels.{written_in, read_in, written_on, read_on, is_close_of, is_closed, is_leave_of, is_left, reader_lives, capacity_after};
ghost use Rattle.kpn_history.specs.AfterEvent.{capacity_then, takes_reader};
ghost use Rattle.kpn_history.specs.Legal.{Legal};

/// The journal of a channel, what was read from it, and what a process said, after one more event.
pub fn lists_after_one_event()
    ensures written { (B : List Event) (event : Event) (c : ℕ)
        → written_on (B ++ event ∷ []) c ≡ written_on B c ++ written_in c event }
    ensures read { (B : List Event) (event : Event) (c : ℕ)
        → read_on (B ++ event ∷ []) c ≡ read_on B c ++ read_in c event }
    ensures said { (B : List Event) (event : Event) (p : ℕ)
        → talk_of (B ++ event ∷ []) p ≡ talk_of B p ++ said_in p event }
{}

/// Which sources are closed and which sinks left, which processes have ended and which readers live, and the
/// capacities, after one more event.
pub fn marks_after_one_event()
    ensures closed { (B : List Event) (event : Event) (c : ℕ)
        → is_closed (B ++ event ∷ []) c ≡ (is_closed B c || is_close_of c event) }
    ensures left { (B : List Event) (event : Event) (c : ℕ)
        → is_left (B ++ event ∷ []) c ≡ (is_left B c || is_leave_of c event) }
    ensures ended { (B : List Event) (event : Event) (p : ℕ)
        → has_ended (B ++ event ∷ []) p ≡ (has_ended B p || is_end_of p event) }
    ensures lives { (t : Tables) (B : List Event) (event : Event) (c : ℕ)
        → reader_lives t (B ++ event ∷ []) c
        ≡ (reader_lives t B c && not (takes_reader t c event)) }
    ensures capacity { (t : Tables) (B : List Event) (event : Event) (c : ℕ)
        → capacity_after t (B ++ event ∷ []) c ≡ capacity_then t c event (capacity_after t B c) }
{}

/// How many events of processes there are after one more event, and which events these are.
pub fn events_of_processes()
    ensures none { process_events [] ≡ 0 }
    ensures one_more { (B : List Event) (event : Event)
        → process_events (B ++ event ∷ [])
        ≡ process_events B + (if is_of_process event then 1 else 0) }
    ensures process { (event : Event) → (is_of_process event ≡ true)
        ↔ ((p : ℕ) × (is_of p event ≡ true)) }
{}

/// A process has ended if and only if an end of it is among the events. In a legal history it ends once, in one way.
pub fn a_process_ends_once()
    ensures among { (H : List Event) (p : ℕ)
        → ((has_ended H p ≡ true) ↔ ((how : How) × Contains H (Ended p how))) }
    ensures once { (t : Tables) (H : List Event) → Legal t H → (p i j : ℕ) (how other : How)
        → slice_get H i ≡ Some (Ended p how) → slice_get H j ≡ Some (Ended p other) → i ≡ j }
    ensures one_way { (t : Tables) (H : List Event) → Legal t H → (p : ℕ) (how other : How)
        → Contains H (Ended p how) → Contains H (Ended p other) → how ≡ other }
{}
