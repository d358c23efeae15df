//! What follows from the clauses of `stream`, as contracts of functions that do nothing: from the answers of the
//! devices to the lists of the sources and sinks, and to Kahn's least solution. The layers above cite them.
ghost use Rattle.std.specs.Prelude.{◌≡◌, ℕ, ◌≤◌, true, false, ℤ, List, [], ◌∷◌, ◌++◌, length, Option, Some};
ghost use Rattle.kpn_lang.specs.Prefix.{IsPrefix};
ghost use Rattle.kpn_net.specs.Tables.{Tables, channel_at, is_source, is_sink};
ghost use Rattle.kpn_net.specs.Faults.{IsNetwork};
ghost use Rattle.kpn_net.specs.Process.{Family};
ghost use Rattle.kpn_net.specs.Iteration.{IsBelowLeast, IsLeast};
ghost use Rattle.kpn_history.specs.declared.event.Event.{Event};
ghost use Rattle.kpn_history.specs.declared.event.Event.TheVariants as event;
ghost use Rattle.kpn_history.specs.Channels.{read_on, is_left};
ghost use Rattle.kpn_history.specs.Legal.{Legal};
ghost use Rattle.kpn_history.specs.Complete.{IsComplete, IsFedFrom};
ghost use Rattle.kpn_book.specs.declared.outcome.Limits.{Limits};
ghost use Rattle.kpn_book.specs.declared.outcome.Outcome.TheVariants.{Enough};
ghost use Rattle.kpn_book.specs.Outcomes.{IsOutcome};
ghost use Rattle.kpn_stream.specs.declared.faults.SourceFault.{SourceFault};
ghost use Rattle.kpn_stream.specs.declared.faults.SinkFault.{SinkFault};
ghost use Rattle.kpn_stream.specs.Devices.{MayRead, MayReadItem, Fed, Served};
ghost use Rattle.kpn_stream.specs.Ending.{IsSinkTaken};
ghost use Rattle.kpn_stream.specs.Lists.{WasGiven, GivesList, GiveInTurn, WasTaken};

use crate::devices::{Sinks, Sources};

// ---- the sources

/// Nobody reads ahead of need: whenever a source was fed, its device might be asked, or might be asked fewer than 64
/// items before, and nothing else has happened since. Whenever a source was closed, its device might be asked.
pub fn no_read_ahead<S: Sources>()
    ensures fed { (t : Tables) (H : List Event) (first now : S)
        (failed : Option (ℕ × SourceFault)) → Fed t S.gives S.looks first H failed now
        → (B : List Event) (c : ℕ) (v : ℤ) → IsPrefix (B ++ event.Feed c v ∷ []) H
        → MayReadItem t B c }
    ensures closed { (t : Tables) (H : List Event) (first now : S)
        (failed : Option (ℕ × SourceFault)) → Fed t S.gives S.looks first H failed now
        → (B : List Event) (c : ℕ) → IsPrefix (B ++ event.Close c ∷ []) H → MayRead t B c }
{}

/// Each source was fed exactly what its device gave, in order, and is closed if and only if the device told the end. If
/// memory ran out before the last answer of a device could be fed, that answer alone is missing.
pub fn what_was_given<S: Sources>()
    ensures { (t : Tables) → IsNetwork t → (H : List Event) → Legal t H → (first now : S)
        (failed : Option (ℕ × SourceFault)) → Fed t S.gives S.looks first H failed now
        → (c : ℕ) → is_source (channel_at t c) ≡ true
        → WasGiven S.gives S.looks first c H failed now }
{}

/// If the devices give lists, a stream is fed from these: what each source was fed begins its list, and is all of it
/// once the source is closed.
pub fn fed_from_lists<S: Sources>()
    ensures { (t : Tables) → IsNetwork t → (H : List Event) → Legal t H → (first now : S)
        (failed : Option (ℕ × SourceFault)) → Fed t S.gives S.looks first H failed now → (given : Family)
        → ((c : ℕ) → is_source (channel_at t c) ≡ true → GivesList S.gives S.looks first c (given c))
        → IsFedFrom t H given }
{}

/// Devices of which each call shows what they still give, give lists.
pub fn what_is_ahead<S: Sources>()
    ensures { (ahead : S → ℕ → List ℤ) → GiveInTurn S.gives S.looks ahead → (first : S) (c : ℕ)
        → GivesList S.gives S.looks first c (ahead first c) }
{}

// ---- the sinks

/// The device of each sink took exactly what was taken from the sink, in order. If memory ran out before the last item
/// that a device took could be taken, that item alone is missing.
pub fn what_was_taken<K: Sinks>()
    ensures { (t : Tables) → IsNetwork t → (H : List Event) → Legal t H
        → (wanted : Option ℕ) (first now : K) (failed : Option (ℕ × SinkFault))
        → Served K.takes K.flushes wanted first H failed now
        → (c : ℕ) → is_sink (channel_at t c) ≡ true
        → WasTaken K.takes K.flushes first c H failed now }
{}

/// No more items are taken from a sink than are wanted. If the outcome is enough, exactly that many from each.
pub fn no_more_than_wanted<K: Sinks>()
    ensures most { (t : Tables) → IsNetwork t → (H : List Event) → Legal t H
        → (items : ℕ) (first now : K) (failed : Option (ℕ × SinkFault))
        → Served K.takes K.flushes (Some items) first H failed now
        → (c : ℕ) → is_sink (channel_at t c) ≡ true → length (read_on H c) ≤ items }
    ensures enough { (t : Tables) → IsNetwork t → (H : List Event) → Legal t H
        → (items : ℕ) (first now : K) (failed : Option (ℕ × SinkFault))
        → Served K.takes K.flushes (Some items) first H failed now
        → (commits : ℕ) (limits : Limits) → limits.take ≡ Some items
        → IsOutcome t H commits limits (Some Enough)
        → (c : ℕ) → is_sink (channel_at t c) ≡ true → length (read_on H c) ≡ items }
{}

// ---- Kahn's theorem on streams

/// What was taken from a sink is a prefix of the least solution, for all lists from which the stream was fed: on a
/// closed source the items that it was fed, on an open one these and any others after them. So it is for the items
/// that nobody came to read. If the sink is complete, and all was taken from it, it is that least solution.
pub fn taken_is_least()
    ensures below { (t : Tables) → IsNetwork t → (H : List Event) → Legal t H
        → (given : Family) → IsFedFrom t H given
        → (c : ℕ) → IsBelowLeast t given c (read_on H c) }
    ensures whole { (t : Tables) → IsNetwork t → (H : List Event) → Legal t H
        → (given : Family) → IsFedFrom t H given
        → (c : ℕ) → IsComplete t H c → IsSinkTaken H c → is_left H c ≡ false
        → IsLeast t given c (read_on H c) }
{}
