//! What holds of complete channels in every legal history, as contracts of functions that do nothing. The layers above
//! cite them.
ghost use Rattle.std.specs.Prelude.{◌≡◌, ◌↔◌, ◌⊎◌, ℕ, ◌<◌, true, List, ◌++◌, length};
ghost use Rattle.kpn_lang.specs.Prefix.{IsPrefix};
ghost use Rattle.kpn_net.specs.Tables.{Tables, channel_at, is_source};
ghost use Rattle.kpn_net.specs.Faults.{IsNetwork};
ghost use Rattle.kpn_net.specs.Process.{Family};
ghost use Rattle.kpn_net.specs.Iteration.{IsPrefixOnSources, IsLeast};
ghost use Rattle.kpn_history.specs.declared.event.Event.{Event};
ghost use Rattle.kpn_history.specs.Talks.{has_ended};
ghost use Rattle.kpn_history.specs.Channels.{written_on, fed, is_closed};
ghost use Rattle.kpn_history.specs.Legal.{Legal};
ghost use Rattle.kpn_history.specs.Ends.{IsQuiet};
ghost use Rattle.kpn_history.specs.Complete.{IsFinished, IsComplete, WaitsOnComplete, IsFedFrom};

/// A process is finished if and only if it has ended or waits on an empty channel that is complete.
pub fn who_is_finished()
    ensures { (t : Tables) (H : List Event) (p : ℕ) → (IsFinished t H p
        ↔ ((has_ended H p ≡ true) ⊎ WaitsOnComplete t H p)) }
{}

/// The journal of a complete channel is the least solution there, for all lists from which the sources were fed:
/// on a closed source the items that it was fed, on an open one these and any others after them. Capacities play no
/// part.
pub fn complete_is_least()
    ensures { (t : Tables) → IsNetwork t → (H : List Event) → Legal t H
        → (given : Family) → IsFedFrom t H given
        → (c : ℕ) → IsComplete t H c → IsLeast t given c (written_on H c) }
{}

/// However a legal history goes on, nothing more is put on a complete channel, and the channel stays complete.
pub fn complete_stays()
    ensures nothing_more { (t : Tables) → IsNetwork t → (H more : List Event) → Legal t (H ++ more)
        → (c : ℕ) → IsComplete t H c → written_on (H ++ more) c ≡ written_on H c }
    ensures complete { (t : Tables) → IsNetwork t → (H more : List Event) → Legal t (H ++ more)
        → (c : ℕ) → IsComplete t H c → IsComplete t (H ++ more) c }
{}

/// In a quiet history with closed sources each process is finished. If each process is finished, all journals are the
/// least solution for what was fed.
pub fn quiet_is_finished()
    ensures finished { (t : Tables) → IsNetwork t → (H : List Event) → Legal t H → IsQuiet t H
        → ((c : ℕ) → is_source (channel_at t c) ≡ true → is_closed H c ≡ true)
        → (p : ℕ) → p < length t.instances → IsFinished t H p }
    ensures least { (t : Tables) → IsNetwork t → (H : List Event) → Legal t H
        → ((p : ℕ) → p < length t.instances → IsFinished t H p)
        → (c : ℕ) → IsLeast t (fed t H) c (written_on H c) }
{}

/// Take two legal histories that are fed from the same lists, whatever their schedules and capacities. A channel that
/// is complete in both has the same journal in both. One that is complete in the first begins with what the second has
/// there.
pub fn complete_channels_agree()
    ensures same { (t : Tables) → IsNetwork t → (G H : List Event) → Legal t G → Legal t H
        → (given : Family) → IsFedFrom t G given → IsFedFrom t H given
        → (c : ℕ) → IsComplete t G c → IsComplete t H c → written_on G c ≡ written_on H c }
    ensures begins { (t : Tables) → IsNetwork t → (G H : List Event) → Legal t G → Legal t H
        → (given : Family) → IsFedFrom t G given → IsPrefixOnSources t (fed t H) given
        → (c : ℕ) → IsComplete t G c → IsPrefix (written_on H c) (written_on G c) }
{}
