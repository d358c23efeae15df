//! Legal histories made event by event, and Kahn's theorem over all of them, as contracts of functions that do nothing.
//! The layers above cite them.
ghost use Rattle.std.specs.Prelude.{◌≡◌, ◌↔◌, ◌⊎◌, ℕ, ◌≤◌, true, List, [], ◌∷◌, ◌++◌, length, take};
ghost use Rattle.kpn_lang.specs.Prefix.{IsPrefix};
ghost use Rattle.kpn_lang.specs.Alone.{got_at, put_at};
ghost use Rattle.kpn_net.specs.declared.tables.End.TheVariants.{Process};
ghost use Rattle.kpn_net.specs.declared.wait.Wait.TheVariants.{Nobody};
ghost use Rattle.kpn_net.specs.Tables.{Tables, writer_of, reader_of};
ghost use Rattle.kpn_net.specs.Faults.{IsNetwork};
ghost use Rattle.kpn_net.specs.Process.{Family, IsFamilyPrefix};
ghost use Rattle.kpn_net.specs.Iteration.{iterate, IsPrefixOnSources, AgreeOnSources, IsBelowLeast, IsLeast};
ghost use Rattle.kpn_history.specs.declared.event.Event.{Event};
ghost use Rattle.kpn_history.specs.Talks.{talk_of, has_ended};
ghost use Rattle.kpn_history.specs.Channels.{written_on, read_on, unread_on, fed};
ghost use Rattle.kpn_history.specs.Legal.{IsConsistent, MayFollow, Legal};
ghost use Rattle.kpn_history.specs.OneMore.{KeepsConsistent, IsOwn};
ghost use Rattle.kpn_history.specs.Waiting.{wait_of};
ghost use Rattle.kpn_history.specs.WaitsAfter.{wait_after};
ghost use Rattle.kpn_history.specs.Ends.{IsQuiet};

// ---- legal histories

/// The empty history is legal, and so is each beginning of a legal one.
pub fn beginnings_are_legal()
    ensures empty { (t : Tables) → Legal t [] }
    ensures prefix { (t : Tables) (B H : List Event) → IsPrefix B H → Legal t H → Legal t B }
{}

/// A history with one more event is legal if and only if the history before it is, the event may follow, and it keeps
/// the history consistent. Instead of the last, it is enough that the history with the event is consistent.
pub fn one_more_event()
    ensures exact { (t : Tables) (B : List Event) (event : Event)
        → (Legal t (B ++ event ∷ [])
        ↔ (Legal t B × MayFollow t B event × KeepsConsistent t B event)) }
    ensures consistent { (t : Tables) (B : List Event) (event : Event)
        → Legal t B → MayFollow t B event → IsConsistent t (B ++ event ∷ [])
        → Legal t (B ++ event ∷ []) }
{}

/// The channel of each event belongs to whatever made the event.
pub fn channels_belong_to_events()
    ensures { (t : Tables) → IsNetwork t → (B : List Event) (event : Event)
        → Legal t (B ++ event ∷ []) → IsOwn t event }
{}

/// The journal of a channel is what its writer put there, and what was read is what its reader got. The journal is what
/// was read and then what is unread.
pub fn journals_are_talks()
    ensures written { (t : Tables) → IsNetwork t → (H : List Event) → Legal t H → (c p : ℕ)
        → writer_of t c ≡ Process p → written_on H c ≡ put_at (talk_of H p) c }
    ensures read { (t : Tables) → IsNetwork t → (H : List Event) → Legal t H → (c p : ℕ)
        → reader_of t c ≡ Process p → read_on H c ≡ got_at (talk_of H p) c }
    ensures in_order { (t : Tables) (H : List Event) → Legal t H
        → IsFamilyPrefix (read_on H) (written_on H) }
    ensures queued { (t : Tables) (H : List Event) → Legal t H
        → (c : ℕ) → read_on H c ++ unread_on H c ≡ written_on H c }
{}

/// What each process is blocked on after one more event. After an event of its own that is what this event made it wait
/// on, and after an event of others what is left of its wait. A process that has ended is not blocked.
pub fn waits_after_one_event()
    ensures ended { (t : Tables) → IsNetwork t → (p : ℕ) (H : List Event) → Legal t H
        → has_ended H p ≡ true → wait_of t H p ≡ Nobody }
    ensures one_more { (t : Tables) → IsNetwork t → (B : List Event) (event : Event)
        → Legal t (B ++ event ∷ [])
        → (p : ℕ) → wait_of t (B ++ event ∷ []) p ≡ wait_after t B event p (wait_of t B p) }
{}

// ---- Kahn's theorem

/// In every legal history each journal is a prefix of the least solution for what was fed. It is also one for all lists
/// that begin with what was fed.
pub fn journals_are_below()
    ensures fed { (t : Tables) → IsNetwork t → (H : List Event) → Legal t H
        → (c : ℕ) → IsBelowLeast t (fed t H) c (written_on H c) }
    ensures given { (t : Tables) → IsNetwork t → (H : List Event) → Legal t H
        → (given : Family) → IsPrefixOnSources t (fed t H) given
        → (c : ℕ) → IsBelowLeast t given c (written_on H c) }
{}

/// Take two legal histories that are fed from the same lists, whatever their schedules. One journal of each channel
/// begins the other, and the first items read from the channel are the same.
pub fn schedules_agree()
    ensures journals { (t : Tables) → IsNetwork t → (G H : List Event) → Legal t G → Legal t H
        → (given : Family) → IsPrefixOnSources t (fed t G) given
        → IsPrefixOnSources t (fed t H) given
        → (c : ℕ) → (IsPrefix (written_on G c) (written_on H c)
        ⊎ IsPrefix (written_on H c) (written_on G c)) }
    ensures first_items { (t : Tables) → IsNetwork t → (G H : List Event) → Legal t G → Legal t H
        → (given : Family) → IsPrefixOnSources t (fed t G) given
        → IsPrefixOnSources t (fed t H) given
        → (c k : ℕ) → k ≤ length (read_on G c) → k ≤ length (read_on H c)
        → take k (read_on G c) ≡ take k (read_on H c) }
{}

/// The journals of a quiet legal history are the least solution for what was fed.
pub fn quiet_is_least()
    ensures fed { (t : Tables) → IsNetwork t → (H : List Event) → Legal t H → IsQuiet t H
        → (c : ℕ) → IsLeast t (fed t H) c (written_on H c) }
    ensures given { (t : Tables) → IsNetwork t → (H : List Event) → Legal t H → IsQuiet t H
        → (given : Family) → AgreeOnSources t (fed t H) given
        → (c : ℕ) → IsLeast t given c (written_on H c) }
{}

/// Two quiet legal histories that were fed the same have equal journals, and these are one iterate of Kahn's
/// iteration.
pub fn quiet_histories_agree()
    ensures journals { (t : Tables) → IsNetwork t → (G H : List Event) → Legal t G → Legal t H
        → IsQuiet t G → IsQuiet t H → AgreeOnSources t (fed t G) (fed t H)
        → (c : ℕ) → written_on G c ≡ written_on H c }
    ensures iterate { (t : Tables) → IsNetwork t → (G H : List Event) → Legal t G → Legal t H
        → IsQuiet t G → IsQuiet t H
        → (given : Family) → AgreeOnSources t (fed t G) given → AgreeOnSources t (fed t H) given
        → ((n : ℕ) × ((c : ℕ)
        → (written_on G c ≡ iterate t given n c) × (written_on H c ≡ iterate t given n c))) }
{}
