//! What processes wait for in a legal history, and which events wake them, as contracts of functions that do nothing.
//! The layers above cite them.
ghost use Rattle.std.specs.Prelude.{◌≡◌, ◌↔◌, ℕ, ◌<◌, true, List, [], ◌∷◌, ◌++◌, length};
ghost use Rattle.kpn_net.specs.declared.wait.Wait.{Wait};
ghost use Rattle.kpn_net.specs.declared.wait.Wait.TheVariants.{Empty, Full};
ghost use Rattle.kpn_net.specs.Tables.{Tables};
ghost use Rattle.kpn_net.specs.Faults.{IsNetwork};
ghost use Rattle.kpn_net.specs.Waits.{wait_at, IsOwnWait, AreWaits};
ghost use Rattle.kpn_history.specs.declared.event.Event.{Event};
ghost use Rattle.kpn_history.specs.Waiting.{wait_of, waits_of};
ghost use Rattle.kpn_history.specs.Waking.{wakes, wait_then, IsWoken, EndsNobody, MayWaitOnEmpty, MayWaitOnFull};
ghost use Rattle.kpn_history.specs.Legal.{Legal};

/// Each process waits on a channel of its own: as empty on one that it reads and that is empty, as full on one that it
/// writes and that is full. So the searches for cycles accept the wait table of a legal history.
pub fn waits_are_own()
    ensures table { (t : Tables) → IsNetwork t → (H : List Event) → Legal t H
        → AreWaits t (waits_of t H) }
    ensures entry { (t : Tables) (H : List Event) (p : ℕ) → p < length t.instances
        → wait_at (waits_of t H) p ≡ wait_of t H p }
    ensures empty { (t : Tables) → IsNetwork t → (H : List Event) → Legal t H → (p c : ℕ)
        → wait_of t H p ≡ Empty c → MayWaitOnEmpty t H p c }
    ensures full { (t : Tables) → IsNetwork t → (H : List Event) → Legal t H → (p c : ℕ)
        → wait_of t H p ≡ Full c → MayWaitOnFull t H p c }
{}

/// What each process waits for after one more event depends only on the event and on what it waited for before. After
/// an event of its own it is what this made it wait on, nobody if the event wakes it, else the same.
pub fn events_wake_waits()
    ensures { (t : Tables) → IsNetwork t → (B : List Event) (event : Event)
        → Legal t (B ++ event ∷ [])
        → (p : ℕ) → wait_of t (B ++ event ∷ []) p ≡ wait_then t event p (wait_of t B p) }
{}

/// Which processes an event wakes, of those that wait on channels of their own. Every event but the end of a process
/// wakes one at most.
pub fn who_is_woken()
    ensures exact { (t : Tables) (event : Event) (p : ℕ) (wait : Wait) → IsOwnWait t p wait
        → ((wakes t event wait ≡ true) ↔ IsWoken t event p wait) }
    ensures one { (t : Tables) (event : Event) → EndsNobody event → (p q : ℕ) (wait other : Wait)
        → IsOwnWait t p wait → IsOwnWait t q other
        → wakes t event wait ≡ true → wakes t event other ≡ true → p ≡ q }
{}
