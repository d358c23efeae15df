//! What holds of rings in every legal history, as contracts of functions that do nothing.
ghost use Rattle.std.specs.Prelude.{◌≡◌, ◌↔◌, ℕ, true, false, List, ◌∷◌, ◌++◌, Contains};
ghost use Rattle.kpn_net.specs.declared.wait.Wait.{Wait};
ghost use Rattle.kpn_net.specs.Tables.{Tables};
ghost use Rattle.kpn_net.specs.Faults.{IsNetwork};
ghost use Rattle.kpn_history.specs.declared.event.Event.{Event};
ghost use Rattle.kpn_history.specs.Talks.{is_of};
ghost use Rattle.kpn_history.specs.Waiting.{waits_of};
ghost use Rattle.kpn_history.specs.Legal.{Legal};
ghost use Rattle.kpn_history.specs.Complete.{IsFinished};
ghost use Rattle.kpn_deadlock.specs.Ring.{HasRing, IsRing};
ghost use Rattle.kpn_deadlock.specs.Told.{AreRings, are_some};

/// A ring is final: however a legal history goes on, no member of a ring has an event again, and the ring stays. Each
/// member is finished, so nothing more is put on the channels that it writes.
pub fn a_ring_is_final()
    ensures silent { (t : Tables) → IsNetwork t → (H more : List Event) → Legal t (H ++ more)
        → (p : ℕ) (others : List ℕ) → IsRing t (waits_of t H) p others
        → (q : ℕ) → Contains (p ∷ others) q
        → (event : Event) → Contains more event → is_of q event ≡ false }
    ensures stays { (t : Tables) → IsNetwork t → (H more : List Event) → Legal t (H ++ more)
        → (p : ℕ) (others : List ℕ) → IsRing t (waits_of t H) p others
        → IsRing t (waits_of t (H ++ more)) p others }
    ensures finished { (t : Tables) → IsNetwork t → (H : List Event) → Legal t H
        → (p : ℕ) (others : List ℕ) → IsRing t (waits_of t H) p others
        → (q : ℕ) → Contains (p ∷ others) q → IsFinished t H q }
{}

/// Some rings are told if and only if there is a ring.
pub fn some_are_told()
    ensures { (t : Tables) (waits : List Wait) (told : List (List ℕ)) → AreRings t waits told
        → ((are_some told ≡ true) ↔ HasRing t waits) }
{}
