//! Progress: what has to come in a history so that it has made the next event of another one from the same lists. These
//! are contracts of functions that do nothing. The layers above cite them.
ghost use Rattle.std.specs.Prelude.{◌≡◌, ℕ, true, false, List, [], ◌∷◌, ◌++◌};
ghost use Rattle.kpn_net.specs.Tables.{Tables, channel_at, is_source};
ghost use Rattle.kpn_net.specs.Faults.{IsNetwork};
ghost use Rattle.kpn_net.specs.Process.{Family};
ghost use Rattle.kpn_history.specs.declared.event.Event.{Event};
ghost use Rattle.kpn_history.specs.Talks.{is_of, is_of_process};
ghost use Rattle.kpn_history.specs.Channels.{is_closed};
ghost use Rattle.kpn_history.specs.Stops.{OwesNothing};
ghost use Rattle.kpn_history.specs.OneEnd.{IsRunFrom, HasMadeNoMore};
ghost use Rattle.kpn_history.specs.Progress.{HasMade, IsCaughtUp, HasHadTurn};

/// What a history needs to make one more event of another one. For an event of a process: the process has its turn, in
/// which it makes an event or has stopped. For any other event: nothing, if no growth is owed and the outside has
/// nothing to do. So a growth comes once all those wait for which it was owed.
pub fn one_more_is_made()
    ensures turn { (t : Tables) → IsNetwork t → (given : Family) (B : List Event) (e : Event)
        → IsRunFrom t given (B ++ e ∷ []) → (G now : List Event) → IsRunFrom t given now
        → HasMade t B G → (p : ℕ) → is_of p e ≡ true → HasHadTurn t G now p
        → HasMade t (B ++ e ∷ []) now }
    ensures others { (t : Tables) → IsNetwork t → (given : Family) (B : List Event) (e : Event)
        → IsRunFrom t given (B ++ e ∷ []) → (G : List Event) → IsRunFrom t given G
        → IsCaughtUp t G → OwesNothing t G → HasMade t B G → is_of_process e ≡ false
        → HasMade t (B ++ e ∷ []) G }
{}

/// A history that has made all that another one has made has every item of it on each channel, if each of its sources
/// is closed, and each process has read as much.
pub fn what_is_made()
    ensures { (t : Tables) → IsNetwork t → (given : Family) (H G : List Event)
        → IsRunFrom t given H → IsRunFrom t given G
        → ((c : ℕ) → is_source (channel_at t c) ≡ true → is_closed G c ≡ true) → HasMade t H G
        → HasMadeNoMore t H G }
{}
