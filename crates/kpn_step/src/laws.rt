//! What holds of the frames of every process, as contracts of functions that do nothing. The layers above cite them.
ghost use Rattle.std.specs.Prelude.{◌≡◌, ◌≢◌, ◌↔◌, ℕ, ℤ, List, [], ◌∷◌, ◌++◌};
ghost use Rattle.kpn_lang.specs.declared.talk.Said.{Said};
ghost use Rattle.kpn_lang.specs.declared.talk.Said.TheVariants.{Got, Put};
ghost use Rattle.kpn_lang.specs.declared.talk.Ending.{Ending};
ghost use Rattle.kpn_lang.specs.Parts.{Parts, IsProgram};
ghost use Rattle.kpn_lang.specs.Run.{Lists};
ghost use Rattle.kpn_lang.specs.Alone.{CanSay, ComesTo, alone};
ghost use Rattle.kpn_step.specs.declared.stop.Stop.{Stop};
ghost use Rattle.kpn_step.specs.declared.stop.Stop.TheVariants.{WantRead, WantWrite, Paused};
ghost use Rattle.kpn_step.specs.Frame.{Frame, start_frame, passed};
ghost use Rattle.kpn_step.specs.Stops.{StandsAt, IsGiven, Advanced, IsAdvance};
ghost use Rattle.kpn_step.specs.After.{IsRestAfter, IsAfter, SaysNext, EndsThere};

/// The frame of a process after its talk. It is the start frame before the process said anything. An advance keeps it.
/// An item that the process is given or writes takes it on.
pub fn after_talk()
    ensures start { (parts : Parts) (pars : List ℤ) → IsProgram parts
        → IsAfter parts pars [] (start_frame parts pars) }
    ensures advance { (a : Advanced) (pars : List ℤ) (talk : List Said) → IsAdvance a
        → IsAfter a.program pars talk a.from → IsAfter a.program pars talk a.to }
    ensures got { (parts : Parts) (pars : List ℤ) (talk : List Said) (f g : Frame)
        → (port : ℕ) (v : ℤ)
        → IsAfter parts pars talk f → StandsAt parts.blocks f (WantRead port)
        → IsGiven parts.blocks f v g → IsAfter parts pars (talk ++ Got port v ∷ []) g }
    ensures put { (parts : Parts) (pars : List ℤ) (talk : List Said) (f : Frame)
        → (port : ℕ) (v : ℤ)
        → IsAfter parts pars talk f → StandsAt parts.blocks f (WantWrite port v)
        → IsAfter parts pars (talk ++ Put port v ∷ []) (passed f) }
{}

/// The stop at a frame, if it is no pause, decides what the process says next and how it ends. At a read that is the
/// first item that remains at the port, or the process starves. At a write it is the item. Else it says nothing more.
pub fn says_what_stands()
    ensures talk { (parts : Parts) (pars : List ℤ) (talk : List Said) (f : Frame)
        → (lists rest : Lists) → IsAfter parts pars talk f → IsRestAfter talk lists rest
        → CanSay (alone parts pars) lists talk }
    ensures said { (parts : Parts) (pars : List ℤ) (talk : List Said) (f : Frame) (stop : Stop)
        → (lists rest : Lists) (said : Said)
        → IsAfter parts pars talk f → StandsAt parts.blocks f stop → stop ≢ Paused
        → IsRestAfter talk lists rest
        → (CanSay (alone parts pars) lists (talk ++ said ∷ []) ↔ SaysNext stop rest said) }
    ensures ended { (parts : Parts) (pars : List ℤ) (talk : List Said) (f : Frame) (stop : Stop)
        → (lists rest : Lists) (ending : Ending)
        → IsAfter parts pars talk f → StandsAt parts.blocks f stop → stop ≢ Paused
        → IsRestAfter talk lists rest
        → (ComesTo (alone parts pars) lists ending talk ↔ EndsThere stop rest ending) }
{}
