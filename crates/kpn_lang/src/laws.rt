//! What holds of every process, as contracts of functions that do nothing. The layers above cite them.
ghost use Rattle.std.specs.Prelude.{◌≡◌, ◌≢◌, ◌⊎◌, ◌↔◌, ℕ, ◌≤◌, ℤ, List, ◌++◌};
ghost use Rattle.kpn_lang.specs.declared.value.Fault.{Fault};
ghost use Rattle.kpn_lang.specs.declared.talk.Said.{Said};
ghost use Rattle.kpn_lang.specs.declared.talk.Ending.{Ending};
ghost use Rattle.kpn_lang.specs.declared.talk.Ending.TheVariants.{Done, Faulted, Starved, Cut};
ghost use Rattle.kpn_lang.specs.Parts.{Parts};
ghost use Rattle.kpn_lang.specs.Run.{Lists, list_at};
ghost use Rattle.kpn_lang.specs.Prefix.{IsPrefix, ArePrefixes};
ghost use Rattle.kpn_lang.specs.Alone.{Process, alone, CanSay, ComesTo};
ghost use Rattle.kpn_lang.specs.Laws.{Grows, EndsAlike, BeginsWithGot, IsSequential};

/// A program alone is a sequential process: with more turns and longer lists it only says more, and what it says
/// depends only on the items that it got.
pub fn alone_is_sequential()
    ensures { (parts : Parts) (pars : List ℤ) → IsSequential (alone parts pars) }
{}

/// With more turns a process says more, and a run that was not cut stays the same.
pub fn more_turns()
    ensures talk { (process : Process) → IsSequential process → (n m : ℕ) → n ≤ m
        → (lists : Lists) → IsPrefix (process n lists).talk (process m lists).talk }
    ensures same { (process : Process) → IsSequential process → (n m : ℕ) → n ≤ m
        → (lists : Lists) → (process n lists).ending ≢ Cut → process m lists ≡ process n lists }
{}

/// On longer lists a process says more. A run that was done or faulted ends alike, and as much more remains. So does a
/// run that starved, if the list of its port stayed.
pub fn longer_lists()
    ensures talk { (process : Process) → IsSequential process → (n m : ℕ) → n ≤ m
        → (lists longer : Lists) → ArePrefixes lists longer
        → IsPrefix (process n lists).talk (process m longer).talk }
    ensures done { (process : Process) → IsSequential process → (n m : ℕ) → n ≤ m
        → (more : ℕ → List ℤ) (lists longer : Lists) → Grows more lists longer
        → (process n lists).ending ≡ Done → EndsAlike more (process n lists) (process m longer) }
    ensures faulted { (process : Process) → IsSequential process → (n m : ℕ) → n ≤ m
        → (more : ℕ → List ℤ) (lists longer : Lists) → Grows more lists longer → (fault : Fault)
        → (process n lists).ending ≡ Faulted fault
        → EndsAlike more (process n lists) (process m longer) }
    ensures starved { (process : Process) → IsSequential process → (n m : ℕ) → n ≤ m
        → (more : ℕ → List ℤ) (lists longer : Lists) → Grows more lists longer → (port : ℕ)
        → list_at longer port ≡ list_at lists port
        → (process n lists).ending ≡ Starved port
        → EndsAlike more (process n lists) (process m longer) }
{}

/// A family of lists begins with another if and only if it is the other with some items after each list.
pub fn lists_that_grow()
    ensures added { (lists longer : Lists) → ArePrefixes lists longer
        → ((more : ℕ → List ℤ) × Grows more lists longer) }
    ensures prefixes { (more : ℕ → List ℤ) (lists longer : Lists) → Grows more lists longer
        → ArePrefixes lists longer }
{}

/// What a process can say. It can also say each beginning of it. It can say it on longer lists too, and on all lists
/// that begin with the items that it got; these it got from the lists. Of two things that it can say, one begins the
/// other.
pub fn can_say()
    ensures prefix { (process : Process) → IsSequential process
        → (lists : Lists) (talk longer : List Said) → IsPrefix talk longer
        → CanSay process lists longer → CanSay process lists talk }
    ensures longer { (process : Process) → IsSequential process
        → (lists longer : Lists) (talk : List Said) → ArePrefixes lists longer
        → CanSay process lists talk → CanSay process longer talk }
    ensures local { (process : Process) → IsSequential process
        → (lists others : Lists) (talk : List Said) → CanSay process lists talk
        → BeginsWithGot talk others → CanSay process others talk }
    ensures got { (process : Process) → IsSequential process
        → (lists : Lists) (talk : List Said) → CanSay process lists talk
        → BeginsWithGot talk lists }
    ensures one_talk { (process : Process) → IsSequential process
        → (lists : Lists) (talk other : List Said)
        → CanSay process lists talk → CanSay process lists other
        → (IsPrefix talk other ⊎ IsPrefix other talk) }
{}

/// A process comes to at most one end on the same lists, and its talk then is the whole of what it can say.
pub fn comes_to_one_end()
    ensures ending { (process : Process) → IsSequential process
        → (lists : Lists) (ending other : Ending) (talk said : List Said)
        → ComesTo process lists ending talk → ComesTo process lists other said → ending ≡ other }
    ensures talk { (process : Process) → IsSequential process
        → (lists : Lists) (ending other : Ending) (talk said : List Said)
        → ComesTo process lists ending talk → ComesTo process lists other said → talk ≡ said }
    ensures whole { (process : Process) → IsSequential process
        → (lists : Lists) (ending : Ending) (talk said : List Said)
        → ComesTo process lists ending talk → (CanSay process lists said ↔ IsPrefix said talk) }
{}

/// If a process came to be done or faulted, it comes to the same on longer lists. If it starved, it comes to the same
/// when only the lists of other ports are longer.
pub fn comes_to_the_same()
    ensures done { (process : Process) → IsSequential process
        → (lists longer : Lists) (talk : List Said) → ArePrefixes lists longer
        → ComesTo process lists Done talk → ComesTo process longer Done talk }
    ensures faulted { (process : Process) → IsSequential process
        → (lists longer : Lists) (fault : Fault) (talk : List Said) → ArePrefixes lists longer
        → ComesTo process lists (Faulted fault) talk → ComesTo process longer (Faulted fault) talk }
    ensures starved { (process : Process) → IsSequential process
        → (lists longer : Lists) (port : ℕ) (talk : List Said) → ArePrefixes lists longer
        → list_at longer port ≡ list_at lists port
        → ComesTo process lists (Starved port) talk → ComesTo process longer (Starved port) talk }
{}

/// What holds of beginnings of lists.
pub fn prefixes<T>()
    ensures reflexive { (xs : List T) → IsPrefix xs xs }
    ensures transitive { (xs ys zs : List T) → IsPrefix xs ys → IsPrefix ys zs → IsPrefix xs zs }
    ensures antisymmetric { (xs ys : List T) → IsPrefix xs ys → IsPrefix ys xs → xs ≡ ys }
    ensures rest { (xs ys : List T) → (IsPrefix xs ys ↔ ((rest : List T) × (xs ++ rest ≡ ys))) }
    ensures comparable { (xs ys zs : List T) → IsPrefix xs zs → IsPrefix ys zs
        → (IsPrefix xs ys ⊎ IsPrefix ys xs) }
{}
