//! What holds of every network, of its processes and of Kahn's iteration on it, as contracts of functions that do
//! nothing. The layers above cite them.
ghost use Rattle.std.specs.Prelude.{◌≡◌, ◌≢◌, ◌↔◌, ℕ, ◌<◌, ◌≤◌, ◌⊎◌, List, [], ◌∷◌, length, IsTrue, Contains};
ghost use Rattle.kpn_lang.specs.declared.talk.Said.{Said};
ghost use Rattle.kpn_lang.specs.declared.talk.Ending.{Ending};
ghost use Rattle.kpn_lang.specs.Parts.{IsProgram};
ghost use Rattle.kpn_lang.specs.Prefix.{IsPrefix};
ghost use Rattle.kpn_net.specs.declared.tables.End.TheVariants.{Process, Source, Sink};
ghost use Rattle.kpn_net.specs.Tables.{Tables, instance_at, program_of, channel_at, is_source, is_sink, capacity, larger_capacity, writers_of, readers_of, writer_of, reader_of};
ghost use Rattle.kpn_net.specs.Faults.{IsNetwork};
ghost use Rattle.kpn_net.specs.Waits.{AreDistinct};
ghost use Rattle.kpn_net.specs.Process.{Family, IsFamilyPrefix, AgreeOnIns, ProcessCanSay, ProcessComesTo};
ghost use Rattle.kpn_net.specs.Iteration.{iterate, IsPrefixOnSources, AgreeOnSources, IsClosed, IsBelowLeast, IsLeast};

use kpn_limits::{MAX_CAPACITY, MAX_LARGE_CHANNELS, MAX_LARGE_PROCESSES, MAX_PORTS, MAX_PROCESSES};

/// A network has no more programs, processes and channels than its limits allow.
pub fn networks_are_bounded()
    ensures programs { (t : Tables) → IsNetwork t → length t.programs ≤ MAX_PROCESSES }
    ensures processes { (t : Tables) → IsNetwork t → length t.instances ≤ MAX_LARGE_PROCESSES }
    ensures channels { (t : Tables) → IsNetwork t → length t.channels ≤ MAX_LARGE_CHANNELS }
{}

/// Each channel of a network has exactly one writer and exactly one reader. The caller writes the
/// sources and reads the sinks, and nothing else.
pub fn one_writer_and_one_reader()
    ensures writer { (t : Tables) → IsNetwork t → (c : ℕ) → c < length t.channels
        → writers_of t c ≡ writer_of t c ∷ [] }
    ensures reader { (t : Tables) → IsNetwork t → (c : ℕ) → c < length t.channels
        → readers_of t c ≡ reader_of t c ∷ [] }
    ensures source { (t : Tables) (c : ℕ)
        → (writer_of t c ≡ Source) ↔ IsTrue (is_source (channel_at t c)) }
    ensures sink { (t : Tables) (c : ℕ)
        → (reader_of t c ≡ Sink) ↔ IsTrue (is_sink (channel_at t c)) }
    ensures writer_is_no_sink { (t : Tables) → IsNetwork t → (c : ℕ) → c < length t.channels
        → writer_of t c ≢ Sink }
    ensures reader_is_no_source { (t : Tables) → IsNetwork t → (c : ℕ) → c < length t.channels
        → reader_of t c ≢ Source }
{}

/// The limit of a network is from 1 to `MAX_CAPACITY`, and each capacity from 1 to the limit. A capacity
/// below the limit becomes larger by a growth, and does not pass the limit.
pub fn capacities_are_in_range()
    ensures limit { (t : Tables) → IsNetwork t → (1 ≤ t.limit) × (t.limit ≤ MAX_CAPACITY) }
    ensures capacity { (t : Tables) → IsNetwork t → (c cap : ℕ) → c < length t.channels
        → capacity (channel_at t c) ≡ Some cap → (1 ≤ cap) × (cap ≤ t.limit) }
    ensures larger { (t : Tables) (cap : ℕ) → 0 < cap → cap < t.limit
        → (cap < larger_capacity t cap) × (larger_capacity t cap ≤ t.limit) }
{}

/// Each process of a network has a program, with as many ports and parameters.
pub fn instances_match_their_programs()
    ensures program { (t : Tables) → IsNetwork t → (p : ℕ) → p < length t.instances
        → IsProgram (program_of t p) }
    ensures ins { (t : Tables) → IsNetwork t → (p : ℕ) → p < length t.instances
        → length (instance_at t p).ins ≡ (program_of t p).ins }
    ensures outs { (t : Tables) → IsNetwork t → (p : ℕ) → p < length t.instances
        → length (instance_at t p).outs ≡ (program_of t p).outs }
    ensures pars { (t : Tables) → IsNetwork t → (p : ℕ) → p < length t.instances
        → length (instance_at t p).pars ≡ (program_of t p).pars }
{}

/// A process reads the channels at its in ports and writes those at its out ports, and no others. They are
/// all there.
pub fn ends_are_told_by_ports()
    ensures reads { (t : Tables) → IsNetwork t → (p c : ℕ)
        → (reader_of t c ≡ Process p) ↔ Contains (instance_at t p).ins c }
    ensures writes { (t : Tables) → IsNetwork t → (p c : ℕ)
        → (writer_of t c ≡ Process p) ↔ Contains (instance_at t p).outs c }
    ensures reader_is_there { (t : Tables) (p c : ℕ) → reader_of t c ≡ Process p
        → p < length t.instances }
    ensures writer_is_there { (t : Tables) (p c : ℕ) → writer_of t c ≡ Process p
        → p < length t.instances }
    ensures in_is_there { (t : Tables) → IsNetwork t → (p c : ℕ)
        → Contains (instance_at t p).ins c → c < length t.channels }
    ensures out_is_there { (t : Tables) → IsNetwork t → (p c : ℕ)
        → Contains (instance_at t p).outs c → c < length t.channels }
{}

/// Each in port of a process has a channel of its own, and so has each out port. There are at most
/// `MAX_PORTS` each way.
pub fn each_port_has_its_channel()
    ensures ins { (t : Tables) → IsNetwork t → (p : ℕ) → p < length t.instances
        → AreDistinct (instance_at t p).ins }
    ensures outs { (t : Tables) → IsNetwork t → (p : ℕ) → p < length t.instances
        → AreDistinct (instance_at t p).outs }
    ensures few_ins { (t : Tables) → IsNetwork t → (p : ℕ) → p < length t.instances
        → length (instance_at t p).ins ≤ MAX_PORTS }
    ensures few_outs { (t : Tables) → IsNetwork t → (p : ℕ) → p < length t.instances
        → length (instance_at t p).outs ≤ MAX_PORTS }
{}

/// What a process can say: each beginning of it, the same on longer lists, and the same on lists that agree on its own
/// in channels. Of two things that it can say on the same lists, one begins the other.
pub fn can_say()
    ensures beginning { (t : Tables) (p : ℕ) (lists : Family) (talk longer : List Said)
        → IsPrefix talk longer → ProcessCanSay t p lists longer → ProcessCanSay t p lists talk }
    ensures longer { (t : Tables) (p : ℕ) (lists longer : Family) → IsFamilyPrefix lists longer
        → (talk : List Said) → ProcessCanSay t p lists talk → ProcessCanSay t p longer talk }
    ensures own_ins { (t : Tables) (p : ℕ) (lists others : Family) → AgreeOnIns t p lists others
        → (talk : List Said) → ProcessCanSay t p lists talk → ProcessCanSay t p others talk }
    ensures one_talk { (t : Tables) (p : ℕ) (lists : Family) (talk other : List Said)
        → ProcessCanSay t p lists talk → ProcessCanSay t p lists other
        → (IsPrefix talk other ⊎ IsPrefix other talk) }
{}

/// What a process comes to depends only on the lists of its own in channels.
pub fn comes_to_by_its_ins()
    ensures { (t : Tables) (p : ℕ) (lists others : Family) → AgreeOnIns t p lists others
        → (ending : Ending) (talk : List Said)
        → ProcessComesTo t p lists ending talk → ProcessComesTo t p others ending talk }
{}

/// A greater iterate only adds items: Kahn's iteration is a chain.
pub fn iterate_grows()
    ensures { (t : Tables) (given : Family) (n m : ℕ) → n ≤ m
        → IsFamilyPrefix (iterate t given n) (iterate t given m) }
{}

/// If more is given on the sources, each iterate only adds items.
pub fn iterate_grows_with_sources()
    ensures { (t : Tables) (given more : Family) → IsPrefixOnSources t given more → (n : ℕ)
        → IsFamilyPrefix (iterate t given n) (iterate t more n) }
{}

/// Each iterate depends only on the lists that are given on the sources.
pub fn iterate_depends_on_sources()
    ensures { (t : Tables) (given other : Family) → AgreeOnSources t given other → (n c : ℕ)
        → iterate t given n c ≡ iterate t other n c }
{}

/// A family is the least solution if it is below it, has the given lists on the sources, and contains on
/// each other channel what its writer puts there on the family itself.
pub fn closed_below_is_least()
    ensures { (t : Tables) (given family : Family) → IsClosed t given family
        → ((c : ℕ) → IsBelowLeast t given c (family c)) → (c : ℕ) → IsLeast t given c (family c) }
{}
