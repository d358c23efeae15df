//! What holds of each machine, as contracts of functions that do nothing. The layers above cite them.
ghost use Rattle.std.specs.Prelude.{◌≡◌, ◌≢◌, ◌↔◌, ◌⊎◌, ℕ, ◌<◌, ◌≤◌, true, false, ℤ, List, [], ◌∷◌, ◌++◌, length, map, Option, Some, is_some, Contains};
ghost use Rattle.std.specs.List.{filter_map};
ghost use Rattle.kpn_lang.specs.declared.talk.Said.{Said};
ghost use Rattle.kpn_lang.specs.Alone.{alone};
ghost use Rattle.kpn_net.specs.Process.{Family, at_channel};
ghost use Rattle.kpn_step.specs.Residual.{residual};
ghost use Rattle.kpn_step.specs.After.{GoesOnAs};
ghost use Rattle.kpn_history.specs.declared.state.Verdict.{Verdict};
ghost use Rattle.kpn_net.specs.declared.wait.Wait.{Wait};
ghost use Rattle.kpn_net.specs.declared.wait.Wait.TheVariants.{Nobody, Empty, Full};
ghost use Rattle.kpn_net.specs.Waits.{wait_at, AreWaits, AreDistinct, IsCycle, full_channels};
ghost use Rattle.kpn_net.specs.Iteration.{IsBelowLeast, IsLeast};
ghost use Rattle.kpn_cycle.specs.Scan.{cap_in};
ghost use Rattle.kpn_history.specs.declared.event.How.{How};
ghost use Rattle.kpn_history.specs.Channels.{read_on, fed};
ghost use Rattle.kpn_history.specs.Ends.{IsQuiet, IsSettled, IsVerdict};
ghost use Rattle.kpn_history.specs.Waking.{IsWoken, WaitsAsFullFor};
ghost use Rattle.kpn_net.specs.Tables.{Tables, instance_at, program_of};
ghost use Rattle.kpn_net.specs.Faults.{IsNetwork};
ghost use Rattle.kpn_history.specs.declared.event.Event.{Event};
ghost use Rattle.kpn_step.specs.declared.stop.Stop.{Stop};
ghost use Rattle.kpn_step.specs.declared.stop.Stop.TheVariants.{Paused};
ghost use Rattle.kpn_history.specs.Talks.{is_of, is_of_process, talk_of};
ghost use Rattle.kpn_history.specs.Legal.{HasNumbers, Legal, OwesGrowth, growth_after};
ghost use Rattle.kpn_history.specs.Stops.{OwesNothing};
ghost use Rattle.kpn_chan.specs.Channel.{unread, is_channel_full, next_item};
ghost use Rattle.kpn_machine.specs.Machine.{Machine, IsMachine, channel_in, wait_in, end_in, frame_in, capacities, IsFree};
ghost use Rattle.kpn_machine.specs.Woken.{waiting_writer, waiting_reader};
ghost use Rattle.kpn_machine.specs.Quiet.{IsQuietNow};
ghost use Rattle.kpn_machine.specs.Settled.{IsSettledNow, IsVerdictNow};
ghost use Rattle.kpn_machine.specs.Run.{IsRun};
ghost use Rattle.kpn_machine.specs.Changes.{Changes};
ghost use Rattle.kpn_machine.specs.Determined.{AreSame};
ghost use Rattle.kpn_machine.specs.Due.{Stands, ReadsFrom, WritesTo, IsDueNow};

/// If a history leads to a machine, and an event that may follow it changes this machine into another, the
/// history with the event leads to the other.
pub fn one_more_event()
    ensures { (t : Tables) → IsNetwork t → (H : List Event) (event : Event)
        → (before after : Machine) → IsRun t H before → Legal t (H ++ event ∷ [])
        → Changes t event before after → IsMachine t after → IsRun t (H ++ event ∷ []) after }
{}

/// An event leads from a machine to only one other, except for what is reserved. So a call whose contract says
/// what it changes leaves nothing else of the machine open.
pub fn an_event_leads_to_one()
    ensures { (t : Tables) (event : Event) (before after other : Machine)
        → Changes t event before after → Changes t event before other → AreSame t after other }
{}

/// After a run that owes no growth, an event may follow if and only if the machine says that it is due. For an
/// event of the caller this always holds. For one of a process, the process has to be free and at a stop that is no
/// pause. If a growth is owed, nothing else may follow.
pub fn exactly_what_is_due()
    ensures may { (t : Tables) → IsNetwork t → (H : List Event) (s : Machine) → IsRun t H s
        → OwesNothing t H → (event : Event) → HasNumbers t event → IsDueNow t s event
        → Legal t (H ++ event ∷ []) }
    ensures process { (t : Tables) → IsNetwork t → (H : List Event) (s : Machine)
        → IsRun t H s → (p : ℕ) → p < length t.instances → (stop : Stop) → Stands t s p stop
        → stop ≢ Paused → (event : Event) → is_of p event ≡ true → Legal t (H ++ event ∷ [])
        → IsDueNow t s event }
    ensures outside { (t : Tables) → IsNetwork t → (H : List Event) (s : Machine)
        → IsRun t H s → OwesNothing t H → (event : Event) → is_of_process event ≡ false
        → Legal t (H ++ event ∷ []) → IsDueNow t s event }
    ensures free { (t : Tables) → IsNetwork t → (H : List Event) (s : Machine) → IsRun t H s
        → (p : ℕ) → p < length t.instances → (event : Event) → is_of p event ≡ true
        → Legal t (H ++ event ∷ []) → IsFree s p }
    ensures growth { (t : Tables) (H : List Event) (p d : ℕ) → OwesGrowth t H p d
        → (event : Event) → Legal t (H ++ event ∷ []) → event ≡ growth_after t H p d }
{}

/// A process is at one stop, except for pauses. So what is due there is all that is due of the process.
pub fn one_stop_stands()
    ensures { (t : Tables) (s : Machine) (p : ℕ) (stop other : Stop) → Stands t s p stop
        → Stands t s p other → stop ≢ Paused → other ≢ Paused → stop ≡ other }
{}

/// A process that may go has not left its channels. A channel that it is about to read is not retired. If the channel
/// gives no item, none is unread there. So the process either gets an item or waits.
pub fn a_reader_is_there()
    ensures reader { (t : Tables) → IsNetwork t → (H : List Event) (s : Machine)
        → IsRun t H s → (p c : ℕ) → p < length t.instances → IsFree s p → ReadsFrom t s p c
        → (channel_in s c).is_retired ≡ false }
    ensures waits { (t : Tables) → IsNetwork t → (H : List Event) (s : Machine)
        → IsRun t H s → (p c : ℕ) → p < length t.instances → IsFree s p → ReadsFrom t s p c
        → is_some (next_item (channel_in s c)) ≡ false → unread (channel_in s c) ≡ [] }
{}

/// A process whose next read or write can take place waits for nobody.
pub fn who_can_go_on_is_awake()
    ensures reads { (t : Tables) → IsNetwork t → (H : List Event) (s : Machine) → IsRun t H s
        → (p c : ℕ) (item : ℤ) → p < length t.instances → ReadsFrom t s p c
        → next_item (channel_in s c) ≡ Some item → wait_in s p ≡ Nobody }
    ensures writes { (t : Tables) → IsNetwork t → (H : List Event) (s : Machine) → IsRun t H s
        → (p c : ℕ) (item : ℤ) → p < length t.instances → WritesTo t s p c item
        → is_channel_full (channel_in s c) ≡ false → wait_in s p ≡ Nobody }
{}

/// At every moment of a run the journal of a channel is what was read from it and then what is unread, and is below the
/// least solution for what was fed. If the reader is there, no more is unread than the capacity. Each capacity is from
/// 1 to the limit.
pub fn every_moment()
    ensures queued { (t : Tables) → IsNetwork t → (H : List Event) (s : Machine)
        → IsRun t H s → (c : ℕ) → c < length t.channels
        → (channel_in s c).journal ≡ read_on H c ++ unread (channel_in s c) }
    ensures within { (t : Tables) → IsNetwork t → (H : List Event) (s : Machine)
        → IsRun t H s → (c : ℕ) → c < length t.channels → (channel_in s c).is_retired ≡ false
        → (cap : ℕ) → (channel_in s c).capacity ≡ Some cap
        → length (unread (channel_in s c)) ≤ cap }
    ensures limit { (t : Tables) → IsNetwork t → (H : List Event) (s : Machine)
        → IsRun t H s → (c : ℕ) → c < length t.channels
        → (cap : ℕ) → (channel_in s c).capacity ≡ Some cap → (0 < cap) × (cap ≤ t.limit) }
    ensures below { (t : Tables) → IsNetwork t → (H : List Event) (s : Machine)
        → IsRun t H s → (c : ℕ) → c < length t.channels
        → IsBelowLeast t (fed t H) c (channel_in s c).journal }
{}

/// A moment is quiet if and only if its history is, and then each journal is the least solution for what was fed.
pub fn a_quiet_moment()
    ensures quiet { (t : Tables) → IsNetwork t → (H : List Event) (s : Machine)
        → IsRun t H s → (IsQuietNow t s ↔ IsQuiet t H) }
    ensures least { (t : Tables) → IsNetwork t → (H : List Event) (s : Machine)
        → IsRun t H s → IsQuietNow t s → (c : ℕ) → c < length t.channels
        → IsLeast t (fed t H) c (channel_in s c).journal }
{}

/// A run is settled if and only if its history is, and it has the verdict of its history.
pub fn the_verdict()
    ensures settled { (t : Tables) → IsNetwork t → (H : List Event) (s : Machine)
        → IsRun t H s → (IsSettledNow t s ↔ IsSettled t H) }
    ensures verdict { (t : Tables) → IsNetwork t → (H : List Event) (s : Machine)
        → IsRun t H s
        → (verdict : Option Verdict) → (IsVerdictNow t s verdict ↔ IsVerdict t H verdict) }
{}

/// Take lists that begin with what the process read. What the process says on them after the history, its frame says on
/// the rest of them.
pub fn frames_go_on()
    ensures { (t : Tables) → IsNetwork t → (H : List Event) (s : Machine) → IsRun t H s
        → (p : ℕ) → p < length t.instances → (X more : Family)
        → ((c : ℕ) → X c ≡ read_on H c ++ more c)
        → (said : List Said) × (map (at_channel (instance_at t p)) said ≡ talk_of H p)
        × GoesOnAs (alone (program_of t p) (instance_at t p).pars)
        (map X (instance_at t p).ins) said
        (residual (program_of t p).blocks (frame_in s p)) (map more (instance_at t p).ins) }
{}

/// If no growth is owed, no cycle of waiting processes is left to grow: each full channel of such a cycle is at the
/// limit.
pub fn no_cycle_is_left_to_grow()
    ensures { (t : Tables) → IsNetwork t → (H : List Event) (s : Machine) → IsRun t H s
        → OwesNothing t H → (p : ℕ) (others : List ℕ) (d : ℕ) → IsCycle t s.waits p others
        → Contains (full_channels s.waits (p ∷ others)) d → t.limit ≤ cap_in (capacities s) d }
{}

/// An event on a channel wakes the process that waits there. An end wakes the processes that wait on a full channel of
/// the process that ended, each once. A process that has ended waits for nobody. So after an event the other free
/// processes are those that were free before it and those that it wakes.
pub fn who_is_woken()
    ensures writer { (t : Tables) (waits : List Wait) → AreWaits t waits
        → (c q : ℕ) → ((waiting_writer t waits c ≡ Some q)
        ↔ ((q < length t.instances) × (wait_at waits q ≡ Full c))) }
    ensures reader { (t : Tables) (waits : List Wait) → AreWaits t waits
        → (c q : ℕ) → ((waiting_reader t waits c ≡ Some q)
        ↔ ((q < length t.instances) × (wait_at waits q ≡ Empty c))) }
    ensures end { (t : Tables) → IsNetwork t → (waits : List Wait) → AreWaits t waits
        → (p : ℕ) → p < length t.instances → (q : ℕ)
        → (Contains (filter_map (waiting_writer t waits) (instance_at t p).ins) q
        ↔ ((q < length t.instances) × WaitsAsFullFor t p q (wait_at waits q))) }
    ensures once { (t : Tables) → IsNetwork t → (waits : List Wait) → AreWaits t waits
        → (p : ℕ) → p < length t.instances
        → AreDistinct (filter_map (waiting_writer t waits) (instance_at t p).ins) }
    ensures ended { (t : Tables) → IsNetwork t → (H : List Event) (s : Machine) → IsRun t H s
        → (p : ℕ) → p < length t.instances → (how : How) → end_in s p ≡ Some how
        → wait_in s p ≡ Nobody }
    ensures free { (t : Tables) → IsNetwork t → (H : List Event) (event : Event)
        → (before after : Machine) → IsRun t H before → Changes t event before after
        → (q : ℕ) → q < length t.instances → is_of q event ≡ false
        → (IsFree after q ↔ (IsFree before q ⊎ IsWoken t event q (wait_in before q))) }
{}
