//! What holds of every report, as contracts of functions that do nothing: Kahn's theorem on reports, whatever the
//! schedules of the runs and however many workers stepped the processes.
ghost use Rattle.std.specs.Prelude.{◌≡◌, ◌≢◌, ℕ, true, ◌*◌, ◌<◌, ◌≤◌, ◌⊎◌, max, ℤ, List, length, take, Option, Some};
ghost use Rattle.kpn_net.specs.declared.tables.Policy.TheVariants.{All};
ghost use Rattle.kpn_net.specs.declared.wait.Wait.TheVariants.{Full};
ghost use Rattle.kpn_lang.specs.Prefix.{IsPrefix};
ghost use Rattle.kpn_net.specs.Tables.{Tables, channel_at, is_sink};
ghost use Rattle.kpn_net.specs.Faults.{IsNetwork};
ghost use Rattle.kpn_net.specs.Iteration.{iterate, given_by, lists_of, IsBelowLeast, IsLeast};
ghost use Rattle.kpn_history.specs.declared.event.Event.{Event};
ghost use Rattle.kpn_history.specs.declared.state.Verdict.{Verdict};
ghost use Rattle.kpn_history.specs.Channels.{read_on, capacity_after};
ghost use Rattle.kpn_history.specs.Ends.{WaitsOnFull, IsQuiet};
ghost use Rattle.kpn_history.specs.Stops.{IsJammedAtLimit, WaitsForBlocked};
ghost use Rattle.kpn_history.specs.Waiting.{wait_of, HasFullCycle};
ghost use Rattle.kpn_history.specs.OneEnd.{IsRunFrom, HasMadeNoMore};
ghost use Rattle.kpn_book.specs.declared.outcome.Limits.{Limits};
ghost use Rattle.kpn_book.specs.declared.outcome.Outcome.{Outcome};
ghost use Rattle.kpn_book.specs.declared.outcome.Outcome.TheVariants.{Ended, Clogged, Jammed, Enough, Stopped};
ghost use Rattle.kpn_book.specs.declared.report.Report.{Report};
ghost use Rattle.kpn_book.specs.Outcomes.{IsEnough, IsOutcome, verdict_of};
ghost use Rattle.kpn_book.specs.Reports.{events_of, journal_of, taken_of, AreSupplied, IsReport};
ghost use Rattle.kpn_book.specs.RunHere.{IsReportHere};
ghost use Rattle.kpn_book.specs.Progress.{TakesRounds};

// ---- Kahn's theorem on reports

/// Under every outcome, each journal is a prefix of the least solution for the whole lists.
pub fn journals_are_below()
    ensures { (t : Tables) → IsNetwork t → (lists : List (List ℤ)) (limits : Limits)
        (report : Report) → IsReport t lists limits report
        → (c : ℕ) → c < length t.channels
        → IsBelowLeast t (given_by t lists) c (journal_of report c) }
{}

/// Under `Ended` the journals are the least solution for the whole lists.
pub fn ended_is_least()
    ensures { (t : Tables) → IsNetwork t → (lists : List (List ℤ)) (limits : Limits)
        (report : Report) → IsReport t lists limits report → report.outcome ≡ Ended
        → (c : ℕ) → c < length t.channels → IsLeast t (given_by t lists) c (journal_of report c) }
{}

/// Two reports of the same network and lists that have ended have equal journals, and these are one iterate of Kahn's
/// iteration.
pub fn ended_reports_agree()
    ensures journals { (t : Tables) → IsNetwork t → (lists : List (List ℤ)) (limits more : Limits)
        (report other : Report) → IsReport t lists limits report → IsReport t lists more other
        → report.outcome ≡ Ended → other.outcome ≡ Ended
        → report.view.journals ≡ other.view.journals }
    ensures iterate { (t : Tables) → IsNetwork t → (lists : List (List ℤ)) (limits more : Limits)
        (report other : Report) → IsReport t lists limits report → IsReport t lists more other
        → report.outcome ≡ Ended → other.outcome ≡ Ended
        → ((n : ℕ) × (report.view.journals ≡ lists_of t (iterate t (given_by t lists) n))
        × (other.view.journals ≡ lists_of t (iterate t (given_by t lists) n))) }
{}

/// Two reports of the same network and lists with a verdict say the same, whatever the schedules were, but for the
/// number of commits and the order of events: the same verdict, the same view and the same items taken from the sinks.
pub fn verdict_reports_agree()
    ensures { (t : Tables) → IsNetwork t → (lists : List (List ℤ)) (limits more : Limits)
        (report other : Report) → IsReport t lists limits report → IsReport t lists more other
        → (verdict another : Verdict) → verdict_of report.outcome ≡ Some verdict
        → verdict_of other.outcome ≡ Some another
        → (report.outcome ≡ other.outcome) × (report.view ≡ other.view)
        × (report.taken ≡ other.taken) }
{}

/// Two reports of the same network and lists of which as many items were wanted have the same outcome, unless the limit
/// of commits has stopped one: the same verdict, or both have enough.
pub fn outcomes_agree()
    ensures { (t : Tables) → IsNetwork t → (lists : List (List ℤ)) (limits more : Limits)
        (report other : Report) → IsReport t lists limits report → IsReport t lists more other
        → AreSupplied t lists (events_of report) → AreSupplied t lists (events_of other)
        → limits.take ≡ more.take → report.outcome ≢ Stopped → other.outcome ≢ Stopped
        → report.outcome ≡ other.outcome }
{}

/// The first items that two runs of the same network and lists have taken from a sink are the same. If both have
/// enough, by the same number of items, that many were taken from each sink, and these are the same.
pub fn first_items_agree()
    ensures first { (t : Tables) → IsNetwork t → (lists : List (List ℤ)) (limits more : Limits)
        (report other : Report) → IsReport t lists limits report → IsReport t lists more other
        → (sink items : ℕ)
        → items ≤ length (taken_of report sink) → items ≤ length (taken_of other sink)
        → take items (taken_of report sink) ≡ take items (taken_of other sink) }
    ensures enough { (t : Tables) (lists : List (List ℤ)) (limits : Limits) (report : Report)
        → IsReport t lists limits report → report.outcome ≡ Enough
        → (items : ℕ) → limits.take ≡ Some items
        → (sink : ℕ) → sink < length report.taken → items ≤ length (taken_of report sink) }
    ensures same { (t : Tables) → IsNetwork t → (lists : List (List ℤ)) (limits more : Limits)
        (report other : Report) → IsReport t lists limits report → IsReport t lists more other
        → report.outcome ≡ Enough → other.outcome ≡ Enough
        → (items : ℕ) → limits.take ≡ Some items → more.take ≡ Some items
        → (sink : ℕ) → take items (taken_of report sink) ≡ take items (taken_of other sink) }
{}

// ---- what an outcome means

/// Of a history after this many commits there is one outcome at most.
pub fn one_outcome()
    ensures { (t : Tables) (H : List Event) (commits : ℕ) (limits : Limits)
        (outcome other : Option Outcome) → IsOutcome t H commits limits outcome
        → IsOutcome t H commits limits other → outcome ≡ other }
{}

/// What each verdict means. `Ended`: the history is quiet. `Jammed`: some blocked cycle has full channels, all at the
/// limit. `Clogged`: each process that is blocked on a full channel waits for a blocked process, and no blocked cycle
/// has a full channel. Under the policy `all`, if the outcome is `Jammed` or `Clogged`, each channel on which a process
/// waits as full is at the limit.
pub fn what_an_outcome_means()
    ensures ended { (t : Tables) (lists : List (List ℤ)) (limits : Limits) (report : Report)
        → IsReport t lists limits report → report.outcome ≡ Ended → IsQuiet t (events_of report) }
    ensures jammed { (t : Tables) → IsNetwork t → (lists : List (List ℤ)) (limits : Limits)
        (report : Report) → IsReport t lists limits report → report.outcome ≡ Jammed
        → IsJammedAtLimit t (events_of report) }
    ensures clogged { (t : Tables) → IsNetwork t → (lists : List (List ℤ)) (limits : Limits)
        (report : Report) → IsReport t lists limits report → report.outcome ≡ Clogged
        → (p : ℕ) → WaitsOnFull t (events_of report) p → WaitsForBlocked t (events_of report) p }
    ensures no_cycle { (t : Tables) (lists : List (List ℤ)) (limits : Limits) (report : Report)
        → IsReport t lists limits report → report.outcome ≡ Clogged
        → ¬ HasFullCycle t (events_of report) }
    ensures at_limit { (t : Tables) → IsNetwork t → (lists : List (List ℤ)) (limits : Limits)
        (report : Report) → IsReport t lists limits report
        → (report.outcome ≡ Clogged) ⊎ (report.outcome ≡ Jammed) → t.policy ≡ All
        → (p c : ℕ) → p < length t.instances → wait_of t (events_of report) p ≡ Full c
        → capacity_after t (events_of report) c ≡ Some t.limit }
{}

// ---- on one thread

/// A run on one thread makes no more turns than its limit of commits. If it was stopped, it made exactly as many.
pub fn turns_of_a_run_here()
    ensures within { (t : Tables) (lists : List (List ℤ)) (limits : Limits) (report : Report)
        → IsReportHere t lists limits report → report.commits ≤ limits.commits }
    ensures stopped { (t : Tables) (lists : List (List ℤ)) (limits : Limits) (report : Report)
        → IsReportHere t lists limits report → report.outcome ≡ Stopped
        → report.commits ≡ limits.commits }
{}

/// What any history from the same lists makes, the run on one thread makes too, if its limit of commits allows a round
/// of the queue for each event of a process there, and for each pause before it. Unless it has enough before, it has
/// all of it: what was said and written begins the same, and what was taken from each sink. If that history has enough,
/// so has the run.
pub fn what_is_made_in_time()
    ensures made { (t : Tables) → IsNetwork t → (lists : List (List ℤ)) (limits : Limits)
        (report : Report) → IsReport t lists limits report → IsReportHere t lists limits report
        → AreSupplied t lists (events_of report) → report.outcome ≢ Enough
        → (H : List Event) → IsRunFrom t (given_by t lists) H
        → (rounds : ℕ) → TakesRounds t (max limits.quota 1) H rounds
        → rounds * length t.instances < limits.commits → HasMadeNoMore t H (events_of report) }
    ensures taken { (t : Tables) → IsNetwork t → (lists : List (List ℤ)) (limits : Limits)
        (report : Report) → IsReport t lists limits report → IsReportHere t lists limits report
        → AreSupplied t lists (events_of report) → report.outcome ≢ Enough
        → (H : List Event) → IsRunFrom t (given_by t lists) H
        → (rounds : ℕ) → TakesRounds t (max limits.quota 1) H rounds
        → rounds * length t.instances < limits.commits
        → (c : ℕ) → c < length t.channels → is_sink (channel_at t c) ≡ true
        → IsPrefix (read_on H c) (read_on (events_of report) c) }
    ensures enough { (t : Tables) → IsNetwork t → (lists : List (List ℤ)) (limits : Limits)
        (report : Report) → IsReport t lists limits report → IsReportHere t lists limits report
        → AreSupplied t lists (events_of report)
        → (H : List Event) → IsRunFrom t (given_by t lists) H → IsEnough t H limits.take
        → (rounds : ℕ) → TakesRounds t (max limits.quota 1) H rounds
        → rounds * length t.instances < limits.commits → report.outcome ≡ Enough }
{}

/// Each run on one thread takes some number of rounds, whatever the quota of steps is by which its pauses are counted.
pub fn a_run_takes_rounds()
    ensures { (t : Tables) → (lists : List (List ℤ)) (limits : Limits) (report : Report)
        → IsReportHere t lists limits report → (quota : ℕ) → 1 ≤ quota
        → ((rounds : ℕ) × TakesRounds t quota (events_of report) rounds) }
{}
