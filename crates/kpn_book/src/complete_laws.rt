//! What holds of complete channels in every report, as contracts of functions that do nothing: a stop hides no item of
//! them, whatever the outcome, the schedule and the capacities.
ghost use Rattle.std.specs.Prelude.{◌≡◌, ℕ, ◌<◌, ℤ, List, length, Some, slice_get};
ghost use Rattle.kpn_lang.specs.Prefix.{IsPrefix};
ghost use Rattle.kpn_net.specs.Tables.{Tables};
ghost use Rattle.kpn_net.specs.Faults.{IsNetwork};
ghost use Rattle.kpn_net.specs.Iteration.{given_by, IsLeast};
ghost use Rattle.kpn_history.specs.Complete.{IsComplete};
ghost use Rattle.kpn_book.specs.declared.outcome.Limits.{Limits};
ghost use Rattle.kpn_book.specs.declared.outcome.Outcome.TheVariants.{Ended};
ghost use Rattle.kpn_book.specs.declared.report.Report.{Report};
ghost use Rattle.kpn_book.specs.Reports.{events_of, journal_of, taken_of, sink_numbers, AreSupplied, IsReport};

/// Under every outcome, the items of a complete channel are those of the least solution for the lists of the run.
pub fn complete_is_least()
    ensures { (t : Tables) → IsNetwork t → (lists : List (List ℤ)) (limits : Limits)
        (report : Report) → IsReport t lists limits report → AreSupplied t lists (events_of report)
        → (c : ℕ) → c < length t.channels → IsComplete t (events_of report) c
        → IsLeast t (given_by t lists) c (journal_of report c) }
{}

/// Under every outcome, once all items of a complete sink were taken, what was taken is the least solution there.
pub fn complete_sinks_are_least()
    ensures { (t : Tables) → IsNetwork t → (lists : List (List ℤ)) (limits : Limits)
        (report : Report) → IsReport t lists limits report → AreSupplied t lists (events_of report)
        → (sink c : ℕ) → slice_get (sink_numbers t) sink ≡ Some c → IsComplete t (events_of report) c
        → length (taken_of report sink) ≡ length (journal_of report c)
        → IsLeast t (given_by t lists) c (taken_of report sink) }
{}

/// Two reports of the same network and lists have the same items on a channel that is complete in both. On one that is
/// complete in the first, the items of the second begin those of the first.
pub fn complete_reports_agree()
    ensures same { (t : Tables) → IsNetwork t → (lists : List (List ℤ)) (limits more : Limits)
        (report other : Report) → IsReport t lists limits report → IsReport t lists more other
        → AreSupplied t lists (events_of report) → AreSupplied t lists (events_of other)
        → (c : ℕ) → c < length t.channels → IsComplete t (events_of report) c
        → IsComplete t (events_of other) c → journal_of report c ≡ journal_of other c }
    ensures begins { (t : Tables) → IsNetwork t → (lists : List (List ℤ)) (limits more : Limits)
        (report other : Report) → IsReport t lists limits report → IsReport t lists more other
        → AreSupplied t lists (events_of report)
        → (c : ℕ) → c < length t.channels → IsComplete t (events_of report) c
        → IsPrefix (journal_of other c) (journal_of report c) }
{}

/// Under `Ended` each channel is complete.
pub fn ended_is_complete()
    ensures { (t : Tables) → IsNetwork t → (lists : List (List ℤ)) (limits : Limits)
        (report : Report) → IsReport t lists limits report → AreSupplied t lists (events_of report)
        → report.outcome ≡ Ended
        → (c : ℕ) → c < length t.channels → IsComplete t (events_of report) c }
{}
