//! What a batch may be joined to, as the contract of a function that does nothing. The layers above cite it.
ghost use Rattle.std.specs.Prelude.{◌≡◌, List, ◌++◌};
ghost use Rattle.kpn_net.specs.Tables.{Tables};
ghost use Rattle.kpn_net.specs.Faults.{IsNetwork};
ghost use Rattle.kpn_history.specs.declared.event.Event.{Event};
ghost use Rattle.kpn_history.specs.Stops.{OwesNothing};
ghost use Rattle.kpn_machine.specs.Machine.{Machine};
ghost use Rattle.kpn_machine.specs.Run.{IsRun};
ghost use Rattle.kpn_region.specs.Batch.{Batch, IsBatch};
ghost use Rattle.kpn_region.specs.Joining.{AgreesWith, Joins};

/// After a run that owes no growth, take a batch that agrees with its machine. The history with the batch's
/// events leads to the machine with the batch, and owes no growth. So each event of the batch may follow in its
/// place.
pub fn a_batch_follows()
    ensures run { (t : Tables) → IsNetwork t → (b : Batch) → b.tables ≡ t → IsBatch b
        → (H : List Event) (before after : Machine) → IsRun t H before → OwesNothing t H
        → AgreesWith b before → Joins b before after → IsRun t (H ++ b.events) after }
    ensures nothing { (t : Tables) → IsNetwork t → (b : Batch) → b.tables ≡ t → IsBatch b
        → (H : List Event) (before : Machine) → IsRun t H before → OwesNothing t H
        → AgreesWith b before → OwesNothing t (H ++ b.events) }
{}
