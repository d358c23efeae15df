//! What holds of a book with a batch, as the contract of a function that does nothing. The layers above cite it.
ghost use Rattle.std.specs.Prelude.{◌≡◌, ◌+◌, ◌<◌, ◌^◌, length};
ghost use Rattle.kpn_history.specs.Talks.{process_events};
ghost use Rattle.kpn_machine.specs.Machine.{Machine};
ghost use Rattle.kpn_region.specs.Batch.{Batch, IsBatch};
ghost use Rattle.kpn_region.specs.Joining.{AgreesWith, Joins};
ghost use Rattle.kpn_book.specs.Book.{Book};
ghost use Rattle.kpn_book.specs.Kept.{IsKept, IsBook};
ghost use Rattle.kpn_book.specs.BatchCommits.{with_batch};

use kpn_region::laws::a_batch_follows;

/// Take a batch that agrees with a book. With its events, if the commits can be counted then, the history of the book
/// leads to its machine, the schedule agrees with that, and no growth is owed.
pub fn a_book_with_a_batch()
    ensures { (b : Batch) → IsBatch b → (book : Book) → IsBook book → b.tables ≡ book.tables
        → AgreesWith b book.machine → (s : Machine) → Joins b book.machine s
        → book.commits + process_events b.events + length book.tables.instances < 2 ^ 64
        → IsKept (with_batch b s book) }
{
    a_batch_follows();
}
