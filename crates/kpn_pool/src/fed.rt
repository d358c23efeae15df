//! Whether the sources of a run were fed their lists and closed, and no sink left, as the end of the run shows them.
ghost use Rattle.std.specs.Prelude.{◌≡◌, length, IsTrue};
ghost use Rattle.kpn_net.specs.Iteration.{sources};
ghost use Rattle.kpn_pool.specs.Fed.{AreFedBelow, AreSourcesClosedBelow, AreSinksKeptBelow};

use kpn_book::Book;
use kpn_history::View;
use kpn_lang::Sequence;
use kpn_net::Network;

/// Whether the journal of each source is kept, and is its list.
pub(crate) fn were_fed(network: &Network, lists: &[Sequence<i64>], view: &View) -> bool
    requires lists { length lists.now ≡ sources network.now }
    requires journals { length view.now.journals ≡ length network.now.channels }
    ensures { let t = network.now in
        IsTrue result → AreFedBelow t lists.now view.now (length t.channels) }
{
    let mut source = 0;
    'channels: for c in 0..network.channels() {
        if network.is_source(c) {
            let Some(journal) = view.journal(c) else {
                return false;
            };
            if !journal.is(lists[source].as_slice()) {
                return false;
            }
            source += 1;
        }
    }
    true
}

/// Whether each source is closed.
pub(crate) fn are_closed(book: &Book<'_>) -> bool
    ensures { let t = book.now.tables in
        IsTrue result → AreSourcesClosedBelow t book.now.history (length t.channels) }
{
    'channels: for c in 0..book.network().channels() {
        if book.network().is_source(c) && !book.is_closed(c) {
            return false;
        }
    }
    true
}

/// Whether no sink is left.
pub(crate) fn are_kept(book: &Book<'_>) -> bool
    ensures { let t = book.now.tables in
        IsTrue result → AreSinksKeptBelow book.now (length t.channels) }
{
    'channels: for c in 0..book.network().channels() {
        if book.network().is_sink(c) && book.is_left(c) {
            return false;
        }
    }
    true
}
