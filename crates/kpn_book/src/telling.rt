//! How a report is made from a book.
ghost use Rattle.std.specs.Prelude.{◌≡◌, ℕ, ◌+◌, ◌<◌, List, length, IfOk};
ghost use Rattle.kpn_history.specs.declared.event.Event.{Event};
ghost use Rattle.kpn_history.specs.Legal.{Legal};
ghost use Rattle.kpn_history.specs.Views.{Agrees};
ghost use Rattle.kpn_book.specs.Reports.{read_of_sinks, IsWrittenFrom};
ghost use Rattle.kpn_book.specs.Running.{ReadsWithin, first_read};

use crate::outcome::Outcome;
use crate::report::Report;
use crate::{Book, Unread};
use kpn_history::View;
use kpn_lang::Sequence;
use kpn_net::Network;
use std::alloc::Global;

/// The report of a run that has come to this outcome. The error is that memory ran out, or that the book does not keep
/// the items of the sinks.
pub fn report_of(alloc: Global, book: Book<'_>, outcome: Outcome) -> Result<Report, Unread>
    ensures { IfOk result (λ report. IsWrittenFrom book.entry outcome report) }
{
    book.known();
    let network = book.network();
    let commits = book.commits();
    let (view, history) = book.into_view(alloc)?;
    let taken = read_of_sinks(alloc, network, &view)?;
    Ok(Report {
        outcome,
        view,
        taken,
        commits,
        history,
    })
}

/// The items that were read of each sink, in order of channel number.
fn read_of_sinks(
    alloc: Global,
    network: &Network,
    view: &View,
) -> Result<Sequence<Sequence<i64>>, Unread>
    requires { (H : List Event) × Legal network.now H × Agrees network.now H view.now }
    ensures { (H : List Event) → Legal network.now H → Agrees network.now H view.now
        → IfOk result (λ taken. taken ≡ read_of_sinks network.now H) }
{
    let mut taken = Vec::new(alloc);
    'channels: for c in 0..network.channels() {
        if network.is_sink(c) {
            let items = read_of(alloc, view, c)?;
            match taken.push(items) {
                Ok(()) => {}
                Err(_) => return Err(Unread::NoMemory),
            }
        }
    }
    Ok(Sequence::from_vec(taken))
}

/// The items that were read of a channel: the first of its journal.
fn read_of(alloc: Global, view: &View, c: usize) -> Result<Sequence<i64>, Unread>
    requires journal { c < length view.now.journals }
    requires read { c < length view.now.read }
    requires within { ReadsWithin view.now c }
    ensures { IfOk result (λ items. items ≡ first_read view.now c) }
{
    let Some(journal) = view.journal(c) else {
        return Err(Unread::Forgotten);
    };
    let read = view.read.as_slice()[c];
    Ok(Sequence::from_vec(journal.copy_first(alloc, read)?))
}
