//! The sources of a network that is left to itself: each gets its whole list and is closed, in order of number.
ghost use Rattle.std.specs.Prelude.{◌≡◌, ℕ, ◌+◌, ◌<◌, true, false, ℤ, List, length, map, take, count_by, IfOk};
ghost use Rattle.kpn_net.specs.Tables.{is_source};
ghost use Rattle.kpn_net.specs.Iteration.{sources, given_by};
ghost use Rattle.kpn_history.specs.Channels.{is_closed};
ghost use Rattle.kpn_history.specs.declared.event.Event.TheVariants as event;
ghost use Rattle.kpn_book.specs.Book.{Book as Seen};
ghost use Rattle.kpn_book.specs.Appending.{Happens, AllHappen};
ghost use Rattle.kpn_book.specs.RunHere.{supply_of, supplies};
ghost use Rattle.kpn_book.specs.Running.{IsSupplied, IsFedBelow};

use crate::Book;
use kpn_lang::Sequence;
use kpn_net::Network;
use std::alloc::AllocError;

/// Feeds its list to each source and closes it. The error is that memory ran out.
pub(crate) fn feed_sources(
    book: &mut Book<'_>,
    network: &Network,
    lists: &[Sequence<i64>],
) -> Result<(), AllocError>
    requires lists { length lists.now ≡ sources network.now }
    requires first { IsFedBelow network.now (given_by network.now lists.now) 0 book.old }
    ensures fed { let t = network.now in
        IfOk result (λ _. IsFedBelow t (given_by t lists.now) (length t.channels) book.new) }
    ensures supplies { let t = network.now in
        IfOk result (λ _. AllHappen (supplies t (given_by t lists.now)) book.old book.new) }
{
    let mut source = 0;
    'channels: for c in 0..network.channels() {
        source = supply_next(book, network, lists, c, source)?;
    }
    Ok(())
}

/// If channel `c`, which has this many sources before it, is a source, feeds it its list and closes it. Returns how
/// many sources there are up to it.
fn supply_next(
    book: &mut Book<'_>,
    network: &Network,
    lists: &[Sequence<i64>],
    c: usize,
    source: usize,
) -> Result<usize, AllocError>
    requires lists { length lists.now ≡ sources network.now }
    requires channel { c < length network.now.channels }
    requires source { source ≡ count_by is_source (take c network.now.channels) }
    requires so_far { IsFedBelow network.now (given_by network.now lists.now) c book.old }
    ensures source { IfOk result (λ next.
        next ≡ count_by is_source (take (c + 1) network.now.channels)) }
    ensures more { IfOk result (λ _.
        IsFedBelow network.now (given_by network.now lists.now) (c + 1) book.new) }
    ensures supplies { let t = network.now in
        IfOk result (λ _. AllHappen (supply_of t (given_by t lists.now) c) book.old book.new) }
{
    if !network.is_source(c) {
        return Ok(source);
    }
    feed_items(book, c, lists[source].as_slice())?;
    close(book, c)?;
    Ok(source + 1)
}

/// Feeds these items to source `c`, on which any number of items may be unread.
fn feed_items(book: &mut Book<'_>, c: usize, items: &[i64]) -> Result<(), AllocError>
    ensures supplied { IfOk result (λ _. IsSupplied c items.now book.old book.new) }
    ensures feeds { IfOk result (λ _.
        AllHappen (map (event.Feed c) items.now) book.old book.new) }
{
    'items: for item in items {
        book.known();
        let Ok(()) = book.feed(c, *item, usize::MAX) else {
            return Err(AllocError);
        };
        book.known();
    }
    Ok(())
}

fn close(book: &mut Book<'_>, c: usize) -> Result<(), AllocError>
    ensures supplied { IfOk result (λ _. (before : Seen) (items : List ℤ)
        → IsSupplied c items before book.old → IsSupplied c items before book.new) }
    ensures closed { IfOk result (λ _. is_closed book.new.history c ≡ true) }
    ensures closes { IfOk result (λ _. is_closed book.old.history c ≡ false
        → Happens (event.Close c) book.old book.new) }
{
    book.known();
    match book.close_source(c) {
        Ok(()) => Ok(()),
        Err(_) => Err(AllocError),
    }
}
