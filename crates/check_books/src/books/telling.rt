//! What a call has made of a book, written as lines.
use anyhow::Result;
use kpn_book::Book;
use std::alloc::Allocator;
use std::io::Write;

/// The events from the `from`-th on, then how many commits there were, how many processes are in each state, and the
/// verdict, if there is one.
pub(crate) fn write_made<A: Allocator, O: Write>(
    book: &Book<'_, A>,
    from: usize,
    out: &mut O,
) -> Result<()> {
    for k in from..book.history().len() {
        if let Some(event) = book.history().at(k) {
            writeln!(out, "  {event:?}")?;
        }
    }
    let (commits, counts, verdict) = (book.commits(), book.counts(), book.verdict());
    writeln!(out, "  commits {commits} {counts:?} {verdict:?}")?;
    Ok(())
}
