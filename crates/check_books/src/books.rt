//! Calls of a book, each made on a heap with ever more bytes left until memory suffices.
mod calls;
mod heap;
pub(crate) mod scenes;
mod telling;
mod words;

use crate::books::calls::answer;
use crate::books::heap::{PIECE, SIZE, leave};
use crate::books::telling::write_made;
use crate::books::words::{Call, call_of};
use anyhow::{Result, bail, ensure};
use kpn_book::Book;
use kpn_net::Network;
use kpn_step::Advance;
use kpn_text::read_network;
use linked_list_allocator::LocalHeap;
use std::alloc::Global;
use std::io::Write;

/// Makes a call while this many bytes of the heap are left.
fn answer_on<'n, 'h>(
    alloc: Global,
    heap: &'h LocalHeap,
    twin: &'n Network,
    book: &mut Book<'n, &'h LocalHeap>,
    steps: &mut Vec<Advance<'n>>,
    call: Call,
    bytes: usize,
) -> Result<String> {
    let taken = leave(alloc, heap, bytes)?;
    let answered = answer(alloc, heap, twin, book, steps, call);
    drop(taken);
    answered
}

/// A refused call has to leave the book as this text shows it.
fn compare(alloc: Global, book: &Book<'_, &LocalHeap>, before: &str) -> Result<()> {
    let after = format!(in alloc; "{book:?}")?;
    ensure!(
        after.as_str() == before,
        "a refused call has changed the book"
    );
    Ok(())
}

/// Makes a call on ever more memory until that suffices: its answer, and whether it failed at first. This text shows the
/// book as it is.
fn refused_then_made<'n, 'h>(
    alloc: Global,
    heap: &'h LocalHeap,
    twin: &'n Network,
    book: &mut Book<'n, &'h LocalHeap>,
    steps: &mut Vec<Advance<'n>>,
    call: Call,
    before: &str,
) -> Result<(String, bool)> {
    for pieces in 0..SIZE / PIECE {
        let text = answer_on(alloc, heap, twin, book, steps, call, pieces * PIECE)?;
        if text.as_str() != "Err(NoMemory)" {
            return Ok((text, pieces > 0));
        }
        compare(alloc, book, before)?;
    }
    bail!("a call is refused with all memory")
}

/// Makes the call of a line, and writes what came of it.
fn make_call<'n, 'h, O: Write>(
    alloc: Global,
    heap: &'h LocalHeap,
    twin: &'n Network,
    book: &mut Book<'n, &'h LocalHeap>,
    steps: &mut Vec<Advance<'n>>,
    line: &str,
    out: &mut O,
) -> Result<()> {
    let call = call_of(alloc, line)?;
    let events = book.history().len();
    let before = format!(in alloc; "{book:?}")?;
    let (text, is_refused) = refused_then_made(
        alloc,
        heap,
        twin,
        book,
        steps,
        call,
        before.as_str(),
    )?;
    let first = if is_refused {
        "Err(NoMemory), then "
    } else {
        ""
    };
    writeln!(out, "{line}\n  {first}{text}")?;
    write_made(book, events, out)
}

/// Makes the calls of these lines on a book. Those that make steps add them to these.
fn make_each<'n, 'h, O: Write>(
    alloc: Global,
    heap: &'h LocalHeap,
    twin: &'n Network,
    book: &mut Book<'n, &'h LocalHeap>,
    steps: &mut Vec<Advance<'n>>,
    lines: &str,
    out: &mut O,
) -> Result<()> {
    for line in lines.lines() {
        make_call(alloc, heap, twin, book, steps, line, out)?;
    }
    Ok(())
}

/// Makes the calls of these lines on a new book of the network, and writes what came of each. The calls `twin` use
/// `twin`, which was read from the same text.
fn make_calls<'n, O: Write>(
    alloc: Global,
    heap: &LocalHeap,
    network: &'n Network,
    twin: &'n Network,
    lines: &str,
    out: &mut O,
) -> Result<()> {
    let mut book = Book::new(heap, network)?;
    let mut steps = Vec::new(alloc);
    let made = make_each(alloc, heap, twin, &mut book, &mut steps, lines, out);
    drop(steps);
    let events = book.into_history().len();
    made?;
    writeln!(out, "{events} events in all")?;
    Ok(())
}

/// Makes the calls of these lines on a network, with a twin of it that is read from the same text.
pub(crate) fn make_beside_twin<O: Write>(
    alloc: Global,
    network: &Network,
    text: &[u8],
    lines: &str,
    out: &mut O,
) -> Result<()> {
    let heap = LocalHeap::new(alloc, SIZE)?;
    match read_network(alloc, text) {
        Ok(twin) => make_calls(alloc, &heap, network, twin.network(), lines, out),
        Err(_) => bail!("a description is none"),
    }
}
