//! The calls of a book. Each function returns the call's answer as text.
use crate::books::words::Call;
use anyhow::{Result, bail, ensure};
use kpn_book::{Book, Claim, View};
use kpn_lang::Program;
use kpn_net::Network;
use kpn_step::{Advance, Frame, try_advance};
use linked_list_allocator::LocalHeap;
use std::alloc::{Allocator, Global};

/// This many steps bring each process to its next stop.
const QUOTA: u32 = 1_000;

/// Claims the first process of the queue, and steps it to its next stop.
fn claim<'n, A: Allocator>(
    alloc: Global,
    book: &mut Book<'n, A>,
    steps: &mut Vec<Advance<'n>>,
) -> Result<String> {
    let Some(claim) = book.try_claim()? else {
        return Ok(format!(in alloc; "None")?);
    };
    let Claim {
        process,
        program,
        frame,
    } = claim;
    let made = try_advance(program, frame, QUOTA)?;
    steps.push(made)?;
    Ok(format!(in alloc; "Some({process})")?)
}

/// Steps a process from any frame of its program.
fn step_from<'n>(
    alloc: Global,
    steps: &mut Vec<Advance<'n>>,
    program: &'n Program,
    frame: Frame,
) -> Result<String> {
    ensure!(frame.fits(program), "this is no frame of the program");
    let made = try_advance(program, frame, QUOTA)?;
    steps.push(made)?;
    Ok(format!(in alloc; "stepped")?)
}

/// Goes on from where other steps have stopped, though nothing was committed.
fn go_on(alloc: Global, steps: &mut Vec<Advance<'_>>, number: usize) -> Result<String> {
    ensure!(number < steps.len(), "there are no such steps");
    let program = steps[number].program();
    let frame = steps[number].to().try_copy()?;
    step_from(alloc, steps, program, frame)
}

/// Makes steps of the same process of an equal network, from an equal frame.
fn step_twin<'n>(
    alloc: Global,
    twin: &'n Network,
    steps: &mut Vec<Advance<'n>>,
    process: usize,
    number: usize,
) -> Result<String> {
    ensure!(process < twin.instances(), "there is no such process");
    ensure!(number < steps.len(), "there are no such steps");
    let frame = steps[number].from().try_copy()?;
    step_from(alloc, steps, twin.program(process), frame)
}

fn commit<A: Allocator + Copy>(
    alloc: Global,
    book: &mut Book<'_, A>,
    steps: &[Advance<'_>],
    process: usize,
    number: usize,
) -> Result<String> {
    ensure!(number < steps.len(), "there are no such steps");
    let done = book.commit(process, &steps[number]);
    Ok(format!(in alloc; "{done:?}")?)
}

fn put_back<A: Allocator>(alloc: Global, book: &mut Book<'_, A>, process: usize) -> Result<String> {
    let answer = book.put_back(process);
    Ok(format!(in alloc; "{answer:?}")?)
}

/// Feeds an item. If `feed_fault` names a fault before the call, the call has to fail with it.
fn feed<A: Allocator + Copy>(
    alloc: Global,
    book: &mut Book<'_, A>,
    source: usize,
    item: i64,
    bound: usize,
) -> Result<String> {
    let fault = book.feed_fault(source, item, bound);
    let fed = book.feed(source, item, bound);
    ensure!(
        fault.is_none() || fault == fed.err(),
        "a feed is refused for another cause"
    );
    Ok(format!(in alloc; "{fed:?}")?)
}

fn close<A: Allocator>(alloc: Global, book: &mut Book<'_, A>, source: usize) -> Result<String> {
    let closed = book.close_source(source);
    Ok(format!(in alloc; "{closed:?}")?)
}

fn take<A: Allocator>(alloc: Global, book: &mut Book<'_, A>, sink: usize) -> Result<String> {
    let taken = book.take(sink);
    Ok(format!(in alloc; "{taken:?}")?)
}

fn leave<A: Allocator>(alloc: Global, book: &mut Book<'_, A>, sink: usize) -> Result<String> {
    let left = book.leave_sink(sink);
    Ok(format!(in alloc; "{left:?}")?)
}

/// Whether a journal begins with an item.
fn begins<A: Allocator>(
    alloc: Global,
    book: &Book<'_, A>,
    channel: usize,
    item: i64,
) -> Result<String> {
    ensure!(
        channel < book.network().channels(),
        "there is no such channel"
    );
    let begins = book.journal_begins(channel, &[item]);
    Ok(format!(in alloc; "{begins}")?)
}

/// The lists of a view after its journals.
fn write_ends<A: Allocator>(text: &mut String, view: &View<A>) -> Result<()> {
    let (read, caps) = (view.read.as_slice(), view.caps.as_slice());
    let (retired, states) = (view.retired.as_slice(), view.states.as_slice());
    write!(
        text,
        "\n  read {read:?} caps {caps:?} retired {retired:?}\n  {states:?}"
    )?;
    Ok(())
}

/// A view: its journals, which are short, and then the other lists.
fn view_text<A: Allocator>(alloc: Global, view: &View<A>) -> Result<String> {
    let mut text = format!(in alloc; "Ok")?;
    for written in view.journals.as_slice() {
        let items = match written.journal() {
            Some(journal) => journal.piece_at(0),
            None => bail!("a journal is not kept"),
        };
        write!(text, "\n  journal {items:?}")?;
    }
    write_ends(&mut text, view)?;
    Ok(text)
}

/// A snapshot.
fn view<A: Allocator>(alloc: Global, heap: &LocalHeap, book: &Book<'_, A>) -> Result<String> {
    match book.snapshot(heap) {
        Ok(view) => view_text(alloc, &view),
        Err(_) => Ok(format!(in alloc; "Err(NoMemory)")?),
    }
}

/// Makes a call.
pub(crate) fn answer<'n, A: Allocator + Copy>(
    alloc: Global,
    heap: &LocalHeap,
    twin: &'n Network,
    book: &mut Book<'n, A>,
    steps: &mut Vec<Advance<'n>>,
    call: Call,
) -> Result<String> {
    match call {
        Call::Claim => claim(alloc, book, steps),
        Call::Onward(number) => go_on(alloc, steps, number),
        Call::Twin(process, number) => step_twin(alloc, twin, steps, process, number),
        Call::Commit(process, number) => commit(alloc, book, steps.as_slice(), process, number),
        Call::PutBack(process) => put_back(alloc, book, process),
        Call::Feed(source, item, bound) => feed(alloc, book, source, item, bound),
        Call::Close(source) => close(alloc, book, source),
        Call::Take(sink) => take(alloc, book, sink),
        Call::Leave(sink) => leave(alloc, book, sink),
        Call::Begins(channel, item) => begins(alloc, book, channel, item),
        Call::View => view(alloc, heap, book),
    }
}
