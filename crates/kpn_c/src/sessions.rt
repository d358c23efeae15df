//! Sessions, which C keeps. Each call gets a session and hands it back.
ghost use Rattle.std.specs.Prelude.{true, false};
ghost use Rattle.kpn_c.specs.Sessions.{IsOpen};
ghost use Rattle.kpn_c.specs.Exports.{Leads, Asks, FeedsSource, TakesFromSink, StepsProcesses, MovesItems, ClosesSource, LeavesSink, TellsVerdict, TellsIfComplete, TellsTrace, Opens};

use crate::codes::{
    FaultPlace, NO_MEMORY, NO_SUCH_CHANNEL, NO_TRACE, OK, code_of_cause, code_of_verdict, tell,
};
use crate::fault::{fault_of, number_of};
use crate::held::Held;
use crate::moving::{SourceItem, Wanted, code_of_moved};
use crate::session::Session;
use crate::slices::put_text;
use crate::slot::{free, kept, put_back, taken};
use std::alloc::Global;

/// Opens a session of the network that a text describes, or leaves `back` as it was. It keeps all that happens.
#[unsafe(no_mangle)]
pub extern "C" fn kpn_c_open(
    alloc: Global,
    text: &[u8],
    back: &mut Held,
    place: &mut FaultPlace,
) -> u32
    ensures { Opens true text.now result place.new back.old.slot back.new.slot }
{
    opened(alloc, text, true, back, place)
}

/// Opens such a session that keeps nothing of what happens.
#[unsafe(no_mangle)]
pub extern "C" fn kpn_c_open_forgetting(
    alloc: Global,
    text: &[u8],
    back: &mut Held,
    place: &mut FaultPlace,
) -> u32
    ensures { Opens false text.now result place.new back.old.slot back.new.slot }
{
    opened(alloc, text, false, back, place)
}

fn opened(alloc: Global, text: &[u8], keeps: bool, back: &mut Held, place: &mut FaultPlace) -> u32
    ensures { Opens keeps text.now result place.new back.old.slot back.new.slot }
{
    match Session::open(alloc, text, keeps) {
        Ok(session) => match kept(alloc, session) {
            Some(held) => {
                *back = held;
                OK
            }
            None => NO_MEMORY,
        },
        Err(fault) => tell(fault_of(fault), place),
    }
}

/// Frees a session.
#[unsafe(no_mangle)]
pub extern "C" fn kpn_c_free(held: Held)
    requires { IsOpen held.slot }
{
    free(held);
}

/// Feeds items to a source.
#[unsafe(no_mangle)]
pub extern "C" fn kpn_c_feed(
    held: Held,
    source: usize,
    items: &[i64],
    back: &mut Held,
    count: &mut usize,
) -> u32
    requires { IsOpen held.slot }
    ensures { Leads (FeedsSource source items.now result count.new) held.slot back.new.slot }
{
    let (boxed, session) = taken(held);
    let (session, fed) = session.feed(source, items);
    *back = put_back(boxed, session);
    *count = fed.count;
    code_of_cause(fed.cause)
}

/// Closes a source.
#[unsafe(no_mangle)]
pub extern "C" fn kpn_c_close_source(held: Held, source: usize, back: &mut Held) -> u32
    requires { IsOpen held.slot }
    ensures { Leads (ClosesSource source result) held.slot back.new.slot }
{
    let (boxed, session) = taken(held);
    let (session, closed) = session.close_source(source);
    *back = put_back(boxed, session);
    match closed {
        Ok(()) => OK,
        Err(cause) => number_of(cause),
    }
}

/// Leaves a sink.
#[unsafe(no_mangle)]
pub extern "C" fn kpn_c_leave_sink(held: Held, sink: usize, back: &mut Held) -> u32
    requires { IsOpen held.slot }
    ensures { Leads (LeavesSink sink result) held.slot back.new.slot }
{
    let (boxed, session) = taken(held);
    let (session, left) = session.leave_sink(sink);
    *back = put_back(boxed, session);
    match left {
        Ok(()) => OK,
        Err(cause) => number_of(cause),
    }
}

/// Makes turns of processes.
#[unsafe(no_mangle)]
pub extern "C" fn kpn_c_step(held: Held, most: u64, back: &mut Held, commits: &mut u64) -> u32
    requires { IsOpen held.slot }
    ensures { Leads (StepsProcesses most result commits.new) held.slot back.new.slot }
{
    let (boxed, session) = taken(held);
    let (session, stepped) = session.step(most);
    *back = put_back(boxed, session);
    *commits = stepped.commits;
    if stepped.is_refused { NO_MEMORY } else { OK }
}

/// Takes items from a sink.
#[unsafe(no_mangle)]
pub extern "C" fn kpn_c_take(
    held: Held,
    sink: usize,
    room: &mut [i64],
    back: &mut Held,
    count: &mut usize,
) -> u32
    requires { IsOpen held.slot }
    ensures { Leads (TakesFromSink sink room.old room.new result count.new) held.slot back.new.slot }
{
    let (boxed, session) = taken(held);
    let (session, got) = session.take(sink, room);
    *back = put_back(boxed, session);
    *count = got.count;
    code_of_cause(got.cause)
}

/// How many items a call has fed, how many commits it has made, and how many places it has served.
#[repr(C)]
#[derive(Clone, Copy)]
pub struct Amounts {
    pub fed: usize,
    pub commits: u64,
    pub served: usize,
}

/// Feeds items, makes turns of processes and takes items.
#[unsafe(no_mangle)]
pub extern "C" fn kpn_c_move(
    held: Held,
    items: &[SourceItem],
    most: u64,
    places: &mut [Wanted],
    back: &mut Held,
    amounts: &mut Amounts,
) -> u32
    requires { IsOpen held.slot }
    ensures { Leads (MovesItems items.now most result amounts.new places.old places.new)
        held.slot back.new.slot }
{
    let (boxed, session) = taken(held);
    let (session, moved) = session.move_items(items, most, places);
    *back = put_back(boxed, session);
    *amounts = Amounts {
        fed: moved.fed.count,
        commits: moved.stepped.commits,
        served: moved.taken.count,
    };
    code_of_moved(&moved)
}

/// Tells whether a channel is complete.
#[unsafe(no_mangle)]
pub extern "C" fn kpn_c_is_complete(
    held: Held,
    channel: usize,
    back: &mut Held,
    complete: &mut bool,
) -> u32
    requires { IsOpen held.slot }
    ensures { Leads (TellsIfComplete channel result complete.new) held.slot back.new.slot }
{
    let (boxed, session) = taken(held);
    let (session, told) = session.is_complete(channel);
    *back = put_back(boxed, session);
    match told {
        Some(is_complete) => {
            *complete = is_complete;
            OK
        }
        None => NO_SUCH_CHANNEL,
    }
}

/// Tells how the run has come to a stop.
#[unsafe(no_mangle)]
pub extern "C" fn kpn_c_verdict(held: Held, back: &mut Held, verdict: &mut u32) -> u32
    requires { IsOpen held.slot }
    ensures { Leads (TellsVerdict result verdict.new) held.slot back.new.slot }
{
    let (boxed, session) = taken(held);
    let (session, told) = session.verdict();
    *back = put_back(boxed, session);
    *verdict = code_of_verdict(told);
    OK
}

/// Tells the trace.
#[unsafe(no_mangle)]
pub extern "C" fn kpn_c_trace(
    alloc: Global,
    held: Held,
    room: &mut [u8],
    back: &mut Held,
    length: &mut usize,
) -> u32
    requires { IsOpen held.slot }
    ensures { Leads (Asks (TellsTrace result length.new room.old room.new)) held.slot back.new.slot }
{
    let (boxed, session) = taken(held);
    if !session.keeps() {
        *back = put_back(boxed, session);
        return NO_TRACE;
    }
    let (session, told) = session.trace(alloc);
    *back = put_back(boxed, session);
    match told {
        Ok(text) => put_text(room, length, text.as_slice()),
        Err(_) => NO_MEMORY,
    }
}
