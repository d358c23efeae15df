//! Events written as the lines of a trace.
ghost use Rattle.std.specs.Prelude.{◌≡◌, OnOk, IfErr, false};
ghost use Rattle.std.specs.Io.KnownBytes.{Appends};
ghost use Rattle.kpn_trace.specs.TraceText.{head_text, event_text, trace_text};
ghost use Rattle.kpn_trace.specs.declared.unwritten.Unwritten.TheVariants.{Forgotten};

use crate::head::head;
use crate::kind::how_word;
use crate::unwritten::Unwritten;
use kpn_history::{Event, History, Version};
use kpn_net::{Growth, Policy};
use kpn_text_items::WriteFault;
use std::alloc::Allocator;
use std::io::{self, Write};

/// Writes the line of an event in version 2, with its line feed. It takes no memory. After `WriteFault::Write` nobody
/// knows how much went out.
pub fn event_line<W: Write>(writer: &mut W, event: &Event) -> Result<(), WriteFault>
    ensures { OnOk result
        (Appends (W.contents writer.old) (W.contents writer.new) (event_text Version.Two event.now)) }
{
    print(writer, *event).map_err(|_| WriteFault::Write)
}

fn print<W: Write>(writer: &mut W, event: Event) -> io::Result<()>
    ensures { OnOk result
        (Appends (W.contents writer.old) (W.contents writer.new) (event_text Version.Two event)) }
{
    match event {
        Event::Get(process, channel, item) => writeln!(writer, "get {process} {channel} {item}"),
        Event::Put(process, channel, item) => writeln!(writer, "put {process} {channel} {item}"),
        Event::WaitEmpty(process, channel) => writeln!(writer, "wait-empty {process} {channel}"),
        Event::WaitFull(process, channel) => writeln!(writer, "wait-full {process} {channel}"),
        Event::Ended(process, how) => writeln!(writer, "end {process} {}", how_word(how)),
        Event::Feed(channel, item) => writeln!(writer, "feed {channel} {item}"),
        Event::Close(channel) => writeln!(writer, "close {channel}"),
        Event::Take(channel, item) => writeln!(writer, "take {channel} {item}"),
        Event::Leave(channel) => writeln!(writer, "leave {channel}"),
        Event::Grow(process, channel, capacity) => {
            writeln!(writer, "grow {process} {channel} {capacity}")
        }
    }
}

fn write_head<W: Write>(writer: &mut W, policy: Policy, growth: Growth) -> Result<(), WriteFault>
    ensures { OnOk result
        (Appends (W.contents writer.old) (W.contents writer.new)
        (head_text Version.Two policy growth)) }
{
    writer
        .write_all(head(policy, growth))
        .map_err(|_| WriteFault::Write)
}

/// Writes the trace of a history in version 2: its first lines, which name the policy and the growth, and the line of
/// each event. It takes no memory, and makes some small writes for each event. So for a device, write into a buffer or
/// make the text in memory first. After `WriteFault::Write` nobody knows how much went out. Of a history that keeps no
/// events it writes nothing.
pub fn write_trace<W: Write, A: Allocator>(
    writer: &mut W,
    policy: Policy,
    growth: Growth,
    history: &History<A>,
) -> Result<(), Unwritten>
    ensures text { OnOk result
        (Appends (W.contents writer.old) (W.contents writer.new)
        (trace_text Version.Two policy growth history.now.events)) }
    ensures forgotten { IfErr result (λ why. why ≡ Forgotten
        → (history.now.is_kept ≡ false) × (writer.new ≡ writer.old)) }
{
    if !history.is_kept() {
        return Err(Unwritten::Forgotten);
    }
    write_head(writer, policy, growth)?;
    for place in 0..history.len() {
        if let Some(event) = history.at(place) {
            event_line(writer, &event)?;
        }
    }
    Ok(())
}
