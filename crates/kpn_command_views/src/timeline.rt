//! The text of a timeline goes out while it is made.
ghost use Rattle.std.specs.Prelude.{◌≡◌, ◌+◌, ◌<◌, ◌^◌, ◌++◌, codes, true, IfOk, OnOk, string_bytes};
ghost use Rattle.std.specs.Io.KnownBytes.{Appends};
ghost use Rattle.kpn_net.specs.Tables.{Tables};
ghost use Rattle.kpn_text_names.specs.Names.{name_at};
ghost use Rattle.kpn_command_base.specs.Added.{Adds};
ghost use Rattle.kpn_ticks.specs.Ticks.{start, clocks_after};
ghost use Rattle.kpn_ticks.specs.Shown.{shown, AreClocks};
ghost use Rattle.kpn_command_views.specs.Sent.{Sends};
ghost use Rattle.kpn_command_views.specs.TimelineText.{timeline_head, track_line, each_below, all_event_lines, last_waits, counter_label, channel_counters, timeline};

use crate::counters::send_counters;
use crate::sending::{SendFault, send_if_long, send_last};
use crate::slices::{push_event, push_last_wait};
use crate::waits::wait_at;
use kpn_command_base::Pushed;
use kpn_history::Event;
use kpn_net::{Network, Wait};
use kpn_text::Document;
use kpn_ticks::Clocks;
use std::alloc::{AllocError, Global};
use std::io::Write;

/// Sends the timeline of these events of the network, which has the names of the document. After them its processes
/// wait so.
pub(crate) fn send_timeline<W: Write>(
    alloc: Global,
    document: &Document,
    network: &Network,
    waits: &[Wait],
    events: &[Event],
    out: &mut W,
) -> Result<(), SendFault>
    ensures { OnOk result (Appends (W.contents out.old) (W.contents out.new)
        (timeline document.now network.now waits.now events.now)) }
{
    let mut text = first_lines(alloc, document, network.instances())?;
    let clocks = send_events(alloc, out, &mut text, document, network, events)?;
    push_last_waits(&mut text, document, network.instances(), waits, &clocks)?;
    send_channels(alloc, out, &mut text, document, network.channels(), &clocks)?;
    push_end(&mut text)?;
    send_last(out, text.as_bytes())?;
    Ok(())
}

fn push_end(text: &mut String) -> Pushed
    ensures { Adds result text.old text.new (codes "]}\n") }
{
    text.push_str("]}\n")
}

// The first lines, and a track for each of this many processes.
fn first_lines(alloc: Global, document: &Document, processes: usize) -> Result<String, AllocError>
    ensures { IfOk result (λ text. string_bytes text ≡ timeline_head
        ++ each_below processes (λ p. track_line p (name_at document.now.names.instances p))) }
{
    let mut text = String::new(alloc);
    text.push_str(head())?;
    push_tracks(&mut text, document, processes)?;
    Ok(text)
}

fn head() -> &'static str
    ensures { result.now ≡ timeline_head }
{
    "{\"traceEvents\":[\n{\"ph\":\"M\",\"pid\":1,\"name\":\"process_name\",\"args\":{\"name\":\"kpn\"}}\n"
}

// A track for each process.
fn push_tracks(text: &mut String, document: &Document, processes: usize) -> Pushed
    ensures { Adds result text.old text.new
        (each_below processes (λ p. track_line p (name_at document.now.names.instances p))) }
{
    for p in 0..processes {
        push_track(text, p, document.instance_name(p))?;
    }
    Ok(())
}

fn push_track(text: &mut String, p: usize, name: &str) -> Pushed
    requires { p + 1 < 2 ^ 64 }
    ensures { Adds result text.old text.new (track_line p name.now) }
{
    let track = p + 1;
    write!(
        text,
        ",{{\"ph\":\"M\",\"pid\":1,\"tid\":{track},\"name\":\"thread_name\",\"args\":{{\"name\":\"{name}\"}}}}\n"
    )
}

// What is drawn of each event. It returns the clocks after all of them.
fn send_events<W: Write>(
    alloc: Global,
    out: &mut W,
    text: &mut String,
    document: &Document,
    network: &Network,
    events: &[Event],
) -> Result<Clocks, SendFault>
    ensures clocks { IfOk result
        (λ clocks. shown clocks ≡ clocks_after network.now true events.now) }
    ensures text { Sends W.contents result out.old out.new text.old text.new
        (all_event_lines document.now.names.channels network.now (start network.now true) events.now) }
{
    let mut clocks = Clocks::new(alloc, network, true)?;
    for k in 0..events.len() {
        push_event(text, document, network, &clocks, events[k])?;
        clocks.count(network, events[k])?;
        send_if_long(out, text)?;
    }
    Ok(clocks)
}

// The waits that these processes end with.
fn push_last_waits(
    text: &mut String,
    document: &Document,
    processes: usize,
    waits: &[Wait],
    clocks: &Clocks,
) -> Pushed
    requires clocks { (t : Tables) × AreClocks t (shown clocks.now) }
    requires fits { (shown clocks.now).last + 2 < 2 ^ 64 }
    ensures { Adds result text.old text.new
        (last_waits document.now.names.channels processes waits.now (shown clocks.now)) }
{
    for p in 0..processes {
        push_last_wait(text, document, clocks, p, wait_at(waits, p))?;
    }
    Ok(())
}

// A counter for each channel.
fn send_channels<W: Write>(
    alloc: Global,
    out: &mut W,
    text: &mut String,
    document: &Document,
    channels: usize,
    clocks: &Clocks,
) -> Result<(), SendFault>
    ensures { Sends W.contents result out.old out.new text.old text.new
        (each_below channels (channel_counters document.now.names.channels (shown clocks.now))) }
{
    for c in 0..channels {
        let label = label_of(alloc, document.channel_name(c))?;
        send_counters(
            out,
            text,
            label.as_str(),
            clocks.written_of(c),
            clocks.read_of(c),
        )?;
    }
    Ok(())
}

fn label_of(alloc: Global, name: &str) -> Result<String, AllocError>
    ensures { IfOk result (λ label. string_bytes label ≡ counter_label name.now) }
{
    let mut label = String::new(alloc);
    write!(label, ",\"name\":\"{name}\",\"args\":{{\"unread\":")?;
    Ok(label)
}
