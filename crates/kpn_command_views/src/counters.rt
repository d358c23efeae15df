//! What a timeline shows of a channel: how many items lie unread on it, from which tick on.
ghost use Rattle.std.specs.Prelude.{◌≡◌, ◌+◌, ◌-◌, ◌<◌, ◌≤◌, ◌^◌, ◌++◌, length, take, IfOk};
ghost use Rattle.kpn_command_base.specs.Added.{Adds};
ghost use Rattle.kpn_ticks.specs.Held.{reads_before};
ghost use Rattle.kpn_command_views.specs.Sent.{Sends};
ghost use Rattle.kpn_command_views.specs.TimelineText.{counter_end, counter_line, read_lines, counter_lines};

use crate::digits::push_digits;
use crate::sending::{SendFault, send_if_long};
use kpn_command_base::Pushed;
use kpn_ticks::reads_before;
use std::io::Write;

/// The writes and reads of a channel by their ticks. Its label stands between the tick and the number of items.
pub(crate) fn send_counters<W: Write>(
    out: &mut W,
    text: &mut String,
    label: &str,
    written: &[usize],
    reads: &[usize],
) -> Result<(), SendFault>
    ensures { Sends W.contents result out.old out.new text.old text.new
        (counter_lines label.now 0 written.now reads.now) }
{
    let mut unread: usize = 0;
    let mut place = 0;
    for tick in written {
        let gone = send_write(out, text, label, unread, *tick, &reads[place..])?;
        unread = unread.saturating_sub(gone) + 1;
        place += gone;
    }
    send_reads(out, text, label, unread, &reads[place..])?;
    Ok(())
}

// A write at this tick, with the reads before it. It returns how many these are.
fn send_write<W: Write>(
    out: &mut W,
    text: &mut String,
    label: &str,
    unread: usize,
    tick: usize,
    reads: &[usize],
) -> Result<usize, SendFault>
    requires { unread + 1 < 2 ^ 64 }
    ensures gone { IfOk result (λ gone. gone ≡ reads_before tick reads.now) }
    ensures within { IfOk result (λ gone. gone ≤ length reads.now) }
    ensures text { let gone = reads_before tick reads.now in
        Sends W.contents result out.old out.new text.old text.new
        (read_lines label.now unread (take gone reads.now)
        ++ counter_line label.now tick (unread - gone + 1)) }
{
    let gone = reads_before(tick, reads);
    send_reads(out, text, label, unread, &reads[..gone])?;
    push_counter(text, label, tick, unread.saturating_sub(gone) + 1)?;
    send_if_long(out, text)?;
    Ok(gone)
}

// These reads, one after another, of this many unread items.
fn send_reads<W: Write>(
    out: &mut W,
    text: &mut String,
    label: &str,
    unread: usize,
    reads: &[usize],
) -> Result<(), SendFault>
    ensures { Sends W.contents result out.old out.new text.old text.new
        (read_lines label.now unread reads.now) }
{
    let mut left = unread;
    for tick in reads {
        left = left.saturating_sub(1);
        push_counter(text, label, *tick, left)?;
        send_if_long(out, text)?;
    }
    Ok(())
}

fn push_counter(text: &mut String, label: &str, tick: usize, unread: usize) -> Pushed
    ensures { Adds result text.old text.new (counter_line label.now tick unread) }
{
    text.push_str(",{\"ph\":\"C\",\"pid\":1,\"ts\":")?;
    push_digits(text, tick)?;
    push_unread(text, label, unread)
}

fn push_unread(text: &mut String, label: &str, unread: usize) -> Pushed
    ensures { Adds result text.old text.new (counter_end label.now unread) }
{
    text.push_str(label)?;
    push_digits(text, unread)?;
    text.push_str("}}\n")
}
