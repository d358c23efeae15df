//! What a timeline shows of an event.
ghost use Rattle.std.specs.Prelude.{◌≡◌, ◌+◌, ◌<◌, ◌^◌, ◌-◌, ◌++◌, ℕ, codes};
ghost use Rattle.std.specs.Fmt.{signed_decimal};
ghost use Rattle.kpn_command_base.specs.Added.{Adds};
ghost use Rattle.kpn_net.specs.Tables.{Tables};
ghost use Rattle.kpn_ticks.specs.Shown.{shown, AreClocks};
ghost use Rattle.kpn_command_views.specs.TimelineText.{slice_front, get_words, put_words, item_end, item_slice, move_lines, wait_end, wait_slice, growth_line, event_lines, last_wait};

use crate::digits::{push_digits, push_signed};
use kpn_command_base::Pushed;
use kpn_history::Event;
use kpn_net::{Network, Wait};
use kpn_text::Document;
use kpn_ticks::Clocks;

/// What is drawn of the next event.
pub(crate) fn push_event(
    text: &mut String,
    document: &Document,
    network: &Network,
    clocks: &Clocks,
    event: Event,
) -> Pushed
    requires clocks { AreClocks network.now (shown clocks.now) }
    requires fits { (shown clocks.now).last + 1 < 2 ^ 64 }
    ensures { Adds result text.old text.new
        (event_lines document.now.names.channels network.now (shown clocks.now) event) }
{
    match event {
        Event::Get(p, c, item) => {
            let tick = clocks.get_tick(p.into(), c.into());
            let latest = clocks.latest_of(p.into());
            let name = document.channel_name(c.into());
            push_move(text, p.into(), latest, tick, get_words(), "", name, item)
        }
        Event::Put(p, c, item) => {
            let tick = clocks.put_tick(network, p.into(), c.into());
            let latest = clocks.latest_of(p.into());
            let name = document.channel_name(c.into());
            push_move(
                text,
                p.into(),
                latest,
                tick,
                put_words(),
                " full",
                name,
                item,
            )
        }
        Event::Grow(p, c, _) => {
            let latest = clocks.latest_of(p.into());
            push_growth(text, p.into(), latest, document.channel_name(c.into()))
        }
        _ => Ok(()),
    }
}

/// What is drawn of process `p`, which has this wait at the end. Its wait goes on for one tick after the last one.
pub(crate) fn push_last_wait(
    text: &mut String,
    document: &Document,
    clocks: &Clocks,
    p: usize,
    wait: Wait,
) -> Pushed
    requires process { p + 1 < 2 ^ 64 }
    requires clocks { (t : Tables) × AreClocks t (shown clocks.now) }
    requires fits { (shown clocks.now).last + 2 < 2 ^ 64 }
    ensures { Adds result text.old text.new
        (last_wait document.now.names.channels (shown clocks.now) p wait) }
{
    let latest = clocks.latest_of(p);
    let end = clocks.last() + 2;
    match wait {
        Wait::Empty(c) => push_wait(text, p, latest, end, document.channel_name(c), ""),
        Wait::Full(c) => push_wait(text, p, latest, end, document.channel_name(c), " full"),
        Wait::Nobody => Ok(()),
    }
}

fn get_words() -> &'static str
    ensures { result.now ≡ get_words }
{
    ",\"dur\":1,\"name\":\"get "
}

fn put_words() -> &'static str
    ensures { result.now ≡ put_words }
{
    ",\"dur\":1,\"name\":\"put "
}

// A get or put, and the wait before it: what stands in front of its name, and what a wait on full adds.
fn push_move(
    text: &mut String,
    p: usize,
    latest: usize,
    tick: usize,
    word: &str,
    why: &str,
    name: &str,
    item: i64,
) -> Pushed
    requires process { p + 1 < 2 ^ 64 }
    requires fits { latest + 1 < 2 ^ 64 }
    ensures { Adds result text.old text.new
        (move_lines p latest tick word.now why.now name.now item) }
{
    push_wait(text, p, latest, tick, name, why)?;
    push_item(text, p, tick, word, name, item)?;
    Ok(())
}

// A wait from the latest tick to the one before this, if that is longer than nothing.
fn push_wait(
    text: &mut String,
    p: usize,
    latest: usize,
    tick: usize,
    name: &str,
    why: &str,
) -> Pushed
    requires process { p + 1 < 2 ^ 64 }
    requires fits { latest + 1 < 2 ^ 64 }
    ensures { Adds result text.old text.new (wait_slice p latest tick name.now why.now) }
{
    if latest + 1 < tick {
        push_front(text, p, latest)?;
        push_wait_end(text, tick - 1 - latest, name, why)
    } else {
        Ok(())
    }
}

fn push_wait_end(text: &mut String, ticks: usize, name: &str, why: &str) -> Pushed
    ensures { Adds result text.old text.new (wait_end ticks name.now why.now) }
{
    write!(text, ",\"dur\":{ticks},\"name\":\"waits {name}{why}\"}}\n")
}

// A slice of one tick with an item.
fn push_item(text: &mut String, p: usize, tick: usize, word: &str, name: &str, item: i64) -> Pushed
    requires { p + 1 < 2 ^ 64 }
    ensures { Adds result text.old text.new (item_slice p tick word.now name.now item) }
{
    push_front(text, p, tick.saturating_sub(1))?;
    push_word(text, word, name)?;
    push_end(text, item)
}

fn push_word(text: &mut String, word: &str, name: &str) -> Pushed
    ensures { Adds result text.old text.new (word.now ++ name.now) }
{
    text.push_str(word)?;
    text.push_str(name)
}

fn push_end(text: &mut String, item: i64) -> Pushed
    ensures { Adds result text.old text.new (item_end item) }
{
    text.push_str("\",\"args\":{\"item\":")?;
    push_value(text, item)
}

fn push_value(text: &mut String, item: i64) -> Pushed
    ensures { Adds result text.old text.new (signed_decimal item ++ codes "}}\n") }
{
    push_signed(text, item)?;
    text.push_str("}}\n")
}

// The front of a slice, up to its begin.
fn push_front(text: &mut String, p: usize, begin: usize) -> Pushed
    requires { p + 1 < 2 ^ 64 }
    ensures { Adds result text.old text.new (slice_front p begin) }
{
    text.push_str(",{\"ph\":\"X\",\"pid\":1,\"tid\":")?;
    push_digits(text, p + 1)?;
    text.push_str(",\"ts\":")?;
    push_digits(text, begin)
}

fn push_growth(text: &mut String, p: usize, latest: usize, name: &str) -> Pushed
    requires { p + 1 < 2 ^ 64 }
    ensures { Adds result text.old text.new (growth_line p latest name.now) }
{
    let track = p + 1;
    write!(
        text,
        ",{{\"ph\":\"i\",\"s\":\"t\",\"pid\":1,\"tid\":{track},\"ts\":{latest},\"name\":\"{name} grows\"}}\n"
    )
}
