//! Events and what stands before them, in words.

use crate::trace_names::{channel, process};
use kpn_audit::{Doing, OutsideEnd, Scene};
use kpn_command_base::Pushed;
use kpn_history::{Event, Version};
use kpn_text::Document;
use kpn_trace::how_word;

/// What happens in an event.
pub(crate) fn push_event(
    text: &mut String,
    document: &Document,
    version: Version,
    event: Event,
) -> Pushed {
    let process = |p: u16| process(document, p.into());
    let channel = |c: u16| channel(document, c.into());
    match event {
        Event::Get(p, c, item) => write!(text, "{} gets {item} from {}", process(p), channel(c)),
        Event::Put(p, c, item) => write!(text, "{} puts {item} on {}", process(p), channel(c)),
        Event::WaitEmpty(p, c) => write!(text, "{} waits on {} as empty", process(p), channel(c)),
        Event::WaitFull(p, c) => write!(text, "{} waits on {} as full", process(p), channel(c)),
        Event::Ended(p, how) => write!(text, "{} ends with `{}`", process(p), how_word(how)),
        Event::Feed(c, item) => write!(text, "the outside feeds {item} to {}", channel(c)),
        Event::Close(c) => write!(text, "the outside closes {}", channel(c)),
        Event::Take(c, item) => write!(text, "the outside takes {item} from {}", channel(c)),
        Event::Leave(c) => write!(text, "the outside leaves {}", channel(c)),
        // In version 1 an event does not state the new capacity.
        Event::Grow(p, c, cap) => match version {
            Version::One => write!(text, "{} grows for {}", channel(c), process(p)),
            Version::Two => write!(text, "{} grows to {cap} for {}", channel(c), process(p)),
        },
    }
}

/// What stands before an event that is not legal.
pub(crate) fn push_scene(text: &mut String, document: &Document, scene: Scene) -> Pushed {
    match scene {
        Scene::Owes(growth) => {
            let (d, p) = (
                channel(document, growth.channel),
                process(document, growth.process),
            );
            write!(text, "first {d} has to grow to {} for {p}", growth.capacity)
        }
        Scene::NotThere => {
            let network = document.network();
            let (processes, channels) = (network.instances(), network.channels());
            write!(
                text,
                "the number of processes is {processes} and that of channels {channels}"
            )
        }
        Scene::Process(p, doing) => {
            write!(text, "{}", process(document, p))?;
            push_doing(text, document, doing)
        }
        Scene::Outside(c, side) => {
            write!(text, "{}", channel(document, c))?;
            push_side(text, side)
        }
        Scene::OwesNothing => text.push_str("no growth is owed"),
    }
}

// What a process is doing.
fn push_doing(text: &mut String, document: &Document, doing: Doing) -> Pushed {
    let channel = |c: usize| channel(document, c);
    match doing {
        Doing::Ended(how) => write!(text, " has ended with `{}`", how_word(how)),
        Doing::WaitsEmpty(c) => write!(text, " waits on {}, which is empty", channel(c)),
        Doing::WaitsFull(c) => write!(text, " waits on {}, which is full", channel(c)),
        Doing::Reads(c, next) => {
            write!(text, " comes to read from {}, which", channel(c))?;
            push_next(text, next)
        }
        Doing::Writes(c, item, is_full) => {
            let room = if is_full { "is full" } else { "has room" };
            write!(
                text,
                " comes to write {item} to {}, which {room}",
                channel(c)
            )
        }
        Doing::Ends(how) => write!(text, " comes to end with `{}`", how_word(how)),
        Doing::Elsewhere => text.push_str(" is elsewhere"),
    }
}

// The next item of a channel.
fn push_next(text: &mut String, next: Option<i64>) -> Pushed {
    match next {
        None => text.push_str(" is empty"),
        Some(item) => write!(text, " has {item} next"),
    }
}

// How a channel stands to the outside.
fn push_side(text: &mut String, side: OutsideEnd) -> Pushed {
    match side {
        OutsideEnd::NoSource => text.push_str(" is no source"),
        OutsideEnd::Closed => text.push_str(" is closed"),
        OutsideEnd::Open => text.push_str(" is open"),
        OutsideEnd::NoSink => text.push_str(" is no sink"),
        OutsideEnd::Left => text.push_str(" was left"),
        OutsideEnd::Next(next) => push_next(text, next),
    }
}
