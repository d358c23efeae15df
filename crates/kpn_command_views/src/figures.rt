//! The figures of a history. One pass over its events counts them.
ghost use Rattle.std.specs.Prelude.{◌≡◌, ◌+◌, ◌<◌, ◌^◌, ℕ, length, replicate, slice_index_or, IfOk};
ghost use Rattle.kpn_command_views.specs.Figures.{AreFigures, no_channel, no_process, channel_then, process_then, channel_counts_then, channel_total, process_total, channels_then, processes_then};

use kpn_history::Event;
use kpn_lang::Sequence;
use kpn_net::Network;
use std::alloc::{AllocError, Global};

/// The figures of a channel.
#[derive(Clone, Copy)]
pub(crate) struct ChannelFigures {
    /// Items that were put on it or fed to it.
    pub(crate) put: usize,
    /// Items that were got or taken from it.
    pub(crate) read: usize,
    /// The most items that were unread at once.
    pub(crate) most: usize,
    /// How often its capacity grew.
    pub(crate) growths: usize,
    /// How often its reader came to wait for an item.
    pub(crate) waits_empty: usize,
    /// How often its writer came to wait for room.
    pub(crate) waits_full: usize,
}

/// The figures of a process.
#[derive(Clone, Copy)]
pub(crate) struct ProcessFigures {
    /// Items that it got.
    pub(crate) gets: usize,
    /// Items that it put.
    pub(crate) puts: usize,
    /// How often it came to wait for an item.
    pub(crate) waits_empty: usize,
    /// How often it came to wait for room.
    pub(crate) waits_full: usize,
}

/// The figures of a history: of each channel and of each process, in order of number.
#[derive(Drop)]
pub(crate) struct Figures {
    pub(crate) channels: Sequence<ChannelFigures>,
    pub(crate) processes: Sequence<ProcessFigures>,
}

impl Figures {
    /// The figures of channel `c`; empty if there is none.
    pub(crate) fn of_channel(&self, c: usize) -> ChannelFigures {
        self.channels
            .as_slice()
            .get(c)
            .copied()
            .unwrap_or(EMPTY_CHANNEL)
    }

    /// The figures of process `p`; empty if there is none.
    pub(crate) fn of_process(&self, p: usize) -> ProcessFigures {
        self.processes
            .as_slice()
            .get(p)
            .copied()
            .unwrap_or(EMPTY_PROCESS)
    }
}

const EMPTY_CHANNEL: ChannelFigures = ChannelFigures {
    put: 0,
    read: 0,
    most: 0,
    growths: 0,
    waits_empty: 0,
    waits_full: 0,
};

const EMPTY_PROCESS: ProcessFigures = ProcessFigures {
    gets: 0,
    puts: 0,
    waits_empty: 0,
    waits_full: 0,
};

/// The figures of these events. The error is that memory ran out.
pub(crate) fn count(
    alloc: Global,
    network: &Network,
    events: &[Event],
) -> Result<Figures, AllocError>
    ensures { IfOk result (AreFigures network.now events.now) }
{
    let mut channels = no_channels(alloc, network.channels())?;
    let mut processes = no_processes(alloc, network.instances())?;
    for k in 0..events.len() {
        count_on_channel(&mut channels, events[k]);
        count_of_process(&mut processes, events[k]);
    }
    Ok(Figures {
        channels: Sequence::from_vec(channels),
        processes: Sequence::from_vec(processes),
    })
}

// Figures of this many channels before the first event.
fn no_channels(alloc: Global, channels: usize) -> Result<Vec<ChannelFigures>, AllocError>
    ensures { IfOk result (λ figures. figures.items ≡ replicate channels no_channel) }
{
    Ok(vec![in alloc; EMPTY_CHANNEL; channels]?)
}

// Figures of this many processes before the first event.
fn no_processes(alloc: Global, processes: usize) -> Result<Vec<ProcessFigures>, AllocError>
    ensures { IfOk result (λ figures. figures.items ≡ replicate processes no_process) }
{
    Ok(vec![in alloc; EMPTY_PROCESS; processes]?)
}

fn count_on_channel(channels: &mut Vec<ChannelFigures>, event: Event)
    requires { (c : ℕ) → c < length channels.old.items
        → channel_total (slice_index_or channels.old.items c no_channel) + 1 < 2 ^ 64 }
    ensures { channels.new.items ≡ channels_then channels.old.items event }
{
    let Some(c) = event.channel() else {
        return;
    };
    if c < channels.len() {
        channels[c] = channel_then(channels[c], event);
    }
}

fn count_of_process(processes: &mut Vec<ProcessFigures>, event: Event)
    requires { (p : ℕ) → p < length processes.old.items
        → process_total (slice_index_or processes.old.items p no_process) + 1 < 2 ^ 64 }
    ensures { processes.new.items ≡ processes_then processes.old.items event }
{
    let Some(p) = event.process() else {
        return;
    };
    if p < processes.len() {
        processes[p] = process_then(processes[p], event);
    }
}

// The figures of a channel after one event on it.
fn channel_then(figures: ChannelFigures, event: Event) -> ChannelFigures
    requires { channel_total figures + 1 < 2 ^ 64 }
    ensures { result ≡ channel_then figures event }
{
    let mut figures = channel_counts_then(figures, event);
    let unread = figures.put.saturating_sub(figures.read);
    figures.most = figures.most.max(unread);
    figures
}

// The same, without the most unread items.
fn channel_counts_then(figures: ChannelFigures, event: Event) -> ChannelFigures
    requires { channel_total figures + 1 < 2 ^ 64 }
    ensures { result ≡ channel_counts_then figures event }
{
    let mut figures = figures;
    match event {
        Event::Put(_, _, _) | Event::Feed(_, _) => figures.put += 1,
        Event::Get(_, _, _) | Event::Take(_, _) => figures.read += 1,
        Event::WaitEmpty(_, _) => figures.waits_empty += 1,
        Event::WaitFull(_, _) => figures.waits_full += 1,
        Event::Grow(_, _, _) => figures.growths += 1,
        _ => {}
    }
    figures
}

// The figures of a process after one event of it.
fn process_then(figures: ProcessFigures, event: Event) -> ProcessFigures
    requires { process_total figures + 1 < 2 ^ 64 }
    ensures { result ≡ process_then figures event }
{
    let mut figures = figures;
    match event {
        Event::Get(_, _, _) => figures.gets += 1,
        Event::Put(_, _, _) => figures.puts += 1,
        Event::WaitEmpty(_, _) => figures.waits_empty += 1,
        Event::WaitFull(_, _) => figures.waits_full += 1,
        _ => {}
    }
    figures
}
