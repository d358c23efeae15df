//! How many ticks an item of a sink takes, if all that gives it items does the same again and again. Rows show it.

use kpn_audit::Audit;
use kpn_history::Event;
use kpn_net::{End, Network, Wait};
use kpn_ticks::Clocks;
use std::alloc::{AllocError, Global};

/// This many items take this many ticks.
#[derive(Clone, Copy)]
pub(crate) struct Rate {
    pub(crate) ticks: usize,
    pub(crate) items: usize,
}

/// A get or a put, and how many ticks it comes after the one before it in its process.
#[derive(Clone, Copy, PartialEq, Eq)]
struct TimedMove {
    channel: usize,
    is_put: bool,
    gap: usize,
}

/// The gets and puts of a process in order, the last tick of them, and how many of the last ones come again and again:
/// 0 if none do.
#[derive(Drop)]
struct ProcessTiming {
    moves: Vec<TimedMove>,
    last: usize,
    period: usize,
}

impl ProcessTiming {
    fn new(alloc: Global) -> ProcessTiming {
        ProcessTiming {
            moves: Vec::new(alloc),
            last: 0,
            period: 0,
        }
    }

    fn add(&mut self, channel: usize, is_put: bool, tick: usize) -> Result<(), AllocError> {
        let gap = tick.saturating_sub(self.last);
        self.moves.push(TimedMove {
            channel,
            is_put,
            gap,
        })?;
        self.last = tick;
        Ok(())
    }

    // Finds the period. It is none of a process that waits for another move than the one with which it begins.
    fn find_period(&mut self, alloc: Global, wait: Wait) -> Result<(), AllocError> {
        let count = self.moves.len();
        let period = period_of(alloc, &self.moves[count / 3..])?;
        let is_next = match self.moves.get(count.saturating_sub(period)) {
            Some(next) => match wait {
                Wait::Empty(c) => !next.is_put && next.channel == c,
                Wait::Full(c) => next.is_put && next.channel == c,
                Wait::Nobody => true,
            },
            None => false,
        };
        self.period = if is_next { period } else { 0 };
        Ok(())
    }

    // The tick of the last move of the first third.
    fn begin(&self) -> usize {
        let mut tick = 0usize;
        for timed in &self.moves[..self.moves.len() / 3] {
            tick = tick.saturating_add(timed.gap);
        }
        tick
    }

    // How many ticks the items take that it puts on a channel in a period; none if it puts none there.
    fn rate_on(&self, c: usize) -> Option<Rate> {
        let mut rate = Rate { ticks: 0, items: 0 };
        for timed in self.moves.iter().rev().take(self.period) {
            rate.ticks = rate.ticks.saturating_add(timed.gap);
            if timed.is_put && timed.channel == c {
                rate.items = rate.items.saturating_add(1);
            }
        }
        if rate.items == 0 { None } else { Some(rate) }
    }
}

/// The timings of the processes in a history.
#[derive(Drop)]
pub(crate) struct Timings {
    timings: Vec<ProcessTiming>,
}

impl Timings {
    /// The timings after events that end with these clocks, which an audit found legal.
    pub(crate) fn of(
        alloc: Global,
        network: &Network,
        clocks: &Clocks,
        events: &[Event],
        audit: &Audit,
    ) -> Result<Timings, AllocError> {
        let mut timings = timed(alloc, network, clocks, events)?;
        for (timing, wait) in timings.iter_mut().zip(audit.waits.as_slice()) {
            timing.find_period(alloc, *wait)?;
        }
        Ok(Timings { timings })
    }

    /// How many ticks the items of a channel take, if its writer has a period, and so has each process that this gets
    /// items from, by whatever way. One that had ended before the last two thirds of the writer's moves needs none.
    pub(crate) fn rate_of(
        &self,
        alloc: Global,
        network: &Network,
        audit: &Audit,
        c: usize,
    ) -> Result<Option<Rate>, AllocError> {
        let feeders = feeders_of(alloc, network, c)?;
        let Some(writer) = feeders.first().and_then(|p| self.timings.get(*p)) else {
            return Ok(None);
        };
        let begin = writer.begin();
        for p in &feeders {
            let has_ended = matches!(audit.ends.as_slice().get(*p), Some(Some(_)));
            let Some(timing) = self.timings.get(*p) else {
                continue;
            };
            let is_over = has_ended && timing.last < begin;
            if timing.period == 0 && !is_over {
                return Ok(None);
            }
        }
        Ok(writer.rate_on(c))
    }
}

// The gets and puts of each process, without their periods.
fn timed(
    alloc: Global,
    network: &Network,
    clocks: &Clocks,
    events: &[Event],
) -> Result<Vec<ProcessTiming>, AllocError> {
    let mut timings = Vec::with_capacity(alloc, network.instances())?;
    for _p in 0..network.instances() {
        timings.push(ProcessTiming::new(alloc))?;
    }
    let mut written = vec![in alloc; 0usize; network.channels()]?;
    let mut read = vec![in alloc; 0usize; network.channels()]?;
    for event in events {
        let (c, is_put) = match *event {
            Event::Put(_, c, _) | Event::Feed(c, _) => (usize::from(c), true),
            Event::Get(_, c, _) | Event::Take(c, _) => (usize::from(c), false),
            _ => continue,
        };
        let tick = if is_put {
            next_tick(clocks.written_of(c), &mut written, c)
        } else {
            next_tick(clocks.read_of(c), &mut read, c)
        };
        if let Some(timing) = event.process().and_then(|p| timings.get_mut(p)) {
            timing.add(c, is_put, tick)?;
        }
    }
    Ok(timings)
}

// The tick at the place of a channel in its ticks, which moves on by one.
fn next_tick(ticks: &[usize], places: &mut [usize], c: usize) -> usize {
    if places.len() <= c {
        return 0;
    }
    let tick = ticks.get(places[c]).copied().unwrap_or(0);
    places[c] = places[c].saturating_add(1);
    tick
}

// The least number of moves of which the last ones are those before them, and so on to the first, at least twice; 0 if
// there is none. This is how much is left of the moves without their longest border, as in the search of Knuth, Morris
// and Pratt: a border is a proper beginning that is also an end.
fn period_of(alloc: Global, moves: &[TimedMove]) -> Result<usize, AllocError> {
    let mut borders = Vec::with_capacity(alloc, moves.len())?;
    let mut border = 0usize;
    for place in 0..moves.len() {
        border = match place {
            0 => 0,
            _ => next_border(moves, &borders, border, place),
        };
        borders.push(border)?;
    }
    let period = moves.len().saturating_sub(border);
    Ok(if period <= moves.len() / 2 { period } else { 0 })
}

// The longest border of the moves up to this place, by those of the moves before.
fn next_border(moves: &[TimedMove], borders: &[usize], last: usize, place: usize) -> usize {
    let mut border = last;
    for _shorter in 0..place {
        if moves.get(border) == moves.get(place) {
            return border.saturating_add(1);
        }
        if border == 0 {
            break;
        }
        border = borders.get(border - 1).copied().unwrap_or(0);
    }
    0
}

// The process that puts items on a channel, those from which it gets items, and so on.
fn feeders_of(alloc: Global, network: &Network, c: usize) -> Result<Vec<usize>, AllocError> {
    let mut feeders = Vec::new(alloc);
    add_writer(&mut feeders, network, c)?;
    for k in 0..network.instances() {
        let Some(p) = feeders.get(k).copied() else {
            break;
        };
        if p < network.instances() {
            for d in network.ins(p) {
                add_writer(&mut feeders, network, *d)?;
            }
        }
    }
    Ok(feeders)
}

fn add_writer(feeders: &mut Vec<usize>, network: &Network, c: usize) -> Result<(), AllocError> {
    if c < network.channels() {
        if let End::Process(p) = network.writer_of(c) {
            if !feeders.contains(&p) {
                feeders.push(p)?;
            }
        }
    }
    Ok(())
}
