//! The text that `kpn stats` writes of a legal history. Rows show its words and columns; the figures and times in it
//! are proved where they are counted.
ghost use Rattle.std.specs.Prelude.{◌≡◌, ◌<◌, length};

use crate::knots::Knots;
use crate::measured::Measured;
use crate::rates::{Rate, Timings};
use crate::shares::{STEP_WORDS, TICK_WORDS, push_shares};
use kpn_audit::Audit;
use kpn_command_base::{Pushed, StatsTables, TableRow, TextTable, parameters_of};
use kpn_deadlock::rings;
use kpn_history::Trace;
use kpn_net::Wait;
use kpn_text::Document;
use kpn_trace::how_word;
use std::alloc::{AllocError, Global};

/// The headings of the two tables.
const CHANNEL_HEADINGS: [&str; 12] = [
    "channel",
    "put",
    "read",
    "left",
    "most",
    "cap_first",
    "cap_last",
    "growths",
    "waits_empty",
    "waits_full",
    "complete",
    "cap_shortest",
];

const PROCESS_HEADINGS: [&str; 9] = [
    "process",
    "gets",
    "puts",
    "steps",
    "waits_empty",
    "waits_full",
    "end",
    "bounds",
    "parameters",
];

/// A legal history of the document's network: what an audit found after it, and what was measured of it.
#[derive(Clone, Copy)]
pub(crate) struct MeasuredRun<'a> {
    pub(crate) document: &'a Document,
    pub(crate) trace: &'a Trace,
    pub(crate) audit: &'a Audit,
    pub(crate) measured: &'a Measured,
}

/// The tables of a history.
pub(crate) fn text_of(
    alloc: Global,
    tables: StatsTables,
    told: MeasuredRun<'_>,
) -> Result<Vec<u8>, AllocError> {
    let mut text = String::new(alloc);
    match tables {
        StatsTables::People => {
            told.push_head(alloc, &mut text)?;
            text.push_str("\n")?;
            told.channel_table(alloc)?.push_aligned(alloc, &mut text)?;
            text.push_str("\n")?;
            told.process_table(alloc)?.push_aligned(alloc, &mut text)?;
            text.push_str("\n")?;
            told.push_advice(alloc, &mut text)?;
        }
        StatsTables::Channels => told.channel_table(alloc)?.push_tabbed(&mut text)?,
        StatsTables::Processes => told.process_table(alloc)?.push_tabbed(&mut text)?,
    }
    Ok(text.into_bytes())
}

impl MeasuredRun<'_> {
    fn push_head(self, alloc: Global, text: &mut String) -> Pushed {
        let times = &self.measured.times;
        let (shares, steps) = (times.shares.as_slice(), self.measured.steps.as_slice());
        self.push_lengths(text)?;
        self.push_rates(alloc, text)?;
        push_shares(
            alloc,
            text,
            self.document,
            TICK_WORDS,
            shares,
            times.bounded.last(),
        )?;
        push_shares(alloc, text, self.document, STEP_WORDS, steps, sum_of(steps))?;
        self.push_rings(alloc, text)
    }

    // The lengths of the run, and how much happens in it: gets and puts in a tick to hundredths.
    fn push_lengths(self, text: &mut String) -> Pushed {
        let times = &self.measured.times;
        let (length, shortest) = (times.bounded.last(), times.free.last());
        let word = TICK_WORDS.word(length);
        write!(text, "length {length} {word}, ")?;
        write!(text, "{shortest} without capacities\n")?;
        let (events, moves) = (times.events, times.moves);
        write!(text, "events {events}, gets and puts {moves}, in a tick ")?;
        if length == 0 {
            return text.push_str("-\n");
        }
        push_hundredths(text, moves, length)?;
        text.push_str("\n")
    }

    // A line for each sink with two items or more.
    fn push_rates(self, alloc: Global, text: &mut String) -> Pushed {
        let network = self.document.network();
        let clocks = &self.measured.times.bounded;
        let events = self.trace.events.as_slice();
        let timings = Timings::of(alloc, network, clocks, events, self.audit)?;
        for c in 0..network.channels() {
            let ticks = clocks.written_of(c);
            if network.is_sink(c) && 1 < ticks.len() {
                let rate = timings.rate_of(alloc, network, self.audit, c)?;
                push_rate(text, self.document.channel_name(c), rate, ticks)?;
            }
        }
        Ok(())
    }

    // A line for each ring: `deadlock` and the names of its members.
    fn push_rings(self, alloc: Global, text: &mut String) -> Pushed {
        let waits = self.audit.waits.as_slice();
        let rings = rings(alloc, self.document.network(), waits)?;
        for members in rings.as_slice() {
            text.push_str("deadlock")?;
            for p in members.as_slice() {
                write!(text, " {}", self.document.instance_name(*p))?;
            }
            text.push_str("\n")?;
        }
        Ok(())
    }

    // A row for each channel.
    fn channel_table(self, alloc: Global) -> Result<TextTable, AllocError> {
        let mut table = TextTable::new(alloc, &CHANNEL_HEADINGS)?;
        for c in 0..self.document.network().channels() {
            table.add(self.channel_row(alloc, c)?)?;
        }
        Ok(table)
    }

    fn channel_row(self, alloc: Global, c: usize) -> Result<TableRow, AllocError>
        requires { c < length self.document.now.tables.channels }
    {
        let mut row = TableRow::new(alloc, self.document.channel_name(c))?;
        let first = self.document.network().cap_of(c);
        let figures = self.measured.figures.of_channel(c);
        row.add_number(Some(figures.put))?;
        row.add_number(Some(figures.read))?;
        row.add_number(Some(figures.put.saturating_sub(figures.read)))?;
        row.add_number(Some(figures.most))?;
        row.add_number(first.map(|cap| cap as usize))?;
        row.add_number(self.last_cap(c))?;
        row.add_number(Some(figures.growths))?;
        row.add_number(Some(figures.waits_empty))?;
        row.add_number(Some(figures.waits_full))?;
        let complete = self.audit.complete.as_slice();
        row.add(if complete.get(c).copied().unwrap_or(false) {
            "yes"
        } else {
            "no"
        })?;
        row.add_number(first.map(|_| self.measured.times.free.capacity_needed(c)))?;
        Ok(row)
    }

    // The capacity of a channel after the history; none for a source.
    fn last_cap(self, c: usize) -> Option<usize> {
        match self.audit.caps.as_slice().get(c) {
            Some(Some(cap)) => Some(*cap as usize),
            _ => None,
        }
    }

    // A row for each process.
    fn process_table(self, alloc: Global) -> Result<TextTable, AllocError> {
        let mut table = TextTable::new(alloc, &PROCESS_HEADINGS)?;
        for p in 0..self.document.network().instances() {
            table.add(self.process_row(alloc, p)?)?;
        }
        Ok(table)
    }

    fn process_row(self, alloc: Global, p: usize) -> Result<TableRow, AllocError>
        requires { p < length self.document.now.tables.instances }
    {
        let mut row = TableRow::new(alloc, self.document.instance_name(p))?;
        let figures = self.measured.figures.of_process(p);
        row.add_number(Some(figures.gets))?;
        row.add_number(Some(figures.puts))?;
        row.add_number(Some(self.measured.steps.get(p).copied().unwrap_or(0)))?;
        row.add_number(Some(figures.waits_empty))?;
        row.add_number(Some(figures.waits_full))?;
        let end = self.end_of(alloc, p)?;
        row.add(end.as_str())?;
        let shares = self.measured.times.shares.as_slice();
        row.add_number(Some(shares.get(p).copied().unwrap_or(0)))?;
        let parameters = parameters_of(alloc, self.document, p)?;
        row.add(parameters.as_str().strip_prefix(' ').unwrap_or("-"))?;
        Ok(row)
    }

    // How a process ended, or else what it waits for.
    fn end_of(self, alloc: Global, p: usize) -> Result<String, AllocError> {
        if let Some(Some(how)) = self.audit.ends.as_slice().get(p) {
            return String::from_str(alloc, how_word(*how));
        }
        match self.audit.waits.as_slice().get(p) {
            Some(Wait::Empty(c)) => format!(in alloc; "waits {}", self.document.channel_name(*c)),
            Some(Wait::Full(c)) => {
                format!(in alloc; "waits {} full", self.document.channel_name(*c))
            }
            _ => String::from_str(alloc, "-"),
        }
    }

    // The advice on each channel with a capacity. One that jams the run could use one item more at least.
    fn push_advice(self, alloc: Global, text: &mut String) -> Pushed {
        let knots = Knots::of(alloc, self.document.network(), Some(self.audit))?;
        let times = &self.measured.times;
        let is_shortest = times.bounded.last() == times.free.last();
        for c in 0..self.document.network().channels() {
            let Some(last) = self.last_cap(c) else {
                continue;
            };
            let needed = if is_shortest {
                times.bounded.capacity_needed(c).min(last)
            } else {
                times.free.capacity_needed(c)
            };
            let needed = if knots.jams(self.audit, c) {
                needed.max(last.saturating_add(1))
            } else {
                needed
            };
            self.push_capacity(text, c, needed, last)?;
        }
        Ok(())
    }

    // The advice on a channel that has this last capacity and could use another. None may be above the limit.
    fn push_capacity(self, text: &mut String, c: usize, needed: usize, last: usize) -> Pushed {
        let name = self.document.channel_name(c);
        let limit = self.document.network().limit();
        if needed > limit as usize {
            write!(text, "{name}: cap {needed} would be advised, ")?;
            write!(text, "but the limit is {limit}\n")
        } else if needed > last {
            write!(text, "{name}: cap {needed} is advised, ")?;
            write!(text, "and it has {last}\n")
        } else {
            write!(text, "{name}: cap {needed} is advised\n")
        }
    }
}

// A quotient, rounded down to hundredths.
fn push_hundredths(text: &mut String, part: usize, whole: usize) -> Pushed
    requires { 0 < whole }
{
    let n = part as u128 * 100 / whole as u128;
    write!(text, "{}.{}{}", n / 100, n / 10 % 10, n % 10)
}

// How many ticks an item of a sink takes in a period, or else how many items there are by the last of these ticks.
fn push_rate(text: &mut String, name: &str, rate: Option<Rate>, ticks: &[usize]) -> Pushed {
    match rate {
        Some(Rate { ticks, items }) if 0 < items => {
            write!(text, "{name} takes ")?;
            push_hundredths(text, ticks, items)?;
            text.push_str(" ticks an item\n")
        }
        _ => {
            let (items, last) = (ticks.len(), ticks.last().copied().unwrap_or(0));
            write!(
                text,
                "{name} has {items} items by tick {last}, without a period\n"
            )
        }
    }
}

fn sum_of(numbers: &[usize]) -> usize {
    let mut sum = 0usize;
    for number in numbers {
        sum = sum.saturating_add(*number);
    }
    sum
}
