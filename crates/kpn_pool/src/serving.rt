//! What the calling thread does while the workers run: it feeds the sources and takes from the sinks.
use crate::beside::{Client, Feeder, Outside};
use crate::outside_calls::{close, feed_all, take_each, take_when_due};
use crate::shared::Shared;
use kpn_lang::Sequence;
use kpn_pool_desk::tuning::ITEMS_PER_FEED;
use kpn_pool_desk::{Job, Refused, SinkSeat, SourceSeat};
use std::sync::Wait;
use std::time::Clock;

/// Feeds each source its whole list and closes it, as on one thread, and takes from the sinks until all workers have
/// ended or what is wanted of the sinks was taken.
#[derive(Drop)]
pub(crate) struct Serving<'l> {
    lists: &'l [Sequence<i64>],
    wanted: Option<u64>,
    do_workers_take: bool,
    served: Result<(), Refused>,
}

impl<'l> Serving<'l> {
    /// Serves a run with these lists, one for each source, of whose sinks this many items are wanted. Its workers take
    /// from the sinks too, if they may.
    pub(crate) fn new(
        lists: &'l [Sequence<i64>],
        wanted: Option<u64>,
        do_workers_take: bool,
    ) -> Self {
        Serving {
            lists,
            wanted,
            do_workers_take,
            served: Ok(()),
        }
    }

    /// What became of the calls of the outside.
    pub(crate) fn served(&self) -> Result<(), Refused> {
        self.served
    }
}

impl<'l> Client for Serving<'l> {
    fn serve<J: Job, R: Wait + Clock>(&mut self, rt: &R, outside: Outside<'_, '_, J>) {
        if self.do_workers_take {
            outside.shared.let_workers_take(rt, self.wanted);
        }
        self.served = feed_and_take(rt, outside, self.lists, self.wanted);
    }
}

/// Feeds nothing. A run whose client feeds has none of these.
#[derive(Drop)]
pub(crate) struct Nobody;

impl Feeder for Nobody {
    fn feed<J: Job, R: Wait + Clock>(
        &self,
        _rt: &R,
        _shared: &Shared<'_, J>,
        _source: SourceSeat,
    ) {}
}

/// Feeds the sources, and then takes from the sinks until all workers have ended or what is wanted was taken.
fn feed_and_take<J: Job, R: Wait + Clock>(
    rt: &R,
    outside: Outside<'_, '_, J>,
    lists: &[Sequence<i64>],
    wanted: Option<u64>,
) -> Result<(), Refused> {
    let Outside { shared, mut ends } = outside;
    let sinks = ends.sinks.as_mut_slice();
    for (seat, list) in ends.sources.iter_mut().zip(lists) {
        feed_list(rt, shared, seat, list.as_slice(), sinks)?;
    }
    take_each(rt, shared, sinks)?;
    for _ in rt.forever() {
        forget_each(sinks);
        if shared.look(rt).desk().has_enough(wanted) || !take_when_due(rt, shared, sinks)? {
            return Ok(());
        }
    }
    unreachable!()
}

/// Feeds a source its list and closes it. After each batch the sinks are emptied, so that none holds the workers up. The
/// seats forget what the book has.
fn feed_list<J: Job, R: Wait>(
    rt: &R,
    shared: &Shared<'_, J>,
    seat: &mut SourceSeat,
    list: &[i64],
    sinks: &mut [SinkSeat],
) -> Result<(), Refused> {
    for items in list.chunks(ITEMS_PER_FEED) {
        feed_all(rt, shared, seat, items, usize::MAX)?;
        seat.forget();
        take_each(rt, shared, sinks)?;
        forget_each(sinks);
    }
    close(rt, shared, seat)
}

/// These seats forget what they took.
fn forget_each(seats: &mut [SinkSeat]) {
    for seat in seats {
        seat.forget();
    }
}
