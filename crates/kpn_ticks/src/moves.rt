//! The gets and puts of a history, each with its tick and with what it waited for.
ghost use Rattle.std.specs.Prelude.{◌≡◌, ◌+◌, ◌<◌, ◌^◌, [], IfOk, OnOk};
ghost use Rattle.kpn_ticks.specs.Shown.{shown, AreClocks};
ghost use Rattle.kpn_ticks.specs.Chain.{wait_cause, move_at, move_of, with_move, course_then, course_of};
ghost use Rattle.kpn_ticks.specs.ChainShown.{logged};

use crate::clocks::Clocks;
use kpn_history::Event;
use kpn_net::Network;
use std::alloc::{AllocError, Global};

/// What a get or put waited for: it could begin no earlier.
#[derive(Clone, Copy)]
pub(crate) enum WaitCause {
    /// The get or put of its process before it.
    Own,
    /// The put of its item on this channel.
    Item(u16),
    /// Room on this channel.
    Room(u16),
}

/// A get or put.
#[derive(Clone, Copy)]
pub(crate) struct Move {
    pub(crate) process: u16,
    pub(crate) tick: usize,
    pub(crate) cause: WaitCause,
}

/// The clocks after some events, and the gets and puts among these.
#[derive(Drop)]
pub(crate) struct Log {
    pub(crate) clocks: Clocks,
    pub(crate) moves: Vec<Move>,
}

impl Log {
    /// After all of these events.
    pub(crate) fn of(alloc: Global, network: &Network, events: &[Event]) -> Result<Log, AllocError>
        ensures { IfOk result (λ log. logged log ≡ course_of network.now events.now) }
    {
        let mut log = Log::new(alloc, network, events.len())?;
        for k in 0..events.len() {
            log.count(network, events[k])?;
        }
        Ok(log)
    }

    // Before the first event, with room for this many gets and puts.
    fn new(alloc: Global, network: &Network, most: usize) -> Result<Log, AllocError>
        ensures { IfOk result (λ log. logged log ≡ course_of network.now []) }
    {
        let clocks = Clocks::new(alloc, network, true)?;
        let moves = Vec::with_capacity(alloc, most)?;
        Ok(Log { clocks, moves })
    }

    // Counts one event more.
    fn count(&mut self, network: &Network, event: Event) -> Result<(), AllocError>
        requires clocks { AreClocks network.now (shown self.old.clocks) }
        requires fits { (shown self.old.clocks).last + 1 < 2 ^ 64 }
        ensures { OnOk result (logged self.new ≡ course_then network.now (logged self.old) event) }
    {
        push_move(&mut self.moves, move_of(&self.clocks, network, event))?;
        self.clocks.count(network, event)?;
        Ok(())
    }
}

fn push_move(moves: &mut Vec<Move>, found: Option<Move>) -> Result<(), AllocError>
    ensures { OnOk result (moves.new.items ≡ with_move moves.old.items found) }
{
    if let Some(m) = found {
        moves.push(m)?;
    }
    Ok(())
}

// The get or put that an event is, if it is one.
fn move_of(clocks: &Clocks, network: &Network, event: Event) -> Option<Move>
    requires clocks { AreClocks network.now (shown clocks.now) }
    requires fits { (shown clocks.now).last + 1 < 2 ^ 64 }
    ensures { result ≡ move_of network.now (shown clocks.now) event }
{
    match event {
        Event::Get(p, c, _) => {
            let tick = clocks.get_tick(p.into(), c.into());
            Some(move_at(p, clocks.latest_of(p.into()), tick, WaitCause::Item(c)))
        }
        Event::Put(p, c, _) => {
            let tick = clocks.put_tick(network, p.into(), c.into());
            Some(move_at(p, clocks.latest_of(p.into()), tick, WaitCause::Room(c)))
        }
        _ => None,
    }
}

fn move_at(process: u16, latest: usize, tick: usize, other: WaitCause) -> Move
    ensures { result ≡ move_at process latest tick other }
{
    Move {
        process,
        tick,
        cause: cause_of(latest, tick, other),
    }
}

fn cause_of(latest: usize, tick: usize, other: WaitCause) -> WaitCause
    ensures { result ≡ wait_cause latest tick other }
{
    if tick.saturating_sub(latest) == 1 {
        WaitCause::Own
    } else {
        other
    }
}
