//! Regions that are a whole network and run by themselves. What they do is worked by hand.
ghost use Rattle.std.specs.Prelude.{◌≡◌, length};
ghost use Rattle.kpn_region.specs.Batch.{IsFresh};
ghost use Rattle.kpn_machine.specs.Machine.{IsMachine};

use crate::feeding::feed;
use crate::scenes::{self, Scene};
use kpn_history::Event;
use kpn_lang::Fault;
use kpn_machine::Machine;
use kpn_net::Network;
use kpn_region::Batch;
use kpn_step::{Frame, Stop};
use std::alloc::{AllocError, Global};
use std::process::Abort;
use std::test::Fail;

const TWO_COPIES: &str = "
process copy(in i; out o) { while 1 { read i x; write o x; } }
network {
  source a; channel b cap 1; sink z cap 1;
  first = copy(a; b); second = copy(b; z);
}";

const WIDE_COPIES: &str = "
process copy(in i; out o) { while 1 { read i x; write o x; } }
network {
  source a; channel b cap 8; sink z cap 1;
  first = copy(a; b); second = copy(b; z);
}";

const REST: &str = "
process rest(in i; out o) { while 1 { read i x; write o (10 % x); } }
network { source a; sink z cap 1; rest = rest(a; z); }";

const CROSSED: &str = "
process p(out a, b) { write a 1; write a 2; write b 3; }
process q(in a, b; out z) { read b x; read a y; write z (x + y); }
network {
  channel a cap 1; channel b cap 1; sink z cap 1;
  p = p(; a, b); q = q(a, b; z);
}";

const SPINS: &str = "
process spin(out o) { while 1 { } write o 1; }
network { sink z cap 1; spin = spin(; z); }";

/// A network, what is claimed of it, how often it is run, the events that this makes, and where its processes can't go
/// on then.
#[derive(Clone, Copy)]
pub struct Row<'a> {
    text: &'a str,
    items: &'a [i64],
    drains: bool,
    budget: u32,
    times: u32,
    events: &'a [Event],
    stops: &'a [Option<Stop>],
}

const THROUGH: Row<'static> = Row {
    text: TWO_COPIES,
    items: &[5, 6],
    drains: true,
    budget: 100,
    times: 1,
    events: &[
        Event::Get(0, 0, 5),
        Event::Put(0, 1, 5),
        Event::Get(1, 1, 5),
        Event::Put(1, 2, 5),
        Event::Take(2, 5),
        Event::Get(0, 0, 6),
        Event::Put(0, 1, 6),
        Event::Get(1, 1, 6),
        Event::Put(1, 2, 6),
        Event::Take(2, 6),
    ],
    stops: &[Some(Stop::WantRead(0)), Some(Stop::WantRead(0))],
};

const LEFT_FULL: Row<'static> = Row {
    text: TWO_COPIES,
    items: &[5, 6, 7],
    drains: false,
    budget: 100,
    times: 2,
    events: &[
        Event::Get(0, 0, 5),
        Event::Put(0, 1, 5),
        Event::Get(1, 1, 5),
        Event::Put(1, 2, 5),
        Event::Get(0, 0, 6),
        Event::Put(0, 1, 6),
        Event::Get(1, 1, 6),
        Event::Get(0, 0, 7),
        Event::Put(0, 1, 7),
    ],
    stops: &[Some(Stop::WantRead(0)), Some(Stop::WantWrite(0, 6))],
};

/// Claims all of a network: its processes at their starts, these items of each source, and the room of the others.
fn claim_all(
    network: &Network,
    batch: &mut Batch<'_>,
    items: &[i64],
    drains: bool,
) -> Result<(), AllocError>
    requires tables { batch.old.tables ≡ network.now }
    requires fresh { IsFresh batch.old }
    ensures { batch.new.tables ≡ network.now }
{
    network.known();
    'processes: for p in 0..network.instances() {
        let frame = Frame::try_start(network.program(p), network.pars(p))?;
        batch.claim_process(p, &frame, true);
    }
    'channels: for c in 0..network.channels() {
        match network.cap_of(c) {
            None => batch.claim_channel(c, items, 0, false)?,
            Some(cap) => batch.claim_channel(c, &[], cap.into(), drains && network.is_sink(c))?,
        }
    }
    Ok(())
}

/// Runs a region, and tells whether it has made the events of its row and stands where that says.
fn plays(network: &Network, batch: &mut Batch<'_>, row: &Row<'_>) -> Result<bool, AllocError>
    requires tables { batch.old.tables ≡ network.now }
    requires fresh { IsFresh batch.old }
    ensures { batch.new.tables ≡ network.now }
{
    claim_all(network, batch, row.items, row.drains)?;
    'times: for _time in 0..row.times {
        batch.run(10, row.budget)?;
    }
    Ok(*batch.events() == *row.events && are_stopped(network, batch, row.stops))
}

/// Whether the processes can't go on from these stops.
fn are_stopped(network: &Network, batch: &Batch<'_>, stops: &[Option<Stop>]) -> bool
    requires { batch.now.tables ≡ network.now }
{
    if network.instances() != stops.len() {
        return false;
    }
    'stops: for p in 0..network.instances() {
        if batch.stop(p) != stops[p] {
            return false;
        }
    }
    true
}

/// Claims and runs a network, as `plays` does.
pub fn runs(alloc: Global, network: &Network, row: &Row<'_>) -> Result<bool, AllocError> {
    let mut batch = Batch::new(alloc, network)?;
    let played = plays(network, &mut batch, row);
    drop(batch);
    played
}

/// Where a channel is wide, a process goes on until it can't.
const WIDE: Row<'static> = Row {
    text: WIDE_COPIES,
    items: &[5, 6],
    drains: true,
    budget: 100,
    times: 1,
    events: &[
        Event::Get(0, 0, 5),
        Event::Put(0, 1, 5),
        Event::Get(0, 0, 6),
        Event::Put(0, 1, 6),
        Event::Get(1, 1, 5),
        Event::Put(1, 2, 5),
        Event::Take(2, 5),
        Event::Get(1, 1, 6),
        Event::Put(1, 2, 6),
        Event::Take(2, 6),
    ],
    stops: &[Some(Stop::WantRead(0)), Some(Stop::WantRead(0))],
};

/// The same as with capacity 1, by a budget of one: each event, and each turn without one, is a run of its own, and the
/// next process has its turn then.
const BY_ONE: Row<'static> = Row {
    text: TWO_COPIES,
    items: &[5, 6],
    drains: true,
    budget: 1,
    times: 11,
    events: &[
        Event::Get(0, 0, 5),
        Event::Put(0, 1, 5),
        Event::Get(1, 1, 5),
        Event::Get(0, 0, 6),
        Event::Put(1, 2, 5),
        Event::Take(2, 5),
        Event::Put(0, 1, 6),
        Event::Get(1, 1, 6),
        Event::Put(1, 2, 6),
        Event::Take(2, 6),
    ],
    stops: &[Some(Stop::WantRead(0)), Some(Stop::WantRead(0))],
};

const FAULTED: Row<'static> = Row {
    text: REST,
    items: &[3, 0],
    drains: true,
    budget: 100,
    times: 1,
    events: &[
        Event::Get(0, 0, 3),
        Event::Put(0, 1, 1),
        Event::Take(1, 1),
        Event::Get(0, 0, 0),
    ],
    stops: &[Some(Stop::Faulted(Fault::ZeroDivisor))],
};

const CYCLE: Row<'static> = Row {
    text: CROSSED,
    items: &[],
    drains: true,
    budget: 100,
    times: 1,
    events: &[Event::Put(0, 0, 1)],
    stops: &[Some(Stop::WantWrite(0, 2)), Some(Stop::WantRead(1))],
};

const PAUSED: Row<'static> = Row {
    text: SPINS,
    items: &[],
    drains: true,
    budget: 2000,
    times: 1,
    events: &[],
    stops: &[Some(Stop::Paused)],
};

/// Each process has its turns until it can't go on, with capacity 1 and on a wide channel, and what comes to the sink is
/// taken at once. A sink that is not emptied has the room that it had at the claim.
const RUNS: [(&str, Row<'static>); 7] = [
    ("runs_until_all_are_stuck", THROUGH),
    ("goes_on_where_a_channel_is_wide", WIDE),
    ("runs_by_budgets_of_one", BY_ONE),
    ("uses_up_the_room", LEFT_FULL),
    ("stops_where_it_cannot_go_on: a fault", FAULTED),
    ("stops_where_it_cannot_go_on: a cycle of waits", CYCLE),
    (
        "stops_where_it_cannot_go_on: a process that is only paused",
        PAUSED,
    ),
];

#[test]
fn regions_run_as_these_rows_say(rt: HostRuntime) -> Result<(), Fail> {
    for (name, row) in &RUNS {
        assert!(rt;
            scenes::plays(&rt, rt.alloc(), row.text, Scene::Runs(row))?,
            "{name}"
        );
    }
    Ok(())
}

/// Feeds each source with these items, and makes each channel roomy, or not.
fn make_ready(
    rt: &impl Abort,
    network: &Network,
    machine: &mut Machine,
    items: &[i64],
    roomy: bool,
) -> Result<(), AllocError>
    requires { IsMachine network.now machine.old }
    ensures { IsMachine network.now machine.new }
{
    'channels: for c in 0..network.channels() {
        if network.is_source(c) {
            'items: for item in items {
                let _woken = feed(rt, network, machine, c, *item)?;
            }
        }
        if roomy {
            machine.make_roomy(c)?;
        }
    }
    Ok(())
}

/// Whether as many items were read from each channel, are unread there, and ever were, as these counts say, and whether
/// each process is where it is in the batch.
fn stands_so(
    network: &Network,
    machine: &Machine,
    batch: &Batch<'_>,
    counts: &[(usize, usize, usize)],
) -> bool
    requires channels { length machine.now.channels ≡ length network.now.channels }
    requires frames { length machine.now.frames ≡ length network.now.instances }
    requires tables { batch.now.tables ≡ network.now }
{
    if network.channels() != counts.len() {
        return false;
    }
    'counts: for c in 0..counts.len() {
        let channel = machine.channel(c);
        if (channel.read_count(), channel.len(), channel.most()) != counts[c] {
            return false;
        }
    }
    'frames: for p in 0..network.instances() {
        if *machine.frame(p) != *batch.frame(p) {
            return false;
        }
    }
    true
}

/// Runs a whole network as a region beside a machine, and joins it: whether that stands then as these counts say.
/// If the channels are not made roomy, the batch does not agree with the machine.
pub fn joins(
    rt: &impl Abort,
    alloc: Global,
    network: &Network,
    row: &Row<'_>,
    counts: &[(usize, usize, usize)],
) -> Result<bool, AllocError> {
    let mut batch = Batch::new(alloc, network)?;
    let mut bare = Machine::new(alloc, network)?;
    let mut machine = Machine::new(alloc, network)?;
    make_ready(rt, network, &mut bare, row.items, false)?;
    make_ready(rt, network, &mut machine, row.items, true)?;
    let played = plays(network, &mut batch, row)?;
    let is_refused = !batch.agrees_with(&bare);
    if !batch.agrees_with(&machine) {
        return Ok(false);
    }
    batch.join(&mut machine);
    let stands = stands_so(network, &machine, &batch, counts);
    drop(bare);
    drop(batch);
    Ok(played && is_refused && stands)
}

/// Each item goes through, or the sink is left full. What is put and taken in the batch counts as read.
#[test]
fn joins_what_it_has_done(rt: HostRuntime) -> Result<(), Fail> {
    let rows: [(Row<'_>, [(usize, usize, usize); 3]); 2] = [
        (THROUGH, [(2, 0, 2), (2, 0, 1), (2, 0, 1)]),
        (LEFT_FULL, [(3, 0, 3), (2, 1, 1), (0, 1, 1)]),
    ];
    for (row, counts) in &rows {
        assert!(rt;
            scenes::plays(
                &rt,
                rt.alloc(),
                row.text,
                Scene::Joins(row, counts.as_slice())
            )?
        );
    }
    Ok(())
}
