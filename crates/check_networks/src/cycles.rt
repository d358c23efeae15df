//! Worked tables of waits, with what each search and a scan find, and a table that gets no memory.
ghost use Rattle.std.specs.Prelude.{IsTrue, IfOk};
ghost use Rattle.kpn_net.specs.Waits.{IsOwnWait, AreWaits};

use crate::scenes::{Scene, plays};
use kpn_cycle::Wait::{Empty, Full, Nobody};
use kpn_cycle::{Found, Wait, Waits, cycle_through, scan_all};
use kpn_net::{End, Network};
use linked_list_allocator::LocalHeap;
use std::alloc::{AllocError, Global};
use std::process::Abort;
use std::test::Fail;

fn is_own_wait(network: &Network, p: usize, wait: Wait) -> bool
    ensures { IsTrue result → IsOwnWait network.now p wait }
{
    match wait {
        Nobody => true,
        Empty(c) => c < network.channels() && network.reader_of(c) == End::Process(p),
        Full(c) => c < network.channels() && network.writer_of(c) == End::Process(p),
    }
}

// The table of these waits, each of which must be on a channel of its process.
fn table(
    rt: &impl Abort,
    alloc: Global,
    network: &Network,
    list: &[Wait],
) -> Result<Waits, AllocError>
    ensures { IfOk result (λ waits. AreWaits network.now waits) }
{
    let mut waits = Waits::new(alloc, network.instances())?;
    for (p, wait) in list.iter().enumerate() {
        assert!(rt; p < network.instances());
        assert!(rt; is_own_wait(network, p, *wait));
        waits.set(p, *wait);
        assert_eq!(rt; waits.get(p), *wait);
    }
    Ok(waits)
}

/// Waits and capacities, what the search from each process in order finds, and what a scan finds.
pub type Row<'a> = (&'a [Wait], &'a [u32], &'a [Found], Found);

// Whether the searches and the scan along these waits find what a row says.
fn finds(rt: &impl Abort, network: &Network, waits: &Waits, row: &Row<'_>) -> bool
    requires { AreWaits network.now waits.now }
{
    let (_, caps, wanted, scanned) = row;
    assert_eq!(rt; caps.len(), network.channels());
    assert_eq!(rt; wanted.len(), network.instances());
    let mut all = scan_all(network, waits, caps) == *scanned;
    for (p, want) in wanted.iter().enumerate() {
        all = all && cycle_through(network, waits, caps, p) == *want;
    }
    all
}

/// Whether they do for each row.
pub fn find_all(
    rt: &impl Abort,
    alloc: Global,
    network: &Network,
    rows: &[Row<'_>],
) -> Result<bool, AllocError> {
    for (k, row) in rows.iter().enumerate() {
        let waits = table(rt, alloc, network, row.0)?;
        assert!(rt; finds(rt, network, &waits, row), "row {k}");
    }
    Ok(true)
}

// The writer of the full channel 0 and the reader of the empty channel 1.
const PAIR: [Row<'static>; 3] = [
    (
        &[Full(0), Empty(1)],
        &[1, 1, 1],
        &[Found::Full(0), Found::Full(0)],
        Found::Full(0),
    ),
    (
        &[Nobody, Nobody],
        &[1, 1, 1],
        &[Found::NoCycle, Found::NoCycle],
        Found::NoCycle,
    ),
    (
        &[Full(0), Full(2)],
        &[1, 1, 1],
        &[Found::NoCycle, Found::NoCycle],
        Found::NoCycle,
    ),
];

// The same at the limit.
const PAIR_AT_LIMIT: [Row<'static>; 1] = [(
    &[Full(0), Empty(1)],
    &[1, 1, 1],
    &[Found::Full(0), Found::Full(0)],
    Found::NoCycle,
)];

// Process 0, which writes to process 1, is on no cycle of processes 1 and 2, which write to each other.
const TAIL: [Row<'static>; 3] = [
    (
        &[Full(0), Empty(1), Empty(2)],
        &[1, 3, 2],
        &[Found::NoCycle, Found::AllEmpty, Found::AllEmpty],
        Found::NoCycle,
    ),
    (
        &[Full(0), Full(2), Full(1)],
        &[1, 3, 2],
        &[Found::NoCycle, Found::Full(2), Found::Full(2)],
        Found::Full(2),
    ),
    (
        &[Full(0), Full(2), Nobody],
        &[1, 3, 2],
        &[Found::NoCycle, Found::NoCycle, Found::NoCycle],
        Found::NoCycle,
    ),
];

// A process that reads what it writes.
const SELF_LOOP: [Row<'static>; 3] = [
    (&[Full(0)], &[8, 1], &[Found::Full(0)], Found::Full(0)),
    (&[Empty(0)], &[8, 1], &[Found::AllEmpty], Found::NoCycle),
    (&[Full(1)], &[8, 1], &[Found::NoCycle], Found::NoCycle),
];

// Processes 0 and 1 write to each other, and so do 2 and 3.
const TWO_PAIRS: [Row<'static>; 4] = [
    (
        &[Full(0), Full(1), Full(2), Full(3)],
        &[5, 4, 3, 2],
        &[
            Found::Full(1),
            Found::Full(1),
            Found::Full(3),
            Found::Full(3),
        ],
        Found::Full(1),
    ),
    (
        &[Full(0), Full(1), Full(2), Full(3)],
        &[9, 9, 8, 9],
        &[
            Found::Full(0),
            Found::Full(0),
            Found::Full(2),
            Found::Full(2),
        ],
        Found::Full(2),
    ),
    (
        &[Full(0), Full(1), Full(2), Full(3)],
        &[9, 9, 9, 9],
        &[
            Found::Full(0),
            Found::Full(0),
            Found::Full(2),
            Found::Full(2),
        ],
        Found::NoCycle,
    ),
    (
        &[Empty(1), Empty(0), Full(2), Empty(2)],
        &[1, 1, 7, 1],
        &[
            Found::AllEmpty,
            Found::AllEmpty,
            Found::Full(2),
            Found::Full(2),
        ],
        Found::Full(2),
    ),
];

// Each of five processes writes to the next, and the last to the first; all wait as full.
const RING: &[Wait] = &[Full(0), Full(1), Full(2), Full(3), Full(4)];

const SMALLEST_OF_RING: [Row<'static>; 8] = [
    (RING, &[1, 2, 3, 4, 5], &[Found::Full(0); 5], Found::Full(0)),
    (RING, &[5, 4, 1, 2, 3], &[Found::Full(2); 5], Found::Full(2)),
    (RING, &[5, 4, 3, 2, 1], &[Found::Full(4); 5], Found::Full(4)),
    (RING, &[2, 2, 2, 2, 2], &[Found::Full(0); 5], Found::Full(0)),
    (RING, &[1, 2, 2, 2, 1], &[Found::Full(0); 5], Found::Full(0)),
    (RING, &[3, 1, 1, 2, 2], &[Found::Full(1); 5], Found::Full(1)),
    (RING, &[3, 2, 1, 2, 1], &[Found::Full(2); 5], Found::Full(2)),
    (RING, &[3, 2, 2, 1, 1], &[Found::Full(3); 5], Found::Full(3)),
];

/// Processes that do nothing: their network, and rows.
const NETWORKS: [(&str, &[Row<'static>]); 6] = [
    (
        "process w(out o, p) { } process r(in i, j; out z) { }
network {
  limit 9; channel a cap 1; channel b cap 1; sink z cap 1;
  w = w(; a, b); r = r(a, b; z);
}",
        &PAIR,
    ),
    (
        "process w(out o, p) { } process r(in i, j; out z) { }
network {
  limit 1; channel a cap 1; channel b cap 1; sink z cap 1;
  w = w(; a, b); r = r(a, b; z);
}",
        &PAIR_AT_LIMIT,
    ),
    (
        "process w(out o) { } process m(in i, j; out o) { } process r(in i; out o) { }
network {
  limit 9; channel a cap 1; channel b cap 1; channel c cap 1;
  w = w(; a); m = m(a, b; c); r = r(c; b);
}",
        &TAIL,
    ),
    (
        "process p(in i; out o, z) { }
network { limit 9; channel a cap 1; sink z cap 1; p = p(a; a, z); }",
        &SELF_LOOP,
    ),
    (
        "process p(in i; out o) { }
network {
  limit 9; channel a cap 1; channel b cap 1; channel c cap 1; channel d cap 1;
  p = p(b; a); q = p(a; b); r = p(d; c); s = p(c; d);
}",
        &TWO_PAIRS,
    ),
    (
        "process p(in i; out o) { }
network {
  limit 9; channel a cap 1; channel b cap 1; channel c cap 1; channel d cap 1; channel e cap 1;
  p = p(e; a); q = p(a; b); r = p(b; c); s = p(c; d); t = p(d; e);
}",
        &SMALLEST_OF_RING,
    ),
];

#[test]
fn cycles_are_found(rt: HostRuntime) -> Result<(), Fail> {
    for (text, rows) in NETWORKS {
        assert!(rt;
            plays(&rt, rt.alloc(), text, Scene::FindAll(rows))?,
            "{text}"
        );
    }
    Ok(())
}

// Whether a table takes waits.
fn is_made(heap: &LocalHeap) -> Result<bool, AllocError> {
    let mut waits = Waits::new(heap, 3)?;
    waits.set(1, Full(7));
    waits.set(2, Empty(4));
    Ok(waits.get(0) == Nobody && waits.get(1) == Full(7) && waits.get(2) == Empty(4))
}

// While the heap is full, the first table gets no memory. After that the second one is made.
#[test]
fn table_of_waits_is_refused_memory(rt: HostRuntime) -> Result<(), Fail> {
    let heap = LocalHeap::new(rt.alloc(), 256)?;
    let filling = Vec::<u8, &LocalHeap>::with_capacity(&heap, 256)?;
    assert!(rt; is_made(&heap).is_err());
    filling.destroy_empty();
    let made = is_made(&heap)?;
    assert!(rt; made);
    Ok(())
}
