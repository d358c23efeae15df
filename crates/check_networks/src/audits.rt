//! Audits in a heap. If the heap is too small for the machine on which an audit replays, or for the items that
//! come, the audit fails. So does each audit in a heap that is smaller than the first that suffices. And three wrong
//! auditors, each with a history that they judge wrongly.
use crate::scenes::{Scene, plays};
use kpn_audit::{AuditFault, audit};
use kpn_history::{Event, Trace, Version};
use kpn_lang::Sequence;
use kpn_net::{Growth, Network, Policy};
use linked_list_allocator::LocalHeap;
use std::alloc::{AllocError, Global};
use std::test::Fail;
use test_support::texts::COPY;

const ONE: [Event; 1] = [Event::Feed(0, 5)];

/// A process waits for room on channel 0, beside one that waits for an item of its own. A growth is owed then, but not
/// under the policy `cycles`.
const CLOGGED: &str = "process p(out a, z) { write a 1; write a 2; write z 3; }
process q(in b, a; out c) { read b x; read a y; write c y; }
network {
  limit 3; policy all;
  channel a cap 1; channel b cap 1; sink z cap 1;
  p = p(; a, z); q = q(b, a; b);
}
";

/// The trace of these events, this many times one after another, under the usual rules.
fn trace_of(
    alloc: Global,
    version: Version,
    events: &[Event],
    times: usize,
) -> Result<Trace, AllocError> {
    let mut list = Vec::new(alloc);
    for _ in 0..times {
        list.extend_from_slice(events)?;
    }
    Ok(Trace {
        version,
        policy: Policy::Cycles,
        growth: Growth::One,
        events: Sequence::from_vec(list),
    })
}

/// An audit: its version, its events, how often they come, how many bytes its heap has, and why it fails, or `None` if it
/// finds a legal history.
pub type Audited<'a> = (Version, &'a [Event], usize, usize, Option<AuditFault>);

/// Whether an audit comes to that.
pub fn is_audited(
    alloc: Global,
    network: &Network,
    audited: &Audited<'_>,
) -> Result<bool, AllocError> {
    let (version, events, times, size, wanted) = *audited;
    let trace = trace_of(alloc, version, events, times)?;
    let heap = LocalHeap::new(alloc, size)?;
    Ok(audit(&heap, network, &trace, 1_000).err() == wanted)
}

/// Whether an audit is refused until its heap suffices, and then finds the history legal. The first heap has 64 bytes, and
/// each one then 16 more.
pub fn is_audited_in_time(alloc: Global, network: &Network) -> Result<bool, AllocError> {
    for steps in 0..256 {
        let size = 64 + 16 * steps;
        if !is_audited(alloc, network, &(Version::Two, &ONE, 1, size, NO_MEMORY))? {
            let is_legal = is_audited(alloc, network, &(Version::Two, &ONE, 1, size, None))?;
            return Ok(steps > 0 && is_legal);
        }
    }
    Ok(false)
}

#[test]
fn refutes_always_out_of_memory(rt: HostRuntime) -> Result<(), Fail> {
    assert!(rt; plays(&rt, rt.alloc(), COPY, Scene::IsAuditedInTime)?);
    Ok(())
}

const NO_MEMORY: Option<AuditFault> = Some(AuditFault::NoMemory);

/// All wait, and no growth is owed.
const ALL_WAIT: [Event; 4] = [
    Event::Put(0, 0, 1),
    Event::WaitEmpty(1, 1),
    Event::WaitFull(0, 0),
    Event::Leave(2),
];

const ROWS: [(&str, &str, Audited<'static>); 7] = [
    (
        "an_audit_is_refused_at_its_start_and_in_its_course: an item in 64 bytes",
        COPY,
        (Version::Two, &ONE, 1, 64, NO_MEMORY),
    ),
    (
        "an_audit_is_refused_at_its_start_and_in_its_course: an item in 4,096 bytes",
        COPY,
        (Version::Two, &ONE, 1, 4_096, None),
    ),
    (
        "an_audit_is_refused_at_its_start_and_in_its_course: 1,000 items in 4,096 bytes",
        COPY,
        (Version::Two, &ONE, 1_000, 4_096, NO_MEMORY),
    ),
    (
        "an_audit_is_refused_at_its_start_and_in_its_course: 1,000 items in 65,536 bytes",
        COPY,
        (Version::Two, &ONE, 1_000, 65_536, None),
    ),
    (
        "refutes_audit_always_illegal",
        COPY,
        (Version::Two, &ONE, 1, 65_536, None),
    ),
    (
        "refutes_audit_accepts_what_is_well_spelled",
        COPY,
        (
            Version::Two,
            &[Event::Get(0, 0, 5)],
            1,
            65_536,
            Some(AuditFault::Illegal(0)),
        ),
    ),
    (
        "refutes_audits_version_one_by_the_networks_policy",
        CLOGGED,
        (Version::One, &ALL_WAIT, 1, 65_536, None),
    ),
];

#[test]
fn audits_judge_events_by_the_rules_of_their_version(rt: HostRuntime) -> Result<(), Fail> {
    for (name, text, audited) in &ROWS {
        assert!(rt;
            plays(&rt, rt.alloc(), text, Scene::IsAudited(audited))?,
            "{name}"
        );
    }
    Ok(())
}
