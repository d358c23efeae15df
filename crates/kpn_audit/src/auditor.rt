//! The auditor.
ghost use Rattle.std.specs.Prelude.{◌≡◌, ◌⊎◌, ◌↔◌, ℕ, true, length, IsTrue, IfOk, IfErr};
ghost use Rattle.kpn_history.specs.Legal.{Legal};
ghost use Rattle.kpn_machine.specs.Run.{IsRun};
ghost use Rattle.kpn_audit.specs.Audit.{IsAudit, AreLeast, AreWithinSteps, IsFault, IsRefusal};
ghost use Rattle.kpn_audit.specs.Judged.{ArePlaces, Owes};
ghost use Rattle.kpn_audit.specs.Stored.{Differs, history_of, tables_for, history_in};

use crate::findings::{Audit, AuditFault};
use crate::judged::Judged;
use crate::judging::judge;
use crate::stored::told;
use crate::summary::summary;
use kpn_history::{Event, Trace, Version};
use kpn_machine::{Machine, OwedGrowth};
use kpn_net::{Growth, Network, Policy};
use std::alloc::Allocator;

/// Audits a trace: whether its events are a legal history of the network, and what stands after them.
///
/// A trace of version 2 has to name the policy and the growth of the network. One of version 1 is audited under the
/// policy `cycles` and the growth `one`, whatever the network says.
///
/// The events are replayed, one after another. Of each it is judged first whether a growth that is owed is this one,
/// whether the network has its numbers, and whether its process has ended or is blocked. Then the process makes steps,
/// `quota` of them at most, and where it stops the event has to be due.
///
/// The machine on which it replays takes its memory from `alloc`, and so does what it finds; the journals are
/// moved there, not copied. If memory is refused, the answer is [`AuditFault::NoMemory`], and nothing is kept.
pub fn audit<A: Allocator + Copy, B: Allocator>(
    alloc: A,
    network: &Network,
    trace: &Trace<B>,
    quota: u64,
) -> Result<Audit<A>, AuditFault>
    ensures agrees { IfOk result (λ audit. ¬ Differs network.now trace.now) }
    ensures legal { let t = tables_for network.now trace.now in
        IfOk result (λ audit. IsAudit t (history_in network.now trace.now) audit) }
    ensures least { let t = tables_for network.now trace.now in IfOk result (λ audit.
        audit.exact ≡ true → AreLeast t (history_in network.now trace.now) audit) }
    ensures within { let t = tables_for network.now trace.now in IfOk result (λ audit.
        let H = history_in network.now trace.now in AreWithinSteps t H quota (length H)) }
    ensures refused { IfErr result (IsRefusal network.now trace.now quota) }
    ensures accepted { ¬ Differs network.now trace.now
        → Legal (tables_for network.now trace.now) (history_in network.now trace.now)
        → IfErr result (λ fault.
        (fault ≡ AuditFault.NoMemory) ⊎ ((k : ℕ) × (fault ≡ AuditFault.Budget k))) }
{
    let events = trace.events.as_slice();
    match trace.version {
        Version::Two => {
            if !has_rules(network, trace.policy, trace.growth) {
                return Err(AuditFault::PolicyDiffers);
            }
            audit_events(alloc, network, Version::Two, events, quota)
        }
        Version::One => {
            if has_rules(network, Policy::Cycles, Growth::One) {
                return audit_events(alloc, network, Version::One, events, quota);
            }
            let plain = network.under(Policy::Cycles, Growth::One)?;
            audit_events(alloc, &plain, Version::One, events, quota)
        }
    }
}

/// Whether these are the policy and the growth of the network.
fn has_rules(network: &Network, policy: Policy, growth: Growth) -> bool
    ensures { IsTrue result
        ↔ ((policy ≡ network.now.policy) × (growth ≡ network.now.growth)) }
{
    policy == network.policy() && growth == network.growth()
}

/// Audits events of this version under the policy and the growth of the network.
fn audit_events<A: Allocator + Copy>(
    alloc: A,
    network: &Network,
    version: Version,
    events: &[Event],
    quota: u64,
) -> Result<Audit<A>, AuditFault>
    ensures legal { IfOk result (λ audit.
        IsAudit network.now (history_of version network.now events.now) audit) }
    ensures least { IfOk result (λ audit. audit.exact ≡ true
        → AreLeast network.now (history_of version network.now events.now) audit) }
    ensures within { IfOk result (λ audit.
        let H = history_of version network.now events.now in
        AreWithinSteps network.now H quota (length H)) }
    ensures refused { let H = history_of version network.now events.now in
        IfErr result (λ fault. IsFault network.now H quota fault) }
    ensures accepted { Legal network.now (history_of version network.now events.now)
        → IfErr result (λ fault.
        (fault ≡ AuditFault.NoMemory) ⊎ ((k : ℕ) × (fault ≡ AuditFault.Budget k))) }
{
    network.known();
    let replayed = replay(alloc, network, version, events, quota)?;
    Ok(summary(alloc, network, replayed.machine)?)
}

/// What a replay leads to: a machine, and what is owed then.
#[derive(Drop)]
pub(crate) struct Replayed<A: Allocator> {
    pub machine: Machine<A>,
    pub owed: Option<OwedGrowth>,
}

/// Replays events of this version on a machine of its own, from the start.
pub(crate) fn replay<A: Allocator + Copy>(
    alloc: A,
    network: &Network,
    version: Version,
    events: &[Event],
    quota: u64,
) -> Result<Replayed<A>, AuditFault>
    ensures run { IfOk result (λ made.
        IsRun network.now (history_of version network.now events.now) made.machine) }
    ensures owes { let H = history_of version network.now events.now in
        IfOk result (λ made. Owes network.now H made.machine made.owed) }
    ensures places { let H = history_of version network.now events.now in
        IfOk result (λ made. ArePlaces network.now H made.machine) }
    ensures within { let H = history_of version network.now events.now in
        IfOk result (λ made. AreWithinSteps network.now H quota (length H)) }
    ensures refused { let H = history_of version network.now events.now in
        IfErr result (λ fault. IsFault network.now H quota fault) }
{
    network.known();
    let mut machine = Machine::new(alloc, network)?;
    let mut owed = None;
    'events: for k in 0..events.len() {
        let event = told(&machine, network, version, events[k]);
        match judge(&mut machine, network, owed, event, quota)? {
            Judged::Follows(growth) => owed = growth,
            Judged::Illegal => return Err(AuditFault::Illegal(k)),
            Judged::Budget => return Err(AuditFault::Budget(k)),
        }
    }
    Ok(Replayed { machine, owed })
}
