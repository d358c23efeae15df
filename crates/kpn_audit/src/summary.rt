//! What stands after a history.
ghost use Rattle.std.specs.Prelude.{◌≡◌, List, length, map, IfOk, OnOk};
ghost use Rattle.std.specs.List.{range_with_len};
ghost use Rattle.kpn_net.specs.Faults.{channel_numbers};
ghost use Rattle.kpn_history.specs.declared.event.Event.{Event};
ghost use Rattle.kpn_machine.specs.Machine.{channel_in, wait_in, end_in, IsMachine};
ghost use Rattle.kpn_machine.specs.Run.{IsRun};
ghost use Rattle.kpn_audit.specs.Audit.{IsAudit};
ghost use Rattle.kpn_audit.specs.Shown.{ShowsLists};

use crate::complete::complete_channels;
use crate::findings::Audit;
use kpn_history::How;
use kpn_lang::Sequence;
use kpn_machine::Machine;
use kpn_net::{Network, Wait};
use std::alloc::{AllocError, Allocator};

/// What a machine shows of the history that led to it; its journals are moved. The error is that memory ran out.
pub(crate) fn summary<A: Allocator + Copy>(
    alloc: A,
    network: &Network,
    machine: Machine<A>,
) -> Result<Audit<A>, AllocError>
    requires { IsMachine network.now machine }
    ensures { (H : List Event) → IsRun network.now H machine
        → IfOk result (λ audit. IsAudit network.now H audit) }
{
    network.known();
    let mut audit = Audit {
        journals: Sequence::new(alloc),
        reads: Sequence::new(alloc),
        caps: Sequence::new(alloc),
        complete: Sequence::new(alloc),
        waits: Sequence::new(alloc),
        ends: Sequence::new(alloc),
        exact: false,
    };
    fill_in(alloc, network, &machine, &mut audit)?;
    audit.exact = machine.is_quiet(network);
    let Ok(journals) = machine.into_journals(alloc) else {
        return Err(AllocError);
    };
    audit.journals = journals;
    Ok(audit)
}

/// Puts all lists but the journals into an audit.
// It owns nothing, so an error on its way drops nothing.
fn fill_in<A: Allocator + Copy>(
    alloc: A,
    network: &Network,
    machine: &Machine<A>,
    audit: &mut Audit<A>,
) -> Result<(), AllocError>
    requires { IsMachine network.now machine.now }
    ensures { (H : List Event) → IsRun network.now H machine.now
        → OnOk result (ShowsLists network.now H machine.now audit.new) }
{
    audit.reads = read_counts(alloc, network, machine)?;
    audit.caps = capacities(alloc, network, machine)?;
    audit.complete = complete_channels(alloc, network, machine)?;
    audit.waits = waits(alloc, network, machine)?;
    audit.ends = ends(alloc, network, machine)?;
    Ok(())
}

/// How many items were read from each channel.
fn read_counts<A: Allocator>(
    alloc: A,
    network: &Network,
    machine: &Machine<A>,
) -> Result<Sequence<usize, A>, AllocError>
    requires { IsMachine network.now machine.now }
    ensures { IfOk result (λ reads. reads
        ≡ map (λ c. (channel_in machine.now c).read) (channel_numbers network.now)) }
{
    let mut reads = Vec::with_capacity(alloc, network.channels())?;
    for c in 0..network.channels() {
        reads.push(machine.channel(c).read_count())?;
    }
    Ok(Sequence::from_vec(reads))
}

/// The capacity of each channel.
fn capacities<A: Allocator>(
    alloc: A,
    network: &Network,
    machine: &Machine<A>,
) -> Result<Sequence<Option<u32>, A>, AllocError>
    requires { IsMachine network.now machine.now }
    ensures { IfOk result (λ caps. caps
        ≡ map (λ c. (channel_in machine.now c).capacity) (channel_numbers network.now)) }
{
    let mut caps = Vec::with_capacity(alloc, network.channels())?;
    for c in 0..network.channels() {
        caps.push(machine.channel(c).cap())?;
    }
    Ok(Sequence::from_vec(caps))
}

/// What each process waits for.
fn waits<A: Allocator>(
    alloc: A,
    network: &Network,
    machine: &Machine<A>,
) -> Result<Sequence<Wait, A>, AllocError>
    requires { IsMachine network.now machine.now }
    ensures { IfOk result (λ waits. waits
        ≡ map (wait_in machine.now) (range_with_len 0 (length network.now.instances))) }
{
    let mut waits = Vec::with_capacity(alloc, network.instances())?;
    for p in 0..network.instances() {
        waits.push(machine.wait(p))?;
    }
    Ok(Sequence::from_vec(waits))
}

/// How each process has ended.
fn ends<A: Allocator>(
    alloc: A,
    network: &Network,
    machine: &Machine<A>,
) -> Result<Sequence<Option<How>, A>, AllocError>
    requires { IsMachine network.now machine.now }
    ensures { IfOk result (λ ends. ends
        ≡ map (end_in machine.now) (range_with_len 0 (length network.now.instances))) }
{
    let mut ends = Vec::with_capacity(alloc, network.instances())?;
    for p in 0..network.instances() {
        ends.push(machine.end_of(p))?;
    }
    Ok(Sequence::from_vec(ends))
}
