//! Which channels are complete after a history.
ghost use Rattle.std.specs.Prelude.{List, IfOk};
ghost use Rattle.kpn_history.specs.declared.event.Event.{Event};
ghost use Rattle.kpn_machine.specs.Machine.{IsMachine};
ghost use Rattle.kpn_machine.specs.Run.{IsRun};
ghost use Rattle.kpn_audit.specs.Complete.{TellsComplete};

use kpn_lang::Sequence;
use kpn_machine::Machine;
use kpn_net::Network;
use std::alloc::{AllocError, Allocator};

/// Whether each channel is complete. The error is that memory ran out.
pub(crate) fn complete_channels<A: Allocator>(
    alloc: A,
    network: &Network,
    machine: &Machine<A>,
) -> Result<Sequence<bool, A>, AllocError>
    requires { IsMachine network.now machine.now }
    ensures { (H : List Event) → IsRun network.now H machine.now
        → IfOk result (λ complete. TellsComplete network.now H complete) }
{
    let mut complete = Vec::with_capacity(alloc, network.channels())?;
    for c in 0..network.channels() {
        complete.push(machine.is_complete(network, c))?;
    }
    Ok(Sequence::from_vec(complete))
}
