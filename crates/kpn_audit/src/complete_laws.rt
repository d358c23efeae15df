//! What holds of the complete channels that an audit tells, as the contract of a function that does nothing.
ghost use Rattle.std.specs.Prelude.{◌≡◌, ℕ, ◌<◌, true, false, [], List, length, slice_index_or};
ghost use Rattle.kpn_net.specs.Tables.{Tables};
ghost use Rattle.kpn_net.specs.Faults.{IsNetwork};
ghost use Rattle.kpn_net.specs.Process.{Family};
ghost use Rattle.kpn_net.specs.Iteration.{IsLeast};
ghost use Rattle.kpn_history.specs.declared.event.Event.{Event};
ghost use Rattle.kpn_history.specs.Complete.{IsFedFrom};
ghost use Rattle.kpn_audit.specs.declared.findings.Audit.{Audit};
ghost use Rattle.kpn_audit.specs.Audit.{IsAudit};

use std::alloc::Allocator;

/// The journal of a channel that an audit tells as complete is the least solution there, for all lists from which the
/// trace fed the sources.
pub fn complete_is_least<A: Allocator>()
    ensures { (t : Tables) → IsNetwork t → (H : List Event) (audit : Audit A) → IsAudit t H audit
        → (given : Family) → IsFedFrom t H given
        → (c : ℕ) → c < length t.channels → slice_index_or audit.complete c false ≡ true
        → IsLeast t given c (slice_index_or audit.journals c []) }
{}
