//! What a process waits for.
ghost use Rattle.std.specs.Prelude.{◌≡◌};
ghost use Rattle.kpn_net.specs.Waits.{wait_at};

use kpn_net::Wait;

/// What process `p` waits for, by a table of waits.
pub(crate) fn wait_at(waits: &[Wait], p: usize) -> Wait
    ensures { result ≡ wait_at waits.now p }
{
    waits.get(p).copied().unwrap_or(Wait::Nobody)
}
