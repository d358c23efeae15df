//! For whom a process waits.
ghost use Rattle.std.specs.Prelude.{◌≡◌};
ghost use Rattle.kpn_net.specs.Tables.{writer_of, reader_of};
ghost use Rattle.kpn_net.specs.Waits.{process_at, awaited};

use kpn_net::{End, Network, Wait};

/// The process that this wait is for: on an empty channel its writer, on a full one its reader. It is `None` if that is
/// the outside, and if there is no such channel.
pub fn awaited(network: &Network, wait: Wait) -> Option<usize>
    ensures { result ≡ awaited network.now wait }
{
    match wait {
        Wait::Nobody => None,
        Wait::Empty(c) => writer_of(network, c),
        Wait::Full(c) => reader_of(network, c),
    }
}

/// The process that writes a channel, if there is one.
#[tactic(auto, using(crate::proofs::Ends::no_writer))]
fn writer_of(network: &Network, c: usize) -> Option<usize>
    ensures { result ≡ process_at (writer_of network.now c) }
{
    network.known();
    if c < network.channels() {
        process_at(network.writer_of(c))
    } else {
        None
    }
}

/// The process that reads a channel, if there is one.
#[tactic(auto, using(crate::proofs::Ends::no_reader))]
fn reader_of(network: &Network, c: usize) -> Option<usize>
    ensures { result ≡ process_at (reader_of network.now c) }
{
    network.known();
    if c < network.channels() {
        process_at(network.reader_of(c))
    } else {
        None
    }
}

fn process_at(end: End) -> Option<usize>
    ensures { result ≡ process_at end }
{
    match end {
        End::Process(p) => Some(p),
        End::Source | End::Sink => None,
    }
}
