//! The sources and the sinks of a network, so that nobody looks for them at each item.
ghost use Rattle.std.specs.Prelude.{◌≡◌, ◌∷◌, [], ◌++◌, IfOk, if◌then◌else◌};
ghost use Rattle.kpn_net.specs.Tables.{channel_at, is_source, is_sink};
ghost use Rattle.kpn_stream.specs.Ending.{end_numbers};

use kpn_net::Network;
use std::alloc::{AllocError, Global};

/// The numbers of the sources and of the sinks, each in order.
#[derive(Drop)]
pub struct EndNumbers {
    pub sources: Vec<usize>,
    pub sinks: Vec<usize>,
}

/// The numbers of the ends of a network. The error is that memory ran out.
pub fn end_numbers_of(alloc: Global, network: &Network) -> Result<EndNumbers, AllocError>
    ensures sources { IfOk result (λ found.
        found.sources.items ≡ end_numbers is_source network.now) }
    ensures sinks { IfOk result (λ found. found.sinks.items ≡ end_numbers is_sink network.now) }
{
    let mut sources = Vec::new(alloc);
    let mut sinks = Vec::new(alloc);
    'channels: for c in 0..network.channels() {
        add_if(&mut sources, network.is_source(c), c)?;
        add_if(&mut sinks, network.is_sink(c), c)?;
    }
    Ok(EndNumbers { sources, sinks })
}

/// Adds a number if it is one of them.
fn add_if(numbers: &mut Vec<usize>, is: bool, c: usize) -> Result<(), AllocError>
    ensures { IfOk result (λ _.
        numbers.new.items ≡ numbers.old.items ++ (if is then c ∷ [] else [])) }
{
    if is {
        numbers.push(c)?;
    }
    Ok(())
}
