//! The channels at the ports of a process.
ghost use Rattle.std.specs.Prelude.{◌<◌, length};
ghost use Rattle.kpn_net.specs.Tables.{instance_at};
ghost use Rattle.kpn_machine.specs.Changes.{IsChannelAt};

use kpn_net::Network;

/// The channel at an in port of process `p`.
pub fn in_channel(network: &Network, p: usize, port: usize) -> usize
    requires process { p < length network.now.instances }
    requires port { port < length (instance_at network.now p).ins }
    ensures { IsChannelAt (instance_at network.now p).ins port result }
{
    network.ins(p)[port]
}

/// The channel at an out port of process `p`.
pub fn out_channel(network: &Network, p: usize, port: usize) -> usize
    requires process { p < length network.now.instances }
    requires port { port < length (instance_at network.now p).outs }
    ensures { IsChannelAt (instance_at network.now p).outs port result }
{
    network.outs(p)[port]
}
