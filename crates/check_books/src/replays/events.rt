//! Events made by their calls, each after a check whether it may follow.
ghost use Rattle.std.specs.Prelude.{◌≡◌, ◌↔◌, ◌<◌, length, IfOk, IfSome, OnOk, IsTrue};
ghost use Rattle.kpn_machine.specs.Machine.{IsMachine, IsFree};
ghost use Rattle.kpn_machine.specs.Owed.{IsAwaitedBelowLimit};
ghost use Rattle.kpn_machine.specs.Due.{Stands, ReadsFrom, WritesTo, stop_of};

use anyhow::{Result, bail, ensure};
use arrayvec::ArrayVec;
use kpn_history::{Event, How};
use kpn_limits::MAX_PORTS;
use kpn_machine::{Machine, stop_of};
use kpn_net::{Network, Wait};
use kpn_step::Stop;

/// The processes that an event woke, in the order in which the call returns them.
pub(crate) type Woken = Result<ArrayVec<usize, MAX_PORTS>>;

/// At most one process was woken.
fn woken(process: Option<usize>) -> Woken {
    let mut processes = ArrayVec::new();
    if let Some(q) = process {
        processes.push(q);
    }
    Ok(processes)
}

/// Steps process `p`, which has to be able to go, to its next stop.
fn come_to_stop(state: &mut Machine, network: &Network, p: usize) -> Result<Stop>
    requires { IsMachine network.now state.old }
    ensures shape { IsMachine network.now state.new }
    ensures process { OnOk result (p < length network.now.instances) }
    ensures free { OnOk result (IsFree state.new p) }
    ensures stands { IfOk result (Stands network.now state.new p) }
{
    ensure!(p < network.instances(), "there is no such process");
    let (_, stop) = state.step(network, network.program(p), p, 1_000);
    ensure!(state.end_of(p).is_none(), "the process has ended");
    ensure!(state.wait(p) == Wait::Nobody, "the process waits");
    Ok(stop)
}

/// Steps process `p` to its next stop, which has to be a read from channel `c`.
fn to_read(state: &mut Machine, network: &Network, p: usize, c: usize) -> Result<()>
    requires { IsMachine network.now state.old }
    ensures shape { IsMachine network.now state.new }
    ensures process { OnOk result (p < length network.now.instances) }
    ensures channel { OnOk result (c < length network.now.channels) }
    ensures free { OnOk result (IsFree state.new p) }
    ensures reads { OnOk result (ReadsFrom network.now state.new p c) }
{
    let stop = come_to_stop(state, network, p)?;
    let Stop::WantRead(port) = stop else {
        bail!("the process does not read");
    };
    let ins = network.ins(p);
    ensure!(port < ins.len(), "there is no such port");
    ensure!(ins[port] == c, "the process reads another channel");
    ensure!(c < network.channels(), "there is no such channel");
    Ok(())
}

/// Steps process `p` to its next stop, which has to be a write to channel `c`, and returns the item.
fn to_write(state: &mut Machine, network: &Network, p: usize, c: usize) -> Result<i64>
    requires { IsMachine network.now state.old }
    ensures shape { IsMachine network.now state.new }
    ensures process { OnOk result (p < length network.now.instances) }
    ensures channel { OnOk result (c < length network.now.channels) }
    ensures free { OnOk result (IsFree state.new p) }
    ensures writes { IfOk result (WritesTo network.now state.new p c) }
{
    let stop = come_to_stop(state, network, p)?;
    let Stop::WantWrite(port, item) = stop else {
        bail!("the process does not write");
    };
    let outs = network.outs(p);
    ensure!(port < outs.len(), "there is no such port");
    ensure!(outs[port] == c, "the process writes to another channel");
    ensure!(c < network.channels(), "there is no such channel");
    Ok(item)
}

fn get(state: &mut Machine, network: &Network, p: usize, c: usize, item: i64) -> Woken
    requires { IsMachine network.now state.old }
    ensures { IsMachine network.now state.new }
{
    to_read(state, network, p, c)?;
    ensure!(state.has_item(c), "there is no item");
    let got = state.get(network, network.program(p), p, c);
    ensure!(got.item == item, "another item was got");
    woken(got.woken)
}

fn put(state: &mut Machine, network: &Network, p: usize, c: usize, item: i64) -> Woken
    requires { IsMachine network.now state.old }
    ensures { IsMachine network.now state.new }
{
    ensure!(c < network.channels(), "there is no such channel");
    state.reserve_one(c)?;
    let written = to_write(state, network, p, c)?;
    ensure!(written == item, "the process writes another item");
    ensure!(state.channel(c).room(), "there is no room");
    ensure!(!state.channel(c).is_full(), "the channel is full");
    woken(state.put(network, p, c, written))
}

fn wait_on_empty(state: &mut Machine, network: &Network, p: usize, c: usize) -> Woken
    requires { IsMachine network.now state.old }
    ensures { IsMachine network.now state.new }
{
    to_read(state, network, p, c)?;
    ensure!(state.channel(c).is_empty(), "the channel is not empty");
    state.wait_on_empty(network, p, c);
    woken(None)
}

fn wait_on_full(state: &mut Machine, network: &Network, p: usize, c: usize) -> Woken
    requires { IsMachine network.now state.old }
    ensures { IsMachine network.now state.new }
{
    ensure!(c < network.channels(), "there is no such channel");
    state.reserve_one(c)?;
    to_write(state, network, p, c)?;
    ensure!(state.channel(c).room(), "there is no room");
    ensure!(state.channel(c).is_full(), "the channel is not full");
    state.wait_on_full(network, p, c);
    woken(None)
}

fn is_end(how: How, stop: Stop) -> bool
    ensures { IsTrue result ↔ (stop ≡ stop_of how) }
{
    stop == stop_of(how)
}

fn end(state: &mut Machine, network: &Network, p: usize, how: How) -> Woken
    requires { IsMachine network.now state.old }
    ensures { IsMachine network.now state.new }
{
    let stop = come_to_stop(state, network, p)?;
    ensure!(is_end(how, stop), "the process does not end so");
    Ok(state.end(network, p, how))
}

fn feed(state: &mut Machine, network: &Network, c: usize, item: i64) -> Woken
    requires { IsMachine network.now state.old }
    ensures { IsMachine network.now state.new }
{
    ensure!(c < network.channels(), "there is no such channel");
    ensure!(network.is_source(c), "the channel is no source");
    state.reserve_one(c)?;
    ensure!(state.channel(c).room(), "there is no room");
    ensure!(!state.is_closed(c), "the source is closed");
    woken(state.feed(network, c, item))
}

fn close(state: &mut Machine, network: &Network, c: usize) -> Woken
    requires { IsMachine network.now state.old }
    ensures { IsMachine network.now state.new }
{
    ensure!(c < network.channels(), "there is no such channel");
    ensure!(network.is_source(c), "the channel is no source");
    ensure!(!state.is_closed(c), "the source is closed");
    state.close(network, c);
    woken(None)
}

fn take(state: &mut Machine, network: &Network, c: usize, item: i64) -> Woken
    requires { IsMachine network.now state.old }
    ensures { IsMachine network.now state.new }
{
    ensure!(c < network.channels(), "there is no such channel");
    ensure!(network.is_sink(c), "the channel is no sink");
    ensure!(state.has_item(c), "there is no item");
    let got = state.take(network, c);
    ensure!(got.item == item, "another item was taken");
    woken(got.woken)
}

fn leave(state: &mut Machine, network: &Network, c: usize) -> Woken
    requires { IsMachine network.now state.old }
    ensures { IsMachine network.now state.new }
{
    ensure!(c < network.channels(), "there is no such channel");
    ensure!(network.is_sink(c), "the channel is no sink");
    ensure!(!state.channel(c).is_retired(), "the sink was left");
    woken(state.leave(network, c))
}

/// The channel whose growth is owed for process `p`: for a cycle, or else for a stop.
fn owed(state: &Machine, network: &Network, p: usize) -> Option<usize>
    requires shape { IsMachine network.now state.now }
    requires process { p < length network.now.instances }
    ensures { IfSome result (IsAwaitedBelowLimit network.now state.now) }
{
    if let Some(channel) = state.owed(network, p) {
        return Some(channel);
    }
    match state.owed_at_stop(network) {
        Some(owed) if owed.process == p => Some(owed.channel),
        _ => None,
    }
}

fn grow(state: &mut Machine, network: &Network, p: usize, c: usize) -> Woken
    requires { IsMachine network.now state.old }
    ensures { IsMachine network.now state.new }
{
    ensure!(p < network.instances(), "there is no such process");
    ensure!(
        owed(state, network, p) == Some(c),
        "this growth is not owed"
    );
    woken(state.grow(network, p, c).woken)
}

/// Makes the call for an event, and returns which processes it woke.
pub(crate) fn happen(state: &mut Machine, network: &Network, event: Event) -> Woken
    requires { IsMachine network.now state.old }
    ensures { IsMachine network.now state.new }
{
    match event {
        Event::Get(p, c, item) => get(state, network, p.into(), c.into(), item),
        Event::Put(p, c, item) => put(state, network, p.into(), c.into(), item),
        Event::WaitEmpty(p, c) => wait_on_empty(state, network, p.into(), c.into()),
        Event::WaitFull(p, c) => wait_on_full(state, network, p.into(), c.into()),
        Event::Ended(p, how) => end(state, network, p.into(), how),
        Event::Take(c, item) => take(state, network, c.into(), item),
        Event::Grow(p, c, _) => grow(state, network, p.into(), c.into()),
        Event::Feed(c, item) => feed(state, network, c.into(), item),
        Event::Close(c) => close(state, network, c.into()),
        Event::Leave(c) => leave(state, network, c.into()),
    }
}
