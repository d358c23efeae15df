//! Kahn's iteration on whole lists: it runs each process alone, round after round.
ghost use Rattle.std.specs.Prelude.{◌≡◌, ℕ, ◌<◌, ℤ, List, [], ◌++◌, length, map, slice_index_or, IfOk, All};
ghost use Rattle.kpn_net.specs.Process.{Family, ran_on, out_of};
ghost use Rattle.kpn_net.specs.Iteration.{first_round, next_round, iterate, sources, given_by, put_on, lists_of, NamesOutsBelow};
ghost use Rattle.std.specs.List.{range_with_len};
ghost use Rattle.kpn_net.specs.Tables.{instance_at};

use crate::network::Network;
use crate::tables::End;
use kpn_lang::{Run, Said, Sequence, run_alone};
use std::alloc::{AllocError, Global};

/// The `n`-th iterate of Kahn's iteration: round `n`, if each loop that a process enters has `n` turns. It has a list
/// for each channel, in order of number. `given` has a list for each source, in order of channel number.
pub fn rounds(
    alloc: Global,
    network: &Network,
    given: &[Sequence<i64>],
    n: u32,
) -> Result<Sequence<Sequence<i64>>, AllocError>
    requires { length given.now ≡ sources network.now }
    ensures { let t = network.now in
        IfOk result (λ lists. lists ≡ lists_of t (iterate t (given_by t given.now) n)) }
{
    let mut lists = first(alloc, network, given)?;
    'rounds: for _round in 0..n {
        lists = next(alloc, network, given, n, &lists)?;
    }
    Ok(Sequence::from_vec(lists))
}

fn copy(alloc: Global, items: &[i64]) -> Result<Sequence<i64>, AllocError>
    ensures { IfOk result (λ copy. copy ≡ items.now) }
{
    Ok(Sequence::from_vec(items.to_vec(alloc)?))
}

/// The given lists on the sources, and the empty list on each other channel.
fn first(
    alloc: Global,
    network: &Network,
    given: &[Sequence<i64>],
) -> Result<Vec<Sequence<i64>>, AllocError>
    requires { length given.now ≡ sources network.now }
    ensures { let t = network.now in
        IfOk result (λ lists. lists.items ≡ lists_of t (first_round t (given_by t given.now))) }
{
    let mut lists = Vec::new(alloc);
    let mut source = 0;
    for c in 0..network.channels() {
        if network.is_source(c) {
            lists.push(copy(alloc, given[source].as_slice())?)?;
            source += 1;
        } else {
            lists.push(Sequence::new(alloc))?;
        }
    }
    Ok(lists)
}

/// The round after this one, if each loop that a process enters has this many turns.
fn next(
    alloc: Global,
    network: &Network,
    given: &[Sequence<i64>],
    turns: u32,
    before: &[Sequence<i64>],
) -> Result<Vec<Sequence<i64>>, AllocError>
    requires given { length given.now ≡ sources network.now }
    requires before { length before.now ≡ length network.now.channels }
    ensures { let t = network.now in (family : Family) → before.now ≡ lists_of t family
        → IfOk result (λ lists.
        lists.items ≡ lists_of t (next_round t (given_by t given.now) turns family)) }
{
    network.known();
    let mut lists = first(alloc, network, given)?;
    for p in 0..network.instances() {
        put_out(alloc, network, p, turns, before, &mut lists)?;
    }
    Ok(lists)
}

/// Appends what process `p` puts on each channel when it runs on the lists of the round before.
fn put_out(
    alloc: Global,
    network: &Network,
    p: usize,
    turns: u32,
    before: &[Sequence<i64>],
    lists: &mut [Sequence<i64>],
) -> Result<(), AllocError>
    requires process { p < length network.now.instances }
    requires before { length before.now ≡ length network.now.channels }
    requires lists { length lists.old ≡ length network.now.channels }
    ensures { let t = network.now in (family so_far : Family)
        → before.now ≡ lists_of t family → lists.old ≡ lists_of t so_far
        → IfOk result (λ _. lists.new ≡ lists_of t (λ c. so_far c ++ out_of t p turns family c)) }
{
    network.known();
    let run = run_on(alloc, network, p, turns, before)?;
    append(run.talk(), network.outs(p), lists)
}

/// Runs process `p` alone on the lists of its in channels.
fn run_on(
    alloc: Global,
    network: &Network,
    p: usize,
    turns: u32,
    before: &[Sequence<i64>],
) -> Result<Run, AllocError>
    requires process { p < length network.now.instances }
    requires before { length before.now ≡ length network.now.channels }
    ensures ran { let t = network.now in (family : Family) → before.now ≡ lists_of t family
        → IfOk result (λ run. run ≡ ran_on t p turns family) }
    ensures ports { let outs = (instance_at network.now p).outs in
        IfOk result (λ run. NamesOutsBelow (length outs) run.talk) }
{
    network.known();
    let ins = lists_at(alloc, network.ins(p), before)?;
    run_alone(alloc, network.program(p), network.pars(p), &ins, turns)
}

/// Appends to the list of each channel the items that a talk puts there. `outs` are the channels at the out ports.
fn append(talk: &[Said], outs: &[usize], lists: &mut [Sequence<i64>]) -> Result<(), AllocError>
    requires ports { NamesOutsBelow (length outs.now) talk.now }
    requires channels { All (λ c. c < length lists.old) outs.now }
    ensures { let channels = range_with_len 0 (length lists.old) in (so_far : Family)
        → lists.old ≡ map so_far channels
        → IfOk result (λ _.
        lists.new ≡ map (λ c. so_far c ++ put_on outs.now talk.now c) channels) }
{
    for said in talk {
        if let Said::Put(port, item) = said {
            lists[outs[*port]].push(*item)?;
        }
    }
    Ok(())
}

/// Copies of the lists of these channels.
fn lists_at(
    alloc: Global,
    channels: &[usize],
    lists: &[Sequence<i64>],
) -> Result<Vec<Sequence<i64>>, AllocError>
    requires { All (λ c. c < length lists.now) channels.now }
    ensures { IfOk result (λ copies.
        copies.items ≡ map (λ c. slice_index_or lists.now c []) channels.now) }
{
    let mut copies = Vec::with_capacity(alloc, channels.len())?;
    for channel in channels {
        copies.push(copy(alloc, lists[*channel].as_slice())?)?;
    }
    Ok(copies)
}
