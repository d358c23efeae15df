//! The networks of the tests: in each, all processes have one program.
use kpn_lang::{Expr, Op, Program, Sequence, Stmt};
use kpn_net::ChannelSpec::{Inner, Sink, Source};
use kpn_net::{ChannelSpec, Growth, Instance, Network, Policy};
use std::alloc::{AllocError, Global};
use std::test::Fail;

/// No capacity is greater.
const LIMIT: u32 = 1_000;

/// The channels that a process reads, and those that it writes.
type Ports<'a> = (&'a [usize], &'a [usize]);

/// A process for each of these ports.
fn processes(
    alloc: Global,
    program: Program,
    ports: &[Ports],
    channels: &[ChannelSpec],
) -> Result<Network, Fail> {
    let mut instances = Vec::new(alloc);
    for (ins, outs) in ports {
        instances.push(Instance {
            program: 0,
            ins: Sequence::from_vec(ins.to_vec(alloc)?),
            outs: Sequence::from_vec(outs.to_vec(alloc)?),
            pars: Sequence::from_vec(Vec::new(alloc)),
        })?;
    }
    let programs = vec![in alloc; program]?;
    Ok(Network::new(
        alloc,
        programs,
        instances,
        channels.to_vec(alloc)?,
        LIMIT,
        Policy::Cycles,
        Growth::One,
    )?)
}

/// `while 1 { .. }`
fn forever(
    alloc: Global,
    ins: usize,
    outs: usize,
    locals: usize,
    body: Vec<Stmt>,
) -> Result<Program, Fail> {
    let first = vec![in alloc; Stmt::While(Expr::Num(1), 1)]?;
    let blocks = vec![in alloc; first, body]?;
    Ok(Program::new(alloc, ins, outs, 0, locals, blocks)?)
}

/// Processes 0 and 1 write 7 once, each to the sink with its number.
pub fn two_sevens(alloc: Global) -> Result<Network, Fail> {
    let body = vec![in alloc; Stmt::Write(0, Expr::Num(7))]?;
    let seven = Program::new(alloc, 0, 1, 0, 0, vec![in alloc; body]?)?;
    let ports: [Ports; 2] = [(&[], &[0]), (&[], &[1])];
    processes(alloc, seven, &ports, &[Sink(1), Sink(1)])
}

/// Processes 0 to 8 write 7 once, each to the sink with its number.
pub fn nine_sevens(alloc: Global) -> Result<Network, Fail> {
    let body = vec![in alloc; Stmt::Write(0, Expr::Num(7))]?;
    let seven = Program::new(alloc, 0, 1, 0, 0, vec![in alloc; body]?)?;
    let ports: [Ports; 9] = [
        (&[], &[0]),
        (&[], &[1]),
        (&[], &[2]),
        (&[], &[3]),
        (&[], &[4]),
        (&[], &[5]),
        (&[], &[6]),
        (&[], &[7]),
        (&[], &[8]),
    ];
    processes(alloc, seven, &ports, &[Sink(1); 9])
}

/// Two processes, each of which first reads what the other writes.
pub fn two_readers(alloc: Global) -> Result<Network, Fail> {
    let body = vec![in alloc; Stmt::Read(0, 0), Stmt::Write(0, Expr::Var(0))]?;
    let reader = Program::new(alloc, 1, 1, 0, 1, vec![in alloc; body]?)?;
    let ports: [Ports; 2] = [(&[0], &[1]), (&[1], &[0])];
    processes(alloc, reader, &ports, &[Inner(1), Inner(1)])
}

/// A process that steps for ever.
pub fn spinning(alloc: Global) -> Result<Network, Fail> {
    let spin = forever(alloc, 0, 0, 0, Vec::new(alloc))?;
    let ports: [Ports; 1] = [(&[], &[])];
    processes(alloc, spin, &ports, &[])
}

/// Three processes that step for ever.
pub fn three_spinning(alloc: Global) -> Result<Network, Fail> {
    let spin = forever(alloc, 0, 0, 0, Vec::new(alloc))?;
    let ports: [Ports; 3] = [(&[], &[]), (&[], &[]), (&[], &[])];
    processes(alloc, spin, &ports, &[])
}

/// A process that copies its first channel to its second one, for each of these pairs.
fn copies(alloc: Global, ports: &[Ports], channels: &[ChannelSpec]) -> Result<Network, Fail> {
    let body = vec![in alloc; Stmt::Read(0, 0), Stmt::Write(0, Expr::Var(0))]?;
    let copy = forever(alloc, 1, 1, 1, body)?;
    processes(alloc, copy, ports, channels)
}

/// A process that copies the source 0 to the sink 1, of this capacity.
pub fn copying(alloc: Global, cap: u32) -> Result<Network, Fail> {
    copies(alloc, &[(&[0], &[1])], &[Source, Sink(cap)])
}

/// Beside it, as process 1, the same once more: from the source 2 to the sink 3.
pub fn copying_beside(alloc: Global) -> Result<Network, Fail> {
    let ports: [Ports; 2] = [(&[0], &[1]), (&[2], &[3])];
    copies(alloc, &ports, &[Source, Sink(64), Source, Sink(64)])
}

/// A process that reads one item of the source 0.
pub fn reading(alloc: Global) -> Result<Network, Fail> {
    let body = vec![in alloc; Stmt::Read(0, 0)]?;
    let read = Program::new(alloc, 1, 0, 0, 1, vec![in alloc; body]?)?;
    processes(alloc, read, &[(&[0], &[])], &[Source])
}

/// A process that writes 7 for ever, to the sink 0.
pub fn pouring(alloc: Global) -> Result<Network, Fail> {
    let body = vec![in alloc; Stmt::Write(0, Expr::Num(7))]?;
    let pour = forever(alloc, 0, 1, 0, body)?;
    let ports: [Ports; 1] = [(&[], &[0])];
    processes(alloc, pour, &ports, &[Sink(LIMIT)])
}

/// Variable 0 this many times as a sum, at least one, by as few levels as there can be.
fn sum(alloc: Global, terms: u32) -> Result<Expr, AllocError> {
    if terms < 2 {
        return Ok(Expr::Var(0));
    }
    let left = Box::new(alloc, sum(alloc, terms / 2)?)?;
    let right = Box::new(alloc, sum(alloc, terms - terms / 2)?)?;
    Ok(Expr::Bin(Op::Add, left, right))
}

/// A process that writes 7 to itself, and then reads each item and writes the remainder by 97 of 2,000 times as much,
/// by nearly half as many operators as there may be nodes.
pub fn summing(alloc: Global) -> Result<Network, Fail> {
    let total = Box::new(alloc, sum(alloc, 2_000)?)?;
    let item = Expr::Bin(Op::Rem, total, Box::new(alloc, Expr::Num(97))?);
    let first = vec![in alloc; Stmt::Write(0, Expr::Num(7)), Stmt::While(Expr::Num(1), 1)]?;
    let body = vec![in alloc; Stmt::Read(0, 0), Stmt::Write(0, item)]?;
    let blocks = vec![in alloc; first, body]?;
    let program = Program::new(alloc, 1, 1, 0, 1, blocks)?;
    let ports: [Ports; 1] = [(&[0], &[0])];
    processes(alloc, program, &ports, &[Inner(1)])
}
