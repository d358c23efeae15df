//! Instances, and programs that do nothing.
use kpn_lang::{Program, Sequence};
use kpn_net::Instance;
use std::alloc::{AllocError, Global};
use std::test::Fail;

pub fn instance(
    alloc: Global,
    program: usize,
    ins: &[usize],
    outs: &[usize],
    pars: &[i64],
) -> Result<Instance, AllocError> {
    Ok(Instance {
        program,
        ins: Sequence::from_vec(ins.to_vec(alloc)?),
        outs: Sequence::from_vec(outs.to_vec(alloc)?),
        pars: Sequence::from_vec(pars.to_vec(alloc)?),
    })
}

/// A program that does nothing.
pub fn idle(alloc: Global, ins: usize, outs: usize) -> Result<Program, Fail> {
    let body = vec![in alloc; Vec::new(alloc)]?;
    Ok(Program::new(alloc, ins, outs, 0, 0, body)?)
}
