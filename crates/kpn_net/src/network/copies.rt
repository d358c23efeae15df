//! Copies of the parts of networks.
ghost use Rattle.std.specs.Prelude.{◌≡◌, IfOk};

use crate::tables::Instance;
use kpn_lang::{Program, Sequence};
use std::alloc::{AllocError, Global};

/// A copy of each program.
pub fn copy_programs(alloc: Global, programs: &[Program]) -> Result<Vec<Program>, AllocError>
    ensures { IfOk result (λ copies. copies.items ≡ programs.now) }
{
    let mut copies = Vec::new(alloc);
    for program in programs {
        copies.push(program.copy()?)?;
    }
    Ok(copies)
}

/// A copy of each instance.
pub fn copy_instances(alloc: Global, instances: &[Instance]) -> Result<Vec<Instance>, AllocError>
    ensures { IfOk result (λ copies. copies.items ≡ instances.now) }
{
    let mut copies = Vec::new(alloc);
    for instance in instances {
        copies.push(copy_instance(alloc, instance)?)?;
    }
    Ok(copies)
}

fn copy_instance(alloc: Global, instance: &Instance) -> Result<Instance, AllocError>
    ensures { IfOk result (λ copy. copy ≡ instance.now) }
{
    let ins = Vec::from_slice(alloc, instance.ins.as_slice())?;
    let outs = Vec::from_slice(alloc, instance.outs.as_slice())?;
    let pars = Vec::from_slice(alloc, instance.pars.as_slice())?;
    Ok(Instance {
        program: instance.program,
        ins: Sequence::from_vec(ins),
        outs: Sequence::from_vec(outs),
        pars: Sequence::from_vec(pars),
    })
}
