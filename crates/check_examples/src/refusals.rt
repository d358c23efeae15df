//! Refusals that no command line causes if there is memory and no worker goes astray.

use crate::devices::{NONE, Output};
use anyhow::Result;
use kpn_command_base::Refusal;
use kpn_lang::ProgramFault;
use kpn_net::NetFault;
use kpn_text::TextFault;
use kpn_text_items::ItemFault;
use std::alloc::Global;
use std::io::Write;

/// Writes what is refused, the error line of that and its status.
fn tell<O: Write>(alloc: Global, out: &mut O, name: &str, refusal: Refusal) -> Result<()> {
    let mut errors = Output::new(alloc, NONE);
    let status = refusal.report(&mut errors);
    writeln!(out, "{name}:")?;
    out.write_all(&errors.kept)?;
    writeln!(out, "status {status}")?;
    Ok(())
}

/// Want of memory in each of its forms.
fn tell_want_of_memory<O: Write>(alloc: Global, out: &mut O) -> Result<()> {
    let program = TextFault::Program(3, ProgramFault::NoMemory);
    let net = TextFault::Net(NetFault::NoMemory);
    for (name, refusal) in [
        ("anywhere", Refusal::NoMemory),
        ("an input", Refusal::Input(ItemFault::NoMemory)),
        ("a description", Refusal::Description(TextFault::NoMemory)),
        ("its fourth program", Refusal::Description(program)),
        ("its network", Refusal::Description(net)),
    ] {
        tell(alloc, out, name, refusal)?;
    }
    Ok(())
}

/// Writes how each refusal is reported.
pub(crate) fn tell_refusals<O: Write>(alloc: Global, out: &mut O) -> Result<()> {
    tell_want_of_memory(alloc, out)?;
    tell(alloc, out, "no thread", Refusal::Threads)?;
    tell(alloc, out, "a worker has gone", Refusal::Abandoned)?;
    tell(alloc, out, "another run's steps", Refusal::Foreign)
}
