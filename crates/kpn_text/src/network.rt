//! The network of the tables that a description names: the last two phases of reading.

ghost use Rattle.std.specs.Prelude.{◌≡◌, ◌++◌, None, length, map, IfOk};
ghost use Rattle.kpn_lang.specs.Parts.{first_fault};
ghost use Rattle.kpn_text_names.specs.Named.{values_of};
ghost use Rattle.kpn_text_names.specs.Shared.{values_at};
ghost use Rattle.kpn_text_names.specs.View.{named_seen, program_seen};
ghost use Rattle.kpn_text.specs.Document.{network_size};
ghost use Rattle.kpn_text.specs.Phases.{program_or, programs_cause, tables_cause};
ghost use Rattle.kpn_text.specs.Making.{Makes, program_told};

use crate::fault::TextFault;
use kpn_lang::{Program, ProgramFault};
use kpn_limits::MAX_VARIABLES;
use kpn_net::{Network, NetworkSize};
use kpn_text_names::{NameScope, Named, ProgramParts, SharedTables};
use kpn_text_tokens::Language;
use std::alloc::{AllocError, Global};

/// The values of a shared table.
fn shared_values<'b>(shared: &'b SharedTables<'_>, number: usize) -> &'b [i64]
    ensures { result.now ≡ values_at shared.now number }
{
    match shared.values.as_slice().get(number) {
        Some(values) => values.as_slice(),
        None => &[],
    }
}

/// The values of the tables that a process knows: those of its own, and those of the shared ones that it names.
fn values(
    alloc: Global,
    shared: &SharedTables<'_>,
    scope: &NameScope<'_>,
) -> Result<Vec<i64>, AllocError>
    ensures { IfOk result (λ values. values.items ≡ values_of shared.now scope.now) }
{
    let mut values = scope.tables.values.as_slice().to_vec(alloc)?;
    for number in scope.tables.used.as_slice() {
        values.extend_from_slice(shared_values(shared, *number))?;
    }
    Ok(values)
}

/// The program of the process with this number, if these are the shared tables.
fn program(
    alloc: Global,
    shared: &SharedTables<'_>,
    number: usize,
    process: ProgramParts<'_>,
) -> Result<Program, TextFault>
    ensures { let parts = (program_seen shared.now process.entry).parts in
        Makes (λ program. program ≡ parts) result (program_or number (first_fault parts) None) }
{
    let ins = process.scope.ins.len();
    let outs = process.scope.outs.len();
    let free = process.scope.arrays.end.saturating_sub(MAX_VARIABLES);
    let values = values(alloc, shared, &process.scope)?;
    match Program::with_cells(
        alloc,
        ins,
        outs,
        process.pars,
        process.locals,
        free,
        values,
        process.blocks,
    ) {
        Ok(program) => Ok(program),
        Err(fault) => Err(told(number, fault)),
    }
}

/// The fault of the text that a fault of the program with this number becomes.
fn told(number: usize, fault: ProgramFault) -> TextFault
    ensures { result ≡ program_told number fault }
{
    match fault {
        ProgramFault::NoMemory => TextFault::NoMemory,
        _ => TextFault::Program(number, fault),
    }
}

/// The programs of the processes in order.
fn programs(
    alloc: Global,
    shared: &SharedTables<'_>,
    processes: Vec<ProgramParts<'_>>,
) -> Result<Vec<Program>, TextFault>
    ensures { let parts = map (λ p. p.parts) (map (program_seen shared.now) processes.entry.items) in
        Makes (λ programs. programs.items ≡ parts) result (programs_cause 0 parts) }
{
    let mut programs = Vec::new(alloc);
    for process in processes {
        let program = program(alloc, shared, programs.len(), process)?;
        programs.push(program)?;
    }
    Ok(programs)
}

/// The size that the network of a description in this language may have.
pub fn network_size(language: Language) -> NetworkSize
    ensures { result ≡ network_size language }
{
    match language {
        Language::One => NetworkSize::Usual,
        Language::Two => NetworkSize::Large,
    }
}

/// The network of the tables, or the first rule that they break: of the programs in order, then of the network.
pub(crate) fn network(
    alloc: Global,
    language: Language,
    named: Named<'_>,
) -> Result<Network, TextFault>
    ensures { let tables = (named_seen named.entry).tables in
        Makes (λ network. network ≡ tables) result (tables_cause (network_size language) tables) }
{
    let Named {
        shared,
        processes: _,
        programs: processes,
        instance_names: _,
        instances,
        channel_names: _,
        channels,
        limit,
        policy,
        growth,
    } = named;
    let programs = programs(alloc, &shared, processes)?;
    let size = network_size(language);
    let network = Network::sized(
        alloc, size, programs, instances, channels, limit, policy, growth,
    )?;
    Ok(network)
}
