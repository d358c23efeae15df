//! The names of a description, copied out of its text.

ghost use Rattle.std.specs.Prelude.{◌≡◌, map, IfOk};
ghost use Rattle.kpn_text_names.specs.NetworkNames.{paired, named_row, named_table, names_in, process_names_in};
ghost use Rattle.kpn_text_names.specs.Scope.{behind_arrays};
ghost use Rattle.kpn_text_names.specs.View.{named_seen};

use kpn_lang::Sequence;
use kpn_text_names::{
    NameScope, NameTable, Named, NamedRow, NamedTable, NetworkNames, ProcessNames, ProgramParts,
    Row,
};
use std::alloc::{AllocError, Global};

/// A copy of a name.
fn copied(alloc: Global, name: &[u8]) -> Result<Sequence<u8>, AllocError>
    ensures { IfOk result (λ own. own ≡ name.now) }
{
    let bytes = name.to_vec(alloc)?;
    Ok(Sequence::from_vec(bytes))
}

/// A copy of each name of a table, by number.
fn table(alloc: Global, names: &NameTable<'_>) -> Result<Sequence<Sequence<u8>>, AllocError>
    ensures { IfOk result (λ own. own ≡ names.now) }
{
    let mut own = Sequence::new(alloc);
    for number in 0..names.len() {
        let Some(name) = names.get(number) else {
            break;
        };
        own.push(copied(alloc, name)?)?;
    }
    Ok(own)
}

/// The row of an array with its name.
fn array(alloc: Global, name: &[u8], row: &Row) -> Result<NamedRow, AllocError>
    ensures { IfOk result (λ own. own ≡ named_row name.now row.now) }
{
    let name = copied(alloc, name)?;
    Ok(NamedRow {
        name,
        base: row.base,
        size: row.size,
    })
}

/// The row of a table with its name, after the arrays.
fn table_row(
    alloc: Global,
    scope: &NameScope<'_>,
    name: &[u8],
    row: &Row,
) -> Result<NamedRow, AllocError>
    ensures { IfOk result (λ own. own ≡ named_row name.now (behind_arrays scope.now row.now)) }
{
    let name = copied(alloc, name)?;
    Ok(NamedRow {
        name,
        base: scope.arrays.end.saturating_add(row.base),
        size: row.size,
    })
}

/// A table before the processes, with its name.
fn shared_table(alloc: Global, name: &[u8], values: &[i64]) -> Result<NamedTable, AllocError>
    ensures { IfOk result (λ own. own ≡ named_table name.now values.now) }
{
    let name = copied(alloc, name)?;
    let values = Sequence::from_vec(values.to_vec(alloc)?);
    Ok(NamedTable { name, values })
}

/// The rows of arrays with their names.
fn arrays(
    alloc: Global,
    names: &NameTable<'_>,
    rows: &[Row],
) -> Result<Sequence<NamedRow>, AllocError>
    ensures { IfOk result (λ own. own ≡ paired named_row names.now rows.now) }
{
    let mut own = Sequence::new(alloc);
    for (number, row) in rows.iter().enumerate() {
        let Some(name) = names.get(number) else {
            break;
        };
        own.push(array(alloc, name, row)?)?;
    }
    Ok(own)
}

/// The rows of tables with their names, after the arrays.
fn tables(
    alloc: Global,
    scope: &NameScope<'_>,
    rows: &[Row],
) -> Result<Sequence<NamedRow>, AllocError>
    ensures { IfOk result (λ own. own ≡ paired named_row scope.now.tables.rows.names
        (map (behind_arrays scope.now) rows.now)) }
{
    let mut own = Sequence::new(alloc);
    for (number, row) in rows.iter().enumerate() {
        let Some(name) = scope.tables.rows.names.get(number) else {
            break;
        };
        own.push(table_row(alloc, scope, name, row)?)?;
    }
    Ok(own)
}

/// The tables before the processes.
fn shared_tables(
    alloc: Global,
    names: &NameTable<'_>,
    lists: &[Sequence<i64>],
) -> Result<Sequence<NamedTable>, AllocError>
    ensures { IfOk result (λ own. own ≡ paired named_table names.now lists.now) }
{
    let mut own = Sequence::new(alloc);
    for (number, values) in lists.iter().enumerate() {
        let Some(name) = names.get(number) else {
            break;
        };
        own.push(shared_table(alloc, name, values.as_slice())?)?;
    }
    Ok(own)
}

/// The names of a process.
fn of_process(alloc: Global, name: &[u8], scope: &NameScope<'_>) -> Result<ProcessNames, AllocError>
    ensures { IfOk result (λ own. own ≡ process_names_in name.now scope.now) }
{
    let name = copied(alloc, name)?;
    let ins = table(alloc, &scope.ins)?;
    let outs = table(alloc, &scope.outs)?;
    let vars = table(alloc, &scope.vars)?;
    let arrays = arrays(alloc, &scope.arrays.names, scope.arrays.rows.as_slice())?;
    let tables = tables(alloc, scope, scope.tables.rows.rows.as_slice())?;
    let own = scope
        .tables
        .rows
        .names
        .len()
        .saturating_sub(scope.tables.used.as_slice().len());
    Ok(ProcessNames {
        name,
        ins,
        outs,
        vars,
        arrays,
        tables,
        own,
    })
}

/// The names of the processes, each with the names in it.
fn of_processes(
    alloc: Global,
    names: &NameTable<'_>,
    programs: &[ProgramParts<'_>],
) -> Result<Sequence<ProcessNames>, AllocError>
    ensures { IfOk result
        (λ own.
        own ≡ paired process_names_in names.now (map (λ p. p.scope) programs.now)) }
{
    let mut own = Sequence::new(alloc);
    for (number, program) in programs.iter().enumerate() {
        let Some(name) = names.get(number) else {
            break;
        };
        own.push(of_process(alloc, name, &program.scope)?)?;
    }
    Ok(own)
}

/// The names of a description.
pub(crate) fn names_of(alloc: Global, named: &Named<'_>) -> Result<NetworkNames, AllocError>
    ensures { IfOk result (λ own. own ≡ names_in (named_seen named.now)) }
{
    let shared = &named.shared;
    let tables = shared_tables(alloc, &shared.names, shared.values.as_slice())?;
    let processes = of_processes(alloc, &named.processes, named.programs.as_slice())?;
    let instances = table(alloc, &named.instance_names)?;
    let channels = table(alloc, &named.channel_names)?;
    Ok(NetworkNames {
        tables,
        processes,
        instances,
        channels,
    })
}
