//! Arrays and tables: those of a process, each on a line of its body, and those before the processes.

ghost use Rattle.std.specs.Prelude.{◌≡◌, ◌++◌, ℕ, map, take, OnOk, codes};
ghost use Rattle.kpn_text.specs.Named.{array_named, declarations_named, literal_named, table_named, tables_named};
ghost use Rattle.kpn_text.specs.Text.{all_text, declaration_text, list_text, literal_text, table_text};
ghost use Rattle.kpn_text.specs.Writing.{Writes};

use crate::pieces::{bytes, values};
use itoa::Buffer;
use kpn_text_names::{NamedRow, NamedTable, ProcessNames};
use std::alloc::AllocError;

/// The arrays of a process and then its tables, of which these are the values one after another.
pub(crate) fn declarations(
    out: &mut Vec<u8>,
    names: &ProcessNames,
    list: &[i64],
) -> Result<(), AllocError>
    ensures { OnOk result (Writes out.old.items out.new.items
        (all_text declaration_text (declarations_named names.now list.now))) }
{
    let tables = names.tables.as_slice();
    arrays(out, names.arrays.as_slice())?;
    own_tables(out, &tables[..names.own.min(tables.len())], list)
}

fn arrays(out: &mut Vec<u8>, rows: &[NamedRow]) -> Result<(), AllocError>
    ensures { OnOk result (Writes out.old.items out.new.items
        (all_text declaration_text (map array_named rows.now))) }
{
    for row in rows {
        bytes(out, b"  array ")?;
        bytes(out, row.name.as_slice())?;
        bytes(out, b"[")?;
        let mut buffer = Buffer::new();
        bytes(out, buffer.format(row.size).as_bytes())?;
        bytes(out, b"];\n")?;
    }
    Ok(())
}

fn own_tables(out: &mut Vec<u8>, rows: &[NamedRow], list: &[i64]) -> Result<(), AllocError>
    ensures { OnOk result (Writes out.old.items out.new.items
        (all_text declaration_text (tables_named rows.now list.now))) }
{
    let mut left = list;
    for row in rows {
        let (own, others) = left.split_at(row.size.min(left.len()));
        bytes(out, b"  ")?;
        table(out, row.name.as_slice(), own)?;
        left = others;
    }
    Ok(())
}

/// A table, up to the end of its line.
fn table(out: &mut Vec<u8>, name: &[u8], list: &[i64]) -> Result<(), AllocError>
    ensures { OnOk result (Writes out.old.items out.new.items (λ more.
        codes "table " ++ (name.now ++ (codes " = "
        ++ list_text literal_text (map literal_named list.now) (codes ";\n" ++ more))))) }
{
    bytes(out, b"table ")?;
    bytes(out, name)?;
    bytes(out, b" = ")?;
    values(out, list)?;
    bytes(out, b";\n")
}

/// The tables before the processes.
pub(crate) fn shared_tables(out: &mut Vec<u8>, tables: &[NamedTable]) -> Result<(), AllocError>
    ensures { OnOk result
        (Writes out.old.items out.new.items (all_text table_text (map table_named tables.now))) }
{
    for shared in tables {
        table(out, shared.name.as_slice(), shared.values.as_slice())?;
    }
    Ok(())
}
