//! The pieces of which a text is printed. Each goes after the bytes so far. If memory runs out, the contracts leave
//! open how much was put by then.

ghost use Rattle.std.specs.Prelude.{◌≡◌, ℕ, ◌++◌, map, OnOk};
ghost use Rattle.kpn_text_names.specs.Names.{name_at};
ghost use Rattle.kpn_text_tokens.specs.declared.tokens.Language.{Language};
ghost use Rattle.kpn_text.specs.Named.{literal_named, number_named, row_name, row_name_or};
ghost use Rattle.kpn_text.specs.Text.{indented, list_text, literal_text, name_text, names_text, term_text};
ghost use Rattle.kpn_text.specs.Writing.{Writes};

use itoa::Buffer;
use kpn_lang::Sequence;
use kpn_text_names::{NamedRow, ProcessNames};
use std::alloc::AllocError;

/// These bytes.
pub(crate) fn bytes(out: &mut Vec<u8>, bytes: &[u8]) -> Result<(), AllocError>
    ensures { OnOk result (Writes out.old.items out.new.items (λ more. bytes.now ++ more)) }
{
    out.extend_from_slice(bytes)?;
    Ok(())
}

/// A number without leading zeros, after a minus if it is below 0.
pub(crate) fn number(out: &mut Vec<u8>, number: &i64) -> Result<(), AllocError>
    ensures expression { (l : Language) (tight : ℕ) → OnOk result
        (Writes out.old.items out.new.items (term_text l tight (number_named number.now))) }
    ensures value { OnOk result
        (Writes out.old.items out.new.items (literal_text (literal_named number.now))) }
{
    let mut buffer = Buffer::new();
    bytes(out, buffer.format(*number).as_bytes())
}

/// The name with a number, and nothing if there is none.
pub(crate) fn name(
    out: &mut Vec<u8>,
    names: &[Sequence<u8>],
    number: usize,
) -> Result<(), AllocError>
    ensures { OnOk result
        (Writes out.old.items out.new.items (name_text (name_at names.now number))) }
{
    match names.get(number) {
        Some(name) => bytes(out, name.as_slice()),
        None => Ok(()),
    }
}

/// The name of the row that begins at a place, of these rows, or else another name.
fn row_or<'a>(rows: &'a [NamedRow], base: usize, other: &'a [u8]) -> &'a [u8]
    ensures { result.now ≡ row_name_or rows.now base other.now }
{
    for row in rows {
        if row.base == base {
            return row.name.as_slice();
        }
    }
    other
}

/// The name of the array or the table that begins at a place.
pub(crate) fn row(out: &mut Vec<u8>, names: &ProcessNames, base: usize) -> Result<(), AllocError>
    ensures { OnOk result
        (Writes out.old.items out.new.items (name_text (row_name names.now base))) }
{
    let table = row_or(names.tables.as_slice(), base, b"");
    bytes(out, row_or(names.arrays.as_slice(), base, table))
}

/// Values joined by commas.
pub(crate) fn values(out: &mut Vec<u8>, values: &[i64]) -> Result<(), AllocError>
    ensures { OnOk result
        (Writes out.old.items out.new.items
        (list_text literal_text (map literal_named values.now))) }
{
    let Some((first, others)) = values.split_first() else {
        return Ok(());
    };
    number(out, first)?;
    for value in others {
        bytes(out, b", ")?;
        number(out, value)?;
    }
    Ok(())
}

/// Names joined by commas.
pub(crate) fn names(out: &mut Vec<u8>, names: &[Sequence<u8>]) -> Result<(), AllocError>
    ensures { OnOk result (Writes out.old.items out.new.items (names_text names.now)) }
{
    let Some((first, others)) = names.split_first() else {
        return Ok(());
    };
    bytes(out, first.as_slice())?;
    for name in others {
        bytes(out, b", ")?;
        bytes(out, name.as_slice())?;
    }
    Ok(())
}

/// Two spaces for each level.
pub(crate) fn indent(out: &mut Vec<u8>, level: usize) -> Result<(), AllocError>
    ensures { OnOk result (Writes out.old.items out.new.items (indented level)) }
{
    for _step in 0..level {
        bytes(out, b"  ")?;
    }
    Ok(())
}
