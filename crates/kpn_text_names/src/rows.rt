//! Cells in rows: the cells of arrays, and the values of tables. The rows stand one behind another.

ghost use Rattle.std.specs.Prelude.{◌≡◌, OnOk, IfErr};
ghost use Rattle.kpn_text_names.specs.Rows as spec;

use crate::fault::NameFault;
use crate::names::NameTable;
use kpn_lang::Sequence;
use std::alloc::Global;

/// Cells in a row.
#[derive(Clone, Copy)]
pub struct Row {
    /// The place of the first of them.
    pub base: usize,
    /// How many they are.
    pub size: usize,
}

/// Rows one behind another, with their names.
#[derive(Drop)]
pub struct Rows<'a> {
    pub names: NameTable<'a>,
    /// The row of each name.
    pub rows: Sequence<Row>,
    /// The place behind the last row, as far as 64 bits can hold it.
    pub end: usize,
}

impl<'a> Rows<'a> {
    /// No rows yet. The first will begin at this place.
    pub(crate) fn new(alloc: Global, first: usize) -> Rows<'a>
        ensures { result ≡ spec.rows_from first }
    {
        Rows {
            names: NameTable::new(alloc),
            rows: Sequence::new(alloc),
            end: first,
        }
    }

    /// Puts a row of this name and size behind the others.
    pub(crate) fn push(&mut self, name: &'a [u8], size: usize) -> Result<(), NameFault>
        ensures row { OnOk result (self.new ≡ spec.with_row self.old name.now size) }
        ensures only { IfErr result (λ fault. fault ≡ NameFault.NoMemory) }
    {
        let base = self.end;
        self.names.number(name)?;
        self.rows.push(Row { base, size })?;
        self.end = base.saturating_add(size);
        Ok(())
    }

    /// The row with this number.
    pub(crate) fn row(&self, number: usize) -> Row
        ensures { result ≡ spec.row_at self.now.rows number }
    {
        match self.rows.as_slice().get(number) {
            Some(row) => *row,
            None => Row { base: 0, size: 0 },
        }
    }
}
