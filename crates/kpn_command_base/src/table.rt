//! Tables of texts: with tabs for other programs, and in columns for people.

use crate::pieces::Pushed;
use std::alloc::{AllocError, Global};

/// A row that is made cell by cell. The first cell is its name.
#[derive(Drop)]
pub struct TableRow {
    alloc: Global,
    cells: Vec<String>,
}

impl TableRow {
    /// The row of this name.
    pub fn new(alloc: Global, name: &str) -> Result<TableRow, AllocError> {
        let mut row = TableRow {
            alloc,
            cells: Vec::new(alloc),
        };
        row.add(name)?;
        Ok(row)
    }

    /// One cell more.
    pub fn add(&mut self, text: &str) -> Pushed {
        let cell = String::from_str(self.alloc, text)?;
        self.cells.push(cell)?;
        Ok(())
    }

    /// One number more, or `-` if there is none.
    pub fn add_number(&mut self, number: Option<usize>) -> Pushed {
        match number {
            Some(number) => {
                let cell = format!(in self.alloc; "{number}")?;
                self.cells.push(cell)?;
                Ok(())
            }
            None => self.add("-"),
        }
    }
}

/// Rows, of which the first has the headings.
#[derive(Drop)]
pub struct TextTable {
    rows: Vec<TableRow>,
}

impl TextTable {
    /// A table with these headings.
    pub fn new(alloc: Global, headings: &[&str]) -> Result<TextTable, AllocError> {
        let mut row = TableRow {
            alloc,
            cells: Vec::new(alloc),
        };
        for heading in headings {
            row.add(heading)?;
        }
        let mut rows = Vec::new(alloc);
        rows.push(row)?;
        Ok(TextTable { rows })
    }

    /// One row more.
    pub fn add(&mut self, row: TableRow) -> Pushed {
        self.rows.push(row)?;
        Ok(())
    }

    /// Writes the table with a tab between two cells.
    pub fn push_tabbed(&self, text: &mut String) -> Pushed {
        for row in self.rows.as_slice() {
            for (k, cell) in row.cells.as_slice().iter().enumerate() {
                if k > 0 {
                    text.push_str("\t")?;
                }
                text.push_str(cell.as_str())?;
            }
            text.push_str("\n")?;
        }
        Ok(())
    }

    /// Writes the table with each column as wide as the longest text in it: the names at the left of theirs, the other
    /// cells at the right, after two spaces.
    pub fn push_aligned(&self, alloc: Global, text: &mut String) -> Pushed {
        let widths = self.widths(alloc)?;
        for row in self.rows.as_slice() {
            push_line(text, widths.as_slice(), row.cells.as_slice())?;
        }
        Ok(())
    }

    // The length of the longest cell of each column.
    fn widths(&self, alloc: Global) -> Result<Vec<usize>, AllocError> {
        let mut widths: Vec<usize> = Vec::new(alloc);
        for row in self.rows.as_slice() {
            for (k, cell) in row.cells.as_slice().iter().enumerate() {
                if k < widths.len() {
                    widths[k] = widths[k].max(cell.len());
                } else {
                    widths.push(cell.len())?;
                }
            }
        }
        Ok(widths)
    }
}

fn push_line(text: &mut String, widths: &[usize], cells: &[String]) -> Pushed {
    for (k, cell) in cells.iter().enumerate() {
        let width = widths.get(k).copied().unwrap_or(0);
        let gap = width.saturating_sub(cell.len());
        if k == 0 {
            text.push_str(cell.as_str())?;
            push_spaces(text, gap)?;
        } else {
            push_spaces(text, gap.saturating_add(2))?;
            text.push_str(cell.as_str())?;
        }
    }
    text.push_str("\n")
}

fn push_spaces(text: &mut String, count: usize) -> Pushed {
    for _space in 0..count {
        text.push_str(" ")?;
    }
    Ok(())
}
