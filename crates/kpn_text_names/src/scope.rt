//! The names that a process knows: its ports, its variables, and its arrays and tables.

ghost use Rattle.std.specs.Prelude.{◌≡◌, ◌≤◌, [], length, map, OnOk, IfErr};
ghost use Rattle.kpn_text_grammar.specs.View.{declaration_seen, names_seen, process_seen};
ghost use Rattle.kpn_text_names.specs.Fault.{ResolvingGives, each};
ghost use Rattle.kpn_text_names.specs.Scope as spec;
ghost use Rattle.kpn_text_names.specs.Writer.{declared_in};

use crate::fault::NameFault;
use crate::names::NameTable;
use crate::rows::{Row, Rows};
use crate::tables::KnownTables;
use kpn_limits::MAX_VARIABLES;
use kpn_text_grammar::{Declaration, Identifier, ProcessNode};
use std::alloc::Global;

/// The names of a process. No two of them are the same.
pub struct NameScope<'a> {
    /// The in ports, in order.
    pub ins: NameTable<'a>,
    /// The out ports, in order.
    pub outs: NameTable<'a>,
    /// The variables: the parameters in order, then the locals in the order of their first targets.
    pub vars: NameTable<'a>,
    /// The arrays, whose cells have numbers from 64 on.
    pub arrays: Rows<'a>,
    /// The tables, whose cells have numbers behind those.
    pub tables: KnownTables<'a>,
}

/// It is written out, so that a call that may drop the names proves nothing about what is inside.
impl<'a> Drop for NameScope<'a> {
    fn drop(self) {
        let NameScope {
            ins,
            outs,
            vars,
            arrays,
            tables,
        } = self;
        drop(ins);
        drop(outs);
        drop(vars);
        drop(arrays);
        drop(tables);
    }
}

/// A part of the head of a process.
#[derive(Clone, Copy)]
pub(crate) enum HeadPart {
    In,
    Out,
    Parameter,
}

impl<'a> NameScope<'a> {
    /// No names yet.
    pub(crate) fn new(alloc: Global) -> NameScope<'a>
        ensures { result ≡ spec.scope_with [] [] [] }
    {
        NameScope {
            ins: NameTable::new(alloc),
            outs: NameTable::new(alloc),
            vars: NameTable::new(alloc),
            arrays: Rows::new(alloc, MAX_VARIABLES),
            tables: KnownTables::new(alloc),
        }
    }

    /// The names of the head of a process, which must be distinct and none of the shared tables.
    pub(crate) fn of_head(
        alloc: Global,
        shared: &NameTable<'a>,
        process: &ProcessNode<'a>,
    ) -> Result<NameScope<'a>, NameFault>
        ensures { ResolvingGives (λ s. s) result (spec.head_scope shared.now (process_seen process.now)) }
    {
        let mut scope = NameScope::new(alloc);
        scope.declare_head(shared, process)?;
        Ok(scope)
    }

    /// Adds the names of a head to none.
    fn declare_head(
        &mut self,
        shared: &NameTable<'a>,
        process: &ProcessNode<'a>,
    ) -> Result<(), NameFault>
        requires { self.old ≡ spec.scope_with [] [] [] }
        ensures { ResolvingGives (λ _. self.new) result (spec.head_scope shared.now (process_seen process.now)) }
    {
        self.declare_all(shared, HeadPart::In, process.parts.ins.as_slice())?;
        self.declare_all(shared, HeadPart::Out, process.parts.outs.as_slice())?;
        self.declare_all(shared, HeadPart::Parameter, process.parts.pars.as_slice())
    }

    /// Adds the names of a part of the head in order.
    fn declare_all(
        &mut self,
        shared: &NameTable<'a>,
        part: HeadPart,
        names: &[Identifier<'a>],
    ) -> Result<(), NameFault>
        ensures { ResolvingGives (λ _. self.new) result
            (each (declared_in shared.now part) self.old (names_seen names.now)) }
    {
        for name in names {
            self.declare(shared, part, name)?;
        }
        Ok(())
    }

    /// Adds a name to a part of the head. It must be new to the process.
    fn declare(
        &mut self,
        shared: &NameTable<'a>,
        part: HeadPart,
        name: &Identifier<'a>,
    ) -> Result<(), NameFault>
        ensures { ResolvingGives (λ _. self.new) result
            (declared_in shared.now part self.old name.now.bytes.now) }
    {
        if self.is_taken(shared, name.bytes) {
            return Err(NameFault::DoubleName(name.start));
        }
        match part {
            HeadPart::In => self.ins.declare(name),
            HeadPart::Out => self.outs.declare(name),
            HeadPart::Parameter => self.vars.declare(name),
        }
    }

    /// Adds arrays and tables in order.
    pub(crate) fn declare_rows(
        &mut self,
        shared: &NameTable<'a>,
        declarations: &[Declaration<'a>],
    ) -> Result<(), NameFault>
        ensures { ResolvingGives (λ _. self.new) result
            (each (spec.declare shared.now) self.old (map declaration_seen declarations.now)) }
    {
        for declaration in declarations {
            self.declare_row(shared, declaration)?;
        }
        Ok(())
    }

    /// Adds an array or a table, whose name must be new to the process.
    fn declare_row(
        &mut self,
        shared: &NameTable<'a>,
        declaration: &Declaration<'a>,
    ) -> Result<(), NameFault>
        ensures { ResolvingGives (λ _. self.new) result
            (spec.declare shared.now self.old (declaration_seen declaration.now)) }
    {
        match declaration {
            Declaration::Array(name, size) => {
                if self.is_taken(shared, name.bytes) {
                    return Err(NameFault::DoubleName(name.start));
                }
                self.arrays.push(name.bytes, size.value() as usize)
            }
            Declaration::Table(table) => {
                if self.is_taken(shared, table.name.bytes) {
                    return Err(NameFault::DoubleName(table.name.start));
                }
                self.tables.push(table)
            }
        }
    }

    fn is_port(&self, name: &'a [u8]) -> bool
        ensures { result ≡ spec.is_port self.now name.now }
    {
        self.ins.contains(name) || self.outs.contains(name)
    }

    fn is_row(&self, shared: &NameTable<'a>, name: &'a [u8]) -> bool
        ensures { result ≡ spec.is_row shared.now self.now name.now }
    {
        shared.contains(name)
            || self.arrays.names.contains(name)
            || self.tables.rows.names.contains(name)
    }

    fn is_taken(&self, shared: &NameTable<'a>, name: &'a [u8]) -> bool
        ensures { result ≡ spec.is_taken shared.now self.now name.now }
    {
        self.is_row(shared, name) || self.is_port(name) || self.vars.contains(name)
    }

    /// The number of the variable that a name sets. A new name makes a new variable.
    pub(crate) fn target(
        &mut self,
        shared: &NameTable<'a>,
        name: &Identifier<'a>,
    ) -> Result<usize, NameFault>
        ensures number { ResolvingGives (λ k. (self.new, k)) result
            (spec.target shared.now self.old name.now.bytes.now) }
        ensures vars { OnOk result (length self.old.vars ≤ length self.new.vars) }
    {
        if self.is_port(name.bytes) || self.is_row(shared, name.bytes) {
            return Err(NameFault::DoubleName(name.start));
        }
        self.vars.number(name.bytes)
    }

    /// Adds the variable that a name sets. A port, an array or a table makes none.
    pub(crate) fn add_target(
        &mut self,
        shared: &NameTable<'a>,
        name: &Identifier<'a>,
    ) -> Result<(), NameFault>
        ensures scope { OnOk result
            (self.new ≡ spec.with_target shared.now self.old name.now.bytes.now) }
        ensures vars { OnOk result (length self.old.vars ≤ length self.new.vars) }
        ensures only { IfErr result (λ fault. fault ≡ NameFault.NoMemory) }
    {
        if self.is_port(name.bytes) || self.is_row(shared, name.bytes) {
            return Ok(());
        }
        self.vars.number(name.bytes)?;
        Ok(())
    }

    /// The cells of an array.
    #[tactic(auto, unfolding(kpn_text_tokens::specs::Results::and_then))]
    pub(crate) fn array_row(&self, name: &Identifier<'a>) -> Result<Row, NameFault>
        ensures { ResolvingGives (λ row. row) result (spec.array_row self.now name.now.bytes.now) }
    {
        let number = self.arrays.names.known(name)?;
        Ok(self.arrays.row(number))
    }

    /// The cells of a table.
    #[tactic(auto, unfolding(kpn_text_tokens::specs::Results::and_then))]
    fn table_row(&self, name: &Identifier<'a>) -> Result<Row, NameFault>
        ensures { ResolvingGives (λ row. row) result (spec.table_row self.now name.now.bytes.now) }
    {
        let number = self.tables.rows.names.known(name)?;
        let row = self.tables.rows.row(number);
        Ok(Row {
            base: self.arrays.end.saturating_add(row.base),
            size: row.size,
        })
    }

    /// The cells of an array or a table.
    pub(crate) fn row(&self, name: &Identifier<'a>) -> Result<Row, NameFault>
        ensures { ResolvingGives (λ row. row) result (spec.row_of self.now name.now.bytes.now) }
    {
        match self.arrays.names.find(name.bytes) {
            Some(number) => Ok(self.arrays.row(number)),
            None => self.table_row(name),
        }
    }
}
