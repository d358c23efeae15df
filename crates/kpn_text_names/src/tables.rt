//! Tables: those of a process, and those before the processes, which a process may name.

ghost use Rattle.std.specs.Prelude.{◌≡◌, map, OnOk, IfErr, length};
ghost use Rattle.std.specs.Global.{Vec as Vector};
ghost use Rattle.kpn_text_grammar.specs.View.{table_seen, term, statement_seen, block_seen};
ghost use Rattle.kpn_text_names.specs.Fault.{ResolvingGives};
ghost use Rattle.kpn_text_names.specs.Scope.{no_tables, with_table};
ghost use Rattle.kpn_text_names.specs.Shared as spec;

use crate::fault::NameFault;
use crate::names::NameTable;
use crate::network::{value, values};
use crate::rows::Rows;
use kpn_lang::Sequence;
use kpn_text_grammar::{Expression, StatementNode, Table};
use std::alloc::Global;

/// The tables before the processes.
#[derive(Drop)]
pub struct SharedTables<'a> {
    pub names: NameTable<'a>,
    /// The values of each.
    pub values: Sequence<Sequence<i64>>,
}

impl<'a> SharedTables<'a> {
    /// The tables in the order of the text.
    pub(crate) fn read(alloc: Global, tables: &[Table<'a>]) -> Result<SharedTables<'a>, NameFault>
        ensures { ResolvingGives (λ s. s) result (spec.shared_of (map table_seen tables.now)) }
    {
        let mut read = SharedTables {
            names: NameTable::new(alloc),
            values: Sequence::new(alloc),
        };
        for table in tables {
            read.add(alloc, table)?;
        }
        Ok(read)
    }

    /// Adds a table, whose name must be new.
    #[tactic(auto, unfolding(kpn_text_tokens::specs::Results::and_then))]
    fn add(&mut self, alloc: Global, table: &Table<'a>) -> Result<(), NameFault>
        ensures { ResolvingGives (λ _. self.new) result (spec.with_shared self.old (table_seen table.now)) }
    {
        self.names.declare(&table.name)?;
        let values = values(alloc, table.values.as_slice())?;
        self.values.push(values)?;
        Ok(())
    }

    /// How many values the table with this number has.
    fn size(&self, number: usize) -> usize
        ensures { result ≡ length (spec.values_at self.now number) }
    {
        match self.values.as_slice().get(number) {
            Some(values) => values.as_slice().len(),
            None => 0,
        }
    }
}

/// The tables that a process knows: its own, and behind them the shared ones that it names.
#[derive(Drop)]
pub struct KnownTables<'a> {
    /// Their rows, in places from 0 on.
    pub rows: Rows<'a>,
    /// The values of its own.
    pub values: Sequence<i64>,
    /// The numbers of the shared ones.
    pub used: Sequence<usize>,
}

impl<'a> KnownTables<'a> {
    pub(crate) fn new(alloc: Global) -> KnownTables<'a>
        ensures { result ≡ no_tables }
    {
        KnownTables {
            rows: Rows::new(alloc, 0),
            values: Sequence::new(alloc),
            used: Sequence::new(alloc),
        }
    }

    /// Adds a table of the process.
    pub(crate) fn push(&mut self, table: &Table<'a>) -> Result<(), NameFault>
        ensures table { OnOk result (self.new ≡ with_table self.old (table_seen table.now)) }
        ensures only { IfErr result (λ fault. fault ≡ NameFault.NoMemory) }
    {
        self.rows.push(table.name.bytes, table.values.len())?;
        for literal in table.values.as_slice() {
            self.values.push(value(*literal))?;
        }
        Ok(())
    }

    /// Adds the shared table of this name, if there is one and it is not there yet.
    fn add_use(&mut self, shared: &SharedTables<'a>, name: &'a [u8]) -> Result<(), NameFault>
        ensures tables { OnOk result
            (self.new ≡ spec.with_name_used shared.now self.old name.now) }
        ensures only { IfErr result (λ fault. fault ≡ NameFault.NoMemory) }
    {
        let Some(number) = shared.names.find(name) else {
            return Ok(());
        };
        if self.rows.names.contains(name) {
            return Ok(());
        }
        self.rows.push(name, shared.size(number))?;
        self.used.push(number)?;
        Ok(())
    }

    /// Adds the shared tables that an expression names.
    fn add_uses(
        &mut self,
        shared: &SharedTables<'a>,
        expression: &Expression<'a>,
    ) -> Result<(), NameFault>
        ensures tables { OnOk result
            (self.new ≡ spec.used_in_term shared.now self.old (term expression.now)) }
        ensures only { IfErr result (λ fault. fault ≡ NameFault.NoMemory) }
    {
        match expression {
            Expression::Number(_) | Expression::Name(_) => Ok(()),
            Expression::Element(name, index) => {
                self.add_use(shared, name.bytes)?;
                self.add_uses(shared, index)
            }
            Expression::Negative(inner) | Expression::Not(inner) | Expression::BitNot(inner) => {
                self.add_uses(shared, inner)
            }
            Expression::Binary(_, left, right) => {
                self.add_uses(shared, left)?;
                self.add_uses(shared, right)
            }
            Expression::Choice(test, first, second) => {
                self.add_uses(shared, test)?;
                self.add_uses(shared, first)?;
                self.add_uses(shared, second)
            }
        }
    }

    /// Adds the shared tables that a statement names.
    #[cycle(uses)]
    fn add_uses_of(
        &mut self,
        shared: &SharedTables<'a>,
        statement: &StatementNode<'a>,
    ) -> Result<(), NameFault>
        ensures tables { OnOk result (self.new
            ≡ spec.used_in_statement shared.now self.old (statement_seen statement.now)) }
        ensures only { IfErr result (λ fault. fault ≡ NameFault.NoMemory) }
    {
        match statement {
            StatementNode::Read(_, _) => Ok(()),
            StatementNode::Assign(_, value) | StatementNode::Write(_, value) => {
                self.add_uses(shared, value)
            }
            StatementNode::Store(_, index, value) => {
                self.add_uses(shared, index)?;
                self.add_uses(shared, value)
            }
            StatementNode::If(test, first, second) => {
                self.add_uses(shared, test)?;
                self.add_all_uses(shared, first.as_slice())?;
                self.add_all_uses(shared, second.as_slice())
            }
            StatementNode::While(test, body) => {
                self.add_uses(shared, test)?;
                self.add_all_uses(shared, body.as_slice())
            }
        }
    }

    /// Adds the shared tables that statements name.
    #[cycle(uses)]
    pub(crate) fn add_all_uses(
        &mut self,
        shared: &SharedTables<'a>,
        statements: &[StatementNode<'a>],
    ) -> Result<(), NameFault>
        ensures tables { OnOk result
            (self.new ≡ spec.used_in shared.now self.old (block_seen statements.now)) }
        ensures only { IfErr result (λ fault. fault ≡ NameFault.NoMemory) }
    {
        for statement in statements {
            self.add_uses_of(shared, statement)?;
        }
        Ok(())
    }
}
