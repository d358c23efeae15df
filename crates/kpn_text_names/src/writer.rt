//! The body of a process, written down block by block.

ghost use Rattle.std.specs.Prelude.{◌≡◌, ◌≤◌, [], length, OnOk};
ghost use Rattle.kpn_lang.specs.Syntax.{statement_of};
ghost use Rattle.kpn_lang.specs.View.{statements_of};
ghost use Rattle.kpn_text_grammar.specs.View.{statement_seen, block_seen};
ghost use Rattle.kpn_text_names.specs.Blocks.{body_of};
ghost use Rattle.kpn_text_names.specs.Fault.{ResolvingGives};
ghost use Rattle.kpn_text_names.specs.View.{body_written};
ghost use Rattle.kpn_text_names.specs.Writer as spec;

use crate::expression::expr;
use crate::fault::NameFault;
use crate::names::NameTable;
use crate::scope::NameScope;
use kpn_lang::{BlockId, Stmt};
use kpn_text_grammar::StatementNode;
use std::alloc::Global;

/// The names known so far, and the blocks so far. A block takes its number when it opens, and gets its statements when
/// it closes.
#[derive(Drop)]
pub(crate) struct Writer<'a> {
    pub scope: NameScope<'a>,
    pub blocks: Vec<Vec<Stmt>>,
}

impl<'a> Writer<'a> {
    /// Writes the body of a process, which is block 0.
    pub(crate) fn body(
        &mut self,
        alloc: Global,
        shared: &NameTable<'a>,
        statements: &[StatementNode<'a>],
    ) -> Result<(), NameFault>
        requires { self.old.blocks.items ≡ [] }
        ensures written { ResolvingGives (λ _. body_written self.new) result
            (body_of shared.now self.old.scope (block_seen statements.now)) }
        ensures vars { OnOk result (length self.old.scope.vars ≤ length self.new.scope.vars) }
    {
        self.block(alloc, shared, statements)?;
        Ok(())
    }

    /// Writes a block and the blocks inside it, and returns its number.
    #[cycle(block)]
    #[tactic(auto, unfolding(kpn_text_tokens::specs::Results::and_then))]
    fn block(
        &mut self,
        alloc: Global,
        shared: &NameTable<'a>,
        statements: &[StatementNode<'a>],
    ) -> Result<BlockId, NameFault>
        ensures written { ResolvingGives (λ n. (body_written self.new, n)) result
            (spec.numbered_block shared.now (body_written self.old) (block_seen statements.now)) }
        ensures blocks { OnOk result (length self.old.blocks.items ≤ length self.new.blocks.items) }
        ensures vars { OnOk result (length self.old.scope.vars ≤ length self.new.scope.vars) }
    {
        let number = self.blocks.len();
        self.blocks.push(Vec::new(alloc))?;
        let own = self.statements(alloc, shared, statements)?;
        self.blocks[number] = own;
        Ok(number)
    }

    /// The statements of a block. It writes the blocks inside it.
    #[cycle(block)]
    fn statements(
        &mut self,
        alloc: Global,
        shared: &NameTable<'a>,
        statements: &[StatementNode<'a>],
    ) -> Result<Vec<Stmt>, NameFault>
        ensures written { ResolvingGives (λ own. (body_written self.new, statements_of own.items)) result
            (spec.statements_at shared.now (body_written self.old) [] (block_seen statements.now)) }
        ensures blocks { OnOk result (length self.old.blocks.items ≤ length self.new.blocks.items) }
        ensures vars { OnOk result (length self.old.scope.vars ≤ length self.new.scope.vars) }
    {
        let mut own = Vec::new(alloc);
        for statement in statements {
            let stmt = self.statement(alloc, shared, statement)?;
            own.push(stmt)?;
        }
        Ok(own)
    }

    /// A statement. It writes the blocks inside it.
    #[cycle(block)]
    #[tactic(auto, unfolding(crate::specs::Writer::statement_at, kpn_text_tokens::specs::Results::and_then))]
    fn statement(
        &mut self,
        alloc: Global,
        shared: &NameTable<'a>,
        statement: &StatementNode<'a>,
    ) -> Result<Stmt, NameFault>
        ensures written { ResolvingGives (λ s. (body_written self.new, statement_of s)) result
            (spec.statement_at shared.now (body_written self.old) (statement_seen statement.now)) }
        ensures blocks { OnOk result (length self.old.blocks.items ≤ length self.new.blocks.items) }
        ensures vars { OnOk result (length self.old.scope.vars ≤ length self.new.scope.vars) }
    {
        match statement {
            StatementNode::Assign(name, value) => {
                let variable = self.scope.target(shared, name)?;
                Ok(Stmt::Assign(variable, expr(alloc, &self.scope, value)?))
            }
            StatementNode::Store(name, index, value) => {
                let row = self.scope.array_row(name)?;
                let index = expr(alloc, &self.scope, index)?;
                let value = expr(alloc, &self.scope, value)?;
                Ok(Stmt::Set(row.base, row.size, index, value))
            }
            StatementNode::Read(port, name) => {
                let port = self.scope.ins.known(port)?;
                Ok(Stmt::Read(port, self.scope.target(shared, name)?))
            }
            StatementNode::Write(port, value) => {
                let port = self.scope.outs.known(port)?;
                Ok(Stmt::Write(port, expr(alloc, &self.scope, value)?))
            }
            StatementNode::If(test, first, second) => {
                let test = expr(alloc, &self.scope, test)?;
                let first = self.block(alloc, shared, first.as_slice())?;
                let second = self.block(alloc, shared, second.as_slice())?;
                Ok(Stmt::If(test, first, second))
            }
            StatementNode::While(test, body) => {
                let test = expr(alloc, &self.scope, test)?;
                Ok(Stmt::While(test, self.block(alloc, shared, body.as_slice())?))
            }
        }
    }
}
