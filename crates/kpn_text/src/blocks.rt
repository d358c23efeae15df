//! Statements, block by block.

ghost use Rattle.std.specs.Prelude.{◌≡◌, ◌+◌, ◌-◌, ◌≤◌, [], ◌∷◌, ◌++◌, codes, IsTrue, OnOk};
ghost use Rattle.std.specs.List.{list_all};
ghost use Rattle.kpn_lang.specs.Parts.{IsProgram, inner_blocks, is_within};
ghost use Rattle.kpn_lang.specs.Syntax.{statement_of, term_of};
ghost use Rattle.kpn_lang.specs.Tree.{block_at, tree_of, tree_over};
ghost use Rattle.kpn_lang.specs.View.{statements_of};
ghost use Rattle.kpn_limits.specs.declared.TheConstants.{MAX_LEVELS};
ghost use Rattle.kpn_text_tokens.specs.declared.tokens.Language.TheVariants as language;
ghost use Rattle.kpn_text.specs.Named.{statements_named, term_named};
ghost use Rattle.kpn_text.specs.Text.{else_text, indented, statements_text, whole_text};
ghost use Rattle.kpn_text.specs.Writing.{Writes};
ghost use Rattle.kpn_text.specs.Seconds.{IsWritten};

use crate::expressions::expression;
use crate::pieces::{bytes, indent, name, row};
use kpn_lang::{BlockId, Expr, Program, Stmt};
use kpn_text_grammar::LOOSEST;
use kpn_text_names::ProcessNames;
use kpn_text_tokens::Language;
use std::alloc::AllocError;

/// A program with its names, in a language.
#[derive(Clone, Copy)]
pub(crate) struct Body<'a> {
    pub language: Language,
    pub names: &'a ProcessNames,
    pub program: &'a Program,
}

impl Body<'_> {
    /// The statements of a block at a level, with the blocks inside it, after this many indents. It nests no deeper than
    /// the program does.
    #[cycle(body)]
    pub(crate) fn block(
        &self,
        out: &mut Vec<u8>,
        block: BlockId,
        level: usize,
        indents: usize,
    ) -> Result<(), AllocError>
        requires program { IsProgram self.now.program.now }
        requires indents { indents ≤ level }
        requires levels { IsTrue
            (is_within self.now.program.now.blocks (MAX_LEVELS + 1 - level) block) }
        ensures { OnOk result (Writes out.old.items out.new.items
            (statements_text self.now.language indents
            (statements_named self.now.names.now (tree_of self.now.program.now.blocks block)))) }
    {
        let Some(statements) = self.program.block(block) else {
            return Ok(());
        };
        for statement in statements {
            self.statement(out, statement, level, indents)?;
        }
        Ok(())
    }

    /// A statement at a level, with the blocks inside it.
    #[cycle(body)]
    fn statement(
        &self,
        out: &mut Vec<u8>,
        statement: &Stmt,
        level: usize,
        indents: usize,
    ) -> Result<(), AllocError>
        requires program { IsProgram self.now.program.now }
        requires level { level ≤ MAX_LEVELS }
        requires indents { indents ≤ level }
        requires levels { IsTrue
            (list_all (is_within self.now.program.now.blocks (MAX_LEVELS - level))
            (inner_blocks (statement_of statement.now))) }
        ensures { OnOk result (Writes out.old.items out.new.items
            (statements_text self.now.language indents
            (statements_named self.now.names.now
            (tree_over (tree_of self.now.program.now.blocks)
            (statement_of statement.now ∷ []))))) }
    {
        indent(out, indents)?;
        match statement {
            Stmt::Assign(variable, value) => {
                name(out, self.names.vars.as_slice(), *variable)?;
                bytes(out, b" = ")?;
                self.value(out, value)
            }
            Stmt::Set(base, _, index, value) => {
                row(out, self.names, *base)?;
                bytes(out, b"[")?;
                self.index(out, index)?;
                self.value(out, value)
            }
            Stmt::Read(port, variable) => {
                bytes(out, b"read ")?;
                name(out, self.names.ins.as_slice(), *port)?;
                bytes(out, b" ")?;
                name(out, self.names.vars.as_slice(), *variable)?;
                bytes(out, b";\n")
            }
            Stmt::Write(port, value) => {
                bytes(out, b"write ")?;
                name(out, self.names.outs.as_slice(), *port)?;
                bytes(out, b" ")?;
                self.value(out, value)
            }
            Stmt::If(test, first, second) => {
                bytes(out, b"if ")?;
                self.test(out, test)?;
                self.block(out, *first, level + 1, indents + 1)?;
                self.otherwise(out, *second, level, indents)
            }
            Stmt::While(test, body) => {
                bytes(out, b"while ")?;
                self.test(out, test)?;
                self.block(out, *body, level + 1, indents + 1)?;
                close(out, indents)
            }
        }
    }

    /// From the end of the first block of an `if` at a level on: its second block, which language 2 leaves out if it is
    /// empty, and the line that closes it.
    #[cycle(body)]
    fn otherwise(
        &self,
        out: &mut Vec<u8>,
        block: BlockId,
        level: usize,
        indents: usize,
    ) -> Result<(), AllocError>
        requires program { IsProgram self.now.program.now }
        requires level { level ≤ MAX_LEVELS }
        requires indents { indents ≤ level }
        requires levels { IsTrue
            (is_within self.now.program.now.blocks (MAX_LEVELS - level) block) }
        ensures { OnOk result (Writes out.old.items out.new.items
            (else_text self.now.language indents
            (statements_named self.now.names.now (tree_of self.now.program.now.blocks block)))) }
    {
        match self.second(block) {
            Second::Nothing => close(out, indents),
            Second::If(test, first, second) => {
                indent(out, indents)?;
                bytes(out, b"} else if ")?;
                self.test(out, test)?;
                self.block(out, first, level + 2, indents + 1)?;
                self.otherwise(out, second, level + 1, indents)
            }
            Second::Block => {
                indent(out, indents)?;
                bytes(out, b"} else {\n")?;
                self.block(out, block, level + 1, indents + 1)?;
                close(out, indents)
            }
        }
    }

    /// How the second block of an `if` is written.
    fn second(&self, block: BlockId) -> Second<'_>
        ensures { IsWritten self.now.language (block_at self.now.program.now.blocks block) result }
    {
        match self.language {
            Language::One => Second::Block,
            Language::Two => second_of(self.statements(block)),
        }
    }

    /// The statements of a block.
    fn statements(&self, block: BlockId) -> &[Stmt]
        ensures { statements_of result.now ≡ block_at self.now.program.now.blocks block }
    {
        match self.program.block(block) {
            Some(statements) => statements,
            None => &[],
        }
    }

    /// The index of a statement, up to the sign after it.
    fn index(&self, out: &mut Vec<u8>, index: &Expr) -> Result<(), AllocError>
        ensures { OnOk result (Writes out.old.items out.new.items
            (λ more.
            whole_text self.now.language (term_named self.now.names.now (term_of index.now))
            (codes "] = " ++ more))) }
    {
        expression(out, self.language, LOOSEST, self.names, index)?;
        bytes(out, b"] = ")
    }

    /// The value of a statement, up to the end of its line.
    fn value(&self, out: &mut Vec<u8>, value: &Expr) -> Result<(), AllocError>
        ensures { OnOk result (Writes out.old.items out.new.items
            (λ more.
            whole_text self.now.language (term_named self.now.names.now (term_of value.now))
            (codes ";\n" ++ more))) }
    {
        expression(out, self.language, LOOSEST, self.names, value)?;
        bytes(out, b";\n")
    }

    /// The test of a statement, up to the end of its line, which opens a block.
    fn test(&self, out: &mut Vec<u8>, test: &Expr) -> Result<(), AllocError>
        ensures { OnOk result (Writes out.old.items out.new.items
            (λ more.
            whole_text self.now.language (term_named self.now.names.now (term_of test.now))
            (codes " {\n" ++ more))) }
    {
        expression(out, self.language, LOOSEST, self.names, test)?;
        bytes(out, b" {\n")
    }
}

/// How the second block of an `if` is written.
#[derive(Clone, Copy)]
pub enum Second<'a> {
    /// Not at all.
    Nothing,
    /// `else if`, with this test and these blocks.
    If(&'a Expr, BlockId, BlockId),
    /// `else` and the block.
    Block,
}

/// The same in language 2, of a block with these statements.
fn second_of(statements: &[Stmt]) -> Second<'_>
    ensures { IsWritten language.Two (statements_of statements.now) result }
{
    let Some((first, others)) = statements.split_first() else {
        return Second::Nothing;
    };
    if !others.is_empty() {
        return Second::Block;
    }
    alone(first)
}

/// The same of a block with one statement.
fn alone(first: &Stmt) -> Second<'_>
    ensures { IsWritten language.Two (statement_of first.now ∷ []) result }
{
    match first {
        Stmt::If(test, first, second) => Second::If(test, *first, *second),
        _ => Second::Block,
    }
}

/// The line that closes a block.
fn close(out: &mut Vec<u8>, indents: usize) -> Result<(), AllocError>
    ensures { OnOk result
        (Writes out.old.items out.new.items
        (λ more. indented indents (codes "}\n" ++ more))) }
{
    indent(out, indents)?;
    bytes(out, b"}\n")
}
