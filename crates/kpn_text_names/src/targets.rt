//! The targets of a body, each of which is a variable. Language 2 knows them before the body is read.

ghost use Rattle.std.specs.Prelude.{◌≡◌, ◌≤◌, length, OnOk, IfErr};
ghost use Rattle.kpn_text_grammar.specs.View.{statement_seen, block_seen};
ghost use Rattle.kpn_text_names.specs.Targets as spec;

use crate::fault::NameFault;
use crate::names::NameTable;
use crate::scope::NameScope;
use kpn_text_grammar::StatementNode;
use kpn_text_tokens::Language;

impl<'a> NameScope<'a> {
    /// Adds what language 2 knows before the body.
    pub(crate) fn add_known(
        &mut self,
        language: Language,
        shared: &NameTable<'a>,
        statements: &[StatementNode<'a>],
    ) -> Result<(), NameFault>
        ensures scope { OnOk result
            (self.new ≡ spec.known_before language shared.now self.old (block_seen statements.now)) }
        ensures vars { OnOk result (length self.old.vars ≤ length self.new.vars) }
        ensures only { IfErr result (λ fault. fault ≡ NameFault.NoMemory) }
    {
        match language {
            Language::One => Ok(()),
            Language::Two => self.add_targets(shared, statements),
        }
    }

    /// Adds the targets in a statement.
    #[cycle(targets)]
    fn add_targets_of(
        &mut self,
        shared: &NameTable<'a>,
        statement: &StatementNode<'a>,
    ) -> Result<(), NameFault>
        ensures scope { OnOk result
            (self.new ≡ spec.with_targets_of shared.now self.old (statement_seen statement.now)) }
        ensures vars { OnOk result (length self.old.vars ≤ length self.new.vars) }
        ensures only { IfErr result (λ fault. fault ≡ NameFault.NoMemory) }
    {
        match statement {
            StatementNode::Assign(name, _) | StatementNode::Read(_, name) => {
                self.add_target(shared, name)
            }
            StatementNode::Store(_, _, _) | StatementNode::Write(_, _) => Ok(()),
            StatementNode::If(_, first, second) => {
                self.add_targets(shared, first.as_slice())?;
                self.add_targets(shared, second.as_slice())
            }
            StatementNode::While(_, body) => self.add_targets(shared, body.as_slice()),
        }
    }

    /// Adds the targets in statements.
    #[cycle(targets)]
    fn add_targets(
        &mut self,
        shared: &NameTable<'a>,
        statements: &[StatementNode<'a>],
    ) -> Result<(), NameFault>
        ensures scope { OnOk result
            (self.new ≡ spec.with_targets shared.now self.old (block_seen statements.now)) }
        ensures vars { OnOk result (length self.old.vars ≤ length self.new.vars) }
        ensures only { IfErr result (λ fault. fault ≡ NameFault.NoMemory) }
    {
        for statement in statements {
            self.add_targets_of(shared, statement)?;
        }
        Ok(())
    }
}
