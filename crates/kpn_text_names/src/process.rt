//! The processes of a description: the parts of their programs, and the names in them.

ghost use Rattle.std.specs.Prelude.{◌≡◌, map};
ghost use Rattle.kpn_text_grammar.specs.View.{process_seen};
ghost use Rattle.kpn_text_names.specs.Fault.{ResolvingGives};
ghost use Rattle.kpn_text_names.specs.Named.{named_program, programs_of, with_named_process};
ghost use Rattle.kpn_text_names.specs.View.{program_seen, programs_seen};

use crate::fault::NameFault;
use crate::names::NameTable;
use crate::scope::NameScope;
use crate::tables::SharedTables;
use crate::writer::Writer;
use kpn_lang::Stmt;
use kpn_text_grammar::ProcessNode;
use kpn_text_tokens::Language;
use std::alloc::Global;

/// What a program is made of, as `kpn_lang::Program::with_cells` takes it, and the names in it. The values of its
/// tables are in its scope, and those of shared tables are not copied.
#[derive(Drop)]
pub struct ProgramParts<'a> {
    /// The names of the in ports, the out ports and the variables, each by number, and of the arrays and tables.
    pub scope: NameScope<'a>,
    /// How many of the variables are parameters.
    pub pars: usize,
    /// How many of the variables are locals.
    pub locals: usize,
    /// The blocks, in the order of their opening braces in the text.
    pub blocks: Vec<Vec<Stmt>>,
}

/// The parts of a process.
#[tactic(auto, unfolding(kpn_text_tokens::specs::Results::and_then))]
fn program_parts<'a>(
    alloc: Global,
    language: Language,
    shared: &SharedTables<'a>,
    process: &ProcessNode<'a>,
) -> Result<ProgramParts<'a>, NameFault>
    ensures { ResolvingGives (program_seen shared.now) result
        (named_program language shared.now (process_seen process.now)) }
{
    let mut scope = NameScope::of_head(alloc, &shared.names, process)?;
    scope.declare_rows(&shared.names, process.declarations.as_slice())?;
    let pars = scope.vars.len();
    scope.tables.add_all_uses(shared, process.body.as_slice())?;
    scope.add_known(language, &shared.names, process.body.as_slice())?;
    let mut writer = Writer {
        scope,
        blocks: Vec::new(alloc),
    };
    writer.body(alloc, &shared.names, process.body.as_slice())?;
    let Writer { scope, blocks } = writer;
    let locals = scope.vars.len() - pars;
    Ok(ProgramParts {
        scope,
        pars,
        locals,
        blocks,
    })
}

/// The processes so far, by number.
#[derive(Drop)]
pub(crate) struct Processes<'a> {
    pub names: NameTable<'a>,
    pub programs: Vec<ProgramParts<'a>>,
}

impl<'a> Processes<'a> {
    /// The processes in the order of the text.
    pub(crate) fn read(
        alloc: Global,
        language: Language,
        shared: &SharedTables<'a>,
        processes: &[ProcessNode<'a>],
    ) -> Result<Processes<'a>, NameFault>
        ensures { ResolvingGives (programs_seen shared.now) result
            (programs_of language shared.now (map process_seen processes.now)) }
    {
        let mut read = Processes {
            names: NameTable::new(alloc),
            programs: Vec::new(alloc),
        };
        for process in processes {
            read.add(alloc, language, shared, process)?;
        }
        Ok(read)
    }

    /// Adds a process, whose name must be new.
    #[tactic(auto, unfolding(kpn_text_tokens::specs::Results::and_then))]
    fn add(
        &mut self,
        alloc: Global,
        language: Language,
        shared: &SharedTables<'a>,
        process: &ProcessNode<'a>,
    ) -> Result<(), NameFault>
        ensures { ResolvingGives (λ _. programs_seen shared.now self.new) result
            (with_named_process language shared.now (programs_seen shared.now self.old)
            (process_seen process.now)) }
    {
        self.names.declare(&process.name)?;
        let program = program_parts(alloc, language, shared, process)?;
        self.programs.push(program)?;
        Ok(())
    }
}
