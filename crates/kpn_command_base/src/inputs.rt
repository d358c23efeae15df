//! What a command on a network is given: a description, and the items of its sources.
ghost use Rattle.std.specs.Prelude.{◌≡◌, map, length, IfOk, IfErr};
ghost use Rattle.kpn_net.specs.Iteration.{sources};
ghost use Rattle.kpn_command_base.specs.Inputs.{AreInputs, AreNamedSinks, IsRefusalOfInputs, IsRefusalOfRunInputs};

use crate::description::load_document;
use crate::refusal::Refusal;
use crate::sources::{EndKind, FileOption, NamedEnd, ends_of, lists_of, options_of};
use kpn_lang::Sequence;
use kpn_shelf::Shelf;
use kpn_text::Document;
use std::alloc::Global;

/// A network with the names of its parts, and a list for each of its sources, in order of their
/// channels.
#[derive(Drop)]
pub struct Inputs {
    pub document: Document,
    pub given: Vec<Sequence<i64>>,
}

/// The inputs of a run, and the sinks that options name, in the order of the options.
#[derive(Drop)]
pub struct RunInputs<'a> {
    pub inputs: Inputs,
    pub sinks: Vec<NamedEnd<'a>>,
}

/// The description in a file and the items of its sources, if these words stand after the
/// `--source` options. It checks the words first. Then it reads the description, checks the names in the
/// words in order, and reads the files of items in order.
pub fn load_inputs<S: Shelf>(
    alloc: Global,
    shelf: &S,
    file: &str,
    words: &[&str],
) -> Result<Inputs, Refusal>
    ensures ok { IfOk result (λ inputs. AreInputs (S.may_give shelf.now) file.now
        (map (λ word. word.now) words.now) inputs.document inputs.given.items) }
    ensures length { IfOk result (λ inputs.
        length inputs.given.items ≡ sources inputs.document.tables) }
    ensures refused { IfErr result
        (IsRefusalOfInputs (S.may_give shelf.now) file.now (map (λ word. word.now) words.now)) }
{
    match load_run_inputs(alloc, shelf, file, words, &[]) {
        Ok(loaded) => {
            let RunInputs { inputs, sinks: _ } = loaded;
            Ok(inputs)
        }
        Err(refusal) => Err(refusal),
    }
}

/// The same, and the sinks that these options name. It checks their names after those of the sources, and before it
/// reads the files of items.
pub fn load_run_inputs<'a, S: Shelf>(
    alloc: Global,
    shelf: &S,
    file: &str,
    words: &[&str],
    sinks: &[FileOption<'a>],
) -> Result<RunInputs<'a>, Refusal>
    ensures ok { IfOk result (λ loaded. AreInputs (S.may_give shelf.now) file.now
        (map (λ word. word.now) words.now) loaded.inputs.document loaded.inputs.given.items) }
    ensures length { IfOk result (λ loaded.
        length loaded.inputs.given.items ≡ sources loaded.inputs.document.tables) }
    ensures sinks { IfOk result (λ loaded. AreNamedSinks loaded.inputs.document
        (map (λ o. o.name.now) sinks.now) (map (λ o. o.file.now) sinks.now) loaded.sinks.items) }
    ensures refused { IfErr result (IsRefusalOfRunInputs (S.may_give shelf.now) file.now
        (map (λ word. word.now) words.now) (map (λ o. o.name.now) sinks.now)) }
{
    let options = options_of(alloc, words, Refusal::SourceWord)?;
    let document = load_document(alloc, shelf, file)?;
    let feeds = ends_of(alloc, &document, EndKind::Sources, &options)?;
    let named = match ends_of(alloc, &document, EndKind::Sinks, sinks) {
        Ok(named) => named,
        Err(refusal) => return Err(refusal),
    };
    let given = lists_of(alloc, shelf, document.network().sources(), &feeds)?;
    let inputs = Inputs { document, given };
    Ok(RunInputs {
        inputs,
        sinks: named,
    })
}
