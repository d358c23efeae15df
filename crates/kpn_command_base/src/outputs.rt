//! The files that a command is to store: none is an input or another output. A run makes each ready before it begins.
ghost use Rattle.std.specs.Prelude.{◌≡◌, ◌≢◌, ◌++◌, ◌∷◌, [], true, false, map, length, All, IfOk, IfErr, OnOk};
ghost use Rattle.std.specs.List.{Any};
ghost use Rattle.kpn_net.specs.Iteration.{sources};
ghost use Rattle.kpn_command_base.specs.Inputs.{AreInputs};
ghost use Rattle.kpn_command_base.specs.Sources.{HasEquals, name_in, file_in};
ghost use Rattle.kpn_command_base.specs.SourceRefusals.{IsRefusalOfWords};
ghost use Rattle.kpn_command_base.specs.Outputs.{AreAllApart, AreNamesApart, AreOutputsApart, AreSinksNamed, AreTwoOutputs, IsApart, IsRefusalOfOutput, IsRefusalOfOutputs, IsRefusalOfSome, IsUnprepared, IsUnready, MayBeOne, MayBeStandard, MayGiveItems, MayOverwrite, outputs_of, trace_name, words_of};

use crate::inputs::{RunInputs, load_run_inputs};
use crate::refusal::Refusal;
use crate::run_request::RunRequest;
use crate::sources::{FileOption, options_of};
use kpn_shelf::Shelf;
use std::alloc::{AllocError, Global};
use std::marker::Model;

/// The inputs of a run, and the sinks that options name. Before it reads them it checks that no output is one of them
/// or another output. Once they are read, it checks that each can be stored.
pub fn prepare<'a, S: Shelf>(
    alloc: Global,
    request: &RunRequest<'a>,
    shelf: &S,
) -> Result<RunInputs<'a>, Refusal>
    ensures ok { IfOk result (λ loaded. AreInputs (S.may_give shelf.now) request.now.file
        request.now.sources loaded.inputs.document loaded.inputs.given.items) }
    ensures length { IfOk result (λ loaded.
        length loaded.inputs.given.items ≡ sources loaded.inputs.document.tables) }
    ensures sinks { IfOk result (λ loaded.
        AreSinksNamed request.now loaded.inputs.document loaded.sinks.items) }
    ensures apart { OnOk result (AreOutputsApart request.now) }
    ensures refused { IfErr result
        (IsUnprepared (S.may_give shelf.now) (S.may_alias shelf.now) request.now) }
{
    let asked = words_of(request);
    let outputs = check_outputs(alloc, &asked, shelf)?;
    let words = &request.sources;
    let loaded = match load_run_inputs(alloc, shelf, request.file, words, &outputs.sinks) {
        Ok(loaded) => loaded,
        Err(refusal) => return Err(refusal),
    };
    match make_ready(shelf, &outputs.names) {
        Ok(()) => Ok(loaded),
        Err(refusal) => Err(refusal),
    }
}

/// The words by which a command names its files. Contracts see their bytes.
#[derive(Drop)]
pub struct FileWords<'w, 'a> {
    /// The file of the description.
    pub file: &'a str,
    /// The words after the `--source` options, but for those that name standard input.
    pub sources: &'w [&'a str],
    /// The words after the `--sink` options.
    pub sinks: &'w [&'a str],
    /// The file for the trace.
    pub trace: Option<&'a str>,
}

impl<'w, 'a> Model for FileWords<'w, 'a> {
    ghost use Rattle.std.specs.Prelude.{map, option_map};
    ghost use Rattle.kpn_command_base.specs.Outputs as spec;

    ghost Value = { spec.FileWords };

    ghost view = { λ w. record {
      file = w.file.now;
      sources = map (λ word. word.now) w.sources.now;
      sinks = map (λ word. word.now) w.sinks.now;
      trace = option_map (λ name. name.now) w.trace;
    } };
}

/// The words of a run.
fn words_of<'w, 'a>(request: &'w RunRequest<'a>) -> FileWords<'w, 'a>
    ensures { result ≡ words_of request.now }
{
    FileWords {
        file: request.file,
        sources: request.sources.as_slice(),
        sinks: request.sinks.as_slice(),
        trace: request.trace,
    }
}

/// The names of the outputs of a command, the trace first, and the options for its sinks.
#[derive(Drop)]
pub struct Outputs<'a> {
    pub names: Vec<&'a str>,
    pub sinks: Vec<FileOption<'a>>,
}

/// The outputs that a command is asked for. It refuses one that is an input or another output.
pub fn check_outputs<'a, S: Shelf>(
    alloc: Global,
    asked: &FileWords<'_, 'a>,
    shelf: &S,
) -> Result<Outputs<'a>, Refusal>
    ensures outputs { IfOk result (λ outputs.
        map (λ name. name.now) outputs.names.items ≡ outputs_of asked.now) }
    ensures names { IfOk result (λ outputs.
        map (λ o. o.name.now) outputs.sinks.items ≡ map name_in asked.now.sinks) }
    ensures files { IfOk result (λ outputs.
        map (λ o. o.file.now) outputs.sinks.items ≡ map file_in asked.now.sinks) }
    ensures apart { OnOk result (AreAllApart asked.now) }
    ensures refused { IfErr result (IsRefusalOfOutputs (S.may_alias shelf.now) asked.now) }
{
    let mut names = check_trace(alloc, asked, shelf)?;
    let sinks = sinks_of(alloc, asked)?;
    add_sinks(asked, shelf, &mut names, &sinks)?;
    Ok(Outputs { names, sinks })
}

// The name of the trace, if one is asked for. It is the first output.
fn check_trace<'a, S: Shelf>(
    alloc: Global,
    asked: &FileWords<'_, 'a>,
    shelf: &S,
) -> Result<Vec<&'a str>, Refusal>
    ensures names { IfOk result (λ names.
        map (λ name. name.now) names.items ≡ trace_name asked.now.trace) }
    ensures apart { OnOk result (AreNamesApart asked.now (trace_name asked.now.trace)) }
    ensures refused { IfErr result (IsRefusalOfSome (S.may_alias shelf.now) asked.now
        [] (trace_name asked.now.trace) Refusal.TraceWord) }
{
    let mut names = Vec::new(alloc);
    match asked.trace {
        None => Ok(names),
        Some(name) => {
            add_output(asked, shelf, &mut names, name, Refusal::TraceWord)?;
            Ok(names)
        }
    }
}

// The options for the sinks. A word without `=` is refused.
fn sinks_of<'a>(alloc: Global, asked: &FileWords<'_, 'a>) -> Result<Vec<FileOption<'a>>, Refusal>
    ensures names { IfOk result (λ sinks.
        map (λ o. o.name.now) sinks.items ≡ map name_in asked.now.sinks) }
    ensures files { IfOk result (λ sinks.
        map (λ o. o.file.now) sinks.items ≡ map file_in asked.now.sinks) }
    ensures cut { OnOk result (All HasEquals asked.now.sinks) }
    ensures refused { IfErr result (IsRefusalOfWords Refusal.SinkWord asked.now.sinks) }
{
    options_of(alloc, asked.sinks, Refusal::SinkWord)
}

// Adds the files of the sinks to the outputs.
fn add_sinks<'a, S: Shelf>(
    asked: &FileWords<'_, 'a>,
    shelf: &S,
    outputs: &mut Vec<&'a str>,
    sinks: &[FileOption<'a>],
) -> Result<(), Refusal>
    requires { AreNamesApart asked.now (map (λ name. name.now) outputs.old.items) }
    ensures added { OnOk result (map (λ name. name.now) outputs.new.items
        ≡ map (λ name. name.now) outputs.old.items ++ map (λ o. o.file.now) sinks.now) }
    ensures apart { OnOk result
        (AreNamesApart asked.now (map (λ name. name.now) outputs.new.items)) }
    ensures refused { IfErr result (IsRefusalOfSome (S.may_alias shelf.now) asked.now
        (map (λ name. name.now) outputs.old.items) (map (λ o. o.file.now) sinks.now)
        Refusal.SinkWord) }
{
    for sink in sinks {
        add_output(asked, shelf, outputs, sink.file, Refusal::SinkWord)?;
    }
    Ok(())
}

// Adds an output to those before it. If it would be written over an input or into one of them, it is refused as given.
fn add_output<'a, S: Shelf>(
    asked: &FileWords<'_, 'a>,
    shelf: &S,
    outputs: &mut Vec<&'a str>,
    name: &'a str,
    given: Refusal,
) -> Result<(), Refusal>
    requires { AreNamesApart asked.now (map (λ name. name.now) outputs.old.items) }
    ensures added { OnOk result (map (λ name. name.now) outputs.new.items
        ≡ map (λ name. name.now) outputs.old.items ++ name.now ∷ []) }
    ensures apart { OnOk result
        (AreNamesApart asked.now (map (λ name. name.now) outputs.new.items)) }
    ensures refused { IfErr result (IsRefusalOfOutput (S.may_alias shelf.now) asked.now
        (map (λ name. name.now) outputs.old.items) name.now given) }
{
    let overwrites = may_overwrite(asked, shelf, name)?;
    if overwrites {
        return Err(given);
    }
    let earlier = outputs.as_slice();
    let meets = is_any_output(shelf, name, earlier)?;
    if meets {
        return Err(given);
    }
    outputs.push(name)?;
    Ok(())
}

// Whether what is stored under a name may be written over an input, or into standard output or standard error.
fn may_overwrite<S: Shelf>(
    asked: &FileWords<'_, '_>,
    shelf: &S,
    name: &str,
) -> Result<bool, AllocError>
    ensures apart { IfOk result (λ may. may ≡ false → IsApart asked.now name.now) }
    ensures one { IfOk result (λ may. may ≡ true
        → MayOverwrite (S.may_alias shelf.now) asked.now name.now) }
{
    let is_description = is_input(shelf, name, asked.file)?;
    if is_description {
        return Ok(true);
    }
    let are_items = any_gives_items(shelf, name, asked.sources)?;
    if are_items {
        return Ok(true);
    }
    is_standard(shelf, name)
}

// Whether what is stored under a name would change the input of another.
fn is_input<S: Shelf>(shelf: &S, name: &str, input: &str) -> Result<bool, AllocError>
    ensures apart { IfOk result (λ is. is ≡ false → name.now ≢ input.now) }
    ensures one { IfOk result (λ is. is ≡ true → MayBeOne (S.may_alias shelf.now) name.now input.now) }
{
    if name == input {
        return Ok(true);
    }
    shelf.is_same_file(name, input)
}

// Whether a word after `--source` gives its source the items of the file of this name.
fn gives_items<S: Shelf>(shelf: &S, name: &str, word: &str) -> Result<bool, AllocError>
    ensures apart { IfOk result (λ gives. gives ≡ false → HasEquals word.now
        → name.now ≢ file_in word.now) }
    ensures one { IfOk result (λ gives. gives ≡ true
        → MayGiveItems (S.may_alias shelf.now) name.now word.now) }
{
    match word.split_once('=') {
        Some((_, file)) => is_input(shelf, name, file),
        None => Ok(false),
    }
}

// Whether any of the words does.
fn any_gives_items<S: Shelf>(shelf: &S, name: &str, words: &[&str]) -> Result<bool, AllocError>
    ensures apart { IfOk result (λ any. any ≡ false
        → All (λ word. HasEquals word.now → name.now ≢ file_in word.now) words.now) }
    ensures one { IfOk result (λ any. any ≡ true
        → Any (MayGiveItems (S.may_alias shelf.now) name.now) (map (λ word. word.now) words.now)) }
{
    for word in words {
        let gives = gives_items(shelf, name, word)?;
        if gives {
            return Ok(true);
        }
    }
    Ok(false)
}

// Whether the file of this name is the one that standard input reads, or that standard output or standard error writes.
fn is_standard<S: Shelf>(shelf: &S, name: &str) -> Result<bool, AllocError>
    ensures { IfOk result (λ is. is ≡ true → MayBeStandard (S.may_alias shelf.now) name.now) }
{
    if shelf.is_same_file(name, "/dev/stdin")? {
        return Ok(true);
    }
    if shelf.is_same_file(name, "/dev/stdout")? {
        return Ok(true);
    }
    shelf.is_same_file(name, "/dev/stderr")
}

// The device that keeps nothing. Any number of outputs may have its name.
const NULL_DEVICE: &str = "/dev/null";

// Whether two outputs would be written into one file.
fn is_one_output<S: Shelf>(shelf: &S, name: &str, other: &str) -> Result<bool, AllocError>
    ensures apart { IfOk result (λ is. is ≡ false → AreTwoOutputs other.now name.now) }
    ensures one { IfOk result (λ is. is ≡ true → MayBeOne (S.may_alias shelf.now) name.now other.now) }
{
    if name != other {
        return shelf.is_one_output(name, other);
    }
    Ok(name != NULL_DEVICE)
}

// Whether an output would be written into the file of any of the earlier ones.
fn is_any_output<S: Shelf>(shelf: &S, name: &str, earlier: &[&str]) -> Result<bool, AllocError>
    ensures apart { IfOk result (λ any. any ≡ false
        → All (λ other. AreTwoOutputs other.now name.now) earlier.now) }
    ensures one { IfOk result (λ any. any ≡ true
        → Any (MayBeOne (S.may_alias shelf.now) name.now) (map (λ other. other.now) earlier.now)) }
{
    for other in earlier {
        let meets = is_one_output(shelf, name, other)?;
        if meets {
            return Ok(true);
        }
    }
    Ok(false)
}

// Checks that the outputs can be stored, and makes ready for them.
fn make_ready<S: Shelf>(shelf: &S, outputs: &[&str]) -> Result<(), Refusal>
    ensures { IfErr result (IsUnready (length outputs.now)) }
{
    for output in outputs {
        shelf.make_ready(output).map_err(Refusal::Output)?;
    }
    Ok(())
}
