//! The command: it opens the inputs and the outputs, runs the network over them, and concludes.
ghost use Rattle.std.specs.Prelude.{◌≡◌, ◌≢◌, true, false, not, map, option_map, Some, IfOk, IfErr, IfSome, OnErr, OnOk};
ghost use Rattle.std.specs.List.{filter};
ghost use Rattle.kpn_command_base.specs.Sources.{name_in, file_in};
ghost use Rattle.kpn_command_base.specs.SourceRefusals.{IsRefusalOfWords};
ghost use Rattle.kpn_command_stream.specs.Formats.{AreForEnds};
ghost use Rattle.kpn_command_stream.specs.EndPlaces.{HaveOwnInputs, standard};
ghost use Rattle.kpn_command_stream.specs.Words.{AreStreamOutputsApart, names_standard};
ghost use Rattle.kpn_command_stream.specs.Causes.{AreSinkPlaces, AreSourcePlaces, AreWordsRefused, IsDeviceRefusal, IsUnbegun, IsUnstreamed, end_words_of};
ghost use Rattle.kpn_command_stream.specs.Command.{AreWordsOf, IsStreamed, IsStreamedOf, NothingBegun, Streams, end_words_in, known_of, names_of};

use crate::concluding::conclude;
use crate::formats::{are_for_ends, are_formats};
use crate::places::{EndPlaces, is_dash, places_of, share_an_input, writes_an_input};
use crate::refusal::StreamRefusal;
use crate::running::run;
use kpn_command_base::{
    EndKind, FileOption, FileWords, Refusal, StreamRequest, Teller, check_outputs, load_document,
    options_of,
};
use kpn_shelf::{NonblockingRead, Ports, STANDARD, Shelf};
use kpn_text::Document;
use std::alloc::{AllocError, Global};
use std::io::Write;

/// What `kpn stream FILE` does. It returns the status of the program. What it would tell of the end if it were not to be
/// quiet is added to `unsaid`, as far as there is memory for it.
pub fn stream_command<S: Shelf + Ports, I: NonblockingRead, O: Write, E: Write + Teller>(
    alloc: Global,
    request: &StreamRequest<'_>,
    shelf: &mut S,
    input: &mut I,
    out: &mut O,
    err: &mut E,
    unsaid: &mut Vec<u8>,
) -> u8
    ensures { Streams S.may_give S.may_alias
        (names_of S.are_two_inputs S.may_share S.comes_from S.goes_to)
        (known_of I.remaining S.Input.remaining O.contents S.Output.contents) E.contents E.tells
        request.now shelf.old shelf.new input.old input.new out.old out.new
        err.old err.new result }
{
    match carry_out(alloc, request, shelf, input, out, err, unsaid) {
        Ok(status) => status,
        Err(refusal) => refusal.report(err),
    }
}

/// The same, with no report of a refusal.
fn carry_out<S: Shelf + Ports, I: NonblockingRead, O: Write, E: Write + Teller>(
    alloc: Global,
    request: &StreamRequest<'_>,
    shelf: &mut S,
    input: &mut I,
    out: &mut O,
    err: &mut E,
    unsaid: &mut Vec<u8>,
) -> Result<u8, StreamRefusal>
    ensures streamed { IfOk result (IsStreamed S.may_give
        (names_of S.are_two_inputs S.may_share S.comes_from S.goes_to)
        (known_of I.remaining S.Input.remaining O.contents S.Output.contents) E.contents E.tells
        request.now shelf.old shelf.new input.old input.new out.old out.new err.old err.new) }
    ensures refused { OnErr result
        (NothingBegun shelf.old shelf.new input.old input.new out.old out.new) }
    ensures untold { OnErr result (err.new ≡ err.old) }
    ensures cause { IfErr result (IsUnbegun (S.may_give shelf.old) (S.may_alias shelf.old)
        (S.may_share shelf.old) request.now) }
{
    if !are_formats(&request.formats) {
        return Err(StreamRefusal::FormatWord);
    }
    let words = check_words(alloc, request, shelf)?;
    let document = load_document(alloc, shelf, request.file)?;
    stream_document(
        alloc, request, &words, &document, shelf, input, out, err, unsaid,
    )
}

/// Streams a network between the inputs and outputs that these words name, and concludes.
// It owns no document: a function that owns one and may fail after it is dear to prove.
fn stream_document<S: Shelf + Ports, I: NonblockingRead, O: Write, E: Write + Teller>(
    alloc: Global,
    request: &StreamRequest<'_>,
    words: &Words<'_>,
    document: &Document,
    shelf: &mut S,
    input: &mut I,
    out: &mut O,
    err: &mut E,
    unsaid: &mut Vec<u8>,
) -> Result<u8, StreamRefusal>
    requires { AreWordsOf request.now words.now }
    ensures streamed { IfOk result (IsStreamedOf S.may_give
        (names_of S.are_two_inputs S.may_share S.comes_from S.goes_to)
        (known_of I.remaining S.Input.remaining O.contents S.Output.contents) E.contents E.tells
        request.now document.now shelf.old shelf.new input.old input.new out.old out.new
        err.old err.new) }
    ensures refused { OnErr result
        (NothingBegun shelf.old shelf.new input.old input.new out.old out.new) }
    ensures untold { OnErr result (err.new ≡ err.old) }
    ensures cause { IfErr result (IsUnstreamed (S.may_alias shelf.old) (S.may_share shelf.old)
        document.now (end_words_of request.now)) }
{
    let places = places_for(alloc, document, request, words, shelf)?;
    make_ready(shelf, request.trace)?;
    let mut lost = Vec::with_capacity(alloc, places.sinks.len())?;
    let streamed = run(
        alloc, request, document, &places, shelf, input, out, err, &mut lost,
    )?;
    Ok(conclude(
        alloc, request, document, streamed, &lost, &places, shelf, err, unsaid,
    ))
}

/// What the words after `--source` and `--sink` name.
#[derive(Drop)]
struct Words<'a> {
    sources: Vec<FileOption<'a>>,
    sinks: Vec<FileOption<'a>>,
}

/// What the words name. No output is an input or another output, and the trace has a file.
fn check_words<'a, S: Shelf>(
    alloc: Global,
    request: &StreamRequest<'a>,
    shelf: &S,
) -> Result<Words<'a>, Refusal>
    ensures words { IfOk result (AreWordsOf request.now) }
    ensures apart { OnOk result (AreStreamOutputsApart request.now) }
    ensures cause { IfErr result (AreWordsRefused (S.may_alias shelf.now) request.now) }
{
    if is_dash_asked(request.trace) {
        return Err(Refusal::TraceWord);
    }
    let sources = sources_of(alloc, request)?;
    let files = files_of(alloc, &request.sources)?;
    let asked = asked_of(request, &files);
    let outputs = check_outputs(alloc, &asked, shelf)?;
    Ok(Words {
        sources,
        sinks: outputs.sinks,
    })
}

/// Whether the file for the trace has the name of standard output.
fn is_dash_asked(trace: Option<&str>) -> bool
    ensures file { result ≡ false → IfSome (option_map (λ name. name.now) trace.entry)
        (λ name. name ≢ standard) }
    ensures standard { result ≡ true → option_map (λ name. name.now) trace.entry ≡ Some standard }
{
    match trace {
        Some(name) => is_dash(name),
        None => false,
    }
}

/// What the words after `--source` name. A word without `=` is refused.
fn sources_of<'a>(
    alloc: Global,
    request: &StreamRequest<'a>,
) -> Result<Vec<FileOption<'a>>, Refusal>
    ensures names { IfOk result (λ sources.
        map (λ o. o.name.now) sources.items ≡ map name_in request.now.sources) }
    ensures files { IfOk result (λ sources.
        map (λ o. o.file.now) sources.items ≡ map file_in request.now.sources) }
    ensures refused { IfErr result (IsRefusalOfWords Refusal.SourceWord request.now.sources) }
{
    options_of(alloc, &request.sources, Refusal::SourceWord)
}

/// The words that name files. Standard input is no file.
fn asked_of<'w, 'a>(request: &'w StreamRequest<'a>, files: &'w [&'a str]) -> FileWords<'w, 'a>
    ensures file { result.file ≡ request.now.file }
    ensures sources { result.sources ≡ map (λ word. word.now) files.now }
    ensures sinks { result.sinks ≡ request.now.sinks }
    ensures trace { result.trace ≡ request.now.trace }
{
    FileWords {
        file: request.file,
        sources: files,
        sinks: request.sinks.as_slice(),
        trace: request.trace,
    }
}

/// The words that name no standard input.
fn files_of<'a>(alloc: Global, words: &[&'a str]) -> Result<Vec<&'a str>, AllocError>
    ensures { IfOk result (λ files.
        files.items ≡ filter (λ word. not (names_standard word.now)) words.now) }
{
    let mut files = Vec::new(alloc);
    for word in words {
        if !is_standard(word) {
            files.push(*word)?;
        }
    }
    Ok(files)
}

fn is_standard(word: &str) -> bool
    ensures { result ≡ names_standard word.now }
{
    match word.split_once('=') {
        Some((_, file)) => file == STANDARD,
        None => false,
    }
}

/// The inputs of all sources, and the outputs of all sinks.
fn places_for<'a, S: Shelf + Ports>(
    alloc: Global,
    document: &Document,
    request: &StreamRequest<'a>,
    words: &Words<'a>,
    shelf: &S,
) -> Result<EndPlaces<'a>, StreamRefusal>
    ensures sources { IfOk result (λ places. AreSourcePlaces document.now
        (end_words_in words.now request.now.formats) places.sources.items) }
    ensures sinks { IfOk result (λ places. AreSinkPlaces document.now
        (end_words_in words.now request.now.formats) places.sinks.items) }
    ensures own_inputs { IfOk result (λ places.
        HaveOwnInputs (S.are_two_inputs shelf.now) places.sources.items) }
    ensures formats { IfOk result (λ _. AreForEnds document.now request.now.formats) }
    ensures cause { IfErr result (IsUnstreamed (S.may_alias shelf.now) (S.may_share shelf.now)
        document.now (end_words_in words.now request.now.formats)) }
{
    let formats = &request.formats;
    let sources = places_of(alloc, document, EndKind::Sources, &words.sources, formats)?;
    if share_an_input(shelf, &sources) {
        return Err(StreamRefusal::SharedInput);
    }
    let sinks = places_of(alloc, document, EndKind::Sinks, &words.sinks, formats)?;
    if !are_for_ends(formats, document) {
        return Err(StreamRefusal::FormatWord);
    }
    let places = EndPlaces { sources, sinks };
    let writes = writes_an_input(shelf, request.file, &places)?;
    if writes {
        return Err(StreamRefusal::Common(Refusal::SinkWord));
    }
    Ok(places)
}

/// Makes ready for the trace, if there is to be one.
fn make_ready<S: Shelf>(shelf: &S, trace: Option<&str>) -> Result<(), Refusal>
    ensures { IfErr result IsDeviceRefusal }
{
    match trace {
        Some(name) => shelf.make_ready(name).map_err(Refusal::Output),
        None => Ok(()),
    }
}
