//! Which input and which output each end of a network gets.
ghost use Rattle.std.specs.Prelude.{◌≡◌, ◌↔◌, false, true, length, map, option_map, All, IfOk, IfErr, IsTrue};
ghost use Rattle.std.specs.List.{Any};
ghost use Rattle.kpn_command_base.specs.Sources.{is_end};
ghost use Rattle.kpn_stream.specs.Ending.{end_numbers};
ghost use Rattle.kpn_command_stream.specs.Causes.{IsUnnamed, IsUnplaced, IsUnplacedBy, MayBeInput, MayWriteInto};
ghost use Rattle.kpn_command_stream.specs.EndPlaces.{AllPlaced, ArePlacesOfEnds, HaveOwnInputs, ShareAnInput, name_for, standard};

use crate::formats::format_for;
use crate::refusal::StreamRefusal;
use kpn_command_base::{EndKind, FileOption, NamedEnd, ends_of, file_for};
use kpn_shelf::{Ports, STANDARD, Shelf};
use kpn_stream::end_numbers_of;
use kpn_stream_devices::ItemFormat;
use kpn_text::Document;
use std::alloc::{AllocError, Global};

/// Whether this is the name of standard input and of standard output.
pub(crate) fn is_dash(name: &str) -> bool
    ensures { IsTrue result ↔ (name.now ≡ standard) }
{
    name == STANDARD
}

/// An end of a network by the number of its channel, the name of its input or output, and how its items are written.
#[derive(Clone, Copy)]
pub(crate) struct EndPlace<'a> {
    pub(crate) channel: usize,
    pub(crate) name: &'a str,
    pub(crate) format: ItemFormat,
}

/// The places of all sources and of all sinks.
#[derive(Drop)]
pub(crate) struct EndPlaces<'a> {
    pub(crate) sources: Vec<EndPlace<'a>>,
    pub(crate) sinks: Vec<EndPlace<'a>>,
}

/// The place of each of these ends, in order of their channels. The only one may be left out by the options, and is
/// standard input or output then. If another is left out, the refusal names it. The words after `--format` give the
/// formats.
pub(crate) fn places_of<'a>(
    alloc: Global,
    document: &Document,
    ends: EndKind,
    options: &[FileOption<'a>],
    formats: &[&'a str],
) -> Result<Vec<EndPlace<'a>>, StreamRefusal>
    ensures placed { IfOk result (λ places. ArePlacesOfEnds ends document.now
        (map (λ o. o.name.now) options.now) (map (λ o. o.file.now) options.now)
        (map (λ word. word.now) formats.now) places.items) }
    ensures cause { IfErr result (IsUnplaced ends document.now
        (map (λ o. o.name.now) options.now) (map (λ word. word.now) formats.now)) }
{
    let named = ends_of(alloc, document, ends, options)?;
    places_by(alloc, document, ends, &named, formats)
}

/// The places by the names that options give.
fn places_by<'a>(
    alloc: Global,
    document: &Document,
    ends: EndKind,
    named: &[NamedEnd<'a>],
    formats: &[&'a str],
) -> Result<Vec<EndPlace<'a>>, StreamRefusal>
    ensures placed { IfOk result (λ places. AllPlaced document.now named.now
        (map (λ word. word.now) formats.now)
        (end_numbers (is_end ends) document.now.tables) places.items) }
    ensures cause { IfErr result (IsUnplacedBy ends document.now named.now
        (end_numbers (is_end ends) document.now.tables)
        (map (λ word. word.now) formats.now)) }
{
    let numbers = end_numbers_of(alloc, document.network())?;
    match ends {
        EndKind::Sources => place_each(alloc, document, ends, named, formats, &numbers.sources),
        EndKind::Sinks => place_each(alloc, document, ends, named, formats, &numbers.sinks),
    }
}

/// The places of these channels.
fn place_each<'a>(
    alloc: Global,
    document: &Document,
    ends: EndKind,
    named: &[NamedEnd<'a>],
    formats: &[&'a str],
    channels: &[usize],
) -> Result<Vec<EndPlace<'a>>, StreamRefusal>
    ensures placed { IfOk result (λ places. AllPlaced document.now named.now
        (map (λ word. word.now) formats.now) channels.now places.items) }
    ensures cause { IfErr result (IsUnplacedBy ends document.now named.now channels.now
        (map (λ word. word.now) formats.now)) }
{
    let mut places = Vec::new(alloc);
    for number in 0..channels.len() {
        let channel = channels[number];
        let Some(name) = name_for(named, number, channels.len()) else {
            return Err(unnamed(alloc, ends, document.channel_name(channel)));
        };
        let Some(format) = format_for(formats, document.channel_name(channel)) else {
            return Err(StreamRefusal::FormatWord);
        };
        places.push(EndPlace {
            channel,
            name,
            format,
        })?;
    }
    Ok(places)
}

/// The refusal of a stream one of whose ends has no option.
fn unnamed(alloc: Global, ends: EndKind, name: &str) -> StreamRefusal
    ensures { IsUnnamed ends name.now result }
{
    match String::from_str(alloc, name) {
        Ok(name) => StreamRefusal::Unnamed(ends, name),
        Err(error) => StreamRefusal::from(error),
    }
}

/// The name for the end of this number, if there are this many.
fn name_for<'a>(named: &[NamedEnd<'a>], number: usize, count: usize) -> Option<&'a str>
    ensures { option_map (λ name. name.now) result ≡ name_for named.now number count }
{
    match file_for(named, number) {
        Some(name) => Some(name),
        None if count == 1 => Some(STANDARD),
        None => None,
    }
}

/// The place of a channel; an end without one has standard input or output.
pub(crate) fn place_of<'a>(places: &[EndPlace<'a>], channel: usize) -> EndPlace<'a> {
    for place in places {
        if place.channel == channel {
            return *place;
        }
    }
    EndPlace {
        channel,
        name: STANDARD,
        format: ItemFormat::Lines,
    }
}

// Paths of standard input and standard output.
const INPUT_PATH: &str = "/dev/stdin";

const OUTPUT_PATH: &str = "/dev/stdout";

/// Whether standard output is that of a sink, and is the plain file of the description or of a source.
pub(crate) fn writes_an_input<S: Shelf>(
    shelf: &S,
    file: &str,
    places: &EndPlaces<'_>,
) -> Result<bool, AllocError>
    ensures { IfOk result (λ writes. writes ≡ true
        → MayWriteInto (S.may_alias shelf.now) places.now.sinks.items) }
{
    if !has_standard(&places.sinks) {
        return Ok(false);
    }
    for source in &places.sources {
        if is_written(shelf, path_of(source.name))? {
            return Ok(true);
        }
    }
    is_written(shelf, file)
}

fn has_standard(places: &[EndPlace<'_>]) -> bool
    ensures { result ≡ true → Any (λ place. place.name.now ≡ standard) places.now }
{
    for place in places {
        if is_dash(place.name) {
            return true;
        }
    }
    false
}

fn path_of(name: &str) -> &str {
    if name == STANDARD { INPUT_PATH } else { name }
}

/// Whether standard output is the plain file of this path.
fn is_written<S: Shelf>(shelf: &S, path: &str) -> Result<bool, AllocError>
    ensures { IfOk result (λ is. is ≡ true → MayBeInput (S.may_alias shelf.now)) }
{
    shelf.is_same_file(OUTPUT_PATH, path)
}

/// Whether two sources have one input that is no plain file.
pub(crate) fn share_an_input<S: Ports>(shelf: &S, places: &[EndPlace<'_>]) -> bool
    ensures own { result ≡ false → HaveOwnInputs (S.are_two_inputs shelf.now) places.now }
    ensures shared { result ≡ true → ShareAnInput (S.may_share shelf.now) places.now }
{
    for i in 0..places.len() {
        if has_input(shelf, &places[..i], places[i].name) {
            return true;
        }
    }
    false
}

/// Whether one of these has the input of this name, and that is no plain file.
fn has_input<S: Ports>(shelf: &S, places: &[EndPlace<'_>], name: &str) -> bool
    ensures own { result ≡ false
        → All (λ place. S.are_two_inputs shelf.now place.name.now name.now) places.now }
    ensures shared { result ≡ true
        → ¬ All (λ place. ¬ S.may_share shelf.now place.name.now name.now) places.now }
{
    for place in places {
        if shelf.is_one_input(place.name, name) {
            return true;
        }
    }
    false
}
