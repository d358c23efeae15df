//! The options `--source NAME=FILE` and `--sink NAME=FILE` of a command line: each names a file for an end of a
//! network. And the lists that the sources get from such files.
ghost use Rattle.std.specs.Prelude.{◌≡◌, ◌<◌, ◌++◌, ◌∷◌, [], nat_eq, Ok, map, length, replicate, option_map, IfOk, IfErr, OnOk, IfSome, MatchOption, MatchResult, All};
ghost use Rattle.std.specs.List.{list_any};
ghost use Rattle.kpn_net.specs.Tables.{channel_at};
ghost use Rattle.kpn_command_base.specs.Sources.{HasEquals, LacksEquals, name_in, file_in, is_end, ends_of, end_number, file_for, with_named_end, ends_named, AreGiven, IsItemFile};
ghost use Rattle.kpn_command_base.specs.SourceRefusals.{IsRefusalOfWords, IsRefusalOfNames, IsRefusalOfFile, IsRefusalOfItems};

use crate::option_fault::OptionFault;
use crate::refusal::Refusal;
use kpn_lang::Sequence;
use kpn_net::Network;
use kpn_shelf::Shelf;
use kpn_text::Document;
use kpn_text_items::items_of;
use std::alloc::{AllocError, Global};

/// The ends of a network that options name.
#[derive(Clone, Copy)]
pub enum EndKind {
    /// The sources, by `--source`.
    Sources,
    /// The sinks, by `--sink`.
    Sinks,
}

/// An option: the name of an end of a network, and the name of a file.
#[derive(Clone, Copy)]
pub struct FileOption<'a> {
    pub name: &'a str,
    pub file: &'a str,
}

/// An end of a network by its number among the sources or among the sinks, which both stand in order of their
/// channels, and the name of the file that an option gives it.
#[derive(Clone, Copy)]
pub struct NamedEnd<'a> {
    pub number: usize,
    pub file: &'a str,
}

/// The options that these words spell, each cut at its first `=`. A word without one is refused as is given.
pub fn options_of<'a>(
    alloc: Global,
    words: &[&'a str],
    refusal: Refusal,
) -> Result<Vec<FileOption<'a>>, Refusal>
    ensures names { IfOk result (λ options.
        map (λ o. o.name.now) options.items ≡ map (λ word. name_in word.now) words.now) }
    ensures files { IfOk result (λ options.
        map (λ o. o.file.now) options.items ≡ map (λ word. file_in word.now) words.now) }
    ensures cut { OnOk result (All (λ word. HasEquals word.now) words.now) }
    ensures refused { IfErr result (IsRefusalOfWords refusal (map (λ word. word.now) words.now)) }
{
    let mut options = Vec::new(alloc);
    for word in words {
        let Some(option) = option_of(word) else {
            return Err(refusal);
        };
        options.push(option)?;
    }
    Ok(options)
}

// The option that a word spells.
fn option_of(word: &str) -> Option<FileOption<'_>>
    ensures { MatchOption result (LacksEquals word.now) (λ option. HasEquals word.now
        × (option.name.now ≡ name_in word.now) × (option.file.now ≡ file_in word.now)) }
{
    let (name, file) = word.split_once('=')?;
    Some(FileOption { name, file })
}

/// The ends of a network that options name, in the order of the options. The first option that
/// names none, or one that an earlier option names, is refused.
#[tactic(auto, unfolding(kpn_text_tokens::specs::Results::and_then))]
pub fn ends_of<'a>(
    alloc: Global,
    document: &Document,
    ends: EndKind,
    options: &[FileOption<'a>],
) -> Result<Vec<NamedEnd<'a>>, Refusal>
    ensures named { IfOk result (λ named.
        ends_named ends document.now (map (λ o. o.name.now) options.now)
        ≡ Ok (map (λ e. e.number) named.items)) }
    ensures files { IfOk result (λ named.
        map (λ e. e.file.now) named.items ≡ map (λ o. o.file.now) options.now) }
    ensures there { IfOk result (λ named.
        All (λ e. e.number < ends_of ends document.now.tables) named.items) }
    ensures refused { IfErr result
        (IsRefusalOfNames ends document.now (map (λ o. o.name.now) options.now)) }
{
    let mut named = Vec::new(alloc);
    for option in options {
        let end = match end_of(document, ends, &named, option) {
            Ok(end) => end,
            Err(fault) => return Err(Refusal::Names(fault)),
        };
        named.push(end)?;
    }
    Ok(named)
}

// The end that an option names, if these were named before.
fn end_of<'a>(
    document: &Document,
    ends: EndKind,
    before: &[NamedEnd<'a>],
    option: &FileOption<'a>,
) -> Result<NamedEnd<'a>, OptionFault>
    ensures number { let named = map (λ e. e.number) before.now in MatchResult result
        (λ end. with_named_end named (end_number ends document.now option.now.name.now)
        ≡ Ok (named ++ end.number ∷ []))
        (λ fault. with_named_end named (end_number ends document.now option.now.name.now) ≡ Err fault) }
    ensures file { IfOk result (λ end. end.file.now ≡ option.now.file.now) }
    ensures there { IfOk result (λ end. end.number < ends_of ends document.now.tables) }
{
    let Some(number) = number_of(document, ends, option.name) else {
        return Err(OptionFault::Unknown(before.len()));
    };
    if is_named(before, number) {
        return Err(OptionFault::Double(before.len()));
    }
    let file = option.file;
    Ok(NamedEnd { number, file })
}

/// The file that an option gives the end of this number.
pub fn file_for<'a>(named: &[NamedEnd<'a>], number: usize) -> Option<&'a str>
    ensures { option_map (λ name. name.now) result ≡ file_for named.now number }
{
    for end in named {
        if end.number == number {
            return Some(end.file);
        }
    }
    None
}

// Whether one of these has that number.
fn is_named(named: &[NamedEnd<'_>], number: usize) -> bool
    ensures { result ≡ list_any (λ e. nat_eq e.number number) named.now }
{
    named.iter().any(|end| end.number == number)
}

// The number of the end with this name among these ends.
fn number_of(document: &Document, ends: EndKind, name: &str) -> Option<usize>
    ensures number { result ≡ end_number ends document.now name.now }
    ensures there { IfSome result (λ number. number < ends_of ends document.now.tables) }
{
    let network = document.network();
    let mut number = 0;
    for channel in 0..network.channels() {
        if is_end(network, ends, channel) {
            if name == document.channel_name(channel) {
                return Some(number);
            }
            number += 1;
        }
    }
    None
}

// Whether a channel is one of these ends.
fn is_end(network: &Network, ends: EndKind, channel: usize) -> bool
    ensures { result ≡ is_end ends (channel_at network.now channel) }
{
    match ends {
        EndKind::Sources => network.is_source(channel),
        EndKind::Sinks => network.is_sink(channel),
    }
}

/// A list for each of this many sources: the items of the files, which it reads in this order, and the
/// empty list for sources without a file.
pub(crate) fn lists_of<S: Shelf>(
    alloc: Global,
    shelf: &S,
    count: usize,
    named: &[NamedEnd<'_>],
) -> Result<Vec<Sequence<i64>>, Refusal>
    requires { All (λ e. e.number < count) named.now }
    ensures ok { IfOk result (λ lists.
        AreGiven (S.may_give shelf.now) count (map (λ e. e.number) named.now)
        (map (λ e. e.file.now) named.now) lists.items) }
    ensures length { IfOk result (λ lists. length lists.items ≡ count) }
    ensures refused { IfErr result
        (IsRefusalOfItems (S.may_give shelf.now) (map (λ e. e.file.now) named.now)) }
{
    let mut lists = empty_lists(alloc, count)?;
    for end in named {
        lists[end.number] = load_items(alloc, shelf, end.file)?;
    }
    Ok(lists)
}

// This many empty lists.
fn empty_lists(alloc: Global, count: usize) -> Result<Vec<Sequence<i64>>, AllocError>
    ensures { IfOk result (λ lists. lists.items ≡ replicate count []) }
{
    let mut lists = Vec::with_capacity(alloc, count)?;
    for _list in 0..count {
        lists.push(Sequence::new(alloc))?;
    }
    Ok(lists)
}

// The items that a file spells.
fn load_items<S: Shelf>(alloc: Global, shelf: &S, file: &str) -> Result<Sequence<i64>, Refusal>
    ensures ok { IfOk result (IsItemFile (S.may_give shelf.now) file.now) }
    ensures refused { IfErr result (IsRefusalOfFile (S.may_give shelf.now) file.now) }
{
    let bytes = shelf.load(alloc, file).map_err(Refusal::Input)?;
    let items = items_of(alloc, &bytes).map_err(Refusal::Input)?;
    Ok(Sequence::from_vec(items))
}
