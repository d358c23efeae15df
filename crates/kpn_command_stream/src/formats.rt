//! The words after `--format`: each is a format for all ends, or `NAME=FORMAT` for one.
ghost use Rattle.std.specs.Prelude.{◌≡◌, ◌≢◌, false, true, All, IsTrue, map, option_map, MatchOption};
ghost use Rattle.std.specs.List.{AllPairs};
ghost use Rattle.kpn_stream_devices.specs.Formats.{IsNoFormat, NamesFormat};
ghost use Rattle.kpn_command_stream.specs.Formats.{common_format, format_end, first_that, format_in, format_word, is_end_at, AreForEnds, IsForEnd, named_format, SaysFormat};
ghost use Rattle.kpn_text_names.specs.Names.{number_of};

use kpn_stream_devices::ItemFormat;
use kpn_text::Document;

/// The word for ends of which no option says anything.
const USUAL: &str = "lines";

/// Whether each of these words says a format.
pub(crate) fn are_formats(words: &[&str]) -> bool
    ensures says { IsTrue result → All (λ word. SaysFormat word.now) words.now }
    ensures none { result ≡ false → ¬ All (λ word. SaysFormat word.now) words.now }
{
    for word in words {
        if !is_format(word) {
            return false;
        }
    }
    true
}

/// Whether a word says a format.
fn is_format(word: &str) -> bool
    ensures says { IsTrue result → SaysFormat word.now }
    ensures none { result ≡ false → ¬ SaysFormat word.now }
{
    ItemFormat::of_word(format_in(word)).is_some()
}

/// The format that a word says.
fn format_in(word: &str) -> &str
    ensures { result.now ≡ format_in word.now }
{
    match word.split_once('=') {
        Some((_, format)) => format,
        None => word,
    }
}

/// Whether each of these words is for all ends or for one that the network has, and no two are for the same.
pub(crate) fn are_for_ends(words: &[&str], document: &Document) -> bool
    ensures ends { IsTrue result → All (λ word. IsForEnd document.now word.now) words.now }
    ensures apart { IsTrue result
        → AllPairs (λ word later. format_end word.now ≢ format_end later.now) words.now }
    ensures none { result ≡ false → ¬ AreForEnds document.now (map (λ word. word.now) words.now) }
{
    for i in 0..words.len() {
        if !is_for_end(words[i], document) {
            return false;
        }
        if is_said(&words[..i], words[i]) {
            return false;
        }
    }
    true
}

/// Whether a word is for all ends or for one that the network has.
fn is_for_end(word: &str, document: &Document) -> bool
    ensures is { IsTrue result → IsForEnd document.now word.now }
    ensures none { result ≡ false → ¬ IsForEnd document.now word.now }
{
    match word.split_once('=') {
        Some((name, _)) => is_end(document, name),
        None => true,
    }
}

/// Whether a network has a source or a sink of this name.
fn is_end(document: &Document, name: &str) -> bool
    ensures { result ≡ is_end_at document.now.tables
        (number_of document.now.names.channels name.now) }
{
    match document.find_channel(name) {
        Some(channel) => {
            document.network().is_source(channel) || document.network().is_sink(channel)
        }
        None => false,
    }
}

/// Whether one of these words is for the same ends.
fn is_said(words: &[&str], word: &str) -> bool
    ensures other { result ≡ false
        → All (λ before. format_end before.now ≢ format_end word.now) words.now }
    ensures said { result ≡ true
        → ¬ All (λ before. format_end before.now ≢ format_end word.now) words.now }
{
    for before in words {
        if are_for_same(before, word) {
            return true;
        }
    }
    false
}

/// Whether two words are for the same ends.
fn are_for_same(word: &str, other: &str) -> bool
    ensures others { result ≡ false → format_end word.now ≢ format_end other.now }
    ensures same { result ≡ true → format_end word.now ≡ format_end other.now }
{
    end_in(word) == end_in(other)
}

/// The name of the end that a word is for, or nothing if it is for all.
fn end_in(word: &str) -> &str
    ensures { result.now ≡ format_end word.now }
{
    match word.split_once('=') {
        Some((name, _)) => name,
        None => "",
    }
}

/// The format of the end of this name.
pub(crate) fn format_for(words: &[&str], name: &str) -> Option<ItemFormat>
    ensures { let word = format_word (map (λ word. word.now) words.now) name.now in
        MatchOption result (IsNoFormat word) (NamesFormat word) }
{
    ItemFormat::of_word(word_for(words, name))
}

/// The word for the end of this name: the one that names it, or else the one for all.
pub fn word_for<'a>(words: &[&'a str], name: &str) -> &'a str
    ensures { result.now ≡ format_word (map (λ word. word.now) words.now) name.now }
{
    match word_named(words, name) {
        Some(word) => word,
        None => common_word(words).unwrap_or(USUAL),
    }
}

/// What the first word for the end of this name says.
fn word_named<'a>(words: &[&'a str], name: &str) -> Option<&'a str>
    ensures { option_map (λ format. format.now) result
        ≡ first_that (λ word. named_format word name.now) (map (λ word. word.now) words.now) }
{
    for word in words {
        if let Some(format) = named_format(word, name) {
            return Some(format);
        }
    }
    None
}

/// The first word for all ends.
fn common_word<'a>(words: &[&'a str]) -> Option<&'a str>
    ensures { option_map (λ format. format.now) result
        ≡ first_that common_format (map (λ word. word.now) words.now) }
{
    for word in words {
        if let Some(format) = common_format(word) {
            return Some(format);
        }
    }
    None
}

/// What a word says of the end of this name.
fn named_format<'a>(word: &'a str, name: &str) -> Option<&'a str>
    ensures { option_map (λ format. format.now) result ≡ named_format word.now name.now }
{
    let (end, format) = word.split_once('=')?;
    if end == name { Some(format) } else { None }
}

/// What a word says of all ends.
fn common_format(word: &str) -> Option<&str>
    ensures { option_map (λ format. format.now) result ≡ common_format word.now }
{
    match word.split_once('=') {
        Some(_) => None,
        None => Some(word),
    }
}
