//! Documents: networks with the names of their parts.

ghost use Rattle.std.specs.Prelude.{◌≡◌, map};
ghost use Rattle.std.specs.Str.{IsUtf8};
ghost use Rattle.kpn_text_names.specs.NetworkNames.{AreNamed, process_names};
ghost use Rattle.kpn_text_names.specs.Names.{number_of, name_at};
ghost use Rattle.kpn_text.specs.Document as spec;
ghost use Rattle.kpn_text.specs.Spells.{IsOfSomeText};

use crate::laws::names_are_text;
use kpn_lang::Sequence;
use kpn_net::Network;
use kpn_text_names::{NetworkNames, ProcessNames};
use kpn_text_tokens::Language;
use std::marker::Model;
use std::str;

/// A network with the names of its processes, instances and channels, and the language of its text. Some text spells
/// it: only [`read_network`](crate::read_network) makes one.
pub struct Document {
    language: Language,
    network: Network,
    names: NetworkNames,
}

/// It is written out, so that a crate that drops a document proves nothing about what is inside.
impl Drop for Document {
    fn drop(self) {
        let Document {
            language: _,
            network,
            names,
        } = self;
        drop(network);
        drop(names);
    }
}

impl Model for Document {
    ghost use Rattle.std.specs.Coded.{codes};
    ghost use Rattle.kpn_lang.specs.Codes.{parts_code};
    ghost use Rattle.kpn_text.specs.Document as spec;
    ghost use Rattle.kpn_text.specs.Spells.{IsOfSomeText};

    ghost Value = { spec.Document };

    ghost coded = { Prim.hlevel (codes, parts_code) };

    ghost view = { λ d. spec.document_with d.language d.network d.names };

    ghost invariant = { λ d. IsOfSomeText (spec.document_with d.language d.network d.names) };
}

impl Document {
    /// The document of a network with these names, which some text of this language spells.
    pub(crate) fn new(language: Language, network: Network, names: NetworkNames) -> Document
        requires { IsOfSomeText (spec.document_with language network names) }
        ensures { result ≡ spec.document_with language network names }
    {
        Document {
            language,
            network,
            names,
        }
    }

    /// The language of the texts that spell the document.
    pub fn language(&self) -> Language
        ensures { result ≡ self.now.language }
    {
        self.language
    }

    /// The network.
    pub fn network(&self) -> &Network
        ensures { result.now ≡ self.now.tables }
    {
        &self.network
    }

    /// Does nothing. A caller's proof learns from it that some text spells the document.
    pub fn known(&self)
        ensures { IsOfSomeText self.now }
    {
        let _ = &self.network;
    }

    /// The names, of which there are as many as there are processes, instances and channels.
    pub(crate) fn names(&self) -> &NetworkNames
        ensures names { result.now ≡ self.now.names }
        ensures named { AreNamed self.now.names self.now.tables }
    {
        &self.names
    }

    /// The name of the process with this number; empty if there is none.
    pub fn process_name(&self, i: usize) -> &str
        ensures { result.now ≡ name_at (process_names self.now.names) i }
    {
        names_are_text();
        process_name_in(self.names.processes.as_slice(), i)
    }

    /// The name of a variable of the process with this number, as bytes; empty if there is none. The parameters come
    /// first.
    pub fn variable_name(&self, i: usize, v: usize) -> &[u8]
        ensures { result.now ≡ spec.variable_name self.now.names.processes i v }
    {
        variable_in(self.names.processes.as_slice(), i, v)
    }

    /// The name of the instance with this number; empty if there is none.
    pub fn instance_name(&self, p: usize) -> &str
        ensures { result.now ≡ name_at self.now.names.instances p }
    {
        names_are_text();
        name_in(self.names.instances.as_slice(), p)
    }

    /// The name of the channel with this number; empty if there is none.
    pub fn channel_name(&self, c: usize) -> &str
        ensures { result.now ≡ name_at self.now.names.channels c }
    {
        names_are_text();
        name_in(self.names.channels.as_slice(), c)
    }

    /// The number of the channel with this name, or `None` if there is none.
    pub fn find_channel(&self, name: &str) -> Option<usize>
        ensures { result ≡ number_of self.now.names.channels name.now }
    {
        let name = name.as_bytes();
        self.names
            .channels
            .as_slice()
            .iter()
            .position(|channel| name == channel.as_slice())
    }
}

fn process_name_in(processes: &[ProcessNames], number: usize) -> &str
    requires { IsUtf8 (name_at (map (λ p. p.name) processes.now) number) }
    ensures { result.now ≡ name_at (map (λ p. p.name) processes.now) number }
{
    match processes.get(number) {
        Some(names) => text_of(names.name.as_slice()),
        None => "",
    }
}

fn variable_in(processes: &[ProcessNames], i: usize, v: usize) -> &[u8]
    ensures { result.now ≡ spec.variable_name processes.now i v }
{
    match processes.get(i) {
        Some(names) => bytes_in(names.vars.as_slice(), v),
        None => b"",
    }
}

fn bytes_in(names: &[Sequence<u8>], number: usize) -> &[u8]
    ensures { result.now ≡ name_at names.now number }
{
    match names.get(number) {
        Some(name) => name.as_slice(),
        None => b"",
    }
}

fn name_in(names: &[Sequence<u8>], number: usize) -> &str
    requires { IsUtf8 (name_at names.now number) }
    ensures { result.now ≡ name_at names.now number }
{
    match names.get(number) {
        Some(name) => text_of(name.as_slice()),
        None => "",
    }
}

// The bytes of a name as text.
fn text_of(name: &[u8]) -> &str
    requires { IsUtf8 name.now }
    ensures { result.now ≡ name.now }
{
    match str::from_utf8(name) {
        Ok(text) => text,
        Err(_) => "",
    }
}
