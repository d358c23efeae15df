//! Tables of names: the number of a name is its place, in the order in which the names came.

ghost use Rattle.std.specs.Prelude.{◌≡◌, [], length, slice_get, option_copied, OnOk, IfOk, IfErr};
ghost use Rattle.std.proofs.Common.{rules};
ghost use Rattle.std.specs.Cmp.Rules.{comparing};
ghost use Rattle.std.specs.Str.{bytes_eq};
ghost use Rattle.std.specs.List.{position_or_len};
ghost use Rattle.std.specs.Hash as fed;
ghost use Rattle.kpn_text_grammar.specs.View.{names_seen};
ghost use Rattle.kpn_text_names.specs.Fault.{ResolvingGives};
ghost use Rattle.kpn_text_names.specs.Names as spec;

use crate::fault::NameFault;
use indexmap::IndexSet;
use kpn_lang::Sequence;
use kpn_text_grammar::Identifier;
use std::alloc::Global;
use std::hash::{Hash, Hasher};
use std::marker::Model;

/// A name as a key of a table.
#[derive(Drop)]
struct Word<'a> {
    bytes: &'a [u8],
}

impl<'a> Model for Word<'a> {
    ghost use Rattle.std.specs.Prelude.{List, ℕ};

    ghost Value = { List ℕ };

    ghost view = { λ word. word.bytes.now };
}

impl<'a> PartialEq for Word<'a> {
    ghost eq = { bytes_eq };

    ghost laws = { Prim.search (comparing, rules) };

    fn eq(&self, other: &Word<'a>) -> bool {
        self.bytes == other.bytes
    }
}

impl<'a> Eq for Word<'a> {
    ghost laws = { Prim.search (comparing, rules) };
}

impl<'a> Hash for Word<'a> {
    ghost hash_input = { fed.slice fed.u8 };

    ghost respects_eq = { Prim.search (comparing, rules) };

    fn hash<H: Hasher>(&self, state: &mut H) {
        self.bytes.hash(state);
    }
}

/// A table of names, which borrows their bytes. No name is in it twice.
#[derive(Drop)]
pub struct NameTable<'a> {
    words: IndexSet<Word<'a>>,
}

impl<'a> Model for NameTable<'a> {
    ghost use Rattle.std.specs.Prelude.{List, ℕ};

    ghost Value = { List (List ℕ) };

    ghost view = { λ names. names.words.keys };
}

impl<'a> NameTable<'a> {
    /// The empty table, which takes no memory yet.
    pub(crate) fn new(alloc: Global) -> NameTable<'a>
        ensures { result ≡ [] }
    {
        NameTable {
            words: IndexSet::new(alloc),
        }
    }

    /// How many names there are.
    pub fn len(&self) -> usize
        ensures { result ≡ length self.now }
    {
        self.words.len()
    }

    /// The bytes of the name with this number, or `None` if there is none.
    pub fn get(&self, number: usize) -> Option<&'a [u8]>
        ensures { option_copied result ≡ slice_get self.now number }
    {
        let word = self.words.get_index(number)?;
        Some(word.bytes)
    }

    /// The number of a name, if the table has it.
    pub(crate) fn find(&self, name: &'a [u8]) -> Option<usize>
        ensures { result ≡ spec.number_of self.now name.now }
    {
        let word = Word { bytes: name };
        self.words.get_index_of(&word)
    }

    /// Whether the table has this name.
    pub(crate) fn contains(&self, name: &'a [u8]) -> bool
        ensures { result ≡ spec.has self.now name.now }
    {
        let word = Word { bytes: name };
        self.words.contains(&word)
    }

    /// The number of a name that must be known.
    pub(crate) fn known(&self, name: &Identifier<'a>) -> Result<usize, NameFault>
        ensures { ResolvingGives (λ k. k) result (spec.known self.now name.now.bytes.now) }
    {
        match self.find(name.bytes) {
            Some(number) => Ok(number),
            None => Err(NameFault::UnknownName(name.start)),
        }
    }

    /// The numbers of names that must all be known.
    pub(crate) fn all_known(
        &self,
        alloc: Global,
        names: &[Identifier<'a>],
    ) -> Result<Sequence<usize>, NameFault>
        ensures { ResolvingGives (λ numbers. numbers) result
            (spec.all_known self.now (names_seen names.now)) }
    {
        let mut numbers = Sequence::new(alloc);
        for name in names {
            let number = self.known(name)?;
            numbers.push(number)?;
        }
        Ok(numbers)
    }

    /// The number of a name. A new name is put at the end.
    pub(crate) fn number(&mut self, name: &'a [u8]) -> Result<usize, NameFault>
        ensures table { OnOk result (self.new ≡ spec.with_name self.old name.now) }
        ensures number { IfOk result (λ k. k ≡ position_or_len (bytes_eq name.now) self.old) }
        ensures only { IfErr result (λ fault. fault ≡ NameFault.NoMemory) }
    {
        let (number, _) = self.words.insert_full(Word { bytes: name })?;
        Ok(number)
    }

    /// Puts a name at the end. It must be new.
    pub(crate) fn declare(&mut self, name: &Identifier<'a>) -> Result<(), NameFault>
        ensures { ResolvingGives (λ _. self.new) result (spec.declared self.old name.now.bytes.now) }
    {
        let (_, is_new) = self.words.insert_full(Word { bytes: name.bytes })?;
        if is_new {
            Ok(())
        } else {
            Err(NameFault::DoubleName(name.start))
        }
    }
}
