//! A shelf of which one call may answer otherwise for one name.

use kpn_cli::{Ports, Shelf};
use kpn_text_items::{ItemFault, WriteFault};
use std::alloc::{AllocError, Global};

/// The call of a shelf that answers otherwise.
#[derive(Clone, Copy, PartialEq, Eq)]
pub(crate) enum Call {
    Load,
    Store,
    IsSameFile,
    MakeReady,
}

/// A shelf of which one call may fail for one name, or take every name for one file with that one.
#[derive(Drop)]
pub(crate) struct Troubled<S> {
    pub(crate) files: S,
    pub(crate) trouble: Option<(Call, String)>,
}

impl<S> Troubled<S> {
    /// Whether this call answers otherwise for this name.
    fn is_in_trouble(&self, call: Call, name: &str) -> bool {
        match &self.trouble {
            Some((troubled, known)) => *troubled == call && known.as_str() == name,
            None => false,
        }
    }
}

impl<S: Shelf> Shelf for Troubled<S> {
    ghost use Rattle.std.specs.Prelude.{⊤};

    ghost may_give = { λ _ _ _. ⊤ };

    ghost may_alias = { λ _ _ _. ⊤ };

    fn load(&self, alloc: Global, name: &str) -> Result<Vec<u8>, ItemFault> {
        if self.is_in_trouble(Call::Load, name) {
            return Err(ItemFault::Read);
        }
        self.files.load(alloc, name)
    }

    fn store(&mut self, name: &str, bytes: &[u8]) -> Result<(), WriteFault> {
        if self.is_in_trouble(Call::Store, name) {
            return Err(WriteFault::Write);
        }
        self.files.store(name, bytes)
    }

    fn is_same_file(&self, name: &str, other: &str) -> Result<bool, AllocError> {
        if self.is_in_trouble(Call::IsSameFile, other) {
            return Ok(true);
        }
        self.files.is_same_file(name, other)
    }

    fn is_one_output(&self, name: &str, other: &str) -> Result<bool, AllocError> {
        self.files.is_one_output(name, other)
    }

    fn make_ready(&self, name: &str) -> Result<(), WriteFault> {
        if self.is_in_trouble(Call::MakeReady, name) {
            return Err(WriteFault::Write);
        }
        self.files.make_ready(name)
    }
}

impl<S: Ports> Ports for Troubled<S> {
    type Input = S::Input;

    type Output = S::Output;

    ghost comes_from = { λ input. S.comes_from input };

    ghost goes_to = { λ output. S.goes_to output };

    ghost are_two_inputs = { λ troubled name other. S.are_two_inputs troubled.files name other };

    ghost may_share = { λ troubled name other. S.may_share troubled.files name other };

    fn open_input(&self, name: &str) -> Result<S::Input, ItemFault> {
        self.files.open_input(name)
    }

    fn open_output(&self, name: &str) -> Result<S::Output, WriteFault> {
        self.files.open_output(name)
    }

    fn empty(&self, output: &mut S::Output) -> Result<(), WriteFault> {
        self.files.empty(output)
    }

    fn is_one_input(&self, name: &str, other: &str) -> bool {
        self.files.is_one_input(name, other)
    }
}
