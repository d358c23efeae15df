//! Why a text is no description of a network.

use kpn_lang::ProgramFault;
use kpn_net::NetFault;
use kpn_text_expand::ExpandFault;
use kpn_text_grammar::GrammarFault;
use kpn_text_names::NameFault;
use kpn_text_tokens::LexFault;
use std::alloc::{AllocError, AllocFailed};
use thiserror::Error;

/// The first fault of a text, by the first phase of reading that finds one. Bytes are counted from 0.
#[derive(Clone, Copy, Debug, PartialEq, Eq, Error)]
pub enum TextFault {
    /// 24: the text has more bytes than this, or the name at this byte is too long.
    #[error("TooLong at {0}")]
    TooLong(usize),
    /// 20: no token begins at this byte, or the number there, or the value of a constant, is out of range.
    #[error("Token at {0}")]
    Token(usize),
    /// 21: the token at this byte may not be there. If the text ends too early, this is its length.
    #[error("Grammar at {0}")]
    Grammar(usize),
    /// 22: the name at this byte is not known there.
    #[error("UnknownName at {0}")]
    UnknownName(usize),
    /// 23: the name at this byte is already in its table.
    #[error("DoubleName at {0}")]
    DoubleName(usize),
    /// 1 to 6: the process with this number is no program.
    #[error("{1:?} at {0}")]
    Program(usize, ProgramFault),
    /// 10 to 17 and 19: the tables are no network.
    #[error("{0:?}")]
    Net(NetFault),
    /// 28: memory ran out.
    #[error("NoMemory")]
    NoMemory,
}

impl From<LexFault> for TextFault {
    ghost use Rattle.std.specs.Prelude.{◌≡◌};
    ghost use Rattle.kpn_text.specs.Fault.{lex_fault};

    ghost from_gives = { λ fault told. told ≡ lex_fault fault };

    fn from(fault: LexFault) -> TextFault {
        match fault {
            LexFault::TooLong(at) => TextFault::TooLong(at),
            LexFault::Token(at) => TextFault::Token(at),
            LexFault::NoMemory => TextFault::NoMemory,
        }
    }
}

impl From<ExpandFault> for TextFault {
    ghost use Rattle.std.specs.Prelude.{◌≡◌};
    ghost use Rattle.kpn_text.specs.Fault.{expand_fault};

    ghost from_gives = { λ fault told. told ≡ expand_fault fault };

    fn from(fault: ExpandFault) -> TextFault {
        match fault {
            ExpandFault::Grammar(at) => TextFault::Grammar(at),
            ExpandFault::Token(at) => TextFault::Token(at),
            ExpandFault::UnknownName(at) => TextFault::UnknownName(at),
            ExpandFault::NoMemory => TextFault::NoMemory,
        }
    }
}

impl From<GrammarFault> for TextFault {
    ghost use Rattle.std.specs.Prelude.{◌≡◌};
    ghost use Rattle.kpn_text.specs.Fault.{grammar_fault};

    ghost from_gives = { λ fault told. told ≡ grammar_fault fault };

    fn from(fault: GrammarFault) -> TextFault {
        match fault {
            GrammarFault::Grammar(at) => TextFault::Grammar(at),
            GrammarFault::TooDeep(process) => TextFault::Program(process, ProgramFault::TooDeep),
            GrammarFault::NoMemory => TextFault::NoMemory,
        }
    }
}

impl From<NameFault> for TextFault {
    ghost use Rattle.std.specs.Prelude.{◌≡◌};
    ghost use Rattle.kpn_text.specs.Fault.{name_fault};

    ghost from_gives = { λ fault told. told ≡ name_fault fault };

    fn from(fault: NameFault) -> TextFault {
        match fault {
            NameFault::UnknownName(at) => TextFault::UnknownName(at),
            NameFault::DoubleName(at) => TextFault::DoubleName(at),
            NameFault::NoMemory => TextFault::NoMemory,
        }
    }
}

impl From<NetFault> for TextFault {
    ghost use Rattle.std.specs.Prelude.{◌≡◌};
    ghost use Rattle.kpn_text.specs.Fault.{net_fault};

    ghost from_gives = { λ fault told. told ≡ net_fault fault };

    fn from(fault: NetFault) -> TextFault {
        match fault {
            NetFault::NoMemory => TextFault::NoMemory,
            broken => TextFault::Net(broken),
        }
    }
}

impl From<AllocError> for TextFault {
    ghost use Rattle.std.specs.Prelude.{◌≡◌};
    ghost use Rattle.kpn_text.specs.declared.fault.TextFault.TheVariants.{NoMemory};

    ghost from_gives = { λ _ told. told ≡ NoMemory };

    fn from(_error: AllocError) -> TextFault {
        TextFault::NoMemory
    }
}

impl<T: Drop> From<AllocFailed<T>> for TextFault {
    ghost use Rattle.std.specs.Prelude.{◌≡◌};
    ghost use Rattle.kpn_text.specs.declared.fault.TextFault.TheVariants.{NoMemory};

    ghost from_gives = { λ _ told. told ≡ NoMemory };

    fn from(_failed: AllocFailed<T>) -> TextFault {
        TextFault::NoMemory
    }
}
