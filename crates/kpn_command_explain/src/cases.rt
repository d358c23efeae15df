//! Which kind of fault a fault of a description is.

use crate::choices::may_stand;
use crate::concerned::FaultPlaces;
use crate::excess::{network_excess, process_excess};
use crate::lines::{back, front};
use crate::names::name_at;
use crate::sentences::Case;
use crate::spots::{TokenSpot, is_indexed, is_port, row_of, spot_at, start_before};
use crate::words::{assigns_next, begins_name};
use kpn_lang::ProgramFault;
use kpn_limits::MAX_TEXT_BYTES;
use kpn_net::NetFault;
use kpn_text::TextFault;
use kpn_text_tokens::{Keyword, Language, LexFault, Lexeme, language_of, lexemes};
use std::alloc::{AllocError, Global};

/// The kind of a fault of a text with these tokens and these places.
pub(crate) fn case_of<'a>(
    alloc: Global,
    text: &[u8],
    tokens: &'a [Lexeme<'a>],
    places: FaultPlaces,
    fault: TextFault,
) -> Result<Case, AllocError> {
    match fault {
        TextFault::TooLong(_) if text.len() > MAX_TEXT_BYTES => Ok(Case::LongText),
        TextFault::TooLong(_) => Ok(Case::LongName),
        TextFault::Token(at) => token_case(alloc, text, at),
        TextFault::Grammar(at) => grammar_case(alloc, text, at),
        TextFault::UnknownName(at) => Ok(unknown_case(text, tokens, at, places.second)),
        TextFault::DoubleName(at) => Ok(double_case(text, tokens, at)),
        TextFault::Program(process, ProgramFault::TooMany) => Ok(Case::LargeProgram(process_excess(
            alloc,
            text,
            tokens,
            process,
            places.first,
        )?)),
        TextFault::Program(_, ProgramFault::TooDeep) => Ok(Case::DeepProgram),
        TextFault::Program(_, ProgramFault::NoMemory) => Ok(Case::NoMemory),
        TextFault::Program(..) => Ok(Case::BrokenProgram),
        TextFault::Net(broken) => net_case(
            alloc,
            text,
            tokens,
            name_at(text, places.first),
            broken,
        ),
        TextFault::NoMemory => Ok(Case::NoMemory),
    }
}

// If each token is whole, the fault is one of the value of a constant.
fn token_case(alloc: Global, text: &[u8], at: usize) -> Result<Case, AllocError> {
    let language = language_of(text);
    match lexemes(alloc, language, text) {
        Ok(_) => return Ok(Case::ConstantValue),
        Err(LexFault::NoMemory) => return Err(AllocError),
        Err(_) => {}
    }
    let begins_number = !name_at(text, at).is_empty();
    Ok(match language {
        Language::One if begins_number => Case::BadNumber,
        Language::Two if begins_number || back(text, at).starts_with(b"'") => Case::BadNumeral,
        _ => Case::NoToken,
    })
}

fn grammar_case(alloc: Global, text: &[u8], at: usize) -> Result<Case, AllocError> {
    if text.len() <= at {
        return Ok(Case::EarlyEnd);
    }
    let (front, here) = (front(text, at), back(text, at));
    if !begins_name(here) {
        return Ok(Case::Misplaced);
    }
    // Where a name may stand, there is a word of the language, or a constant, which gave way to its number. Where a
    // block may end, a name is meant only if it is assigned to.
    let is_name = may_stand(alloc, front, b"x")?;
    let is_meant = is_name && (assigns_next(here) || !may_stand(alloc, front, b"}")?);
    let language = language_of(text);
    if is_keyword(language, name_at(text, at)) {
        Ok(if is_meant {
            Case::Reserved
        } else {
            Case::Misplaced
        })
    } else if is_meant {
        Ok(Case::Constant)
    } else if is_name || language == Language::One || !may_stand(alloc, front, b"1")? {
        Ok(Case::Misplaced)
    } else {
        Ok(Case::NoConstant)
    }
}

fn is_keyword(language: Language, name: &[u8]) -> bool {
    Keyword::ALL
        .iter()
        .any(|word| word.is_of(language) && word.spelling() == name)
}

// A text whose constants have a fault has no tokens.
fn unknown_case(text: &[u8], tokens: &[Lexeme<'_>], at: usize, second: Option<usize>) -> Case {
    if tokens.is_empty() {
        return Case::NoConstant;
    }
    match spot_at(tokens, at) {
        TokenSpot::InPort => Case::UnknownInPort,
        TokenSpot::OutPort => Case::UnknownOutPort,
        TokenSpot::Program => Case::UnknownProcess,
        TokenSpot::Reads | TokenSpot::Writes => Case::UnknownChannel,
        _ => variable_case(text, tokens, at, second),
    }
}

// A name that is no variable, or, with an index, no array that may be set or no array or table at all.
fn variable_case(text: &[u8], tokens: &[Lexeme<'_>], at: usize, second: Option<usize>) -> Case {
    let is_indexed = is_indexed(tokens, at);
    match row_of(text, tokens, at) {
        Some(_) if is_indexed => Case::SetTable,
        Some(row) if is_table(text, tokens, row) => Case::WholeTable,
        Some(_) => Case::WholeArray,
        None if is_indexed => Case::NoArray,
        None if is_port(text, tokens, at) => Case::PortAsVariable,
        None if second.is_some() => Case::LateVariable,
        None => Case::UnknownVariable,
    }
}

// Whether `table` stands before a name that is declared at this byte.
fn is_table(text: &[u8], tokens: &[Lexeme<'_>], at: usize) -> bool {
    name_at(text, start_before(tokens, at)) == b"table".as_slice()
}

fn double_case(text: &[u8], tokens: &[Lexeme<'_>], at: usize) -> Case {
    match spot_at(tokens, at) {
        TokenSpot::Process => Case::DoubleProcess,
        TokenSpot::Instance => Case::DoubleInstance,
        TokenSpot::Channel => Case::DoubleChannel,
        TokenSpot::Port | TokenSpot::Row | TokenSpot::Shared => match row_of(text, tokens, at) {
            Some(_) => Case::DoubleRow,
            None => Case::DoublePort,
        },
        _ => target_case(text, tokens, at),
    }
}

// What gets a value, and is no variable.
fn target_case(text: &[u8], tokens: &[Lexeme<'_>], at: usize) -> Case {
    let word = start_before(tokens, start_before(tokens, at));
    match row_of(text, tokens, at) {
        None => Case::AssignedPort,
        Some(row) if is_table(text, tokens, row) => Case::SetTable,
        Some(_) if name_at(text, word) == b"read".as_slice() => Case::ReadArray,
        Some(_) => Case::SetArray,
    }
}

fn net_case(
    alloc: Global,
    text: &[u8],
    tokens: &[Lexeme<'_>],
    name: &[u8],
    fault: NetFault,
) -> Result<Case, AllocError> {
    Ok(match fault {
        NetFault::TooMany => Case::LargeNetwork(network_excess(alloc, text, tokens)?),
        NetFault::NoSuchProgram(_) | NetFault::NoSuchChannel(_) => Case::BrokenNetwork,
        NetFault::PortCount(_) => Case::PortCount,
        NetFault::NoWriter(_) => Case::NoWriter,
        NetFault::TwoWriters(_) => Case::TwoWriters,
        NetFault::NoReader(_) => Case::NoReader,
        NetFault::TwoReaders(_) => Case::TwoReaders,
        NetFault::Capacity(_) if name == b"network".as_slice() => Case::BadLimit,
        NetFault::Capacity(_) => Case::BadCapacity,
        NetFault::NoMemory => Case::NoMemory,
    })
}
