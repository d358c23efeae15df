//! Processes: a head with the ports and parameters, and a body.

ghost use Rattle.std.specs.Prelude.{◌≡◌};
ghost use Rattle.kpn_text_grammar.specs.Reading as spec;
ghost use Rattle.kpn_text_grammar.specs.View.{Parses, names_seen, parts_seen, process_seen, processes_seen};

use crate::blocks::block_behind;
use crate::declarations::declarations;
use crate::fault::GrammarFault;
use crate::lists::names;
use crate::parser::{Read, Scope, Source, at_keyword, at_mark, keyword, mark, name, next};
use crate::tree::{HeadParts, Names, ProcessNode};
use kpn_text_tokens::{Keyword, Lexeme, Mark, Token};
use std::alloc::Global;

/// The parts of a head behind the in ports and the out ports: parameters, if a semicolon follows.
#[tactic(auto, unfolding(crate::specs::Reading::after_outs, kpn_text_tokens::specs::Results::and_then))]
fn after_outs<'a>(
    alloc: Global,
    source: Source<'a>,
    ins: Names<'a>,
    outs: Names<'a>,
    at: usize,
) -> Read<HeadParts<'a>>
    ensures { Parses parts_seen
        (λ s. spec.after_outs s (names_seen ins.entry.items) (names_seen outs.entry.items))
        source.entry at result }
{
    if !at_mark(source, Mark::Semicolon, at) {
        let pars = Vec::new(alloc);
        return Ok((HeadParts { ins, outs, pars }, at));
    }
    let at = mark(source, Mark::Semicolon, at)?;
    let at = keyword(source, Keyword::Par, at)?;
    let (pars, at) = names(alloc, source, at)?;
    Ok((HeadParts { ins, outs, pars }, at))
}

/// The parts of a head behind the in ports, from the word that begins them on: out ports and
/// parameters, or parameters.
#[tactic(auto, unfolding(crate::specs::Reading::outs_or_pars, kpn_text_tokens::specs::Results::and_then))]
fn outs_or_pars<'a>(
    alloc: Global,
    source: Source<'a>,
    ins: Names<'a>,
    word: &'a Lexeme<'a>,
    at: usize,
) -> Read<HeadParts<'a>>
    ensures { Parses parts_seen
        (λ s. spec.outs_or_pars s (names_seen ins.entry.items) word.now.token word.now.start)
        source.entry at result }
{
    match &word.token {
        Token::Keyword(Keyword::Out) => {
            let (outs, at) = names(alloc, source, at)?;
            after_outs(alloc, source, ins, outs, at)
        }
        Token::Keyword(Keyword::Par) => {
            let outs = Vec::new(alloc);
            let (pars, at) = names(alloc, source, at)?;
            Ok((HeadParts { ins, outs, pars }, at))
        }
        _ => Err(GrammarFault::Grammar(word.start)),
    }
}

/// The parts of a head behind the in ports: more, if a semicolon follows.
#[tactic(auto, unfolding(crate::specs::Reading::after_ins, kpn_text_tokens::specs::Results::and_then))]
fn after_ins<'a>(
    alloc: Global,
    source: Source<'a>,
    ins: Names<'a>,
    at: usize,
) -> Read<HeadParts<'a>>
    ensures { Parses parts_seen
        (λ s. spec.after_ins s (names_seen ins.entry.items)) source.entry at result }
{
    if !at_mark(source, Mark::Semicolon, at) {
        let outs = Vec::new(alloc);
        let pars = Vec::new(alloc);
        return Ok((HeadParts { ins, outs, pars }, at));
    }
    let at = mark(source, Mark::Semicolon, at)?;
    let (word, at) = next(source, at)?;
    outs_or_pars(alloc, source, ins, word, at)
}

/// The parts of a head from the word that begins them on.
#[tactic(auto, unfolding(crate::specs::Reading::parts_behind, kpn_text_tokens::specs::Results::and_then))]
fn parts_behind<'a>(
    alloc: Global,
    source: Source<'a>,
    word: &'a Lexeme<'a>,
    at: usize,
) -> Read<HeadParts<'a>>
    ensures { Parses parts_seen
        (λ s. spec.parts_behind s word.now.token word.now.start) source.entry at result }
{
    match &word.token {
        Token::Keyword(Keyword::In) => {
            let (ins, at) = names(alloc, source, at)?;
            after_ins(alloc, source, ins, at)
        }
        _ => outs_or_pars(alloc, source, Vec::new(alloc), word, at),
    }
}

/// The ports and parameters up to the closing parenthesis.
#[tactic(auto, unfolding(crate::specs::Reading::parts, kpn_text_tokens::specs::Results::and_then))]
fn parts<'a>(alloc: Global, source: Source<'a>, at: usize) -> Read<HeadParts<'a>>
    ensures { Parses parts_seen spec.parts source.entry at result }
{
    if at_mark(source, Mark::RightParen, at) {
        let parts = HeadParts {
            ins: Vec::new(alloc),
            outs: Vec::new(alloc),
            pars: Vec::new(alloc),
        };
        return Ok((parts, at));
    }
    let (word, at) = next(source, at)?;
    parts_behind(alloc, source, word, at)
}

#[tactic(auto, unfolding(crate::specs::Reading::process, kpn_text_tokens::specs::Results::and_then))]
fn process<'a>(alloc: Global, source: Source<'a>, at: usize) -> Read<ProcessNode<'a>>
    ensures { Parses process_seen spec.process source.entry at result }
{
    let at = keyword(source, Keyword::Process, at)?;
    let (name, at) = name(source, at)?;
    let at = mark(source, Mark::LeftParen, at)?;
    let (parts, at) = parts(alloc, source, at)?;
    let at = mark(source, Mark::RightParen, at)?;
    let at = mark(source, Mark::LeftBrace, at)?;
    let (declarations, at) = declarations(alloc, source, at)?;
    let (body, at) = block_behind(alloc, source, source.scope.levels.saturating_sub(1), at)?;
    let process = ProcessNode {
        name,
        parts,
        declarations,
        body,
    };
    Ok((process, at))
}

/// The process with a number.
#[tactic(auto, unfolding(crate::specs::Reading::numbered_process))]
fn numbered_process<'a>(
    alloc: Global,
    source: Source<'a>,
    number: usize,
    at: usize,
) -> Read<ProcessNode<'a>>
    ensures { Parses process_seen (λ s. spec.numbered_process s number) source.entry at result }
{
    let scope = Scope {
        end: source.scope.end,
        process: number,
        language: source.scope.language,
        levels: source.scope.levels,
    };
    let tokens = source.tokens;
    process(alloc, Source { tokens, scope }, at)
}

/// The processes, numbered from 0.
pub(crate) fn processes<'a>(
    alloc: Global,
    source: Source<'a>,
    at: usize,
) -> Read<Vec<ProcessNode<'a>>>
    ensures { Parses (λ found. processes_seen found.items) spec.processes source.entry at result }
{
    let mut found = Vec::new(alloc);
    let mut place = at;
    'processes: while at_keyword(source, Keyword::Process, place) {
        let (process, after) = numbered_process(alloc, source, found.len(), place)?;
        found.push(process)?;
        place = after;
    }
    Ok((found, place))
}
