//! Statements and blocks. The body of a process is a block of level 1, and each block has one level more than the block
//! around it.

ghost use Rattle.std.specs.Prelude.{◌≡◌};
ghost use Rattle.kpn_text_grammar.specs.Reading as spec;
ghost use Rattle.kpn_text_grammar.specs.View.{Parses, statement_seen, statements_seen, block_seen, tokens_from};

use crate::expressions::whole;
use crate::fault::GrammarFault;
use crate::parser::{
    Read, Source, at_keyword, at_mark, goes_on, is_second, keyword, mark, name, next,
};
use crate::tree::{Block, Identifier, StatementNode};
use kpn_text_tokens::{Keyword, Mark, Token};
use std::alloc::Global;

/// A block of at most `depth` levels.
#[cycle(block)]
pub(crate) fn block<'a>(
    alloc: Global,
    source: Source<'a>,
    depth: usize,
    at: usize,
) -> Read<Block<'a>>
    ensures { Parses (λ found. block_seen found.items)
        (λ s. spec.block s depth) source.entry at result }
{
    let inside = mark(source, Mark::LeftBrace, at)?;
    if depth == 0 {
        return Err(GrammarFault::TooDeep(source.scope.process));
    }
    block_behind(alloc, source, depth - 1, inside)
}

/// The statements of a block and its closing brace, with blocks of at most `depth` levels in it.
#[cycle(block)]
#[tactic(auto, unfolding(crate::specs::Reading::block_behind, kpn_text_tokens::specs::Results::and_then))]
pub(crate) fn block_behind<'a>(
    alloc: Global,
    source: Source<'a>,
    depth: usize,
    at: usize,
) -> Read<Block<'a>>
    ensures { Parses (λ found. block_seen found.items)
        (λ s. spec.block_behind s (spec.block s depth) (spec.second_block s depth)) source.entry at result }
{
    let (found, at) = statements(alloc, source, depth, at)?;
    let at = mark(source, Mark::RightBrace, at)?;
    Ok((found, at))
}

/// The statements up to the closing brace.
#[cycle(block)]
fn statements<'a>(alloc: Global, source: Source<'a>, depth: usize, at: usize) -> Read<Block<'a>>
    ensures { Parses (λ found. statements_seen found.items)
        (λ s. spec.all_of spec.stands_in_block
        (spec.one_statement s (spec.block s depth) (spec.second_block s depth))) source.entry at result }
{
    let mut found = Vec::new(alloc);
    let mut place = at;
    'statements: while goes_on(source, place) {
        let (statement, after) = one_statement(alloc, source, depth, place)?;
        found.push(statement)?;
        place = after;
    }
    Ok((found, place))
}

/// A statement, with blocks of at most `depth` levels in it.
#[cycle(block)]
#[tactic(auto, unfolding(crate::specs::Reading::one_statement, crate::specs::Reading::statement_behind, kpn_text_tokens::specs::Results::and_then))]
fn one_statement<'a>(
    alloc: Global,
    source: Source<'a>,
    depth: usize,
    at: usize,
) -> Read<StatementNode<'a>>
    ensures { Parses statement_seen
        (λ s. spec.one_statement s (spec.block s depth) (spec.second_block s depth)) source.entry at result }
{
    let (first, at) = next(source, at)?;
    match &first.token {
        Token::Name(name) => {
            let target = Identifier::new(name, first.start);
            set_statement(alloc, source, target, at)
        }
        Token::Keyword(Keyword::Read) => read_statement(source, at),
        Token::Keyword(Keyword::Write) => write_statement(alloc, source, at),
        Token::Keyword(Keyword::If) => if_statement(alloc, source, depth, at),
        Token::Keyword(Keyword::While) => while_statement(alloc, source, depth, at),
        _ => Err(GrammarFault::Grammar(first.start)),
    }
}

/// A statement that sets a variable, or an element of an array if `[` is behind its name.
#[tactic(auto, unfolding(crate::specs::Reading::target_behind))]
fn set_statement<'a>(
    alloc: Global,
    source: Source<'a>,
    target: Identifier<'a>,
    at: usize,
) -> Read<StatementNode<'a>>
    ensures { Parses statement_seen
        (λ s. spec.target_behind s target.entry.bytes.now) source.entry at result }
{
    if at_mark(source, Mark::LeftBracket, at) {
        store(alloc, source, target, at)
    } else {
        assignment(alloc, source, target, at)
    }
}

/// A statement that sets an element, behind the name of the array.
#[tactic(auto, unfolding(crate::specs::Reading::store_behind, kpn_text_tokens::specs::Results::and_then))]
fn store<'a>(
    alloc: Global,
    source: Source<'a>,
    array: Identifier<'a>,
    at: usize,
) -> Read<StatementNode<'a>>
    ensures { Parses statement_seen
        (λ s. spec.store_behind s array.entry.bytes.now) source.entry at result }
{
    let at = mark(source, Mark::LeftBracket, at)?;
    let (index, at) = whole(alloc, source, at)?;
    let at = mark(source, Mark::RightBracket, at)?;
    let at = mark(source, Mark::Assign, at)?;
    let (value, at) = whole(alloc, source, at)?;
    let at = mark(source, Mark::Semicolon, at)?;
    Ok((StatementNode::Store(array, index, value), at))
}

/// An assignment behind its target.
#[tactic(auto, unfolding(crate::specs::Reading::assignment_behind, kpn_text_tokens::specs::Results::and_then))]
fn assignment<'a>(
    alloc: Global,
    source: Source<'a>,
    target: Identifier<'a>,
    at: usize,
) -> Read<StatementNode<'a>>
    ensures { Parses statement_seen
        (λ s. spec.assignment_behind s target.entry.bytes.now) source.entry at result }
{
    let at = mark(source, Mark::Assign, at)?;
    let (value, at) = whole(alloc, source, at)?;
    let at = mark(source, Mark::Semicolon, at)?;
    Ok((StatementNode::Assign(target, value), at))
}

#[tactic(auto, unfolding(crate::specs::Reading::receive_behind, kpn_text_tokens::specs::Results::and_then))]
fn read_statement<'a>(source: Source<'a>, at: usize) -> Read<StatementNode<'a>>
    ensures { Parses statement_seen spec.receive_behind source.entry at result }
{
    let (port, at) = name(source, at)?;
    let (variable, at) = name(source, at)?;
    let at = mark(source, Mark::Semicolon, at)?;
    Ok((StatementNode::Read(port, variable), at))
}

#[tactic(auto, unfolding(crate::specs::Reading::send_behind, kpn_text_tokens::specs::Results::and_then))]
fn write_statement<'a>(alloc: Global, source: Source<'a>, at: usize) -> Read<StatementNode<'a>>
    ensures { Parses statement_seen spec.send_behind source.entry at result }
{
    let (port, at) = name(source, at)?;
    let (item, at) = whole(alloc, source, at)?;
    let at = mark(source, Mark::Semicolon, at)?;
    Ok((StatementNode::Write(port, item), at))
}

#[cycle(block)]
#[tactic(auto, unfolding(crate::specs::Reading::choice_behind, kpn_text_tokens::specs::Results::and_then))]
fn if_statement<'a>(
    alloc: Global,
    source: Source<'a>,
    depth: usize,
    at: usize,
) -> Read<StatementNode<'a>>
    ensures { Parses statement_seen
        (λ s. spec.choice_behind s (spec.block s depth) (spec.second_block s depth)) source.entry at result }
{
    let (test, at) = whole(alloc, source, at)?;
    let (then_block, at) = block(alloc, source, depth, at)?;
    let (else_block, at) = else_behind(alloc, source, depth, at)?;
    Ok((StatementNode::If(test, then_block, else_block), at))
}

/// `else` and what stands behind it. In language 2 it may be missing.
#[cycle(block)]
#[tactic(auto, unfolding(crate::specs::Reading::else_behind, kpn_text_tokens::specs::Results::and_then))]
fn else_behind<'a>(alloc: Global, source: Source<'a>, depth: usize, at: usize) -> Read<Block<'a>>
    ensures { Parses (λ found. block_seen found.items)
        (λ s. spec.else_behind s (spec.second_block s depth)) source.entry at result }
{
    if is_second(source.scope.language) && !at_keyword(source, Keyword::Else, at) {
        return Ok((Vec::new(alloc), at));
    }
    let at = keyword(source, Keyword::Else, at)?;
    second_block(alloc, source, depth, at)
}

/// Whether an `if` is at a place behind `else`, where language 2 has it.
fn is_branch(source: Source<'_>, at: usize) -> bool
    ensures { result ≡ spec.is_branch source.entry.scope (tokens_from source.entry at) }
{
    is_second(source.scope.language) && at_keyword(source, Keyword::If, at)
}

/// What stands behind `else`: a block, or in language 2 an `if`, which stands for a block that is nothing but it.
#[cycle(block)]
fn second_block<'a>(alloc: Global, source: Source<'a>, depth: usize, at: usize) -> Read<Block<'a>>
    ensures { Parses (λ found. block_seen found.items)
        (λ s. spec.second_block s depth) source.entry at result }
{
    if !is_branch(source, at) {
        return block(alloc, source, depth, at);
    }
    if depth == 0 {
        return Err(GrammarFault::TooDeep(source.scope.process));
    }
    branch(alloc, source, depth - 1, at)
}

/// An `if` as the one statement of a block, with blocks of at most `depth` levels in it.
#[cycle(block)]
#[tactic(auto, unfolding(crate::specs::Reading::branch, kpn_text_tokens::specs::Results::and_then))]
fn branch<'a>(alloc: Global, source: Source<'a>, depth: usize, at: usize) -> Read<Block<'a>>
    ensures { Parses (λ found. block_seen found.items)
        (λ s. spec.branch s (spec.block s depth) (spec.second_block s depth))
        source.entry at result }
{
    let at = keyword(source, Keyword::If, at)?;
    let (statement, at) = if_statement(alloc, source, depth, at)?;
    let mut found = Vec::new(alloc);
    found.push(statement)?;
    Ok((found, at))
}

#[cycle(block)]
#[tactic(auto, unfolding(crate::specs::Reading::loop_behind, kpn_text_tokens::specs::Results::and_then))]
fn while_statement<'a>(
    alloc: Global,
    source: Source<'a>,
    depth: usize,
    at: usize,
) -> Read<StatementNode<'a>>
    ensures { Parses statement_seen
        (λ s. spec.loop_behind s (spec.block s depth)) source.entry at result }
{
    let (test, at) = whole(alloc, source, at)?;
    let (body, at) = block(alloc, source, depth, at)?;
    Ok((StatementNode::While(test, body), at))
}
