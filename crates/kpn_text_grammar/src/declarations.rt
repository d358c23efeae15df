//! Arrays and tables: those of a process, at the head of its body, and the tables in front of the processes.

ghost use Rattle.std.specs.Prelude.{◌≡◌};
ghost use Rattle.kpn_text_tokens.specs.declared.tokens.Keyword.TheVariants as kind;
ghost use Rattle.kpn_text_grammar.specs.Reading as spec;
ghost use Rattle.kpn_text_grammar.specs.TokenTests as tests;
ghost use Rattle.kpn_text_grammar.specs.View.{
  Parses,
  declaration_seen,
  declarations_seen,
  table_seen,
  tables_seen,
};

use crate::fault::GrammarFault;
use crate::lists::values;
use crate::parser::{Read, Source, at_keyword, declares, keyword, mark, name, next, size};
use crate::tree::{Declaration, Table};
use kpn_text_tokens::{Keyword, Mark, Token};
use std::alloc::Global;

#[tactic(auto, unfolding(crate::specs::Reading::array_behind, kpn_text_tokens::specs::Results::and_then))]
fn array_behind<'a>(source: Source<'a>, at: usize) -> Read<Declaration<'a>>
    ensures { Parses declaration_seen spec.array_behind source.entry at result }
{
    let (name, at) = name(source, at)?;
    let at = mark(source, Mark::LeftBracket, at)?;
    let (size, at) = size(source, at)?;
    let at = mark(source, Mark::RightBracket, at)?;
    let at = mark(source, Mark::Semicolon, at)?;
    Ok((Declaration::Array(name, size), at))
}

#[tactic(auto, unfolding(crate::specs::Reading::table_behind, kpn_text_tokens::specs::Results::and_then))]
fn table_behind<'a>(alloc: Global, source: Source<'a>, at: usize) -> Read<Table<'a>>
    ensures { Parses table_seen spec.table_behind source.entry at result }
{
    let (name, at) = name(source, at)?;
    let at = mark(source, Mark::Assign, at)?;
    let (values, at) = values(alloc, source, at)?;
    let at = mark(source, Mark::Semicolon, at)?;
    Ok((Table { name, values }, at))
}

/// An array or a table.
#[tactic(auto, unfolding(crate::specs::Reading::declaration, crate::specs::Reading::declaration_behind, kpn_text_tokens::specs::Results::and_then))]
fn declaration<'a>(alloc: Global, source: Source<'a>, at: usize) -> Read<Declaration<'a>>
    ensures { Parses declaration_seen spec.declaration source.entry at result }
{
    let (first, at) = next(source, at)?;
    match &first.token {
        Token::Keyword(Keyword::Array) => array_behind(source, at),
        Token::Keyword(Keyword::Table) => {
            let (table, at) = table_behind(alloc, source, at)?;
            Ok((Declaration::Table(table), at))
        }
        _ => Err(GrammarFault::Grammar(first.start)),
    }
}

/// The arrays and tables of a process.
pub(crate) fn declarations<'a>(
    alloc: Global,
    source: Source<'a>,
    at: usize,
) -> Read<Vec<Declaration<'a>>>
    ensures { Parses (λ found. declarations_seen found.items)
        (λ s. spec.all_of spec.declares (spec.declaration s)) source.entry at result }
{
    let mut found = Vec::new(alloc);
    let mut place = at;
    'declarations: while declares(source, place) {
        let (declaration, after) = declaration(alloc, source, place)?;
        found.push(declaration)?;
        place = after;
    }
    Ok((found, place))
}

#[tactic(auto, unfolding(crate::specs::Reading::shared_table, kpn_text_tokens::specs::Results::and_then))]
fn shared_table<'a>(alloc: Global, source: Source<'a>, at: usize) -> Read<Table<'a>>
    ensures { Parses table_seen spec.shared_table source.entry at result }
{
    let at = keyword(source, Keyword::Table, at)?;
    table_behind(alloc, source, at)
}

/// The tables in front of the processes.
pub(crate) fn shared_tables<'a>(
    alloc: Global,
    source: Source<'a>,
    at: usize,
) -> Read<Vec<Table<'a>>>
    ensures { Parses (λ found. tables_seen found.items)
        (λ s. spec.all_of (tests.is_keyword kind.Table) (spec.shared_table s)) source.entry at result }
{
    let mut found = Vec::new(alloc);
    let mut place = at;
    'tables: while at_keyword(source, Keyword::Table, place) {
        let (table, after) = shared_table(alloc, source, place)?;
        found.push(table)?;
        place = after;
    }
    Ok((found, place))
}
