//! The whole of a description: its language, its shared tables, its processes, its network, and nothing after it. Or
//! the whole of an expression that stands alone.

ghost use Rattle.std.specs.Prelude.{◌≡◌, ℕ, Err, IfOk};
ghost use Rattle.kpn_text_grammar.specs.Syntax.{Description as Document};
ghost use Rattle.kpn_text_grammar.specs.Spelling.{IsDescription, kinds};
ghost use Rattle.kpn_text_grammar.specs.Laws.{IsFaultAt};
ghost use Rattle.kpn_text_tokens.specs.Results.{OkOr};
ghost use Rattle.kpn_text_grammar.specs.Reading as spec;
ghost use Rattle.kpn_text_grammar.specs.View.{Passes, document, term, tokens_from};

use crate::declarations::shared_tables;
use crate::expressions;
use crate::fault::GrammarFault;
use crate::networks::network;
use crate::parser::{Scope, Source, keyword, mark, two};
use crate::processes::processes;
use crate::tree::{Description, Expression};
use kpn_limits::MAX_LEVELS;
use kpn_text_tokens::{Keyword, Language, Lexeme, Mark};
use std::alloc::Global;

/// Nothing is at the place.
#[tactic(auto, unfolding(crate::specs::Reading::at_end))]
fn at_end(source: Source<'_>, at: usize) -> Result<(), GrammarFault>
    ensures { spec.ReadingGives (λ x. tt) result (spec.at_end (tokens_from source.entry at)) }
{
    match source.tokens.get(at) {
        Some(first) => Err(GrammarFault::Grammar(first.start)),
        None => Ok(()),
    }
}

/// What begins a text of a language: `language 2;`, or nothing.
#[tactic(auto, unfolding(crate::specs::Reading::language_at, kpn_text_tokens::specs::Results::and_then))]
fn language_at(source: Source<'_>, language: Language, at: usize) -> Result<usize, GrammarFault>
    ensures { Passes (λ s. spec.language_at s language) source.entry at result }
{
    match language {
        Language::One => Ok(at),
        Language::Two => {
            let at = keyword(source, Keyword::Language, at)?;
            let at = two(source, at)?;
            mark(source, Mark::Semicolon, at)
        }
    }
}

/// The shared tables, the processes, the network, and nothing after it.
#[tactic(auto, unfolding(crate::specs::Reading::contents, kpn_text_tokens::specs::Results::and_then))]
fn contents<'a>(
    alloc: Global,
    source: Source<'a>,
    at: usize,
) -> Result<Description<'a>, GrammarFault>
    ensures { spec.ReadingGives document result
        (spec.contents source.entry.scope (tokens_from source.entry at)) }
{
    let (tables, at) = shared_tables(alloc, source, at)?;
    let (processes, at) = processes(alloc, source, at)?;
    let (network, at) = network(alloc, source, at)?;
    at_end(source, at)?;
    let description = Description {
        tables,
        processes,
        network,
    };
    Ok(description)
}

/// The same behind the language.
#[tactic(auto, unfolding(crate::specs::Reading::description, kpn_text_tokens::specs::Results::and_then))]
fn whole<'a>(alloc: Global, source: Source<'a>) -> Result<Description<'a>, GrammarFault>
    ensures { spec.ReadingGives document result
        (spec.description source.entry.scope source.entry.tokens.now) }
{
    let at = language_at(source, source.scope.language, 0)?;
    contents(alloc, source, at)
}

/// The description that the tokens of a text of a language are; `end` is the length of the text in bytes.
///
/// # Errors
///
/// The first of these in the text:
///
/// - [`GrammarFault::Grammar`] at the first byte of a token that may not be there, or at `end` if the tokens end too
///   early;
/// - [`GrammarFault::TooDeep`] of a process at a token that may be there and opens a level too many, of blocks or of an
///   expression. In language 2 that is also an operator or `?` whose left side has all the levels that are left.
///
/// [`GrammarFault::NoMemory`] comes only if memory ran out.
pub fn description<'a>(
    alloc: Global,
    language: Language,
    tokens: &'a [Lexeme<'a>],
    end: usize,
) -> Result<Description<'a>, GrammarFault>
    // What the call returns is what the tokens spell, within the limits.
    ensures found { IfOk result (λ d. IsDescription language (kinds tokens.now) (document d)) }
    // It returns what the tokens spell within the limits, unless memory runs out.
    ensures only { (d : Document) → IsDescription language (kinds tokens.now) d
        → OkOr GrammarFault.NoMemory result (λ x. document x ≡ d) }
    // Where the grammar refuses a token, it is the first that cannot stand there.
    ensures placed { (at : ℕ) → result ≡ Err (GrammarFault.Grammar at)
        → IsFaultAt language end tokens.now at }
    // Which fault it is.
    ensures exact { spec.ReadingGives document result (spec.description_of language end tokens.now) }
{
    let scope = Scope {
        end,
        process: 0,
        language,
        levels: MAX_LEVELS,
    };
    whole(alloc, Source { tokens, scope })
}

/// An expression, and nothing after it.
#[tactic(auto, unfolding(crate::specs::Reading::expression, kpn_text_tokens::specs::Results::and_then))]
fn alone<'a>(alloc: Global, source: Source<'a>) -> Result<Expression<'a>, GrammarFault>
    ensures { spec.ReadingGives term result
        (spec.expression source.entry.scope source.entry.tokens.now) }
{
    let (found, at) = expressions::whole(alloc, source, 0)?;
    at_end(source, at)?;
    Ok(found)
}

/// The expression of a language that all these tokens are; `end` is the byte behind them.
///
/// # Errors
///
/// Those of [`description`].
pub fn expression<'a>(
    alloc: Global,
    language: Language,
    tokens: &'a [Lexeme<'a>],
    end: usize,
) -> Result<Expression<'a>, GrammarFault>
    ensures { spec.ReadingGives term result (spec.expression_of language end tokens.now) }
{
    let scope = Scope {
        end,
        process: 0,
        language,
        levels: MAX_LEVELS,
    };
    alone(alloc, Source { tokens, scope })
}
