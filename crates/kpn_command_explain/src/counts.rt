//! How many parts a description that follows the grammar has, by its tokens.

use crate::concerned::process_end;
use crate::spots::{TokenSpot, behind, starts};
use kpn_text_tokens::{Keyword, Lexeme, Mark, Token};
use std::alloc::{AllocError, Global};

/// How many names stand at a spot.
pub fn count_of(
    alloc: Global,
    tokens: &[Lexeme<'_>],
    wanted: TokenSpot,
) -> Result<usize, AllocError> {
    let found = starts(alloc, tokens, wanted)?;
    Ok(found.len())
}

/// How many nodes the process has whose name begins at this byte: its statements, and the numbers, names, operators and
/// choices of their expressions.
pub fn nodes_of(alloc: Global, tokens: &[Lexeme<'_>], at: usize) -> Result<usize, AllocError> {
    let end = process_end(alloc, tokens, at)?;
    let mut count = 0usize;
    let mut now = TokenSpot::Outside;
    for lexeme in tokens {
        if at < lexeme.start && lexeme.start < end && is_node(now, &lexeme.token) {
            count = count.saturating_add(1);
        }
        now = behind(now, &lexeme.token);
    }
    Ok(count)
}

// Whether a token in a process stands for a node. None of an array or a table that is declared does.
fn is_node(now: TokenSpot, token: &Token<'_>) -> bool {
    match token {
        _ if now == TokenSpot::Row => false,
        Token::Name(_) => matches!(
            now,
            TokenSpot::Target | TokenSpot::OutPort | TokenSpot::Variable
        ),
        Token::Number(_) => true,
        Token::Mark(mark) => is_operator(*mark),
        Token::Keyword(keyword) => matches!(keyword, Keyword::If | Keyword::While),
    }
}

fn is_operator(mark: Mark) -> bool {
    match mark {
        Mark::LeftParen | Mark::RightParen | Mark::LeftBrace | Mark::RightBrace => false,
        Mark::Semicolon | Mark::Comma | Mark::Assign | Mark::Colon => false,
        Mark::LeftBracket | Mark::RightBracket => false,
        _ => true,
    }
}
