//! Where in a statement a place is.

use crate::choices::may_stand;
use crate::lines::{back, front};
use crate::spots::{TokenSpot, spot_at, start_before};
use kpn_text_tokens::Lexeme;
use std::alloc::{AllocError, Global};

/// Where in a statement a place is, by what may stand there.
#[derive(Clone, Copy)]
pub(crate) enum Stand {
    /// After the name of a variable that begins a statement: `=` may stand there.
    Assigning,
    /// Between parentheses, after the first side of an operator: an operator may.
    FirstSide,
    /// Where an operand is to begin: a number may.
    Operand,
    /// After the first block of an `if`: `else` may.
    BeforeElse,
    /// Where a statement is to begin: `}` may too.
    Statement,
    /// After a whole expression.
    Whole,
    /// After the name of a channel or a sink: `cap` may stand there.
    BeforeCapacity,
    /// After the variable of a `read`: `;` may stand there.
    BehindRead,
    /// Within the declaration of an array or a table.
    Declaring,
    /// At another place.
    Elsewhere,
}

/// Where in a statement the token of a place stands.
pub(crate) fn stand_of(
    alloc: Global,
    text: &[u8],
    tokens: &[Lexeme<'_>],
    at: usize,
) -> Result<Stand, AllocError> {
    let before = start_before(tokens, at);
    let front = front(text, at);
    match spot_at(tokens, at) {
        TokenSpot::Target | TokenSpot::Variable => stand_in_block(alloc, text, before, front),
        TokenSpot::Row | TokenSpot::Shared => Ok(Stand::Declaring),
        _ if lacks_capacity(alloc, front)? => Ok(Stand::BeforeCapacity),
        _ => Ok(Stand::Elsewhere),
    }
}

// `cap` may stand there, and not as that of the network, which a channel may follow.
fn lacks_capacity(alloc: Global, front: &[u8]) -> Result<bool, AllocError> {
    Ok(may_stand(alloc, front, b"cap")? && !may_stand(alloc, front, b"channel")?)
}

// The place after a text that ends in a block, and whose last token begins at `before`.
fn stand_in_block(
    alloc: Global,
    text: &[u8],
    before: usize,
    front: &[u8],
) -> Result<Stand, AllocError> {
    if may_stand(alloc, front, b"=")? {
        Ok(Stand::Assigning)
    } else if may_stand(alloc, front, b"+")? {
        Ok(Stand::FirstSide)
    } else if may_stand(alloc, front, b"0")? {
        Ok(Stand::Operand)
    } else if may_stand(alloc, front, b"else")? {
        Ok(Stand::BeforeElse)
    } else if may_stand(alloc, front, b"}")? {
        Ok(Stand::Statement)
    } else if ends_operand(alloc, text, before)? {
        Ok(Stand::Whole)
    } else if may_stand(alloc, front, b";")? {
        Ok(Stand::BehindRead)
    } else {
        Ok(Stand::Elsewhere)
    }
}

// A parenthesis ends the token before, or a number might stand in place of that token.
fn ends_operand(alloc: Global, text: &[u8], before: usize) -> Result<bool, AllocError> {
    Ok(back(text, before).starts_with(b")") || may_stand(alloc, front(text, before), b"0")?)
}
