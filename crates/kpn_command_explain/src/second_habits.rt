//! Ways of writing that other languages have and language 2 has not.

use crate::choices::may_stand;
use crate::habits::{
    Habit, assigning_habit, assigns, begins_any, begins_comment, begins_shift, calls, changes,
    habit_at, habit_if, is_declaring, is_else_if, is_word, operand_habit, word_habit,
};
use crate::stands::Stand;
use crate::words::indexes_next;
use std::alloc::{AllocError, Global};

/// The way of writing in a text of language 2 at a token that may not stand there, with the one before it. That
/// language has shifts, operators on bits, choices and precedence, and its `if` needs no `else`. The token before, and
/// the text before the place, end in the same byte.
pub(crate) fn habit_of_two(
    alloc: Global,
    front: &[u8],
    stand: Stand,
    last: &[u8],
    here: &[u8],
) -> Result<Option<Habit>, AllocError> {
    match stand {
        Stand::Assigning => Ok(assigning_habit_of_two(last, here)),
        Stand::FirstSide => side_habit_of_two(alloc, front, last, here),
        Stand::Operand => Ok(operand_habit_of_two(last, here)),
        Stand::Statement | Stand::BeforeElse => Ok(statement_habit_of_two(here)),
        Stand::Declaring => declaring_habit(alloc, front, last, here),
        Stand::Elsewhere => elsewhere_habit_of_two(alloc, front, last, here),
        _ => Ok(habit_at(stand, last, here)),
    }
}

// After the name of a variable that begins a statement.
fn assigning_habit_of_two(last: &[u8], here: &[u8]) -> Option<Habit> {
    if here.starts_with(b"[") {
        Some(Habit::Index)
    } else if is_declaring(last) && indexes_next(here) {
        Some(Habit::Declaration)
    } else if begins_any(here, &[b"<<=", b">>=", b"&=", b"|=", b"^="]) {
        Some(Habit::Changes)
    } else if begins_shift(here) {
        None
    } else if is_else_if(last) {
        Some(Habit::ElseIf)
    } else {
        assigning_habit(last, here)
    }
}

// After an operand.
fn side_habit_of_two(
    alloc: Global,
    front: &[u8],
    last: &[u8],
    here: &[u8],
) -> Result<Option<Habit>, AllocError> {
    if begins_any(here, &[b"<", b">", b"==", b"!="]) {
        // Bits may stand beside bits, and not after a comparison.
        let is_mixed = may_stand(alloc, front, b"&")?;
        Ok(Some(if is_mixed { Habit::Mixed } else { Habit::Chain }))
    } else if begins_any(here, &[b"&", b"|", b"^"]) {
        Ok(Some(Habit::Mixed))
    } else if here.starts_with(b"?") {
        Ok(Some(Habit::Choice))
    } else if here.starts_with(b"[") {
        Ok(Some(Habit::Index))
    } else if calls(last, here) {
        Ok(Some(Habit::Calls))
    } else if assigns(here) {
        Ok(Some(Habit::Compares))
    } else {
        Ok(word_habit(last, here))
    }
}

// Where an operand is to begin.
fn operand_habit_of_two(last: &[u8], here: &[u8]) -> Option<Habit> {
    if assigns(last) && begins_any(here, &[b"[", b"{"]) {
        Some(Habit::Declaration)
    } else if changes(last) {
        Some(Habit::Changes)
    } else if begins_comment(last) {
        Some(Habit::Slashes)
    } else if begins_shift(last) {
        None
    } else {
        operand_habit(last)
    }
}

// Where a statement is to begin.
fn statement_habit_of_two(here: &[u8]) -> Option<Habit> {
    if is_word(here, b"array") || is_word(here, b"table") {
        Some(Habit::LateRow)
    } else if begins_comment(here) {
        Some(Habit::Comment)
    } else {
        habit_if(changes(here), Habit::Changes)
    }
}

// Within the declaration of an array or a table.
fn declaring_habit(
    alloc: Global,
    front: &[u8],
    last: &[u8],
    here: &[u8],
) -> Result<Option<Habit>, AllocError> {
    let is_size = last.starts_with(b"[") && may_stand(alloc, front, b"1")?;
    let habit = if begins_comment(here) {
        Habit::Comment
    } else if is_size {
        Habit::Size
    } else if computes(here) {
        Habit::Computed
    } else if last.starts_with(b"]") && here.starts_with(b"=") {
        Habit::Values
    } else {
        Habit::Declaration
    };
    Ok(Some(habit))
}

// At another place. Where `in` may stand, `=` is meant for a loop.
fn elsewhere_habit_of_two(
    alloc: Global,
    front: &[u8],
    last: &[u8],
    here: &[u8],
) -> Result<Option<Habit>, AllocError> {
    let is_loop = assigns(here) && may_stand(alloc, front, b"in")?;
    Ok(if is_loop {
        Some(Habit::For)
    } else if is_word(here, b"table") {
        Some(Habit::LateTable)
    } else if is_word(here, b"array") {
        Some(Habit::Outside)
    } else if computes(here) && !begins_comment(here) {
        Some(Habit::Computed)
    } else {
        habit_at(Stand::Elsewhere, last, here)
    })
}

// An operator with two sides.
fn computes(here: &[u8]) -> bool {
    begins_shift(here) || begins_any(here, &[b"+", b"-", b"*", b"/", b"%", b"&", b"|", b"^"])
}
