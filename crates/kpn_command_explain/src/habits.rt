//! Ways of writing that other languages have and that of the text has not.

use crate::choices::{is_taken, may_stand};
use crate::lines::{back, front};
use crate::names::name_at;
use crate::second_habits::habit_of_two;
use crate::sentences::Case;
use crate::spots::{TokenSpot, spot_at, start_before};
use crate::stands::{Stand, stand_of};
use crate::words::{begins_name, is_fraction};
use kpn_text_tokens::{Language, LexFault, Lexeme, language_of, lexemes};
use std::alloc::{AllocError, Global};

/// A way of writing that the language of the text has not.
#[derive(Clone, Copy)]
pub(crate) enum Habit {
    /// An operator stands without parentheses, in language 1.
    Sides,
    /// A comparison beside an operator on bits, in language 2.
    Mixed,
    /// A comparison beside another one, in language 2.
    Chain,
    /// Parentheses stand around something else than an operator with two sides.
    Parentheses,
    /// `>>`
    ShiftRight,
    /// `<<`
    ShiftLeft,
    /// `//` or `/*` in place of `#`.
    Comment,
    /// The same after an expression, where `//` may be meant as a quotient.
    Slashes,
    /// `for`
    For,
    /// `break`
    Break,
    /// `else if`, `elif` and the like.
    ElseIf,
    /// An `if` without `else`, in language 1.
    NoElse,
    /// `++`, `--`, `+=` and the like.
    Changes,
    /// `=` in place of `==`.
    Compares,
    /// `==` in place of `=`.
    Assigns,
    /// `:=`
    Becomes,
    /// `and`
    And,
    /// `or`
    Or,
    /// `not`
    Not,
    /// `<>`
    Differs,
    /// `&` or `|`
    Bits,
    /// `~`
    Complement,
    /// `?` in language 1.
    Question,
    /// A choice without parentheses, in language 2.
    Choice,
    /// `language` at the front, but not `language 2;`.
    Opening,
    /// `true` or `false`
    Truth,
    /// `let`, `var` or `int` before a variable.
    Declares,
    /// `read` in an expression.
    Reads,
    /// `in`, `out` or `par` before each port.
    Ports,
    /// A channel or a sink without `cap`.
    NoCapacity,
    /// A number with a point.
    Fraction,
    /// `'` before a letter.
    Letter,
    /// `(` after a name in an expression.
    Calls,
    /// `const` before a name.
    Constant,
    /// An instance without `;` after its in channels.
    NoOuts,
    /// `^`
    Power,
    /// `**`
    Stars,
    /// `array` before a name, or `[` after one, in language 1.
    Place,
    /// `table` before a name, in language 1.
    Table,
    /// `[` after something else than a name, in language 2.
    Index,
    /// An array or a table after a statement.
    LateRow,
    /// A table after a process.
    LateTable,
    /// An array outside of a process.
    Outside,
    /// The size of an array is 0, or no number.
    Size,
    /// Values for an array.
    Values,
    /// Another way to declare an array or a table.
    Declaration,
    /// An operator after a number that no expression may be.
    Computed,
}

/// The way of writing at the first place of a fault of this kind.
pub(crate) fn habit_of(
    alloc: Global,
    text: &[u8],
    tokens: &[Lexeme<'_>],
    at: usize,
    case: Case,
) -> Result<Option<Habit>, AllocError> {
    let (last, here) = (back(text, start_before(tokens, at)), back(text, at));
    match case {
        Case::Misplaced if closes_reads(tokens, at, here) => Ok(Some(Habit::NoOuts)),
        Case::Misplaced => {
            let stand = stand_of(alloc, text, tokens, at)?;
            Ok(match language_of(text) {
                Language::One => habit_at(stand, last, here),
                Language::Two => habit_of_two(alloc, front(text, at), stand, last, here)?,
            })
        }
        Case::Reserved => Ok(reserved_habit(spot_at(tokens, at), last, here)),
        Case::NoToken if here.starts_with(b".") => point_habit(alloc, text, at),
        Case::NoToken if here.starts_with(b"^") || here.starts_with(b"[") => {
            operand_mark_habit(alloc, front(text, at), here)
        }
        Case::NoToken => byte_habit(alloc, front(text, at), here),
        Case::UnknownVariable => Ok(habit_if(
            is_word(here, b"true") || is_word(here, b"false"),
            Habit::Truth,
        )),
        _ => Ok(None),
    }
}

// Whether the parentheses of an instance close after its in channels.
fn closes_reads(tokens: &[Lexeme<'_>], at: usize, here: &[u8]) -> bool {
    spot_at(tokens, at) == TokenSpot::Reads && here.starts_with(b")")
}

pub(crate) fn habit_if(is_one: bool, habit: Habit) -> Option<Habit> {
    if is_one { Some(habit) } else { None }
}

/// The way of writing in a text of language 1 at a token that may not stand there, with the one before it.
pub(crate) fn habit_at(stand: Stand, last: &[u8], here: &[u8]) -> Option<Habit> {
    match stand {
        Stand::Assigning => assigning_habit(last, here),
        Stand::FirstSide => side_habit(last, here),
        Stand::Whole => whole_habit(last, here),
        Stand::Operand => operand_habit(last),
        Stand::Statement if begins_comment(here) => Some(Habit::Comment),
        Stand::Statement => habit_if(changes(here), Habit::Changes),
        Stand::BeforeElse => Some(else_habit(here)),
        Stand::BeforeCapacity if begins_comment(here) => Some(Habit::Comment),
        Stand::BeforeCapacity => Some(Habit::NoCapacity),
        Stand::Declaring => None,
        Stand::BehindRead | Stand::Elsewhere => elsewhere_habit(last, here),
    }
}

// At another place.
fn elsewhere_habit(last: &[u8], here: &[u8]) -> Option<Habit> {
    if begins_comment(here) {
        Some(Habit::Comment)
    } else if is_word(here, b"language") {
        Some(Habit::Opening)
    } else if is_word(last, b"else") && is_word(here, b"if") {
        Some(Habit::ElseIf)
    } else if is_word(last, b"const") || is_word(here, b"const") {
        Some(Habit::Constant)
    } else {
        // At the front of the text no token stands before.
        habit_if(
            is_word(here, b"table") && last.len() == here.len(),
            Habit::Table,
        )
    }
}

// `array` or `table`.
fn row_habit(text: &[u8]) -> Option<Habit> {
    if is_word(text, b"array") {
        Some(Habit::Place)
    } else {
        habit_if(is_word(text, b"table"), Habit::Table)
    }
}

pub(crate) fn is_else_if(text: &[u8]) -> bool {
    is_word(text, b"elif") || is_word(text, b"elsif") || is_word(text, b"elseif")
}

pub(crate) fn begins_shift(text: &[u8]) -> bool {
    begins_any(text, &[b"<<", b">>"])
}

/// Whether the first word of a text is this one.
pub(crate) fn is_word(text: &[u8], word: &[u8]) -> bool {
    name_at(text, 0) == word
}

/// Whether a text begins with one of these marks.
pub(crate) fn begins_any(text: &[u8], marks: &[&[u8]]) -> bool {
    marks.iter().any(|mark| text.starts_with(*mark))
}

pub(crate) fn begins_comment(text: &[u8]) -> bool {
    begins_any(text, &[b"//", b"/*"])
}

/// `++`, `--`, or `=` after an operator of sums and products.
pub(crate) fn changes(text: &[u8]) -> bool {
    begins_any(text, &[b"++", b"--", b"+=", b"-=", b"*=", b"/=", b"%="])
}

fn is_operator(text: &[u8]) -> bool {
    begins_any(
        text,
        &[
            b"+", b"-", b"*", b"/", b"%", b"<", b">", b"==", b"!=", b"&&", b"||",
        ],
    )
}

/// `=`, unless it is a part of `=>` or `=<`.
pub(crate) fn assigns(text: &[u8]) -> bool {
    text.starts_with(b"=") && !begins_any(text, &[b"=>", b"=<"])
}

fn shift(text: &[u8]) -> Option<Habit> {
    if text.starts_with(b">>") {
        Some(Habit::ShiftRight)
    } else {
        habit_if(text.starts_with(b"<<"), Habit::ShiftLeft)
    }
}

/// After the name of a variable that begins a statement.
pub(crate) fn assigning_habit(last: &[u8], here: &[u8]) -> Option<Habit> {
    let declares = is_declaring(last);
    if changes(here) {
        Some(Habit::Changes)
    } else if here.starts_with(b"==") {
        Some(Habit::Assigns)
    } else if is_word(last, b"for") {
        Some(Habit::For)
    } else if is_word(last, b"break") {
        Some(Habit::Break)
    } else if declares && !name_at(here, 0).is_empty() {
        Some(Habit::Declares)
    } else if row_habit(last).is_some() && !name_at(here, 0).is_empty() {
        row_habit(last)
    } else {
        shift(here)
    }
}

/// `let` and the like, which stands before a variable that is declared elsewhere.
pub(crate) fn is_declaring(text: &[u8]) -> bool {
    is_word(text, b"let")
        || is_word(text, b"var")
        || is_word(text, b"int")
        || is_word(text, b"const")
}

/// `(` after a name.
pub(crate) fn calls(last: &[u8], here: &[u8]) -> bool {
    here.starts_with(b"(") && begins_name(last)
}

/// `and`, `or`, or an operand after `not`.
pub(crate) fn word_habit(last: &[u8], here: &[u8]) -> Option<Habit> {
    if is_word(here, b"and") {
        Some(Habit::And)
    } else if is_word(here, b"or") {
        Some(Habit::Or)
    } else {
        habit_if(is_word(last, b"not"), Habit::Not)
    }
}

// Between parentheses, after the first side of an operator.
fn side_habit(last: &[u8], here: &[u8]) -> Option<Habit> {
    if here.starts_with(b")") {
        Some(Habit::Parentheses)
    } else if calls(last, here) {
        Some(Habit::Calls)
    } else if assigns(here) {
        Some(Habit::Compares)
    } else {
        word_habit(last, here)
    }
}

// After a whole expression.
fn whole_habit(last: &[u8], here: &[u8]) -> Option<Habit> {
    let shifts = shift(here);
    if shifts.is_some() {
        shifts
    } else if changes(here) {
        Some(Habit::Changes)
    } else if begins_comment(here) {
        Some(Habit::Slashes)
    } else if here.starts_with(b"**") {
        Some(Habit::Stars)
    } else if is_operator(here) {
        Some(Habit::Sides)
    } else if calls(last, here) {
        Some(Habit::Calls)
    } else if assigns(here) {
        Some(Habit::Compares)
    } else {
        word_habit(last, here)
    }
}

/// Where an operand is to begin.
pub(crate) fn operand_habit(last: &[u8]) -> Option<Habit> {
    if last.starts_with(b"//") {
        Some(Habit::Slashes)
    } else if last.starts_with(b"<>") {
        Some(Habit::Differs)
    } else if last.starts_with(b"**") {
        Some(Habit::Stars)
    } else {
        shift(last)
    }
}

// After the first block of an `if`.
fn else_habit(here: &[u8]) -> Habit {
    if begins_comment(here) {
        Habit::Comment
    } else if is_else_if(here) {
        Habit::ElseIf
    } else {
        Habit::NoElse
    }
}

// A word of the language, where a name is meant. After a comma `in`, `out` and `par` are meant to stand before each
// port.
fn reserved_habit(spot: TokenSpot, last: &[u8], here: &[u8]) -> Option<Habit> {
    let begins_ports = is_word(here, b"in") || is_word(here, b"out") || is_word(here, b"par");
    match spot {
        TokenSpot::Port => habit_if(last.starts_with(b",") && begins_ports, Habit::Ports),
        TokenSpot::Variable => habit_if(is_word(here, b"read"), Habit::Reads),
        _ => None,
    }
}

// A point: the last token before it may be a number, if one may stand there. After `for NAME in NUMBER` two of them
// begin a range.
fn point_habit(alloc: Global, text: &[u8], at: usize) -> Result<Option<Habit>, AllocError> {
    let tokens = match lexemes(alloc, language_of(text), front(text, at)) {
        Ok(tokens) => tokens,
        Err(LexFault::NoMemory) => return Err(AllocError),
        Err(_) => return Ok(None),
    };
    let before = start_before(tokens.as_slice(), at);
    if back(text, at).starts_with(b"..") && begins_for(alloc, text, tokens.as_slice(), before)? {
        return Ok(Some(Habit::For));
    }
    let is_number = is_fraction(back(text, before)) && is_taken(alloc, front(text, at), before)?;
    Ok(habit_if(is_number, Habit::Fraction))
}

// Whether `for NAME in` stands before a token, where a loop may begin.
fn begins_for(
    alloc: Global,
    text: &[u8],
    tokens: &[Lexeme<'_>],
    at: usize,
) -> Result<bool, AllocError> {
    let within = start_before(tokens, at);
    let begin = start_before(tokens, start_before(tokens, within));
    if !is_word(back(text, within), b"in") || !is_word(back(text, begin), b"for") {
        return Ok(false);
    }
    may_stand(alloc, front(text, begin), b"while")
}

// `^` after an operand, or `[` after the name of a variable.
fn operand_mark_habit(
    alloc: Global,
    before: &[u8],
    here: &[u8],
) -> Result<Option<Habit>, AllocError> {
    let is_operand = ends_operand(alloc, before)?;
    if here.starts_with(b"^") {
        return Ok(habit_if(is_operand, Habit::Power));
    }
    let is_place = is_operand || may_stand(alloc, before, b"=")?;
    Ok(habit_if(is_place, Habit::Place))
}

// Whether a text ends with a whole operand: an operator with two sides may follow, or the last token is a name or a
// number, and an expression between parentheses might stand in its place.
fn ends_operand(alloc: Global, text: &[u8]) -> Result<bool, AllocError> {
    if may_stand(alloc, text, b"*")? {
        return Ok(true);
    }
    let last = match lexemes(alloc, language_of(text), text) {
        Ok(tokens) => start_before(tokens.as_slice(), text.len()),
        Err(LexFault::NoMemory) => return Err(AllocError),
        Err(_) => return Ok(false),
    };
    if name_at(text, last).is_empty() {
        return Ok(false);
    }
    may_stand(alloc, front(text, last), b"(")
}

// Another byte than a point with which no token begins, if the mark that the advice names may stand there.
fn byte_habit(alloc: Global, front: &[u8], here: &[u8]) -> Result<Option<Habit>, AllocError> {
    if here.starts_with(b":=") {
        Ok(habit_if(may_stand(alloc, front, b"=")?, Habit::Becomes))
    } else if begins_any(here, &[b"&", b"|"]) {
        Ok(habit_if(may_stand(alloc, front, b"&&")?, Habit::Bits))
    } else if here.starts_with(b"~") {
        Ok(habit_if(may_stand(alloc, front, b"!")?, Habit::Complement))
    } else if here.starts_with(b"?") {
        Ok(habit_if(ends_operand(alloc, front)?, Habit::Question))
    } else if here.starts_with(b"'") {
        Ok(habit_if(may_stand(alloc, front, b"0")?, Habit::Letter))
    } else {
        Ok(None)
    }
}
