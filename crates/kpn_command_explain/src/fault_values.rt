//! An expression as it is written in language 2, where it begins, and the values of the names in it.

use crate::fault_frame::FaultFrame;
use itoa::Buffer;
use kpn_text_grammar::{Expression, Identifier, mark_of, name_of};
use std::alloc::{AllocError, Global};

/// Adds an expression. One with an operator that stands in another one has parentheses.
pub(crate) fn push_expression(
    out: &mut Vec<u8>,
    tree: &Expression<'_>,
    is_inner: bool,
) -> Result<(), AllocError> {
    match tree {
        Expression::Number(number) => push_decimal(out, number.value()),
        Expression::Name(name) => out.extend_from_slice(name.bytes),
        Expression::Element(name, index) => {
            out.extend_from_slice(name.bytes)?;
            out.push(b'[')?;
            push_expression(out, index, false)?;
            push_if(out, true, b']')
        }
        Expression::Negative(inner) => {
            out.push(b'-')?;
            push_expression(out, inner, true)
        }
        Expression::Not(inner) => {
            out.push(b'!')?;
            push_expression(out, inner, true)
        }
        Expression::BitNot(inner) => {
            out.push(b'~')?;
            push_expression(out, inner, true)
        }
        Expression::Binary(operator, left, right) => match name_of(*operator) {
            Some(called) => {
                out.extend_from_slice(called)?;
                out.push(b'(')?;
                push_expression(out, left, false)?;
                out.extend_from_slice(b", ")?;
                push_expression(out, right, false)?;
                push_if(out, true, b')')
            }
            None => {
                push_if(out, is_inner, b'(')?;
                push_expression(out, left, true)?;
                out.push(b' ')?;
                out.extend_from_slice(mark_of(*operator).spelling())?;
                out.push(b' ')?;
                push_expression(out, right, true)?;
                push_if(out, is_inner, b')')
            }
        },
        Expression::Choice(test, first, second) => {
            out.push(b'(')?;
            push_expression(out, test, true)?;
            out.extend_from_slice(b" ? ")?;
            push_expression(out, first, true)?;
            out.extend_from_slice(b" : ")?;
            push_expression(out, second, true)?;
            push_if(out, true, b')')
        }
    }
}

fn push_if(out: &mut Vec<u8>, holds: bool, byte: u8) -> Result<(), AllocError> {
    if holds {
        out.push(byte)?;
    }
    Ok(())
}

fn push_decimal(out: &mut Vec<u8>, number: i64) -> Result<(), AllocError> {
    let mut buffer = Buffer::new();
    out.extend_from_slice(buffer.format(number).as_bytes())
}

/// The byte at which the first name in an expression begins, if it has one.
pub(crate) fn start_of(tree: &Expression<'_>) -> Option<usize> {
    match tree {
        Expression::Number(_) => None,
        Expression::Name(name) | Expression::Element(name, _) => Some(name.start),
        Expression::Negative(inner) | Expression::Not(inner) | Expression::BitNot(inner) => {
            start_of(inner)
        }
        Expression::Binary(_, left, right) => earlier(start_of(left), start_of(right)),
        Expression::Choice(test, first, second) => {
            earlier(start_of(test), earlier(start_of(first), start_of(second)))
        }
    }
}

// A start, or else a later one.
fn earlier(start: Option<usize>, behind: Option<usize>) -> Option<usize> {
    if start.is_some() { start } else { behind }
}

/// An expression between backticks, and the values of the names and the cells in it. Of a cell that is not there they
/// have its number, and how many there are.
pub(crate) fn valued(
    alloc: Global,
    frame: &FaultFrame<'_>,
    tree: &Expression<'_>,
) -> Result<Vec<u8>, AllocError> {
    let mut notes = Vec::new(alloc);
    add_notes(alloc, &mut notes, frame, tree)?;
    let mut out = Vec::new(alloc);
    out.push(b'`')?;
    push_expression(&mut out, tree, false)?;
    out.push(b'`')?;
    push_notes(&mut out, notes.as_slice())?;
    Ok(out)
}

/// The same of a cell that is set and not there.
pub(crate) fn missing(
    alloc: Global,
    frame: &FaultFrame<'_>,
    name: &Identifier<'_>,
    index: &Expression<'_>,
) -> Result<Vec<u8>, AllocError> {
    let mut notes = Vec::new(alloc);
    add_notes(alloc, &mut notes, frame, index)?;
    add_missing(alloc, &mut notes, frame, name, index)?;
    let mut out = Vec::new(alloc);
    out.push(b'`')?;
    out.extend_from_slice(name.bytes)?;
    out.push(b'[')?;
    push_expression(&mut out, index, false)?;
    out.extend_from_slice(b"]`")?;
    push_notes(&mut out, notes.as_slice())?;
    Ok(out)
}

fn push_notes(out: &mut Vec<u8>, notes: &[Vec<u8>]) -> Result<(), AllocError> {
    let mut before: &[u8] = b", where ";
    for note in notes {
        out.extend_from_slice(before)?;
        out.extend_from_slice(note)?;
        before = b", ";
    }
    Ok(())
}

fn add_notes(
    alloc: Global,
    notes: &mut Vec<Vec<u8>>,
    frame: &FaultFrame<'_>,
    tree: &Expression<'_>,
) -> Result<(), AllocError> {
    match tree {
        Expression::Number(_) => Ok(()),
        Expression::Name(_) => add_value(alloc, notes, frame, tree),
        Expression::Element(name, index) => {
            add_notes(alloc, notes, frame, index)?;
            if frame.value(tree).is_ok() {
                return add_value(alloc, notes, frame, tree);
            }
            add_missing(alloc, notes, frame, name, index)
        }
        Expression::Negative(inner) | Expression::Not(inner) | Expression::BitNot(inner) => {
            add_notes(alloc, notes, frame, inner)
        }
        Expression::Binary(_, left, right) => {
            add_notes(alloc, notes, frame, left)?;
            add_notes(alloc, notes, frame, right)
        }
        Expression::Choice(test, first, second) => {
            add_notes(alloc, notes, frame, test)?;
            add_notes(alloc, notes, frame, first)?;
            add_notes(alloc, notes, frame, second)
        }
    }
}

// Adds the value of an expression that is no number, if it has one.
fn add_value(
    alloc: Global,
    notes: &mut Vec<Vec<u8>>,
    frame: &FaultFrame<'_>,
    tree: &Expression<'_>,
) -> Result<(), AllocError> {
    let Ok(value) = frame.value(tree) else {
        return Ok(());
    };
    if matches!(tree, Expression::Number(_)) {
        return Ok(());
    }
    let mut note = Vec::new(alloc);
    push_expression(&mut note, tree, false)?;
    note.extend_from_slice(b" = ")?;
    push_decimal(&mut note, value)?;
    add_new(notes, note)
}

// Adds the number of a cell that is not there, and how many cells its array or table has.
fn add_missing(
    alloc: Global,
    notes: &mut Vec<Vec<u8>>,
    frame: &FaultFrame<'_>,
    name: &Identifier<'_>,
    index: &Expression<'_>,
) -> Result<(), AllocError> {
    add_value(alloc, notes, frame, index)?;
    let mut size = Buffer::new();
    let mut note = Vec::new(alloc);
    note.extend_from_slice(name.bytes)?;
    note.extend_from_slice(b" has ")?;
    note.extend_from_slice(size.format(frame.cells(name.bytes)).as_bytes())?;
    note.extend_from_slice(b" cells")?;
    add_new(notes, note)
}

// Adds a note, if it is not there.
fn add_new(notes: &mut Vec<Vec<u8>>, note: Vec<u8>) -> Result<(), AllocError> {
    if notes
        .iter()
        .any(|earlier| earlier.as_slice() == note.as_slice())
    {
        return Ok(());
    }
    notes.push(note)?;
    Ok(())
}
