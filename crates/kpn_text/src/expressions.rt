//! Expressions: fully parenthesized in language 1, and with as few parentheses as needed in language 2.

ghost use Rattle.std.specs.Prelude.{◌≡◌, OnOk};
ghost use Rattle.kpn_lang.specs.Syntax.{term_of};
ghost use Rattle.kpn_text.specs.Named.{term_named};
ghost use Rattle.kpn_text.specs.Text.{close_text, open_text, term_text};
ghost use Rattle.kpn_text.specs.Text as spec;
ghost use Rattle.kpn_text.specs.Writing.{Writes};

use crate::pieces::{bytes, name, number, row};
use kpn_lang::{Expr, Op};
use kpn_text_grammar::{LOOSEST, OPERAND, left_side, mark_of, name_of, right_side, tightness};
use kpn_text_names::ProcessNames;
use kpn_text_tokens::Language;
use std::alloc::AllocError;

/// An expression over variables, arrays and tables of these names, where one has to bind as tight as `tight`: `x[e]`,
/// `-e`, `!e`, `~e`, `min(e, e)`, `e op e`, `(e op e)`, `(e ? e : e)`.
pub(crate) fn expression(
    out: &mut Vec<u8>,
    language: Language,
    tight: usize,
    names: &ProcessNames,
    expr: &Expr,
) -> Result<(), AllocError>
    ensures { OnOk result (Writes out.old.items out.new.items
        (term_text language tight (term_named names.now (term_of expr.now)))) }
{
    match expr {
        Expr::Num(value) => number(out, value),
        Expr::Var(variable) => name(out, names.vars.as_slice(), *variable),
        Expr::Cell(base, _, index) => {
            row(out, names, *base)?;
            bytes(out, b"[")?;
            expression(out, language, LOOSEST, names, index)?;
            bytes(out, b"]")
        }
        Expr::Neg(operand) => {
            bytes(out, b"-")?;
            expression(out, language, OPERAND, names, operand)
        }
        Expr::Not(operand) => {
            bytes(out, b"!")?;
            expression(out, language, OPERAND, names, operand)
        }
        Expr::BitNot(operand) => {
            bytes(out, b"~")?;
            expression(out, language, OPERAND, names, operand)
        }
        Expr::Bin(op, left, right) => match name_of(*op) {
            Some(called) => {
                bytes(out, called)?;
                bytes(out, b"(")?;
                expression(out, language, LOOSEST, names, left)?;
                bytes(out, b", ")?;
                expression(out, language, LOOSEST, names, right)?;
                bytes(out, b")")
            }
            None => {
                let free = is_free(language, tight, *op);
                open_unless(out, free)?;
                expression(out, language, left_side(*op), names, left)?;
                bytes(out, b" ")?;
                bytes(out, mark_of(*op).spelling())?;
                bytes(out, b" ")?;
                expression(out, language, right_side(*op), names, right)?;
                close_unless(out, free)
            }
        },
        Expr::Choice(test, first, second) => {
            bytes(out, b"(")?;
            expression(out, language, LOOSEST, names, test)?;
            bytes(out, b" ? ")?;
            expression(out, language, LOOSEST, names, first)?;
            bytes(out, b" : ")?;
            expression(out, language, LOOSEST, names, second)?;
            bytes(out, b")")
        }
    }
}

/// Whether an operator needs no parentheses where an expression has to bind as tight as `tight`.
fn is_free(language: Language, tight: usize, operator: Op) -> bool
    ensures { result ≡ spec.needs_no_parentheses language tight operator }
{
    match language {
        Language::One => false,
        Language::Two => tight <= tightness(operator),
    }
}

/// The opening parenthesis of an operator, unless it needs none.
fn open_unless(out: &mut Vec<u8>, is_free: bool) -> Result<(), AllocError>
    ensures { OnOk result (Writes out.old.items out.new.items (open_text is_free)) }
{
    if is_free { Ok(()) } else { bytes(out, b"(") }
}

/// The closing one.
fn close_unless(out: &mut Vec<u8>, is_free: bool) -> Result<(), AllocError>
    ensures { OnOk result (Writes out.old.items out.new.items (close_text is_free)) }
{
    if is_free { Ok(()) } else { bytes(out, b")") }
}
