//! The operators of the process language on operands.
ghost use Rattle.std.specs.Prelude.{IfOk};
ghost use Rattle.kpn_lang.specs.Syntax.{term_of};
ghost use Rattle.check_language.specs.Number.{IsNumber};

use anyhow::{Result, bail};
use kpn_lang::{Expr, Fault, Op, eval, eval_in};
use std::alloc::Global;

/// The operator that is spelled so.
fn operator(word: &str) -> Option<Op> {
    match word {
        "+" => Some(Op::Add),
        "-" => Some(Op::Sub),
        "*" => Some(Op::Mul),
        "/" => Some(Op::Div),
        "%" => Some(Op::Rem),
        "<" => Some(Op::Lt),
        "<=" => Some(Op::Le),
        ">" => Some(Op::Gt),
        ">=" => Some(Op::Ge),
        "==" => Some(Op::Eq),
        "!=" => Some(Op::Ne),
        "&&" => Some(Op::And),
        "||" => Some(Op::Or),
        "&" => Some(Op::BitAnd),
        "|" => Some(Op::BitOr),
        "^" => Some(Op::BitXor),
        "<<" => Some(Op::Shl),
        ">>" => Some(Op::Shr),
        "min" => Some(Op::Min),
        "max" => Some(Op::Max),
        _ => None,
    }
}

fn number(word: &str) -> Result<i64> {
    let Ok(number) = word.parse::<i64>() else {
        bail!("an operand is a whole number");
    };
    Ok(number)
}

fn operand(alloc: Global, word: &str) -> Result<Box<Expr>>
    ensures { IfOk result (λ found. IsNumber (term_of found.value)) }
{
    let number = number(word)?;
    Ok(Box::new(alloc, Expr::Num(number))?)
}

/// The value of a cell, if these are the cells.
fn cell(alloc: Global, index: &str, words: &[&str]) -> Result<std::result::Result<i64, Fault>> {
    let mut cells = Vec::new(alloc);
    for word in words {
        cells.push(number(word)?)?;
    }
    let expr = Expr::Cell(0, cells.len(), operand(alloc, index)?);
    Ok(eval_in(&expr, &[], &cells))
}

/// The value of the expression on a line.
pub(crate) fn answer(alloc: Global, line: &str) -> Result<std::result::Result<i64, Fault>> {
    let words: Vec<&str> = line.split_whitespace().collect(alloc)?;
    match words.as_slice() {
        ["-", word] => Ok(eval(&Expr::Neg(operand(alloc, word)?), &[])),
        ["!", word] => Ok(eval(&Expr::Not(operand(alloc, word)?), &[])),
        ["~", word] => Ok(eval(&Expr::BitNot(operand(alloc, word)?), &[])),
        [index, "in", values @ ..] => cell(alloc, index, values),
        [left, word, right] => {
            let Some(op) = operator(word) else {
                bail!("no such operator");
            };
            Ok(eval(
                &Expr::Bin(op, operand(alloc, left)?, operand(alloc, right)?),
                &[],
            ))
        }
        [test, "?", first, ":", second] => Ok(eval(
            &Expr::Choice(
                operand(alloc, test)?,
                operand(alloc, first)?,
                operand(alloc, second)?,
            ),
            &[],
        )),
        _ => bail!("a line is an operator with its operands"),
    }
}
