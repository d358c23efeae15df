//! Copies of the blocks of a program.
ghost use Rattle.std.specs.Prelude.{◌≡◌, IfOk};
ghost use Rattle.kpn_lang.specs.Syntax.{term_of, statement_of};
ghost use Rattle.kpn_lang.specs.View.{statements_of, blocks_of};

use crate::syntax::{Expr, Stmt};
use std::alloc::{AllocError, Global};

/// A copy of each block.
pub fn copy_blocks(alloc: Global, blocks: &[Vec<Stmt>]) -> Result<Vec<Vec<Stmt>>, AllocError>
    ensures { IfOk result (λ copies. blocks_of copies.items ≡ blocks_of blocks.now) }
{
    let mut copies = Vec::new(alloc);
    for block in blocks {
        copies.push(copy_block(alloc, block.as_slice())?)?;
    }
    Ok(copies)
}

fn copy_block(alloc: Global, block: &[Stmt]) -> Result<Vec<Stmt>, AllocError>
    ensures { IfOk result (λ copy. statements_of copy.items ≡ statements_of block.now) }
{
    let mut copy = Vec::new(alloc);
    for stmt in block {
        copy.push(copy_stmt(alloc, stmt)?)?;
    }
    Ok(copy)
}

fn copy_stmt(alloc: Global, stmt: &Stmt) -> Result<Stmt, AllocError>
    ensures { IfOk result (λ copy. statement_of copy ≡ statement_of stmt.now) }
{
    match stmt {
        Stmt::Assign(variable, expr) => Ok(Stmt::Assign(*variable, copy_expr(alloc, expr)?)),
        Stmt::Read(port, variable) => Ok(Stmt::Read(*port, *variable)),
        Stmt::Write(port, expr) => Ok(Stmt::Write(*port, copy_expr(alloc, expr)?)),
        Stmt::If(test, first, second) => Ok(Stmt::If(copy_expr(alloc, test)?, *first, *second)),
        Stmt::While(test, body) => Ok(Stmt::While(copy_expr(alloc, test)?, *body)),
        Stmt::Set(base, size, index, item) => {
            let index = copy_expr(alloc, index)?;
            let item = copy_expr(alloc, item)?;
            Ok(Stmt::Set(*base, *size, index, item))
        }
    }
}

/// A copy of an expression.
pub fn copy_expr(alloc: Global, expr: &Expr) -> Result<Expr, AllocError>
    ensures { IfOk result (λ copy. term_of copy ≡ term_of expr.now) }
{
    match expr {
        Expr::Num(number) => Ok(Expr::Num(*number)),
        Expr::Var(variable) => Ok(Expr::Var(*variable)),
        Expr::Neg(operand) => {
            let operand = copy_expr(alloc, operand)?;
            Ok(Expr::Neg(Box::new(alloc, operand)?))
        }
        Expr::Not(operand) => {
            let operand = copy_expr(alloc, operand)?;
            Ok(Expr::Not(Box::new(alloc, operand)?))
        }
        Expr::BitNot(operand) => {
            let operand = copy_expr(alloc, operand)?;
            Ok(Expr::BitNot(Box::new(alloc, operand)?))
        }
        Expr::Bin(op, left, right) => {
            let left = copy_expr(alloc, left)?;
            let right = copy_expr(alloc, right)?;
            let left = Box::new(alloc, left)?;
            let right = Box::new(alloc, right)?;
            Ok(Expr::Bin(*op, left, right))
        }
        Expr::Choice(test, first, second) => {
            let test = copy_expr(alloc, test)?;
            let first = copy_expr(alloc, first)?;
            let second = copy_expr(alloc, second)?;
            let test = Box::new(alloc, test)?;
            let first = Box::new(alloc, first)?;
            let second = Box::new(alloc, second)?;
            Ok(Expr::Choice(test, first, second))
        }
        Expr::Cell(base, size, index) => {
            let index = copy_expr(alloc, index)?;
            Ok(Expr::Cell(*base, *size, Box::new(alloc, index)?))
        }
    }
}
