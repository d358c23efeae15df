//! Equality of the blocks of programs by value, wherever they are in memory.
ghost use Rattle.std.specs.Prelude.{◌≡◌, ◌↔◌, IsTrue};
ghost use Rattle.kpn_lang.specs.Syntax.{term_of, statement_of};
ghost use Rattle.kpn_lang.specs.View.{blocks_of, statements_of};

use crate::syntax::{Expr, Op, Stmt};

/// Whether two programs have the same blocks.
pub fn same_blocks(left: &[Vec<Stmt>], right: &[Vec<Stmt>]) -> bool
    ensures { IsTrue result ↔ (blocks_of left.now ≡ blocks_of right.now) }
{
    left.len() == right.len() && left.iter().zip(right).all(|(x, y)| same_block(x, y))
}

/// Whether two lists of numbers are equal.
pub fn same_values(left: &[i64], right: &[i64]) -> bool
    ensures { IsTrue result ↔ (left.now ≡ right.now) }
{
    left == right
}

fn same_block(left: &[Stmt], right: &[Stmt]) -> bool
    ensures { IsTrue result ↔ (statements_of left.now ≡ statements_of right.now) }
{
    left.len() == right.len() && left.iter().zip(right).all(|(x, y)| same_stmt(x, y))
}

fn same_stmt(left: &Stmt, right: &Stmt) -> bool
    ensures { IsTrue result ↔ (statement_of left.now ≡ statement_of right.now) }
{
    match (left, right) {
        (Stmt::Assign(x, e), Stmt::Assign(y, f)) => x == y && same_expr(e, f),
        (Stmt::Read(i, x), Stmt::Read(j, y)) => i == j && x == y,
        (Stmt::Write(o, e), Stmt::Write(p, f)) => o == p && same_expr(e, f),
        (Stmt::If(e, a, b), Stmt::If(f, c, d)) => a == c && b == d && same_expr(e, f),
        (Stmt::While(e, a), Stmt::While(f, b)) => a == b && same_expr(e, f),
        (Stmt::Set(a, m, i, e), Stmt::Set(b, n, j, f)) => {
            a == b && m == n && same_expr(i, j) && same_expr(e, f)
        }
        _ => false,
    }
}

fn same_expr(left: &Expr, right: &Expr) -> bool
    ensures { IsTrue result ↔ (term_of left.now ≡ term_of right.now) }
{
    match (left, right) {
        (Expr::Num(x), Expr::Num(y)) => x == y,
        (Expr::Var(x), Expr::Var(y)) => x == y,
        (Expr::Neg(x), Expr::Neg(y)) => same_expr(x, y),
        (Expr::Not(x), Expr::Not(y)) => same_expr(x, y),
        (Expr::BitNot(x), Expr::BitNot(y)) => same_expr(x, y),
        (Expr::Bin(op, a, b), Expr::Bin(other, c, d)) => {
            same_op(*op, *other) && same_expr(a, c) && same_expr(b, d)
        }
        (Expr::Choice(a, b, c), Expr::Choice(d, e, f)) => {
            same_expr(a, d) && same_expr(b, e) && same_expr(c, f)
        }
        (Expr::Cell(a, m, i), Expr::Cell(b, n, j)) => a == b && m == n && same_expr(i, j),
        _ => false,
    }
}

fn same_op(left: Op, right: Op) -> bool
    ensures { IsTrue result ↔ (left ≡ right) }
{
    left == right
}
