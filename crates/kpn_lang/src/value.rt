//! The value of an expression.
ghost use Rattle.std.specs.Prelude.{◌≡◌, ◌+◌, ◌<◌, ◌^◌, ◌*ℤ◌, ◌-ℤ◌, neg_ℤ, pos, false, ◌++◌, length, IfErr, IfNone, IfOk, IfSome, IsTrue};
ghost use Rattle.kpn_lang.specs.declared.syntax.Op.TheVariants.{Add, Sub, Mul, Div, Rem, Shl, Shr};
ghost use Rattle.kpn_lang.specs.declared.value.Fault.TheVariants.{Index};
ghost use Rattle.kpn_lang.specs.Syntax.{term_of, has_cells, names_below, names_within};
ghost use Rattle.kpn_lang.specs.Value.{value, in_range, is_count, is_index, result_of, truth_of};

use crate::syntax::{Expr, Op};

/// Why an expression has no value.
#[derive(Clone, Copy, Debug, PartialEq, Eq)]
pub enum Fault {
    /// The exact value is below -2^63 or above 2^63 - 1.
    Overflow,
    /// A division or a remainder by 0.
    ZeroDivisor,
    /// A cell that is not there.
    Index,
    /// A count of a shift that is below 0 or above 63.
    Shift,
}

#[inline(always)]
pub(crate) fn truth(holds: bool) -> i64
    ensures { result ≡ truth_of holds }
{
    if holds { 1 } else { 0 }
}

#[inline(always)]
pub(crate) fn sum(left: i64, right: i64) -> Result<i64, Fault>
    ensures { result ≡ result_of Add left right }
{
    left.checked_add(right).ok_or(Fault::Overflow)
}

#[inline(always)]
pub(crate) fn difference(left: i64, right: i64) -> Result<i64, Fault>
    ensures { result ≡ result_of Sub left right }
{
    left.checked_sub(right).ok_or(Fault::Overflow)
}

#[inline(always)]
pub(crate) fn product(left: i64, right: i64) -> Result<i64, Fault>
    ensures { result ≡ result_of Mul left right }
{
    left.checked_mul(right).ok_or(Fault::Overflow)
}

#[inline(always)]
pub(crate) fn quotient(left: i64, right: i64) -> Result<i64, Fault>
    ensures { result ≡ result_of Div left right }
{
    if right == 0 {
        return Err(Fault::ZeroDivisor);
    }
    left.checked_div(right).ok_or(Fault::Overflow)
}

#[inline(always)]
pub(crate) fn remainder(left: i64, right: i64) -> Result<i64, Fault>
    ensures { result ≡ result_of Rem left right }
{
    if right == 0 {
        return Err(Fault::ZeroDivisor);
    }
    left.checked_rem(right).ok_or(Fault::Overflow)
}

/// The number with all its bits turned.
#[inline(always)]
pub(crate) fn complement(value: i64) -> i64
    ensures { result ≡ neg_ℤ value -ℤ pos 1 }
{
    !value
}

/// The product with a power of 2.
pub(crate) fn shifted_left(left: i64, count: i64) -> Result<i64, Fault>
    ensures { result ≡ result_of Shl left count }
{
    match count_of(count) {
        Some(63) => most_shifted(left),
        Some(count) => product(left, power_of_two(count)),
        None => Err(Fault::Shift),
    }
}

/// The quotient by a power of 2, rounded down.
pub(crate) fn shifted_right(left: i64, count: i64) -> Result<i64, Fault>
    ensures { result ≡ result_of Shr left count }
{
    match count_of(count) {
        Some(count) => Ok(left >> count),
        None => Err(Fault::Shift),
    }
}

/// The count of a shift that a number is, if it is one.
fn count_of(number: i64) -> Option<u32>
    ensures some { IfSome result (λ count. (number ≡ pos count) × (count < 64)) }
    ensures none { IfNone result (is_count number ≡ false) }
{
    match u32::try_from(number) {
        Ok(count) if count < 64 => Some(count),
        _ => None,
    }
}

// 2^63 is out of range itself.
fn most_shifted(left: i64) -> Result<i64, Fault>
    ensures { result ≡ in_range (left *ℤ pos (2 ^ 63)) }
{
    match left {
        0 => Ok(0),
        -1 => Ok(i64::MIN),
        _ => Err(Fault::Overflow),
    }
}

fn power_of_two(exponent: u32) -> i64
    requires { exponent < 63 }
    ensures { result ≡ pos (2 ^ exponent) }
{
    1 << exponent
}

#[inline(always)]
pub(crate) fn apply(op: Op, left: i64, right: i64) -> Result<i64, Fault>
    ensures { result ≡ result_of op left right }
{
    match op {
        Op::Add => sum(left, right),
        Op::Sub => difference(left, right),
        Op::Mul => product(left, right),
        Op::Div => quotient(left, right),
        Op::Rem => remainder(left, right),
        Op::Lt => Ok(truth(left < right)),
        Op::Le => Ok(truth(left <= right)),
        Op::Gt => Ok(truth(left > right)),
        Op::Ge => Ok(truth(left >= right)),
        Op::Eq => Ok(truth(left == right)),
        Op::Ne => Ok(truth(left != right)),
        Op::And => Ok(truth(left != 0 && right != 0)),
        Op::Or => Ok(truth(left != 0 || right != 0)),
        Op::BitAnd => Ok(left & right),
        Op::BitOr => Ok(left | right),
        Op::BitXor => Ok(left ^ right),
        Op::Shl => shifted_left(left, right),
        Op::Shr => shifted_right(left, right),
        Op::Min => Ok(left.min(right)),
        Op::Max => Ok(left.max(right)),
    }
}

/// The index of a cell that a number is, if there are this many cells.
#[inline(always)]
pub fn index_in(size: usize, number: i64) -> Result<usize, Fault>
    ensures ok { IfOk result (λ index. (number ≡ pos index) × (index < size)) }
    ensures err { IfErr result (λ fault. (fault ≡ Index) × (is_index size number ≡ false)) }
{
    if number >= 0 && (number as usize) < size {
        return Ok(number as usize);
    }
    Err(Fault::Index)
}

/// The value of an expression without cells if the variables have these values. The left side comes first, and the
/// first fault is the fault; `&&` and `||` leave out a right side that cannot matter, and a choice the expression that
/// it does not choose.
pub fn eval(expr: &Expr, variables: &[i64]) -> Result<i64, Fault>
    requires { IsTrue (names_below (length variables.now) (term_of expr.now)) }
    ensures { result ≡ value (term_of expr.now) variables.now }
{
    eval_in(expr, variables, &[])
}

/// The value of an expression if the variables, and the cells after them, have these values.
pub fn eval_in(expr: &Expr, variables: &[i64], cells: &[i64]) -> Result<i64, Fault>
    requires { let vars = length variables.now in
        IsTrue (names_within vars (vars + length cells.now) (term_of expr.now)) }
    ensures { result ≡ value (term_of expr.now) (variables.now ++ cells.now) }
{
    match expr {
        Expr::Num(number) => Ok(*number),
        Expr::Var(variable) => Ok(variables[*variable]),
        Expr::Neg(operand) => eval_in(operand, variables, cells)?
            .checked_neg()
            .ok_or(Fault::Overflow),
        Expr::Not(operand) => Ok(truth(eval_in(operand, variables, cells)? == 0)),
        Expr::BitNot(operand) => Ok(complement(eval_in(operand, variables, cells)?)),
        Expr::Bin(op, left, right) => {
            let left = eval_in(left, variables, cells)?;
            match op {
                Op::And if left == 0 => Ok(0),
                Op::Or if left != 0 => Ok(1),
                _ => apply(*op, left, eval_in(right, variables, cells)?),
            }
        }
        Expr::Choice(test, first, second) => {
            if eval_in(test, variables, cells)? != 0 {
                eval_in(first, variables, cells)
            } else {
                eval_in(second, variables, cells)
            }
        }
        Expr::Cell(base, size, index) => {
            let number = eval_in(index, variables, cells)?;
            let place = index_in(*size, number)?;
            Ok(cells[*base - variables.len() + place])
        }
    }
}

/// Whether an expression names a cell.
pub(crate) fn has_cells(expr: &Expr) -> bool
    ensures { result ≡ has_cells (term_of expr.now) }
{
    match expr {
        Expr::Num(_) | Expr::Var(_) => false,
        Expr::Neg(operand) | Expr::Not(operand) | Expr::BitNot(operand) => has_cells(operand),
        Expr::Bin(_, left, right) => has_cells(left) || has_cells(right),
        Expr::Choice(test, first, second) => {
            has_cells(test) || has_cells(first) || has_cells(second)
        }
        Expr::Cell(_, _, _) => true,
    }
}
