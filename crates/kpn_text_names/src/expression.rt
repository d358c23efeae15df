//! Expressions over the variables and cells of a process, by number.

ghost use Rattle.kpn_lang.specs.Syntax.{term_of};
ghost use Rattle.kpn_text_grammar.specs.View.{term};
ghost use Rattle.kpn_text_names.specs.Fault.{ResolvingGives};
ghost use Rattle.kpn_text_names.specs.Body.{term_in};

use crate::fault::NameFault;
use crate::scope::NameScope;
use kpn_lang::Expr;
use kpn_text_grammar::Expression;
use std::alloc::Global;

/// The expression, by the names of a process. It nests as deep as its tree.
#[tactic(auto, unfolding(crate::specs::Body::term_in, kpn_text_tokens::specs::Results::and_then))]
pub(crate) fn expr<'a>(
    alloc: Global,
    scope: &NameScope<'a>,
    expression: &Expression<'a>,
) -> Result<Expr, NameFault>
    ensures { ResolvingGives term_of result (term_in scope.now (term expression.now)) }
{
    match expression {
        Expression::Number(number) => Ok(Expr::Num(number.value())),
        Expression::Name(name) => Ok(Expr::Var(scope.vars.known(name)?)),
        Expression::Element(name, index) => {
            let row = scope.row(name)?;
            let index = expr(alloc, scope, index)?;
            Ok(Expr::Cell(row.base, row.size, Box::new(alloc, index)?))
        }
        Expression::Negative(inner) => {
            let operand = expr(alloc, scope, inner)?;
            Ok(Expr::Neg(Box::new(alloc, operand)?))
        }
        Expression::Not(inner) => {
            let operand = expr(alloc, scope, inner)?;
            Ok(Expr::Not(Box::new(alloc, operand)?))
        }
        Expression::BitNot(inner) => {
            let operand = expr(alloc, scope, inner)?;
            Ok(Expr::BitNot(Box::new(alloc, operand)?))
        }
        Expression::Binary(operator, left, right) => {
            let left = expr(alloc, scope, left)?;
            let right = expr(alloc, scope, right)?;
            let left = Box::new(alloc, left)?;
            let right = Box::new(alloc, right)?;
            Ok(Expr::Bin(*operator, left, right))
        }
        Expression::Choice(test, first, second) => {
            let test = expr(alloc, scope, test)?;
            let first = expr(alloc, scope, first)?;
            let second = expr(alloc, scope, second)?;
            let test = Box::new(alloc, test)?;
            let first = Box::new(alloc, first)?;
            let second = Box::new(alloc, second)?;
            Ok(Expr::Choice(test, first, second))
        }
    }
}
