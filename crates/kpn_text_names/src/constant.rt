//! The value of an expression without names.

ghost use Rattle.std.specs.Prelude.{◌≡◌, IfOk};
ghost use Rattle.kpn_text_grammar.specs.View.{term};
ghost use Rattle.kpn_text_names.specs.Constant as spec;

use crate::expression::expr;
use crate::fault::NameFault;
use crate::scope::NameScope;
use kpn_lang::{Expr, eval};
use kpn_text_grammar::Expression;
use std::alloc::{AllocError, Global};

/// The value of an expression in which no name is known.
fn value(expr: &Expr) -> Option<i64>
    requires { spec.HasNoNames expr.now }
    ensures { result ≡ spec.computed expr.now }
{
    match eval(expr, &[]) {
        Ok(value) => Some(value),
        Err(_) => None,
    }
}

/// The value of an expression, if it has no name and no fault.
pub fn constant_value(alloc: Global, expression: &Expression<'_>) -> Result<Option<i64>, AllocError>
    ensures { IfOk result (λ v. v ≡ spec.constant_value (term expression.now)) }
{
    let scope = NameScope::new(alloc);
    match expr(alloc, &scope, expression) {
        Ok(closed) => Ok(value(&closed)),
        Err(NameFault::NoMemory) => Err(AllocError),
        Err(NameFault::UnknownName(_)) => Ok(None),
        Err(NameFault::DoubleName(_)) => Ok(None),
    }
}
