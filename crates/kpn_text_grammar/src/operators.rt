//! The operators of the process language and the marks and names that stand for them: one table, for reading and for
//! printing.

ghost use Rattle.std.specs.Prelude.{◌≡◌, IfNone, IfSome, None, Some};
ghost use Rattle.kpn_text_grammar.specs.Operators.{operator_mark, operator_name};
ghost use Rattle.kpn_text_grammar.specs.Operators as table;

use kpn_lang::Op;
use kpn_text_tokens::{Language, Mark};

/// Those that stand between their sides.
const BETWEEN: [Op; 18] = [
    Op::Add,
    Op::Sub,
    Op::Mul,
    Op::Div,
    Op::Rem,
    Op::Lt,
    Op::Le,
    Op::Gt,
    Op::Ge,
    Op::Eq,
    Op::Ne,
    Op::And,
    Op::Or,
    Op::BitAnd,
    Op::BitOr,
    Op::BitXor,
    Op::Shl,
    Op::Shr,
];

/// Those that are called.
const CALLED: [Op; 2] = [Op::Min, Op::Max];

/// The mark between the sides of an operator.
pub fn mark_of(operator: Op) -> Mark
    ensures { result ≡ operator_mark operator }
{
    match operator {
        Op::Add => Mark::Plus,
        Op::Sub => Mark::Minus,
        Op::Mul => Mark::Star,
        Op::Div => Mark::Slash,
        Op::Rem => Mark::Percent,
        Op::Lt => Mark::Less,
        Op::Le => Mark::LessOrEqual,
        Op::Gt => Mark::Greater,
        Op::Ge => Mark::GreaterOrEqual,
        Op::Eq => Mark::Equal,
        Op::Ne => Mark::NotEqual,
        Op::And => Mark::And,
        Op::Or => Mark::Or,
        Op::BitAnd => Mark::BitAnd,
        Op::BitOr => Mark::BitOr,
        Op::BitXor => Mark::BitXor,
        Op::Shl => Mark::ShiftLeft,
        Op::Shr => Mark::ShiftRight,
        Op::Min | Op::Max => Mark::Comma,
    }
}

/// The name of an operator that is called: `min(a, b)`, `max(a, b)`.
pub fn name_of(operator: Op) -> Option<&'static [u8]>
    ensures some { IfSome result (λ name. operator_name operator ≡ Some name.now) }
    ensures none { IfNone result (operator_name operator ≡ None) }
{
    match operator {
        Op::Min => Some(b"min"),
        Op::Max => Some(b"max"),
        _ => None,
    }
}

/// Whether a name is that of an operator.
fn is_named(name: &[u8], operator: Op) -> bool
    ensures { result ≡ table.is_named name.now (operator_name operator) }
{
    match name_of(operator) {
        Some(found) => found == name,
        None => false,
    }
}

/// The operator that a name with `(` behind it calls.
#[tactic(auto, unfolding(crate::specs::Operators::operator_called))]
pub(crate) fn operator_called(language: Language, name: &[u8]) -> Option<Op>
    ensures { result ≡ table.operator_called language name.now }
{
    match language {
        Language::One => None,
        Language::Two => CALLED
            .iter()
            .copied()
            .find(|operator| is_named(name, *operator)),
    }
}

/// The operator that a mark stands for between two expressions.
#[tactic(auto, unfolding(crate::specs::Operators::operator_of))]
pub(crate) fn operator_of(mark: Mark) -> Option<Op>
    ensures { result ≡ table.operator_of mark }
{
    BETWEEN
        .iter()
        .copied()
        .find(|operator| mark_of(*operator) == mark)
}

/// How tight each expression binds at least.
pub const LOOSEST: usize = 1;

/// How tight a side of a comparison binds at least.
const COMPARED: usize = 7;

/// How tight an operand binds: tighter than each operator.
pub const OPERAND: usize = 10;

/// How tight each expression of a language binds at least: in language 1 each is an operand.
pub(crate) fn loosest(language: Language) -> usize
    ensures { result ≡ table.loosest language }
{
    match language {
        Language::One => OPERAND,
        Language::Two => LOOSEST,
    }
}

fn is_comparison(operator: Op) -> bool
    ensures { result ≡ table.is_comparison operator }
{
    matches!(
        operator,
        Op::Lt | Op::Le | Op::Gt | Op::Ge | Op::Eq | Op::Ne
    )
}

/// How tight an operator binds in language 2, from 1 for the one that binds loosest. One that is called is an operand,
/// whatever this says.
pub fn tightness(operator: Op) -> usize
    ensures { result ≡ table.tightness operator }
{
    match operator {
        Op::Or => 1,
        Op::And => 2,
        Op::Lt | Op::Le | Op::Gt | Op::Ge | Op::Eq | Op::Ne => 3,
        Op::BitOr => 4,
        Op::BitXor => 5,
        Op::BitAnd => 6,
        Op::Shl | Op::Shr => 7,
        Op::Add | Op::Sub => 8,
        Op::Mul | Op::Div | Op::Rem | Op::Min | Op::Max => 9,
    }
}

/// How tight the left side of an operator binds at least.
pub fn left_side(operator: Op) -> usize
    ensures { result ≡ table.left_side operator }
{
    if is_comparison(operator) {
        COMPARED
    } else {
        tightness(operator)
    }
}

/// How tight the right side of an operator binds at least. Operators group from the left, but for comparisons, which do
/// not group.
pub fn right_side(operator: Op) -> usize
    ensures { result ≡ table.right_side operator }
{
    if is_comparison(operator) {
        COMPARED
    } else {
        tightness(operator) + 1
    }
}
