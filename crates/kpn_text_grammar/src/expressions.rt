//! Expressions. A number or a name has level 1, and an index, a sign, an operator or a choice one more than its deepest
//! part. In language 1 parentheses stand around each operator; in language 2 operators bind by precedence.

ghost use Rattle.std.specs.Prelude.{◌≡◌, ◌<◌, ◌-◌, IfOk};
ghost use Rattle.kpn_text_grammar.specs.Operators as table;
ghost use Rattle.kpn_text_grammar.specs.Reading as spec;
ghost use Rattle.kpn_text_grammar.specs.Spelling.{term_level};
ghost use Rattle.kpn_text_grammar.specs.View.{HasLevels, Parses, term};

use crate::fault::GrammarFault;
use crate::operators::{OPERAND, loosest, operator_called, right_side, tightness};
use crate::parser::{Read, Scope, Source, at_mark, goes_further, is_second, mark, next, operator};
use crate::tree::{Expression, Identifier};
use kpn_lang::Op;
use kpn_text_tokens::{Lexeme, Mark, Token};
use std::alloc::Global;

/// What is left for an expression: how many levels it may have, and how many operands, signs, `(` and `[` may stand in
/// each other.
#[derive(Clone, Copy)]
pub(crate) struct Room {
    pub levels: usize,
    pub depth: usize,
}

/// An expression and its levels.
#[derive(Drop)]
pub(crate) struct Subtree<'a> {
    pub root: Box<Expression<'a>>,
    pub levels: usize,
}

fn begins_expression(token: &Token<'_>) -> bool
    ensures { result ≡ spec.begins_expression token.now }
{
    match token {
        Token::Number(_) | Token::Name(_) => true,
        Token::Mark(Mark::Minus | Mark::Not | Mark::BitNot | Mark::LeftParen) => true,
        _ => false,
    }
}

/// The fault of a token if no level is left: it opens one too many, if an expression can begin with it.
fn level_fault(scope: Scope, first: &Lexeme<'_>) -> GrammarFault
    ensures { result ≡ spec.level_fault scope first.now }
{
    if begins_expression(&first.token) {
        GrammarFault::TooDeep(scope.process)
    } else {
        GrammarFault::Grammar(first.start)
    }
}

/// An expression that binds as tight as `least`: an operand, and then operators with their right sides.
#[cycle(tight)]
pub(crate) fn tight<'a>(
    alloc: Global,
    source: Source<'a>,
    room: Room,
    least: usize,
    at: usize,
) -> Read<Subtree<'a>>
    ensures read { Parses (λ tree. term tree.root.value)
        (λ s. spec.tight s room.depth room.levels least) source.entry at result }
    ensures levels { IfOk result (λ found. HasLevels room.levels found.0) }
{
    let (first, after) = next(source, at)?;
    if room.depth == 0 || room.levels == 0 {
        return Err(level_fault(source.scope, first));
    }
    let (operand, after) = tight_operand(alloc, source, room, first, after)?;
    let Subtree {
        mut root,
        mut levels,
    } = operand;
    let mut bound = OPERAND;
    let mut place = after;
    'sides: while goes_further(source, least, bound, place) {
        if room.levels <= levels {
            return Err(GrammarFault::TooDeep(source.scope.process));
        }
        let (sign, side) = operator(source, place)?;
        let beside = Room {
            levels: room.levels - 1,
            depth: room.depth,
        };
        let (right, after) = tight(alloc, source, beside, right_side(sign), side)?;
        let Subtree {
            root: other,
            levels: others,
        } = right;
        root = Box::new(alloc, Expression::Binary(sign, root, other))?;
        levels = levels.max(others) + 1;
        bound = tightness(sign);
        place = after;
    }
    Ok((Subtree { root, levels }, place))
}

/// An operand behind its first token.
#[cycle(tight)]
#[tactic(auto, unfolding(crate::specs::Reading::tight_operand, kpn_text_tokens::specs::Results::and_then))]
fn tight_operand<'a>(
    alloc: Global,
    source: Source<'a>,
    room: Room,
    first: &'a Lexeme<'a>,
    at: usize,
) -> Read<Subtree<'a>>
    requires levels { 0 < room.levels }
    requires depth { 0 < room.depth }
    ensures read { Parses (λ tree. term tree.root.value)
        (λ s. spec.tight_operand s (spec.tight s (room.depth - 1)) (room.levels - 1)
        first.now.token first.now.start)
        source.entry at result }
    ensures levels { IfOk result (λ found. HasLevels room.levels found.0) }
{
    match &first.token {
        Token::Number(number) => {
            let root = Box::new(alloc, Expression::Number(*number))?;
            Ok((Subtree { root, levels: 1 }, at))
        }
        Token::Name(name) => {
            let name = Identifier::new(name, first.start);
            behind_name(alloc, source, room, name, at)
        }
        Token::Mark(Mark::Minus) => {
            let (Subtree { root, levels }, after) = behind_sign(alloc, source, room, at)?;
            let root = Box::new(alloc, Expression::Negative(root))?;
            let levels = levels + 1;
            Ok((Subtree { root, levels }, after))
        }
        Token::Mark(Mark::Not) => {
            let (Subtree { root, levels }, after) = behind_sign(alloc, source, room, at)?;
            let root = Box::new(alloc, Expression::Not(root))?;
            let levels = levels + 1;
            Ok((Subtree { root, levels }, after))
        }
        Token::Mark(Mark::BitNot) => {
            let (Subtree { root, levels }, after) = behind_sign(alloc, source, room, at)?;
            let root = Box::new(alloc, Expression::BitNot(root))?;
            let levels = levels + 1;
            Ok((Subtree { root, levels }, after))
        }
        Token::Mark(Mark::LeftParen) => parentheses(alloc, source, room, at),
        _ => Err(GrammarFault::Grammar(first.start)),
    }
}

/// A name, an element of an array or a table if `[` is behind its name, or an operator that it calls.
#[cycle(tight)]
#[tactic(auto, unfolding(crate::specs::Reading::behind_name, kpn_text_tokens::specs::Results::and_then))]
fn behind_name<'a>(
    alloc: Global,
    source: Source<'a>,
    room: Room,
    name: Identifier<'a>,
    at: usize,
) -> Read<Subtree<'a>>
    requires levels { 0 < room.levels }
    requires depth { 0 < room.depth }
    ensures read { Parses (λ tree. term tree.root.value)
        (λ s. spec.behind_name s
        (spec.tight s (room.depth - 1) (room.levels - 1) (table.loosest s.language)) name.entry.bytes.now)
        source.entry at result }
    ensures levels { IfOk result (λ found. HasLevels room.levels found.0) }
{
    if !at_mark(source, Mark::LeftBracket, at) {
        return call_or_name(alloc, source, room, name, at);
    }
    let inside = Room {
        levels: room.levels - 1,
        depth: room.depth - 1,
    };
    let at = mark(source, Mark::LeftBracket, at)?;
    let (index, at) = tight(alloc, source, inside, loosest(source.scope.language), at)?;
    let at = mark(source, Mark::RightBracket, at)?;
    let Subtree { root, levels } = index;
    let root = Box::new(alloc, Expression::Element(name, root))?;
    let levels = levels + 1;
    Ok((Subtree { root, levels }, at))
}

/// A name, or the operator that it calls if `(` is behind it.
#[cycle(tight)]
#[tactic(auto, unfolding(crate::specs::Reading::call_or_name))]
fn call_or_name<'a>(
    alloc: Global,
    source: Source<'a>,
    room: Room,
    name: Identifier<'a>,
    at: usize,
) -> Read<Subtree<'a>>
    requires levels { 0 < room.levels }
    requires depth { 0 < room.depth }
    ensures read { Parses (λ tree. term tree.root.value)
        (λ s. spec.call_or_name s
        (spec.tight s (room.depth - 1) (room.levels - 1) (table.loosest s.language))
        name.entry.bytes.now (table.operator_called s.language name.entry.bytes.now))
        source.entry at result }
    ensures levels { IfOk result (λ found. HasLevels room.levels found.0) }
{
    if let Some(operator) = operator_called(source.scope.language, name.bytes) {
        if at_mark(source, Mark::LeftParen, at) {
            return call(alloc, source, room, operator, at);
        }
    }
    let root = Box::new(alloc, Expression::Name(name))?;
    Ok((Subtree { root, levels: 1 }, at))
}

/// `(`, the two sides with a comma between them, and `)`, behind the name of an operator.
#[cycle(tight)]
#[tactic(auto, unfolding(crate::specs::Reading::call_behind, kpn_text_tokens::specs::Results::and_then))]
fn call<'a>(
    alloc: Global,
    source: Source<'a>,
    room: Room,
    operator: Op,
    at: usize,
) -> Read<Subtree<'a>>
    requires levels { 0 < room.levels }
    requires depth { 0 < room.depth }
    ensures read { Parses (λ tree. term tree.root.value)
        (λ s. spec.call_behind s
        (spec.tight s (room.depth - 1) (room.levels - 1) (table.loosest s.language)) operator)
        source.entry at result }
    ensures levels { IfOk result (λ found. HasLevels room.levels found.0) }
{
    let inside = Room {
        levels: room.levels - 1,
        depth: room.depth - 1,
    };
    let least = loosest(source.scope.language);
    let at = mark(source, Mark::LeftParen, at)?;
    let (left, at) = tight(alloc, source, inside, least, at)?;
    let at = mark(source, Mark::Comma, at)?;
    let (right, at) = tight(alloc, source, inside, least, at)?;
    let at = mark(source, Mark::RightParen, at)?;
    let Subtree { root: a, levels: i } = left;
    let Subtree { root: b, levels: j } = right;
    let levels = i.max(j) + 1;
    let root = Box::new(alloc, Expression::Binary(operator, a, b))?;
    Ok((Subtree { root, levels }, at))
}

/// The operand of a sign.
#[cycle(tight)]
fn behind_sign<'a>(alloc: Global, source: Source<'a>, room: Room, at: usize) -> Read<Subtree<'a>>
    requires levels { 0 < room.levels }
    requires depth { 0 < room.depth }
    ensures read { Parses (λ tree. term tree.root.value)
        (λ s. spec.tight s (room.depth - 1) (room.levels - 1) OPERAND) source.entry at result }
    ensures levels { IfOk result (λ found. HasLevels (room.levels - 1) found.0) }
{
    let inside = Room {
        levels: room.levels - 1,
        depth: room.depth - 1,
    };
    tight(alloc, source, inside, OPERAND, at)
}

/// What stands between parentheses, behind the opening one: an expression, a choice, or in language 1 an operator with
/// its sides.
#[cycle(tight)]
#[tactic(auto, unfolding(crate::specs::Reading::inside_behind, kpn_text_tokens::specs::Results::and_then))]
fn parentheses<'a>(alloc: Global, source: Source<'a>, room: Room, at: usize) -> Read<Subtree<'a>>
    requires levels { 0 < room.levels }
    requires depth { 0 < room.depth }
    ensures read { Parses (λ tree. term tree.root.value)
        (λ s. spec.inside_behind s room.levels
        (spec.tight s (room.depth - 1) room.levels (table.loosest s.language))
        (spec.tight s (room.depth - 1) (room.levels - 1) (table.loosest s.language)))
        source.entry at result }
    ensures levels { IfOk result (λ found. HasLevels room.levels found.0) }
{
    let inside = Room {
        levels: room.levels,
        depth: room.depth - 1,
    };
    let (first, at) = tight(alloc, source, inside, loosest(source.scope.language), at)?;
    if at_mark(source, Mark::Question, at) {
        return values(alloc, source, room, first, at);
    }
    if !is_second(source.scope.language) {
        return sides(alloc, source, room, first, at);
    }
    let at = mark(source, Mark::RightParen, at)?;
    Ok((first, at))
}

/// An operator and the right side, behind the left one, if that leaves a level.
#[cycle(tight)]
#[tactic(auto, unfolding(crate::specs::Reading::binary_behind, kpn_text_tokens::specs::Results::and_then))]
fn sides<'a>(
    alloc: Global,
    source: Source<'a>,
    room: Room,
    left: Subtree<'a>,
    at: usize,
) -> Read<Subtree<'a>>
    requires levels { 0 < room.levels }
    requires depth { 0 < room.depth }
    requires left { HasLevels room.levels left }
    ensures read { Parses (λ tree. term tree.root.value)
        (λ s ls. spec.unless_full s room.levels (term left.entry.root.value)
        (spec.binary_behind s
        (spec.tight s (room.depth - 1) (room.levels - 1) (table.loosest s.language))
        (term left.entry.root.value) ls))
        source.entry at result }
    ensures levels { IfOk result (λ found. HasLevels room.levels found.0) }
{
    if room.levels <= left.levels {
        return Err(GrammarFault::TooDeep(source.scope.process));
    }
    let inside = Room {
        levels: room.levels - 1,
        depth: room.depth - 1,
    };
    let (sign, at) = operator(source, at)?;
    let (right, at) = tight(alloc, source, inside, loosest(source.scope.language), at)?;
    let at = mark(source, Mark::RightParen, at)?;
    let Subtree { root: a, levels: i } = left;
    let Subtree { root: b, levels: j } = right;
    let levels = i.max(j) + 1;
    let root = Box::new(alloc, Expression::Binary(sign, a, b))?;
    Ok((Subtree { root, levels }, at))
}

/// `?` and two values, behind the test that decides between them, if that leaves a level.
#[cycle(tight)]
#[tactic(auto, unfolding(crate::specs::Reading::conditional_behind, kpn_text_tokens::specs::Results::and_then))]
fn values<'a>(
    alloc: Global,
    source: Source<'a>,
    room: Room,
    test: Subtree<'a>,
    at: usize,
) -> Read<Subtree<'a>>
    requires levels { 0 < room.levels }
    requires depth { 0 < room.depth }
    requires test { HasLevels room.levels test }
    ensures read { Parses (λ tree. term tree.root.value)
        (λ s ls. spec.unless_full s room.levels (term test.entry.root.value)
        (spec.conditional_behind s
        (spec.tight s (room.depth - 1) (room.levels - 1) (table.loosest s.language))
        (term test.entry.root.value) ls))
        source.entry at result }
    ensures levels { IfOk result (λ found. HasLevels room.levels found.0) }
{
    if room.levels <= test.levels {
        return Err(GrammarFault::TooDeep(source.scope.process));
    }
    let inside = Room {
        levels: room.levels - 1,
        depth: room.depth - 1,
    };
    let least = loosest(source.scope.language);
    let at = mark(source, Mark::Question, at)?;
    let (first, at) = tight(alloc, source, inside, least, at)?;
    let at = mark(source, Mark::Colon, at)?;
    let (second, at) = tight(alloc, source, inside, least, at)?;
    let at = mark(source, Mark::RightParen, at)?;
    let Subtree { root: c, levels: i } = test;
    let Subtree { root: a, levels: j } = first;
    let Subtree { root: b, levels: k } = second;
    let levels = i.max(j.max(k)) + 1;
    let root = Box::new(alloc, Expression::Choice(c, a, b))?;
    Ok((Subtree { root, levels }, at))
}

/// An expression of a statement.
#[tactic(auto, unfolding(crate::specs::Reading::whole, kpn_text_tokens::specs::Results::and_then))]
pub(crate) fn whole<'a>(alloc: Global, source: Source<'a>, at: usize) -> Read<Expression<'a>>
    ensures { Parses term spec.whole source.entry at result }
{
    let room = Room {
        levels: source.scope.levels,
        depth: source.scope.levels,
    };
    let least = loosest(source.scope.language);
    let (Subtree { root, .. }, at) = tight(alloc, source, room, least, at)?;
    Ok((Box::into_inner(root), at))
}
