//! The parts of a program, which may break the rules of the language, with a test for each rule.
ghost use Rattle.std.specs.Prelude.{◌≡◌, ◌+◌, ◌<◌, length, nat_le, nat_lt, sum_by, false};
ghost use Rattle.std.specs.List.{list_all, flat_map};
ghost use Rattle.kpn_lang.specs.Syntax.{term_of, statement_of, lies_within, names_within};
ghost use Rattle.kpn_lang.specs.Parts.{is_too_large, lacks_a_block, is_in_order, names_there, names_its_own, names_ports_below, nests_too_deep, first_fault, nodes, statement_nodes, depth, expressions, each_statement, names_from, inner_blocks, order_to, is_within};
ghost use Rattle.kpn_lang.specs.Counting.{budget_after, count_through};
ghost use Rattle.kpn_limits.specs.declared.TheConstants.{MAX_CELLS};
ghost use Rattle.kpn_lang.specs.View.{parts_of, statements_of, blocks_of};

use crate::program::ProgramFault;
use crate::syntax::{BlockId, Expr, Stmt};
use kpn_limits::{MAX_CELLS, MAX_LEVELS, MAX_NODES, MAX_PORTS, MAX_VARIABLES};

/// How many in ports, out ports, parameters and variables, how many cells of arrays, the values of tables, and the
/// blocks of statements.
#[derive(Drop)]
pub struct Parts {
    pub ins: usize,
    pub outs: usize,
    pub pars: usize,
    pub vars: usize,
    pub free: usize,
    pub tables: Vec<i64>,
    pub blocks: Vec<Vec<Stmt>>,
}

impl Parts {
    /// The first rule that the parts break, in the order of the faults' numbers.
    pub fn first_fault(&self) -> Option<ProgramFault>
        ensures { result ≡ first_fault (parts_of self.now) }
    {
        if self.is_too_large() {
            Some(ProgramFault::TooMany)
        } else if self.lacks_a_block() {
            Some(ProgramFault::NoSuchBlock)
        } else if !self.is_in_order() {
            Some(ProgramFault::BlockOrder)
        } else if !self.names_what_is_there() {
            Some(ProgramFault::NoSuchVar)
        } else if !self.names_its_ports() {
            Some(ProgramFault::NoSuchPort)
        } else if self.nests_too_deep() {
            Some(ProgramFault::TooDeep)
        } else {
            None
        }
    }

    /// 1: a limit is passed.
    fn is_too_large(&self) -> bool
        ensures { result ≡ is_too_large (parts_of self.now) }
    {
        self.vars > MAX_VARIABLES
            || self.ins > MAX_PORTS
            || self.outs > MAX_PORTS
            || self.has_too_many_cells()
            || budget_after_blocks(&self.blocks, MAX_NODES).is_none()
    }

    fn has_too_many_cells(&self) -> bool
        ensures { let parts = parts_of self.now in
            result ≡ nat_lt MAX_CELLS (parts.free + length parts.tables) }
    {
        self.free > MAX_CELLS || self.tables.len() > MAX_CELLS - self.free
    }

    /// 2: there is no body, or a statement names a block that is not there.
    fn lacks_a_block(&self) -> bool
        ensures { result ≡ lacks_a_block (parts_of self.now) }
    {
        let count = self.blocks.len();
        count < 1
            || self
                .blocks
                .iter()
                .flatten()
                .any(|stmt| names_from(count, stmt))
    }

    /// 3 is kept: the blocks are numbered in the order of their opening braces, each used once.
    fn is_in_order(&self) -> bool
        requires { lacks_a_block (parts_of self.now) ≡ false }
        ensures { result ≡ is_in_order (parts_of self.now) }
    {
        let count = self.blocks.len();
        match self.count_block(count, 0, 0) {
            Some(end) => end == count,
            None => false,
        }
    }

    /// 4 is kept: each variable and each cell that a statement names is there, and it sets no cell of a table.
    fn names_what_is_there(&self) -> bool
        requires { is_too_large (parts_of self.now) ≡ false }
        ensures { let parts = parts_of self.now in
            result ≡ each_statement (names_its_own parts) parts.blocks }
    {
        let vars = self.vars;
        let free = vars + self.free;
        let tables = self.tables.len();
        let all = free + tables;
        self.blocks
            .iter()
            .flatten()
            .all(|stmt| names_there(vars, free, all, stmt))
    }

    /// 5 is kept: each port that a statement names is there.
    fn names_its_ports(&self) -> bool
        ensures { let parts = parts_of self.now in
            result ≡ each_statement (names_ports_below parts.ins parts.outs) parts.blocks }
    {
        self.blocks
            .iter()
            .flatten()
            .all(|stmt| names_ports_below(self.ins, self.outs, stmt))
    }

    /// 6: blocks or an expression nest deeper than they may.
    fn nests_too_deep(&self) -> bool
        requires { lacks_a_block (parts_of self.now) ≡ false }
        ensures { result ≡ nests_too_deep (parts_of self.now) }
    {
        !self.is_within(MAX_LEVELS, 0)
            || !self
                .blocks
                .iter()
                .flatten()
                .all(|stmt| is_shallow(MAX_LEVELS, stmt))
    }

    /// Counts a block and the blocks inside it, down to a number of levels. If their numbers count up from `next` in
    /// the order of their opening braces, it returns the number after the last.
    #[cycle(count)]
    fn count_block(&self, levels: usize, block: BlockId, next: usize) -> Option<usize>
        requires there { lacks_a_block (parts_of self.now) ≡ false }
        requires block_in { block < length (parts_of self.now).blocks }
        ensures { result ≡ count_through (order_to (parts_of self.now).blocks levels block) next }
    {
        if block != next {
            return None;
        }
        let mut end = next + 1;
        if levels > 0 {
            for stmt in &self.blocks[block] {
                end = self.count_inner(levels - 1, stmt, end)?;
            }
        }
        Some(end)
    }

    /// The same for the blocks inside a statement.
    #[cycle(count)]
    fn count_inner(&self, levels: usize, stmt: &Stmt, next: usize) -> Option<usize>
        requires there { lacks_a_block (parts_of self.now) ≡ false }
        requires inner_in { let count = length (parts_of self.now).blocks in
            names_from count (statement_of stmt.now) ≡ false }
        ensures { let order = order_to (parts_of self.now).blocks levels in
            result ≡ count_through (flat_map order (inner_blocks (statement_of stmt.now))) next }
    {
        match stmt {
            Stmt::If(_, first, second) => {
                let between = self.count_block(levels, *first, next)?;
                self.count_block(levels, *second, between)
            }
            Stmt::While(_, body) => self.count_block(levels, *body, next),
            _ => Some(next),
        }
    }

    /// Whether a block and the blocks inside it go down at most a number of levels.
    #[cycle(within)]
    pub fn is_within(&self, levels: usize, block: BlockId) -> bool
        requires there { lacks_a_block (parts_of self.now) ≡ false }
        requires block_in { block < length (parts_of self.now).blocks }
        ensures { result ≡ is_within (parts_of self.now).blocks levels block }
    {
        if levels == 0 {
            return false;
        }
        for stmt in &self.blocks[block] {
            if !self.is_inner_within(levels - 1, stmt) {
                return false;
            }
        }
        true
    }

    /// Whether the blocks inside a statement do.
    #[cycle(within)]
    fn is_inner_within(&self, levels: usize, stmt: &Stmt) -> bool
        requires there { lacks_a_block (parts_of self.now) ≡ false }
        requires inner_in { let count = length (parts_of self.now).blocks in
            names_from count (statement_of stmt.now) ≡ false }
        ensures { let inner = inner_blocks (statement_of stmt.now) in
            result ≡ list_all (is_within (parts_of self.now).blocks levels) inner }
    {
        match stmt {
            Stmt::If(_, first, second) => {
                self.is_within(levels, *first) && self.is_within(levels, *second)
            }
            Stmt::While(_, body) => self.is_within(levels, *body),
            _ => true,
        }
    }
}

/// What remains of a budget after the nodes of an expression; `None` if it has more. The budget also bounds how deep
/// this recurses.
#[tactic(auto, using(crate::proofs::Rules::some_node))]
fn budget_after_expr(expr: &Expr, budget: usize) -> Option<usize>
    ensures { result ≡ budget_after budget (nodes (term_of expr.now)) }
{
    let rest = budget.checked_sub(1)?;
    match expr {
        Expr::Num(_) | Expr::Var(_) => Some(rest),
        Expr::Neg(operand)
        | Expr::Not(operand)
        | Expr::BitNot(operand)
        | Expr::Cell(_, _, operand) => { budget_after_expr(operand, rest) }
        Expr::Bin(_, first, second) => budget_after_expr(second, budget_after_expr(first, rest)?),
        Expr::Choice(test, first, second) => {
            let rest = budget_after_expr(test, rest)?;
            budget_after_expr(second, budget_after_expr(first, rest)?)
        }
    }
}

fn budget_after_stmt(stmt: &Stmt, budget: usize) -> Option<usize>
    ensures { result ≡ budget_after budget (statement_nodes (statement_of stmt.now)) }
{
    let rest = budget.checked_sub(1)?;
    match stmt {
        Stmt::Read(_, _) => Some(rest),
        Stmt::Assign(_, expr)
        | Stmt::Write(_, expr)
        | Stmt::If(expr, _, _)
        | Stmt::While(expr, _) => { budget_after_expr(expr, rest) }
        Stmt::Set(_, _, index, item) => budget_after_expr(item, budget_after_expr(index, rest)?),
    }
}

fn budget_after_block(block: &[Stmt], budget: usize) -> Option<usize>
    ensures { result ≡ budget_after budget (sum_by statement_nodes (statements_of block.now)) }
{
    let mut rest = budget;
    for stmt in block {
        rest = budget_after_stmt(stmt, rest)?;
    }
    Some(rest)
}

fn budget_after_blocks(blocks: &[Vec<Stmt>], budget: usize) -> Option<usize>
    ensures { let nodes = sum_by (sum_by statement_nodes) (blocks_of blocks.now) in
        result ≡ budget_after budget nodes }
{
    let mut rest = budget;
    for block in blocks {
        rest = budget_after_block(block, rest)?;
    }
    Some(rest)
}

/// Whether a statement names a block of this number or above.
fn names_from(count: usize, stmt: &Stmt) -> bool
    ensures { result ≡ names_from count (statement_of stmt.now) }
{
    match stmt {
        Stmt::If(_, first, second) => count <= *first || count <= *second,
        Stmt::While(_, body) => count <= *body,
        _ => false,
    }
}

/// Whether a row of cells lies from the first of two numbers up to the second.
fn lies_within(first: usize, last: usize, base: usize, size: usize) -> bool
    ensures { result ≡ lies_within first last base size }
{
    first <= base && base <= last && size <= last - base
}

/// Whether each variable that an expression names is below the first of two numbers, and each row of cells lies from
/// there up to the second.
fn names_within(first: usize, last: usize, expr: &Expr) -> bool
    ensures { result ≡ names_within first last (term_of expr.now) }
{
    match expr {
        Expr::Num(_) => true,
        Expr::Var(variable) => *variable < first,
        Expr::Neg(operand) | Expr::Not(operand) | Expr::BitNot(operand) => {
            names_within(first, last, operand)
        }
        Expr::Bin(_, left, right) => {
            names_within(first, last, left) && names_within(first, last, right)
        }
        Expr::Choice(test, left, right) => {
            names_within(first, last, test)
                && names_within(first, last, left)
                && names_within(first, last, right)
        }
        Expr::Cell(base, size, index) => {
            lies_within(first, last, *base, *size) && names_within(first, last, index)
        }
    }
}

/// Whether each variable that a statement names is below `vars` and each cell below `all`, and it sets only cells below
/// `free`.
fn names_there(vars: usize, free: usize, all: usize, stmt: &Stmt) -> bool
    ensures { result ≡ names_there vars free all (statement_of stmt.now) }
{
    match stmt {
        Stmt::Assign(variable, expr) => *variable < vars && names_within(vars, all, expr),
        Stmt::Read(_, variable) => *variable < vars,
        Stmt::Write(_, expr) | Stmt::If(expr, _, _) | Stmt::While(expr, _) => {
            names_within(vars, all, expr)
        }
        Stmt::Set(base, size, index, item) => {
            lies_within(vars, free, *base, *size)
                && names_within(vars, all, index)
                && names_within(vars, all, item)
        }
    }
}

/// Whether the port of a statement is below the number of in or of out ports.
fn names_ports_below(ins: usize, outs: usize, stmt: &Stmt) -> bool
    ensures { result ≡ names_ports_below ins outs (statement_of stmt.now) }
{
    match stmt {
        Stmt::Read(port, _) => *port < ins,
        Stmt::Write(port, _) => *port < outs,
        _ => true,
    }
}

/// Whether an expression goes down at most a number of levels.
#[tactic(auto, using(crate::proofs::Rules::no_depth_at_zero))]
fn is_depth_within(levels: usize, expr: &Expr) -> bool
    ensures { result ≡ nat_le (depth (term_of expr.now)) levels }
{
    if levels == 0 {
        return false;
    }
    match expr {
        Expr::Num(_) | Expr::Var(_) => true,
        Expr::Neg(operand)
        | Expr::Not(operand)
        | Expr::BitNot(operand)
        | Expr::Cell(_, _, operand) => { is_depth_within(levels - 1, operand) }
        Expr::Bin(_, left, right) => {
            is_depth_within(levels - 1, left) && is_depth_within(levels - 1, right)
        }
        Expr::Choice(test, first, second) => {
            is_depth_within(levels - 1, test)
                && is_depth_within(levels - 1, first)
                && is_depth_within(levels - 1, second)
        }
    }
}

/// Whether the expressions of a statement do.
fn is_shallow(levels: usize, stmt: &Stmt) -> bool
    ensures { let exprs = expressions (statement_of stmt.now) in
        result ≡ list_all (λ e. nat_le (depth e) levels) exprs }
{
    match stmt {
        Stmt::Read(_, _) => true,
        Stmt::Assign(_, expr)
        | Stmt::Write(_, expr)
        | Stmt::If(expr, _, _)
        | Stmt::While(expr, _) => { is_depth_within(levels, expr) }
        Stmt::Set(_, _, index, item) => {
            is_depth_within(levels, index) && is_depth_within(levels, item)
        }
    }
}
