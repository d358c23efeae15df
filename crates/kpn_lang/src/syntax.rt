//! The syntax of processes: expressions as trees, statements that name blocks by number. After the variables of a
//! process are the cells of its arrays and tables. They have the numbers that come next.

/// An operator of two operands.
#[derive(Clone, Copy, PartialEq)]
pub enum Op {
    Add,
    Sub,
    Mul,
    Div,
    Rem,
    Lt,
    Le,
    Gt,
    Ge,
    Eq,
    Ne,
    And,
    Or,
    BitAnd,
    BitOr,
    BitXor,
    Shl,
    Shr,
    /// The smaller side.
    Min,
    /// The larger side.
    Max,
}

/// An expression over the variables and the cells of a process, which it names by number.
#[derive(Drop)]
pub enum Expr {
    /// A whole number.
    Num(i64),
    /// The value of a variable.
    Var(usize),
    /// The number with its sign turned.
    Neg(Box<Expr>),
    /// 1 if the operand is 0, else 0.
    Not(Box<Expr>),
    /// The number with all its bits turned.
    BitNot(Box<Expr>),
    /// An operator between its left and its right side.
    Bin(Op, Box<Expr>, Box<Expr>),
    /// The second expression if the first is not 0, else the third.
    Choice(Box<Expr>, Box<Expr>, Box<Expr>),
    /// The value of a cell of an array or a table: `Cell(base, size, index)`, where its first cell has the number
    /// `base`, and the index goes from 0 to `size - 1`.
    Cell(usize, usize, Box<Expr>),
}

/// The number of a block of statements in its program. Block 0 is the body of the process.
pub type BlockId = usize;

/// A statement. It names the blocks inside it by number.
#[derive(Drop)]
pub enum Stmt {
    /// Sets a variable to the value of an expression.
    Assign(usize, Expr),
    /// Reads an item at an in port into a variable: `Read(port, variable)`.
    Read(usize, usize),
    /// Writes the value of an expression to an out port.
    Write(usize, Expr),
    /// The first block if the expression is not 0, else the second.
    If(Expr, BlockId, BlockId),
    /// The block again and again, as long as the expression is not 0.
    While(Expr, BlockId),
    /// Sets a cell of an array to the value of an expression: `Set(base, size, index, expression)`.
    Set(usize, usize, Expr, Expr),
}
