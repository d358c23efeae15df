//! The syntax tree of a description. Its names are as written, each with the byte at which it begins, so that a later
//! fault has a place.

ghost use Rattle.std.specs.Prelude.{◌≡◌};

use kpn_lang::Op;
use kpn_net::{Growth, Policy};
use kpn_text_tokens::{Name, Number};

/// A name as written.
#[derive(Drop)]
pub struct Identifier<'a> {
    /// Its bytes, which remain in the text.
    pub bytes: &'a [u8],
    /// The byte at which it begins.
    pub start: usize,
}

impl<'a> Identifier<'a> {
    /// The name of a token that begins at this byte.
    pub(crate) fn new(name: &'a Name<'a>, start: usize) -> Identifier<'a>
        ensures bytes { result.bytes.now ≡ name.now }
        ensures start { result.start ≡ start }
    {
        let bytes = name.bytes();
        Identifier { bytes, start }
    }
}

/// An expression.
#[derive(Drop)]
pub enum Expression<'a> {
    Number(Number),
    Name(Identifier<'a>),
    /// `array[index]`
    Element(Identifier<'a>, Box<Expression<'a>>),
    /// `-e`
    Negative(Box<Expression<'a>>),
    /// `!e`
    Not(Box<Expression<'a>>),
    /// `~e`
    BitNot(Box<Expression<'a>>),
    /// `(left op right)`, `min(left, right)`
    Binary(Op, Box<Expression<'a>>, Box<Expression<'a>>),
    /// `(test ? first : second)`
    Choice(Box<Expression<'a>>, Box<Expression<'a>>, Box<Expression<'a>>),
}

/// A statement.
#[derive(Drop)]
pub enum StatementNode<'a> {
    /// `target = value;`
    Assign(Identifier<'a>, Expression<'a>),
    /// `array[index] = value;`
    Store(Identifier<'a>, Expression<'a>, Expression<'a>),
    /// `read port variable;`
    Read(Identifier<'a>, Identifier<'a>),
    /// `write port value;`
    Write(Identifier<'a>, Expression<'a>),
    /// `if test { .. } else { .. }`
    If(Expression<'a>, Vec<StatementNode<'a>>, Vec<StatementNode<'a>>),
    /// `while test { .. }`
    While(Expression<'a>, Vec<StatementNode<'a>>),
}

/// The statements between two braces.
pub type Block<'a> = Vec<StatementNode<'a>>;

/// Names with commas between them.
pub type Names<'a> = Vec<Identifier<'a>>;

/// The ports and parameters in the head of a process, each in order.
#[derive(Drop)]
pub struct HeadParts<'a> {
    pub ins: Names<'a>,
    pub outs: Names<'a>,
    pub pars: Names<'a>,
}

/// A value as written.
#[derive(Clone, Copy)]
pub enum Literal {
    Plain(Number),
    /// A number behind a minus.
    Negated(Number),
}

/// A table: `table name = values;`.
#[derive(Drop)]
pub struct Table<'a> {
    pub name: Identifier<'a>,
    pub values: Vec<Literal>,
}

/// What stands at the head of the body of a process.
#[derive(Drop)]
pub enum Declaration<'a> {
    /// `array name[size];`
    Array(Identifier<'a>, Number),
    Table(Table<'a>),
}

/// A process: `process name(in ins; out outs; par pars) { declarations body }`.
#[derive(Drop)]
pub struct ProcessNode<'a> {
    pub name: Identifier<'a>,
    pub parts: HeadParts<'a>,
    /// Its arrays and tables, in order.
    pub declarations: Vec<Declaration<'a>>,
    pub body: Block<'a>,
}

/// An instance of a process: `name = program(ins; outs; values);`.
#[derive(Drop)]
pub struct InstanceNode<'a> {
    pub name: Identifier<'a>,
    pub program: Identifier<'a>,
    /// The channels at its in ports and at its out ports, by place.
    pub ins: Names<'a>,
    pub outs: Names<'a>,
    /// The values of its parameters, by place.
    pub values: Vec<Literal>,
}

/// An item of a network.
#[derive(Drop)]
pub enum Item<'a> {
    /// `channel name cap capacity;`
    Channel(Identifier<'a>, Number),
    /// `source name;`
    Source(Identifier<'a>),
    /// `sink name cap capacity;`
    Sink(Identifier<'a>, Number),
    Instance(InstanceNode<'a>),
}

/// The network: its limit, its policy and its growth, each if it is written, and its items in order.
#[derive(Drop)]
pub struct NetworkNode<'a> {
    pub limit: Option<Number>,
    pub policy: Option<Policy>,
    pub growth: Option<Growth>,
    pub items: Vec<Item<'a>>,
}

/// A description: the tables that its processes share, its processes, numbered from 0 in order, and its network.
#[derive(Drop)]
pub struct Description<'a> {
    pub tables: Vec<Table<'a>>,
    pub processes: Vec<ProcessNode<'a>>,
    pub network: NetworkNode<'a>,
}
