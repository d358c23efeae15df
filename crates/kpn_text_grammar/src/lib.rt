//! The grammar of a network description.
//!
//! This crate reads the tokens of a description as a tree, which has names as they are written. What the names mean is
//! a matter for the layer above.
#![tactic(auto)]

mod blocks;
mod declarations;
mod expressions;
mod fault;
mod laws;
mod lists;
mod networks;
mod operators;
mod parser;
mod processes;
mod tree;
mod whole;
mod words;

pub use fault::GrammarFault;
pub use laws::{canonical_spells, read_where_spelled, spelled_once};
pub use operators::{LOOSEST, OPERAND, left_side, mark_of, name_of, right_side, tightness};
pub use tree::{
    Block, Declaration, Description, Expression, HeadParts, Identifier, InstanceNode, Item,
    Literal, Names, NetworkNode, ProcessNode, StatementNode, Table,
};
pub use whole::{description, expression};
pub use words::{growth_word, policy_word};
