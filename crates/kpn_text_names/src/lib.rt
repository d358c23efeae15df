//! The names of a description.
//!
//! The tree of a description names its processes, ports, variables, channels and instances. This crate looks up each
//! name in its table. The tree becomes the parts of the programs and the tables of the network, in which a number
//! stands for each name.
#![tactic(auto)]

mod constant;
mod document;
mod expression;
mod fault;
mod laws;
mod names;
mod network;
mod network_names;
mod process;
mod rows;
mod scope;
mod tables;
mod targets;
mod writer;

pub use constant::constant_value;
pub use document::{Named, resolve};
pub use fault::NameFault;
pub use laws::{blocks_are_the_tree, names_stand_once, second_resolves_first};
pub use names::NameTable;
pub use network_names::{NamedRow, NamedTable, NetworkNames, ProcessNames};
pub use process::ProgramParts;
pub use rows::{Row, Rows};
pub use scope::NameScope;
pub use tables::{KnownTables, SharedTables};
