//! The process language of Kahn networks: expressions, statements and programs, the value of an
//! expression, and what a process does when it runs alone on whole lists of items.
#![tactic(auto)]

mod celled;
mod chain;
mod code;
mod codes;
mod formula;
pub mod laws;
mod link;
mod operand;
mod path;
mod plain;
mod program;
mod remainder;
mod sequence;
mod spine;
mod start;
mod syntax;
mod talk;
mod value;

pub use celled::{Celled, Put};
pub use chain::Chain;
pub use code::{Code, Round, Ways};
pub use codes::Coded;
pub use formula::{
    Below, Difference, Equal, Formula, IsRest, Product, ProductRest, Remainder, Rest, RestSum, Sum,
};
pub use link::Link;
pub use operand::{Operand, Pick};
pub use path::{Path, Stage, Stages};
pub use plain::{Run, run_alone};
pub use program::{Program, ProgramFault, same};
pub use sequence::{Sequence, next_item};
pub use spine::{Links, Spine};
pub use start::Start;
pub use syntax::{BlockId, Expr, Op, Stmt};
pub use talk::{Ending, Said};
pub use value::{Fault, eval, eval_in, index_in};
