//! The short forms of language 2.
//!
//! Constants, the capacity of a whole network, assignments with an operator, reads into a cell and loops over a range
//! give way here to the tokens that they stand for. The grammar reads what is left, so it knows none of them.
//! `constants` replaces names by numbers, `declaration` reads the declaration of one, `hidden` names variables that the
//! text does not, and `expanding` makes all steps, one after the other.
#![tactic(auto)]

mod capacities;
mod cells;
mod constants;
mod declaration;
mod expanding;
mod fault;
mod hidden;
mod loops;
mod sums;

pub use expanding::expanded;
pub use fault::ExpandFault;
