//! The book of a run: a machine with its history, which processes are ready or held and in which order; claims, commits
//! and the calls of the outside. Then a run on the calling thread only: its outcome under its limits, and what its report
//! promises, whatever the schedule. This crate also passes on views and events, of `kpn_history`.
#![tactic(auto)]

mod answers;
mod book;
mod claim;
mod complete;
pub mod complete_laws;
mod counting;
mod detached;
mod feeding;
mod here;
pub mod laws;
mod open_book;
mod outcome;
mod queue;
pub mod region_laws;
mod releasing;
mod report;
pub mod report_laws;
mod schedule;
mod stepping;
mod stopping;
mod telling;
mod view;

pub use answers::{Done, Refused};
pub use book::Book;
pub use claim::Claim;
pub use detached::Detached;
pub use here::{run_here, run_here_keeping, run_in_any_order};
pub use kpn_chan::Unread;
pub use kpn_history::{Counts, Event, Keeping, State, Verdict, View};
pub use outcome::{Limits, Outcome};
pub use releasing::put_back_held;
pub use report::Report;
pub use stopping::outcome_of;
pub use telling::report_of;
