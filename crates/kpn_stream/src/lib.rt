//! Streams: a network is run over devices. A source is read only if a process waits for its item, and the sinks get
//! their items as they come.
#![tactic(auto)]

mod closing;
mod devices;
mod ending;
mod ends;
mod faults;
pub mod laws;
mod looking;
mod pace;
mod reading;
mod running;
mod stepping;
mod taking;
mod watching;

pub use closing::close_sources;
pub use devices::{Readiness, Sinks, Sources};
pub use ending::{StreamEnding, Streamed};
pub use ends::{EndNumbers, end_numbers_of};
pub use faults::{SinkFault, SourceFault};
pub use kpn_book::{Keeping, Limits, Outcome};
pub use running::stream;
pub use watching::{Unwatched, Watcher};
