//! `kpn stream FILE`: runs a network over inputs and outputs, and takes and writes the items as they come.
#![tactic(auto)]

mod command;
mod concluding;
mod counters;
mod devices;
mod ending;
mod formats;
mod places;
mod refusal;
mod running;
mod stats;
mod summary;
mod watching;

pub use command::stream_command;
pub use devices::USUAL_RATE;
pub use formats::word_for;
