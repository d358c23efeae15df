//! The machine to which a legal history leads: the states of the processes of a network and the contents of its
//! channels at one moment of a run, and how each event changes them.
#![tactic(auto)]

mod ends;
pub mod laws;
mod machine;
mod port_channels;

pub use ends::stop_of;
pub use machine::{Got, Grown, Machine, OwedGrowth, frames_at_start};
pub use port_channels::{in_channel, out_channel};
