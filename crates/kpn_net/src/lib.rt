//! Networks of sequential processes: the tables of a network, Kahn's iteration on it, and what the
//! processes of a network wait for.
#![tactic(auto)]

mod fault;
mod found;
mod iteration;
pub mod laws;
mod network;
mod tables;
mod wait;

pub use fault::NetFault;
pub use found::Found;
pub use iteration::rounds;
pub use network::{Network, same};
pub use tables::{ChannelSpec, End, Growth, Instance, NetworkSize, Policy};
pub use wait::Wait;
