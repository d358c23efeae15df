//! Channels of a Kahn process network. Each is a queue of whole numbers from one writer to one reader, and remembers
//! all that was ever put.
#![tactic(auto)]

mod channel;
mod chunks;
mod journal;
pub mod laws;
mod past;
mod unread;

pub use channel::Channel;
pub use journal::{Journal, Written};
pub use past::Past;
pub use unread::Unread;
