//! Blocked cycles: the table of what each process of a network waits for, the cycle of waiting processes
//! through one of them, and its smallest full channel.
#![tactic(auto)]

mod awaiting;
pub mod laws;
mod waits;
mod walk;

pub use awaiting::awaited;
pub use kpn_net::{Found, Wait};
pub use waits::Waits;
pub use walk::{cycle_through, scan_all, smallest_waited};
