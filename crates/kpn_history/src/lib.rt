//! Histories of a network: the events of a run in their order, which histories are legal, and Kahn's theorem over all
//! of them.
#![tactic(auto)]

pub mod complete_laws;
pub mod end_laws;
mod event;
pub mod event_laws;
pub mod growth_laws;
mod history;
mod keeping;
pub mod laws;
pub mod progress_laws;
mod state;
pub mod state_laws;
mod stored;
pub mod waking_laws;

pub use event::{Event, How};
pub use history::History;
pub use keeping::Keeping;
pub use state::{Counts, State, Verdict, View};
pub use stored::{Trace, Version};
