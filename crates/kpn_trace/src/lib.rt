//! Traces: the events of a run as text, written and read. This crate also passes on events and histories, of
//! `kpn_history`, and the fault of a writer, of `kpn_text_items`.
#![tactic(auto)]

mod fault;
mod head;
mod kind;
pub mod laws;
mod parts;
mod reading;
mod unwritten;
mod words;
mod writing;

pub use fault::{BadEvent, TraceFault};
pub use kind::how_word;
pub use kpn_history::{Event, History, How, Trace, Version};
pub use kpn_text_items::WriteFault;
pub use reading::{read_event, read_trace};
pub use unwritten::Unwritten;
pub use writing::{event_line, write_trace};
