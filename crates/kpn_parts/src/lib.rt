//! Networks that are cut into parts, each of which runs on its own: what holds of the whole. Whoever runs the parts
//! moves the items of cut channels from part to part.
#![tactic(auto)]

mod cut;
mod items;
mod joining;
pub mod laws;
mod link;
mod order;

pub use cut::{CutPart, homes_of, links_of};
pub use joining::{Joined, join};
pub use link::{ChannelHome, PartLink};
pub use order::PartEvent;
