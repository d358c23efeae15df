//! The auditor: it replays a list of events on a machine of its own, and reports whether they are a legal history
//! of a network and what stands after them, or the first event that goes wrong.
#![tactic(auto)]

mod auditor;
mod complete;
pub mod complete_laws;
mod findings;
mod growth;
mod judged;
mod judging;
pub mod laws;
mod scene;
mod scenes;
mod seeing;
mod stepping;
mod stored;
mod summary;

pub use auditor::audit;
pub use findings::{Audit, AuditFault};
pub use scene::{Doing, GrowthOwed, OutsideEnd, Scene};
pub use scenes::scene_before;
