//! The stepper: a process is a frame that goes step by step through its program. The contracts tie this
//! to what the process does alone on whole lists.
#![tactic(auto)]

mod advanced;
mod alone_run;
mod frame;
pub mod laws;
mod lists;
mod place;
mod stepper;
mod stop;
mod values;
mod walk;
mod whole_lists;

pub use advanced::Advance;
pub use alone_run::AloneRun;
pub use frame::Frame;
pub use kpn_lang::Said;
pub use stepper::{advance, try_advance};
pub use stop::{AloneStop, Stop};
pub use whole_lists::alone;
