//! `kpn alone`, `kpn check`, `kpn print`, `kpn rounds`, `kpn run`, `kpn audit` and `kpn join`.
#![tactic(auto)]

mod alone;
mod alone_text;
mod audit;
mod built_in;
mod check;
mod files;
mod join;
pub mod laws;
mod print;
mod reporting;
mod rounds;
mod rounds_text;
mod run;

pub use alone::alone_command;
pub use audit::audit_command;
pub use check::check_command;
pub use join::join_command;
pub use print::print_command;
pub use rounds::rounds_command;
pub use run::{run_command, run_command_by_workers};
