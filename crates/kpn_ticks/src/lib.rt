//! Ticks: when the gets and puts of a history take place if each takes one tick and begins as early as it can.
#![tactic(auto)]

mod clocks;
mod held;
mod laws;
mod moves;
mod traces;
mod walk;

pub use clocks::{Clocks, clocks_after};
pub use held::reads_before;
pub use laws::{order_changes_no_tick, schedules_change_no_tick, shares_sum_up};
pub use traces::clocks_of;
pub use walk::shares_of;
