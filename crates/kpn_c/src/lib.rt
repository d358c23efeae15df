//! The calls of a network for C: checks, runs and sessions over flat data, where lists and items stand in slices and
//! faults are numbers, and the exports of a static library. `include/kpn.h` says what each does, and what its caller
//! owes. Only `c/kpn.c` calls these exports: it refuses null pointers first.
#![tactic(auto)]

mod codes;
mod ends;
mod explaining;
mod fault;
mod feeding;
mod held;
mod lists;
mod looking;
mod loose;
mod moving;
mod positions;
mod processes;
mod queries;
mod running;
mod runs;
mod session;
mod sessions;
mod slices;
mod slot;
mod stepping;
mod taking;
mod telling;
mod texts;

pub use ends::{ChannelStatus, PartCounts};
pub use explaining::kpn_c_explain;
pub use held::Held;
pub use moving::{SourceItem, Wanted};
pub use processes::ProcessState;
pub use queries::{
    kpn_c_channel, kpn_c_channel_name, kpn_c_count, kpn_c_look, kpn_c_process_name,
    kpn_c_tell_channel, kpn_c_tell_processes,
};
pub use runs::{GivenLimits, RunSizes, kpn_c_check, kpn_c_run};
pub use sessions::{
    Amounts, kpn_c_close_source, kpn_c_feed, kpn_c_free, kpn_c_is_complete, kpn_c_leave_sink,
    kpn_c_move, kpn_c_open, kpn_c_open_forgetting, kpn_c_step, kpn_c_take, kpn_c_trace,
    kpn_c_verdict,
};
