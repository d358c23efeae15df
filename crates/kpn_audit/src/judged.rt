//! What is found of one event.

use kpn_machine::OwedGrowth;

/// What is found of the event that comes next.
#[derive(Clone, Copy, PartialEq, Eq)]
pub enum Judged {
    /// It may follow, and the machine is the one after it. This growth is owed then.
    Follows(Option<OwedGrowth>),
    /// It may not follow.
    Illegal,
    /// Its process used up its steps before it came to the event.
    Budget,
}
