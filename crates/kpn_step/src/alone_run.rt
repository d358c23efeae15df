//! What a process does if it is stepped alone on whole lists.
use crate::stop::AloneStop;
use kpn_lang::{Said, Sequence};

/// What the process said, in order, and how it ended.
#[derive(Drop)]
pub struct AloneRun {
    pub talk: Sequence<Said>,
    pub stop: AloneStop,
}
