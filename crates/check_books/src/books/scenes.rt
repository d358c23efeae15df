//! The calls of scenes. Each is a function with the name of a wrong body, whose answers show it.
use anyhow::{Result, bail};

/// Steps are committed once, by who is held, and from the frame where the process stands.
fn refutes_commits_without_comparing_the_frame() -> &'static str {
    "claim\ncommit 1 0\ncommit 0 0\ncommit 0 0\ncommit 2 0\nclaim\ncommit 1 0\nput-back 1\n\
    put-back 1\nclaim\ncommit 0 0\nput-back 0\nclaim\ncommit 1 3\nview"
}

/// A growth wakes the process that waited for room.
fn refutes_keeps_the_blocked_count_on_wake() -> &'static str {
    "claim\ncommit 0 0\nclaim\ncommit 1 1\nclaim\ncommit 2 2\nclaim\ncommit 0 3\nview"
}

/// Growths follow an end and waits.
fn refutes_grows_without_recording_it() -> &'static str {
    "claim\ncommit 0 0\nclaim\ncommit 1 1\nclaim\nclaim\ncommit 0 3\ncommit 2 2\nclaim\n\
    commit 0 4\nclaim\ncommit 0 5\nclaim\ncommit 0 6\nclaim\ncommit 0 7"
}

/// The process that a growth woke is claimed after one that was ready.
fn refutes_wakes_without_queueing() -> &'static str {
    "claim\ncommit 0 0\nclaim\ncommit 1 1\nclaim\nput-back 2\nclaim\ncommit 0 3\nclaim\nclaim"
}

/// The calls of the scene that is named so.
pub(crate) fn calls_of(name: &str) -> Result<&'static str> {
    Ok(match name {
        "commits_without_comparing_the_frame" => refutes_commits_without_comparing_the_frame(),
        "keeps_the_blocked_count_on_wake" => refutes_keeps_the_blocked_count_on_wake(),
        "grows_without_recording_it" => refutes_grows_without_recording_it(),
        "wakes_without_queueing" => refutes_wakes_without_queueing(),
        _ => bail!("there is no such scene"),
    })
}
