//! What gives full channels more room, and where to write it.

use crate::pieces::{push, push_made};
use crate::waits::NetworkWaits;
use crate::words::Evidence;
use kpn_command_explain::{SettingLines, setting_lines};
use kpn_limits::MAX_CAPACITY;
use kpn_net::Policy;
use kpn_shelf::Shelf;
use kpn_text::Document;
use std::alloc::{AllocError, Global};

const AT_MOST: &str = "\
. There is no larger `limit`: look for a process that writes more than its reader reads.
";

/// Adds which channels are full at the end of a run that is clogged or jammed, by its status, and what to write in the
/// file of its description.
pub(crate) fn push_room<R, S: Shelf>(
    text: &mut Vec<u8>,
    document: &Document,
    file: &str,
    waits: &NetworkWaits,
    status: u8,
    evidence: &Evidence<'_, R, S>,
) -> Result<(), AllocError> {
    let alloc = evidence.alloc;
    let Ok(bytes) = evidence.shelf.load(alloc, file) else {
        return Ok(());
    };
    let lines = setting_lines(alloc, &bytes)?;
    if !waits.push_full(text, document)? {
        return Ok(());
    }
    let grows_all = status == 4 || document.network().policy() == Policy::All;
    if grows_all || waits.is_one_at_limit(document) {
        push_limit(text, alloc, document, file, lines, grows_all)
    } else {
        push_policy(text, alloc, document, file, lines)
    }
}

// Adds which limit to raise, if it can be, and that other channels are to grow too if they do not.
fn push_limit(
    text: &mut Vec<u8>,
    alloc: Global,
    document: &Document,
    file: &str,
    lines: SettingLines,
    grows_all: bool,
) -> Result<(), AllocError> {
    let limit = document.network().limit();
    let Some(line) = lines.limit else {
        return push(text, AT_MOST);
    };
    if limit >= MAX_CAPACITY {
        return push(text, AT_MOST);
    }
    push_made(
        text,
        format!(in alloc; ". Write a larger number in `limit {limit};`, line {line} of {file}"),
    )?;
    push(
        text,
        if grows_all {
            ", or look for a process that writes\nmore than its reader reads.\n"
        } else {
            ", and `policy all;` after it.\n"
        },
    )
}

// Adds where to write that all channels are to grow.
fn push_policy(
    text: &mut Vec<u8>,
    alloc: Global,
    document: &Document,
    file: &str,
    lines: SettingLines,
) -> Result<(), AllocError> {
    push(text, ". Write `policy all;` ")?;
    let limit = document.network().limit();
    push_made(
        text,
        match (lines.policy, lines.limit, lines.network) {
            (Some(line), _, _) => format!(in alloc;
                "in place of `policy cycles;`, line {line} of {file}"
            ),
            (None, Some(line), _) => format!(in alloc;
                "after `limit {limit};`, line {line} of {file}"
            ),
            (None, None, Some(line)) => format!(in alloc;
                "after `network {{`, line {line} of {file}"
            ),
            (None, None, None) => String::from_str(alloc, "at the front of the network"),
        },
    )?;
    push(
        text,
        ": then such a channel\ngrows, and so the run goes on. Or give it a larger `cap`.\n",
    )
}
