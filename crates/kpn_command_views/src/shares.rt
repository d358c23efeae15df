//! The line that names the processes with the largest shares of a whole.

use kpn_command_base::Pushed;
use kpn_text::Document;
use std::alloc::Global;

// How many processes the line names.
const NAMED: usize = 5;

/// What is shared: how the line begins, and the words for one part and for several.
#[derive(Clone, Copy)]
pub(crate) struct ShareWords {
    begin: &'static str,
    one: &'static str,
    several: &'static str,
}

/// The ticks of a longest chain.
pub(crate) const TICK_WORDS: ShareWords = ShareWords {
    begin: "bound by ",
    one: "tick",
    several: "ticks",
};

/// All steps.
pub(crate) const STEP_WORDS: ShareWords = ShareWords {
    begin: "most work by ",
    one: "step",
    several: "steps",
};

impl ShareWords {
    /// The word after a number of parts.
    pub(crate) fn word(self, count: usize) -> &'static str {
        if count == 1 { self.one } else { self.several }
    }
}

/// Writes the line for these shares of this many parts: the largest shares first, of equal ones that of the least
/// process, then what is left of the parts.
pub(crate) fn push_shares(
    alloc: Global,
    text: &mut String,
    document: &Document,
    shared: ShareWords,
    shares: &[usize],
    parts: usize,
) -> Pushed {
    let mut left = Vec::from_slice(alloc, shares)?;
    let mut others = parts;
    let mut before = shared.begin;
    for _name in 0..NAMED {
        let p = first_largest(left.as_slice());
        let share = left.get(p).copied().unwrap_or(0);
        if share == 0 {
            break;
        }
        let (name, word) = (document.instance_name(p), shared.word(share));
        write!(text, "{before}{name} ({share} {word})")?;
        if p < left.len() {
            left[p] = 0;
        }
        others = others.saturating_sub(share);
        before = ", ";
    }
    if before == shared.begin {
        write!(text, "{before}nothing\n")
    } else if others == 0 {
        text.push_str("\n")
    } else {
        let word = shared.word(others);
        write!(text, ", others ({others} {word})\n")
    }
}

// The first process with the largest share.
fn first_largest(shares: &[usize]) -> usize {
    let mut most = 0;
    for share in shares {
        most = most.max(*share);
    }
    shares.iter().take_while(|share| **share < most).count()
}
