//! What a stream notes from turn to turn.

use crate::stepping::STRETCH;

/// At most this many turns are between two looks of the watcher.
const TURNS: u32 = 1_024;

/// What a stream notes from turn to turn.
#[derive(Drop)]
pub(crate) struct StreamPace {
    /// The stretch is over once the commits have reached this.
    pub(crate) goal: u64,
    /// How many turns are left before the next look.
    turns: u32,
}

impl StreamPace {
    /// At the start the watcher looks.
    pub(crate) fn new() -> StreamPace {
        StreamPace {
            goal: STRETCH,
            turns: 0,
        }
    }

    /// Whether it is time for the watcher to look in this turn.
    pub(crate) fn is_time_to_look(&mut self) -> bool {
        if 0 < self.turns {
            self.turns -= 1;
            return false;
        }
        self.turns = TURNS;
        true
    }

    /// Whether the stream may wait for a source in this turn. If the watcher has not looked, it does in the next one.
    pub(crate) fn may_wait(&mut self) -> bool {
        if self.turns == TURNS {
            return true;
        }
        self.turns = 0;
        false
    }
}
