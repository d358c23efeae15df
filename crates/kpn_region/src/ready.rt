//! Which processes may go on.
use kpn_limits::MAX_LARGE_PROCESSES;

const WORD: usize = 64;

const WORDS: usize = MAX_LARGE_PROCESSES / WORD;

/// A set of processes, which takes them out in order of number, round after round. Nothing is proved of it: whom it
/// names has a turn, and may find that it can't go on.
#[derive(Clone, Copy, Debug)]
pub(crate) struct Ready {
    words: [u64; WORDS],
    // how many of them are in use
    used: usize,
    // the word of the process that came last, and the bits after it
    word: usize,
    behind: u64,
}

impl Ready {
    /// The set without processes, of this many.
    pub(crate) fn new(processes: usize) -> Ready {
        Ready {
            words: [0; WORDS],
            used: processes.div_ceil(WORD),
            word: 0,
            behind: u64::MAX,
        }
    }

    /// Takes all processes out.
    pub(crate) fn clear(&mut self) {
        self.words = [0; WORDS];
        self.word = 0;
        self.behind = u64::MAX;
    }

    /// Puts a process in.
    #[inline(always)]
    pub(crate) fn insert(&mut self, p: usize) {
        if let Some(word) = self.words.get_mut(p / WORD) {
            *word |= 1 << (p % WORD);
        }
    }

    /// Takes out the process that comes next after the last one.
    #[inline(always)]
    pub(crate) fn next(&mut self) -> Option<usize> {
        let mut at = self.word;
        let mut rest = *self.words.get(at)? & self.behind;
        // the first word comes twice: before its other bits come all others
        'words: for _word in 0..=WORDS {
            if rest != 0 {
                return self.take(at, rest);
            }
            let next = at.wrapping_add(1);
            at = if next < self.used { next } else { 0 };
            rest = *self.words.get(at)?;
        }
        None
    }

    /// Takes out the first of these processes of a word.
    #[inline(always)]
    fn take(&mut self, at: usize, rest: u64) -> Option<usize> {
        let lowest = rest & rest.wrapping_neg();
        let word = self.words.get_mut(at)?;
        *word &= !lowest;
        self.word = at;
        self.behind = !(lowest | lowest.wrapping_sub(1));
        Some(at % WORDS * WORD + rest.trailing_zeros() as usize)
    }
}
