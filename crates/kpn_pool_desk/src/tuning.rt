//! The numbers of a run by workers that were tuned. Each has its unit in its name, and says what chose it: where it
//! names nothing else, `bench/workers/command.py` does, which compares 1 to 16 workers with one thread.

// ---- what a worker does in one hold of the lock

/// A worker claims no more processes in one hold: this many share its price, and others find enough that are ready.
pub(crate) const TURNS_PER_BATCH: usize = 8;

/// A process makes no more steps in a region between two gets or puts: a step takes 4 to 35 ns (`bench/step/run.py`), and
/// one long turn after many short ones would keep the region for long.
pub(crate) const STEPS_PER_SHORT_TURN: u32 = 1_000;

/// This many items are fed in one hold: they take some tenths of a millisecond.
pub const ITEMS_PER_FEED: usize = 16_384;

// ---- how workers wait

/// This many tries to take the lock take some microseconds: less than a sleep and a wake.
pub const LOCK_TRIES: u32 = 400;

/// Those outside try for longer than a worker has the lock that commits a region, and so get it when it is free for a
/// moment.
pub const LOCK_TRIES_OUTSIDE: u32 = 16_000;

/// Who looks on reads the clock this many times before each try, so that those that are busy get the lock.
pub const CLOCK_READS_PER_TRY: u32 = 16;

/// For so long somebody looks on: some times as long as it takes to sleep and to be woken (`bench/idle/run.py`).
pub const LOOK_ON_MICROSECONDS: u64 = 20;

/// For so long a worker does while others run regions: as long as one of these takes.
pub const LOOK_ON_REGIONS_MICROSECONDS: u64 = 100;

/// For so long the worker that keeps watch rests. So seldom it costs nothing (`bench/idle/run.py`), and two such rests,
/// after which it takes the place of a worker that is held, are less than a tenth of a second.
pub(crate) const WATCH_MILLISECONDS: u64 = 40;

/// For so long the others rest, which are notified when they are needed.
pub(crate) const REST_MILLISECONDS: u64 = 1_000;

// ---- when the network is cut into regions

/// Before this many commits the workers make single turns, which are timed: 20 of each of 100 processes. Then the
/// network is one region.
pub(crate) const TIMED_COMMITS: u64 = 2_000;

/// No turn counts for more: one that was interrupted weighs little.
pub(crate) const LONGEST_TURN_NANOSECONDS: u64 = 16_000;

/// No turn counts for less: few steps take as long (`bench/step/run.py`).
pub(crate) const SHORTEST_TURN_NANOSECONDS: u64 = 20;

/// The network is cut at this many commits, which take some milliseconds.
pub(crate) const COMMITS_BEFORE_CUT: u64 = 20_000;

/// It is cut anew at this many times as many, since what goes through it may change.
pub(crate) const COMMITS_FACTOR_OF_NEXT_CUT: u64 = 16;

/// A batch of a region makes at most this many gets and puts: they take as long as a worker looks on.
pub(crate) const EVENTS_PER_REGION: u32 = 4_096;

/// Or this many for each process of the network, if that is more: a claim and a commit go over all processes, and take
/// as long for each as some events.
pub(crate) const EVENTS_PER_PROCESS: u32 = 16;

/// A worker claims the same region again this many times in a row, whatever the others wait for.
pub(crate) const CLAIMS_OF_ONE_REGION: u32 = 16;

// ---- which regions

/// A get or put takes so long beside the steps of its process, by turns: each keeps the lock from others, and waits for
/// it.
pub(crate) const BY_TURNS_NANOSECONDS: u64 = 1_500;

/// And so long in a region, on a wide channel, where many come without a wait.
pub(crate) const WIDE_NANOSECONDS: u64 = 10;

/// And so long there on a narrow one.
pub(crate) const NARROW_NANOSECONDS: u64 = 45;

/// A channel of a smaller capacity is narrow. None such is cut: a hand-over would pass an item or two.
pub(crate) const WIDE_ITEMS: u32 = 8;

/// A hand-over takes so long in the mean: a claim, a commit, and now and then a worker that has to be woken. With 8 us,
/// four workers had 0.39 of the speed of one thread (a source and 8 copies); with 2.5 us more rows are slower than
/// faster.
pub(crate) const HAND_OVER_NANOSECONDS: u64 = 80_000;

/// And for so long of that the lock is held.
pub(crate) const HAND_OVER_HOLD_NANOSECONDS: u64 = 1_000;

/// The lock is held for one part in this many of the work in regions besides: for the events that are joined.
pub(crate) const PARTS_UNDER_THE_LOCK: u64 = 10;

/// A cut is taken if it saves more than one part in this many, and a region may take one such part more than its even
/// share: two runs of one network differ by more.
pub(crate) const PARTS_OF_A_GAIN: u64 = 8;
