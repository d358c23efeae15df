//! Channels as rows of calls, each with its answer. For a while a heap is full, and calls get no memory.
use kpn_chan::{Channel, Unread};
use kpn_limits::MAX_CAPACITY;
use linked_list_allocator::LocalHeap;
use std::alloc::{AllocError, Global};
use std::process::Abort;
use std::test::Fail;

/// A call, and what it has to answer.
#[derive(Clone, Copy)]
enum Call<'a> {
    /// Puts items, each into room that is reserved for it.
    Put(&'a [i64]),
    /// Puts the numbers from the first to before the second.
    PutNumbers(i64, i64),
    Get(Option<i64>),
    /// The next reads return the numbers from the first to before the second.
    GetNumbers(i64, i64),
    /// Grows by one, if there is memory.
    Grow(bool),
    /// Grows so far, if there is memory.
    GrowTo(u32, bool),
    Retire,
    /// Makes the channel roomy, if there is memory.
    MakeRoomy(bool),
    /// Whether this many items can be joined.
    HasPlacesFor(usize, bool),
    /// The first number of items is read and these are put, at once, while at most the second number was unread.
    Join(usize, &'a [i64], usize),
    /// The same with the numbers from the second to before the third.
    JoinNumbers(usize, i64, i64, usize),
    IsRetired,
    Cap(Option<u32>),
    HasRoom(bool),
    IsFull(bool),
    At(usize, Option<i64>),
    /// The unread item after this many others.
    PeekAt(usize, Option<i64>),
    /// All items that a reader may get.
    Readable(&'a [i64]),
    /// The most items that were ever unread.
    Most(usize),
    /// How many items were read, and how many are unread.
    Counts(usize, usize),
    Journal(&'a [i64]),
    /// The journal, copied into the heap.
    HeldJournal(&'a [i64]),
    /// The heap has no memory for an item, for a copy of the journal, or for another channel.
    NoMemory,
    /// The heap has no memory for another channel.
    IsHeapFull,
}

/// Puts items, each into room that is reserved for it.
fn put_all(channel: &mut Channel<&LocalHeap>, items: &[i64]) -> Result<bool, AllocError> {
    for item in items {
        channel.reserve_one()?;
        channel.put(*item);
    }
    Ok(true)
}

/// Puts the numbers from `first` to before `end`.
fn put_numbers(
    channel: &mut Channel<&LocalHeap>,
    first: i64,
    end: i64,
) -> Result<bool, AllocError> {
    for item in first..end {
        channel.reserve_one()?;
        channel.put(item);
    }
    Ok(true)
}

/// Whether the next reads return the numbers from `first` to before `end`.
fn gives_numbers(channel: &mut Channel<&LocalHeap>, first: i64, end: i64) -> bool {
    for item in first..end {
        if channel.get() != Some(item) {
            return false;
        }
    }
    true
}

/// Whether a channel may grow by one, and does so as is wanted.
fn grows(channel: &mut Channel<&LocalHeap>, wanted: bool) -> bool {
    match channel.cap() {
        Some(cap) if cap < MAX_CAPACITY => channel.grow().is_ok() == wanted,
        _ => false,
    }
}

/// Whether a channel may grow so far, and does so as is wanted.
fn grows_to(channel: &mut Channel<&LocalHeap>, to: u32, wanted: bool) -> bool {
    match channel.cap() {
        Some(cap) if cap < to && to <= MAX_CAPACITY => channel.grow_to(to).is_ok() == wanted,
        _ => false,
    }
}

/// Whether items may be joined to a channel, and then joins them.
fn joins(channel: &mut Channel<&LocalHeap>, taken: usize, items: &[i64], most: usize) -> bool {
    channel.known();
    let Some(all) = channel.len().checked_add(items.len()) else {
        return false;
    };
    let left = all.saturating_sub(taken);
    let within = match channel.cap() {
        Some(cap) => left <= cap as usize,
        None => false,
    };
    let may_put = items.is_empty() || channel.is_retired() || within;
    let is_seen = channel.is_retired() || left <= channel.most().max(most);
    if !channel.has_places_for(items.len()) || all < taken || !may_put || !is_seen {
        return false;
    }
    channel.join(taken, items, most);
    true
}

/// Whether the numbers from `first` to before `end` may be joined to a channel, and then joins them.
fn joins_numbers(
    alloc: Global,
    channel: &mut Channel<&LocalHeap>,
    taken: usize,
    first: i64,
    end: i64,
    most: usize,
) -> Result<bool, AllocError> {
    let mut items = Vec::new(alloc);
    for item in first..end {
        items.push(item)?;
    }
    Ok(joins(channel, taken, &items, most))
}

/// Whether there is no memory for an item, for a copy of the journal, or for another channel.
fn lacks_memory<'h>(heap: &'h LocalHeap, channel: &mut Channel<&'h LocalHeap>) -> bool {
    let is_refused = channel.reserve_one().is_err();
    is_refused && channel.copy_journal(heap).is_err() && Channel::new(heap, None).is_err()
}

/// Whether a channel has this journal.
fn holds(
    alloc: Global,
    channel: &Channel<&LocalHeap>,
    journal: &[i64],
) -> Result<bool, AllocError> {
    let Ok(copy) = channel.copy_journal(alloc) else {
        return Err(AllocError);
    };
    Ok(copy.as_slice() == journal)
}

/// Whether it has this journal, and the heap has memory for a copy.
fn holds_in<'h>(
    heap: &'h LocalHeap,
    channel: &Channel<&'h LocalHeap>,
    journal: &[i64],
) -> Result<bool, AllocError> {
    let Ok(copy) = channel.copy_journal(heap) else {
        return Err(AllocError);
    };
    Ok(copy.as_slice() == journal)
}

/// Makes a call: whether it answers so.
fn answers<'h>(
    alloc: Global,
    heap: &'h LocalHeap,
    channel: &mut Channel<&'h LocalHeap>,
    call: Call<'_>,
) -> Result<bool, AllocError> {
    match call {
        Call::Put(items) => put_all(channel, items),
        Call::PutNumbers(first, end) => put_numbers(channel, first, end),
        Call::GetNumbers(first, end) => Ok(gives_numbers(channel, first, end)),
        Call::Grow(wanted) => Ok(grows(channel, wanted)),
        Call::GrowTo(cap, wanted) => Ok(grows_to(channel, cap, wanted)),
        Call::Journal(journal) => holds(alloc, channel, journal),
        Call::HeldJournal(journal) => holds_in(heap, channel, journal),
        Call::NoMemory => Ok(lacks_memory(heap, channel)),
        Call::IsHeapFull => Ok(Channel::new(heap, None).is_err()),
        Call::MakeRoomy(wanted) => Ok(channel.make_roomy().is_ok() == wanted),
        Call::JoinNumbers(taken, first, end, most) => {
            joins_numbers(alloc, channel, taken, first, end, most)
        }
        call => Ok(shows(channel, call)),
    }
}

/// Whether these are the items that a reader may get.
fn lends(channel: &Channel<&LocalHeap>, wanted: &[i64]) -> bool {
    let (first, rest) = channel.readable();
    if wanted.len() < first.len() {
        return false;
    }
    let (front, back) = wanted.split_at(first.len());
    *front == *first && *back == *rest
}

/// Makes a call that takes no memory: whether it answers so.
fn shows(channel: &mut Channel<&LocalHeap>, call: Call<'_>) -> bool {
    match call {
        Call::Get(wanted) => channel.get() == wanted,
        Call::Retire => {
            channel.retire();
            true
        }
        Call::HasPlacesFor(count, wanted) => channel.has_places_for(count) == wanted,
        Call::Join(taken, items, most) => joins(channel, taken, items, most),
        Call::IsRetired => channel.is_retired(),
        Call::Cap(wanted) => channel.cap() == wanted,
        Call::HasRoom(wanted) => channel.room() == wanted,
        Call::IsFull(wanted) => channel.is_full() == wanted,
        Call::At(place, wanted) => channel.at(place) == wanted,
        Call::PeekAt(place, wanted) => channel.peek_at(place) == wanted,
        Call::Readable(wanted) => lends(channel, wanted),
        Call::Most(wanted) => channel.most() == wanted,
        Call::Counts(read, unread) => {
            channel.read_count() == read
                && channel.len() == unread
                && channel.is_empty() == (unread == 0)
        }
        _ => false,
    }
}

/// Calls on a channel of a heap.
#[derive(Clone, Copy)]
struct Row<'a> {
    /// How many bytes the heap has.
    size: usize,
    capacity: Option<u32>,
    before: &'a [Call<'a>],
    /// How many bytes something else takes for a while.
    filling: usize,
    meanwhile: &'a [Call<'a>],
    after: &'a [Call<'a>],
}

/// The ring has two places, and the last item lies in front of the one before it.
const LENDS_WHAT_IS_UNREAD: Row<'static> = Row {
    size: 4_096,
    capacity: Some(2),
    before: &[
        Call::Readable(&[]),
        Call::Put(&[5, 6]),
        Call::Readable(&[5, 6]),
        Call::Get(Some(5)),
        Call::Put(&[7]),
        Call::Readable(&[6, 7]),
        Call::Retire,
        Call::Readable(&[]),
    ],
    filling: 16,
    meanwhile: &[],
    after: &[],
};

const FILLS_GROWS_GIVES_AND_RETIRES: Row<'static> = Row {
    size: 4_096,
    capacity: Some(2),
    before: &[
        Call::Put(&[5]),
        Call::IsFull(false),
        Call::Put(&[6]),
        Call::IsFull(true),
        Call::Cap(Some(2)),
        Call::Grow(true),
        Call::IsFull(false),
        Call::PeekAt(1, Some(6)),
        Call::PeekAt(2, None),
        Call::Get(Some(5)),
        Call::Most(2),
        Call::Retire,
        Call::Get(None),
        Call::PeekAt(0, None),
        Call::Most(2),
        Call::IsRetired,
        Call::Cap(Some(3)),
        Call::Grow(true),
        Call::Cap(Some(4)),
        Call::At(1, Some(6)),
        Call::At(2, None),
        Call::Journal(&[5, 6]),
        Call::Counts(1, 1),
    ],
    filling: 16,
    meanwhile: &[],
    after: &[],
};

const REFUSED_CALLS_CHANGE_NOTHING: Row<'static> = Row {
    size: 256,
    capacity: Some(8),
    before: &[Call::Put(&[5, 6, 7, 8]), Call::Get(Some(5))],
    filling: 160,
    meanwhile: &[
        Call::NoMemory,
        Call::HasRoom(false),
        Call::Cap(Some(8)),
        Call::Journal(&[5, 6, 7, 8]),
        Call::Counts(1, 3),
    ],
    after: &[Call::Put(&[9]), Call::HeldJournal(&[5, 6, 7, 8, 9])],
};

const A_GROWTH_THAT_IS_REFUSED_CHANGES_NOTHING: Row<'static> = Row {
    size: 512,
    capacity: Some(2),
    before: &[Call::Put(&[5, 6])],
    filling: 464,
    meanwhile: &[
        Call::Cap(Some(2)),
        Call::Grow(false),
        Call::Cap(Some(2)),
        Call::GrowTo(5, false),
        Call::Counts(0, 2),
    ],
    after: &[
        Call::Cap(Some(2)),
        Call::Grow(true),
        Call::Cap(Some(3)),
        Call::GrowTo(5, true),
        Call::Cap(Some(5)),
        Call::IsFull(false),
        Call::PutNumbers(7, 10),
        Call::IsFull(true),
        Call::GetNumbers(5, 10),
    ],
};

// A chunk has 4,096 items.
const A_JOURNAL_GOES_ON_PAST_ITS_CHUNKS: Row<'static> = Row {
    size: 1_048_576,
    capacity: None,
    before: &[
        Call::PutNumbers(0, 8_193),
        Call::At(4_095, Some(4_095)),
        Call::At(4_096, Some(4_096)),
        Call::At(8_192, Some(8_192)),
        Call::At(8_193, None),
        Call::GetNumbers(0, 3),
        Call::Counts(3, 8_190),
        Call::Retire,
        Call::PutNumbers(9, 10),
        Call::Get(None),
        Call::Counts(3, 8_191),
        Call::At(8_193, Some(9)),
    ],
    filling: 16,
    meanwhile: &[],
    after: &[],
};

// The ring gets more places while items wrap around its end.
const ITEMS_KEEP_THEIR_ORDER: Row<'static> = Row {
    size: 65_536,
    capacity: None,
    before: &[
        Call::PutNumbers(0, 64),
        Call::GetNumbers(0, 10),
        Call::PutNumbers(64, 200),
        Call::GetNumbers(10, 200),
        Call::Counts(200, 0),
        Call::Put(&[200]),
        Call::Most(190),
    ],
    filling: 16,
    meanwhile: &[],
    after: &[],
};

const A_BATCH_IS_JOINED: Row<'static> = Row {
    size: 131_072,
    capacity: Some(4),
    before: &[
        Call::Put(&[5, 6]),
        Call::HasPlacesFor(0, true),
        Call::HasPlacesFor(1, false),
        Call::MakeRoomy(true),
        Call::HasPlacesFor(4_096, true),
        Call::HasPlacesFor(4_097, false),
    ],
    filling: 65_000,
    meanwhile: &[
        Call::IsHeapFull,
        // 5, 6 and 7 are read
        Call::Join(3, &[7, 8, 9], 3),
        Call::Counts(3, 2),
        Call::Most(3),
        Call::Journal(&[5, 6, 7, 8, 9]),
        Call::Join(0, &[10, 11], 4),
        Call::IsFull(true),
        Call::Most(4),
        Call::GetNumbers(8, 10),
        Call::Join(2, &[], 0),
        Call::Counts(7, 0),
        Call::Get(None),
        Call::Most(4),
    ],
    after: &[
        Call::PutNumbers(12, 16),
        Call::IsFull(true),
        Call::HasPlacesFor(1, true),
        Call::Grow(true),
        Call::HasPlacesFor(1, false),
        Call::HasPlacesFor(0, true),
        Call::MakeRoomy(true),
        Call::Retire,
        Call::HasPlacesFor(1, true),
        Call::Join(0, &[16], 0),
        Call::Counts(7, 5),
        Call::Most(4),
        Call::Journal(&[5, 6, 7, 8, 9, 10, 11, 12, 13, 14, 15, 16]),
    ],
};

const A_CHANNEL_IS_NOT_MADE_ROOMY: Row<'static> = Row {
    size: 131_072,
    capacity: Some(4),
    before: &[Call::Put(&[5, 6])],
    filling: 130_000,
    meanwhile: &[
        Call::MakeRoomy(false),
        Call::HasPlacesFor(1, false),
        Call::Counts(0, 2),
        Call::Join(1, &[], 0),
        Call::Counts(1, 1),
    ],
    after: &[
        Call::MakeRoomy(true),
        Call::Join(2, &[7, 8], 2),
        Call::Counts(3, 1),
        Call::Get(Some(8)),
    ],
};

// The ring of the other channel has to get more places than it began with.
const A_RING_IS_NOT_MADE_ROOMY: Row<'static> = Row {
    size: 262_144,
    capacity: Some(10_000),
    before: &[Call::Put(&[5, 6])],
    filling: 131_072,
    meanwhile: &[
        Call::MakeRoomy(false),
        Call::HasPlacesFor(1, false),
        Call::HasRoom(true),
        Call::Counts(0, 2),
    ],
    after: &[Call::MakeRoomy(true), Call::HasPlacesFor(1, true)],
};

// A chunk has 4,096 items.
const JOINED_ITEMS_GO_ON_PAST_A_CHUNK: Row<'static> = Row {
    size: 1_048_576,
    capacity: Some(5_000),
    before: &[
        Call::PutNumbers(0, 4_000),
        Call::GetNumbers(0, 3_999),
        Call::MakeRoomy(true),
        Call::JoinNumbers(1, 4_000, 4_096, 96),
        Call::HasPlacesFor(1, true),
        Call::JoinNumbers(96, 4_096, 6_000, 2_000),
        Call::HasPlacesFor(1, false),
        Call::Counts(4_096, 1_904),
        Call::At(4_095, Some(4_095)),
        Call::At(4_096, Some(4_096)),
        Call::At(5_999, Some(5_999)),
        Call::At(6_000, None),
        Call::GetNumbers(4_096, 4_100),
        Call::PutNumbers(6_000, 8_500),
        Call::At(8_191, Some(8_191)),
        Call::At(8_192, Some(8_192)),
        Call::MakeRoomy(true),
        Call::JoinNumbers(4_400, 8_500, 12_500, 4_400),
        Call::HasPlacesFor(1, false),
        Call::GetNumbers(8_500, 8_501),
        Call::At(12_287, Some(12_287)),
        Call::At(12_288, Some(12_288)),
        Call::Counts(8_501, 3_999),
    ],
    filling: 16,
    meanwhile: &[],
    after: &[],
};

const ROWS: [(&str, Row<'static>); 10] = [
    (
        "fills, grows, gives and retires",
        FILLS_GROWS_GIVES_AND_RETIRES,
    ),
    ("refused calls change nothing", REFUSED_CALLS_CHANGE_NOTHING),
    (
        "a growth that is refused changes nothing",
        A_GROWTH_THAT_IS_REFUSED_CHANGES_NOTHING,
    ),
    (
        "a journal goes on past its chunks",
        A_JOURNAL_GOES_ON_PAST_ITS_CHUNKS,
    ),
    ("items keep their order", ITEMS_KEEP_THEIR_ORDER),
    ("what is unread is lent", LENDS_WHAT_IS_UNREAD),
    ("a batch is joined", A_BATCH_IS_JOINED),
    ("a channel is not made roomy", A_CHANNEL_IS_NOT_MADE_ROOMY),
    ("a ring is not made roomy", A_RING_IS_NOT_MADE_ROOMY),
    (
        "joined items go on past a chunk",
        JOINED_ITEMS_GO_ON_PAST_A_CHUNK,
    ),
];

/// Makes calls, each of which has to answer so.
fn make<'h>(
    rt: &impl Abort,
    alloc: Global,
    heap: &'h LocalHeap,
    channel: &mut Channel<&'h LocalHeap>,
    calls: &[Call<'_>],
    name: &str,
) -> Result<(), AllocError> {
    for (k, call) in calls.iter().enumerate() {
        let answered = answers(alloc, heap, channel, *call)?;
        assert!(rt; answered, "{name}: call {k}");
    }
    Ok(())
}

fn make_all(rt: &impl Abort, alloc: Global, row: &Row<'_>, name: &str) -> Result<(), AllocError> {
    let heap = LocalHeap::new(alloc, row.size)?;
    let mut channel = Channel::new(&heap, row.capacity)?;
    make(rt, alloc, &heap, &mut channel, row.before, name)?;
    let filling = Vec::<u8, &LocalHeap>::with_capacity(&heap, row.filling)?;
    make(rt, alloc, &heap, &mut channel, row.meanwhile, name)?;
    filling.destroy_empty();
    make(rt, alloc, &heap, &mut channel, row.after, name)
}

#[test]
fn channels_answer_as_these_rows_say(rt: HostRuntime) -> Result<(), Fail> {
    for (name, row) in &ROWS {
        make_all(&rt, rt.alloc(), row, name)?;
    }
    Ok(())
}

/// Puts items one by one on a channel that forgets, and reads each: whether it answers so.
fn passes(alloc: Global, items: i64) -> Result<bool, AllocError> {
    let mut channel = Channel::keeping(alloc, Some(4), false)?;
    let mut is_so = !channel.is_kept();
    for item in 0..items {
        channel.reserve_one()?;
        channel.put(item);
        is_so = is_so && channel.len() == 1 && channel.get() == Some(item);
    }
    let is_forgotten = matches!(channel.copy_journal(alloc), Err(Unread::Forgotten));
    let begins = channel.begins_with(&[0]);
    let is_small = channel.most() == 1 && channel.places() <= 512;
    channel.retire();
    let is_empty = channel.is_empty();
    let is_past = channel.into_written().journal().is_none();
    Ok(is_so && is_forgotten && !begins && is_small && is_empty && is_past)
}

#[test]
fn a_channel_forgets(rt: HostRuntime) -> Result<(), Fail> {
    assert!(rt; passes(rt.alloc(), 1_000)?);
    Ok(())
}
