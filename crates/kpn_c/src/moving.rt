//! Items are fed, processes are stepped and items are taken, in one call.
ghost use Rattle.std.specs.Prelude.{◌≡◌};
ghost use Rattle.kpn_c.specs.Moving.{FeedsItems, TakesWanted, Moves, filled, code_of_moved};

use crate::codes::{NO_MEMORY, code_of_cause};
use crate::fault::number_of;
use crate::feeding::FedCount;
use crate::stepping::{StepCount, step_each};
use crate::taking::Taken;
use kpn_book::Book;

/// An item, and the source to which it is fed.
#[repr(C)]
#[derive(Clone, Copy)]
pub struct SourceItem {
    pub channel: usize,
    pub item: i64,
}

/// A place for an item that is wanted of a sink, and whether one was there: 1 or 0. Before a call C need not have set it,
/// so it is no `bool`.
#[repr(C)]
#[derive(Clone, Copy)]
pub struct Wanted {
    pub channel: usize,
    pub item: i64,
    pub has_item: u8,
}

/// Nothing was stepped.
const NO_STEPS: StepCount = StepCount {
    commits: 0,
    is_refused: false,
};

/// Nothing was taken.
const NO_TAKES: Taken = Taken {
    count: 0,
    cause: None,
};

/// What each part of a call has done.
#[derive(Clone, Copy)]
pub struct Moved {
    pub fed: FedCount,
    pub stepped: StepCount,
    pub taken: Taken,
}

/// Feeds each item to its source, in order, until one is refused.
pub(crate) fn feed_items(book: &mut Book<'_>, items: &[SourceItem]) -> FedCount
    ensures { FeedsItems items.now result book.old book.new }
{
    'items: for count in 0..items.len() {
        match book.feed(items[count].channel, items[count].item, usize::MAX) {
            Ok(()) => book.known(),
            Err(cause) => {
                return FedCount {
                    count,
                    cause: Some(cause),
                };
            }
        }
    }
    FedCount {
        count: items.len(),
        cause: None,
    }
}

/// Takes an item for each place, from the sink that the place names, if one is unread there, until a take is refused.
pub(crate) fn take_wanted(book: &mut Book<'_>, places: &mut [Wanted]) -> Taken
    ensures { TakesWanted result places.old places.new book.old book.new }
{
    'places: for count in 0..places.len() {
        match book.take(places[count].channel) {
            Ok(item) => fill(&mut places[count], item),
            Err(cause) => {
                return Taken {
                    count,
                    cause: Some(cause),
                };
            }
        }
    }
    Taken {
        count: places.len(),
        cause: None,
    }
}

/// Puts an item into its place, or notes that none was there.
fn fill(place: &mut Wanted, item: Option<i64>)
    ensures { place.new ≡ filled item place.old }
{
    match item {
        Some(item) => {
            place.item = item;
            place.has_item = 1;
        }
        None => place.has_item = 0,
    }
}

/// Feeds items, makes turns as `step_each` does, and takes what is wanted. What is refused ends the call, and what was
/// done before stays.
pub(crate) fn move_items(
    book: &mut Book<'_>,
    items: &[SourceItem],
    quota: u32,
    most: u64,
    places: &mut [Wanted],
) -> Moved
    ensures { Moves items.now quota most result places.old places.new book.old book.new }
{
    let fed = feed_items(book, items);
    if fed.cause.is_some() {
        return Moved {
            fed,
            stepped: NO_STEPS,
            taken: NO_TAKES,
        };
    }
    let stepped = step_each(book, quota, most);
    if stepped.is_refused {
        return Moved {
            fed,
            stepped,
            taken: NO_TAKES,
        };
    }
    let taken = take_wanted(book, places);
    Moved {
        fed,
        stepped,
        taken,
    }
}

/// The number of what has ended a call, or 0.
pub(crate) fn code_of_moved(moved: &Moved) -> u32
    ensures { result ≡ code_of_moved moved.now }
{
    if moved.stepped.is_refused {
        return NO_MEMORY;
    }
    match moved.fed.cause {
        Some(cause) => number_of(cause),
        None => code_of_cause(moved.taken.cause),
    }
}
