//! Items are taken from a sink into a slice.
ghost use Rattle.std.specs.Prelude.{IfSome, IfNone};
ghost use Rattle.kpn_book.specs.Refusals.{IsOpenSink, RefusesTake};
ghost use Rattle.kpn_c.specs.Calls.{TakesEach};

use kpn_book::{Book, Refused};

/// How many items were taken, and why the next take was refused, if it was.
#[derive(Clone, Copy)]
pub struct Taken {
    pub count: usize,
    pub cause: Option<Refused>,
}

/// Takes items from a sink, until there is no more room for them or nothing is unread. If there is no room, it still
/// says why a take would be refused.
pub(crate) fn take_each(book: &mut Book<'_>, sink: usize, room: &mut [i64]) -> Taken
    ensures { TakesEach sink result room.old room.new book.old book.new }
{
    if room.is_empty() {
        return Taken {
            count: 0,
            cause: take_fault(book, sink),
        };
    }
    'places: for count in 0..room.len() {
        match book.take(sink) {
            Ok(Some(item)) => room[count] = item,
            Ok(None) => return Taken { count, cause: None },
            Err(cause) => {
                return Taken {
                    count,
                    cause: Some(cause),
                };
            }
        }
    }
    Taken {
        count: room.len(),
        cause: None,
    }
}

/// Why a take would be refused, whatever memory there is.
fn take_fault(book: &Book<'_>, sink: usize) -> Option<Refused>
    ensures cause { IfSome result (RefusesTake sink book.now) }
    ensures none { IfNone result (IsOpenSink book.now sink) }
{
    if !book.network().is_sink(sink) {
        return Some(Refused::NoSuchEnd);
    }
    if book.is_left(sink) {
        return Some(Refused::SinkLeft);
    }
    None
}
