//! The unread items of a channel are shown, and stay unread.
ghost use Rattle.kpn_c.specs.States.{LooksInto};

use kpn_book::Book;

/// Copies the next items of a channel to the front of a slice, as many as there is room for, and returns how many.
/// `None` if no channel has this number.
pub(crate) fn look(book: &Book<'_>, channel: usize, room: &mut [i64]) -> Option<usize>
    ensures { LooksInto channel result room.old room.new book.now }
{
    if book.network().channels() <= channel {
        return None;
    }
    'places: for count in 0..room.len() {
        match book.next_at(channel, count) {
            Some(item) => room[count] = item,
            None => return Some(count),
        }
    }
    Some(room.len())
}
