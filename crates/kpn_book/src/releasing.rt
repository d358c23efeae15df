//! What workers hold when a run is over is put back.
ghost use Rattle.std.specs.Prelude.{◌≡◌};
ghost use Rattle.kpn_book.specs.Book.{held_count};
ghost use Rattle.kpn_book.specs.Releasing.{ChangesScheduleAlone, Releases};

use crate::Book;

/// Puts back each process that is held.
pub fn put_back_held(book: &mut Book<'_>)
    ensures alone { ChangesScheduleAlone book.old book.new }
    ensures none { held_count book.new ≡ 0 }
{
    'processes: for p in 0..book.network().instances() {
        release(book, p);
    }
    book.known();
}

/// Puts back process `p`, if it is held.
#[tactic(auto, using(crate::proofs::Release::released, crate::proofs::Release::not_held))]
fn release(book: &mut Book<'_>, p: usize)
    ensures { Releases p book.old book.new }
{
    // if it is not held, this is refused, and nothing changes
    let _ = book.put_back(p);
}
