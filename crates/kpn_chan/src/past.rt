//! A list that only proofs read.
ghost use Rattle.std.specs.Prelude.{◌≡◌, List, [], ◌∷◌, ◌++◌};
ghost use Rattle.std.specs.Borrow.{ftrue};

use std::fmt;
use std::marker::{Model, PhantomData};

/// What was put one after the other, oldest first, and is no longer in memory. A clause reads it as `items`.
#[derive(Drop)]
pub struct Past<T> {
    of: PhantomData<T>,
    pub ghost items: { List T },
}

impl<T> Model for Past<T> {
    ghost also_owns = { λ _. ftrue };
}

impl<T> fmt::Debug for Past<T> {
    fn fmt<W: fmt::Write>(&self, f: &mut fmt::Formatter<W>) -> fmt::Result {
        f.write_str("Past")
    }
}

// It owns nothing.
unsafe impl<T: Send> Send for Past<T> {}

impl<T> Past<T> {
    /// Nothing so far.
    pub fn new() -> Past<T>
        ensures { result.items ≡ [] }
    {
        Past { of: PhantomData }
    }

    /// The same with one more, the newest.
    #[inline(always)]
    pub fn and(&self, item: &T) -> Past<T>
        ensures { result.items ≡ self.now.items ++ item.now ∷ [] }
    {
        Past { of: PhantomData }
    }

    /// The same with all of these, oldest first.
    #[inline(always)]
    pub fn and_all(self, items: &[T]) -> Past<T>
        ensures { result.items ≡ self.items ++ items.now }
    {
        let mut past = self;
        'items: for place in 0..items.len() {
            past = past.and(&items[place]);
        }
        past
    }
}
