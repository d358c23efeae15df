//! The queue of the ready processes. A process leaves at its head and another joins at its tail in a few instructions.
ghost use Rattle.std.specs.Prelude.{◌≡◌, ◌<◌, ◌≤◌, ℕ, [], ◌∷◌, ◌++◌, length, drop, IfOk, slice_get, vec_capacity};
ghost use Rattle.std.specs.List.{range_with_len};
ghost use Rattle.kpn_book.specs.Queue.{waiting, IsQueue};

use std::alloc::{AllocError, Allocator};

/// Numbers of processes in a list. It grows to its end before the queue drops those that were taken. So the queue needs
/// no ring, and it moves a number once while it takes in many.
#[derive(Debug, Drop)]
pub(crate) struct Queue<A: Allocator> {
    pub(crate) numbers: Vec<usize, A>,
    // how many of them were taken
    pub(crate) taken: usize,
}

impl<A: Allocator> Queue<A> {
    /// The numbers below this one, in order, and room for as many. The error is that memory ran out.
    pub(crate) fn new(alloc: A, processes: usize) -> Result<Self, AllocError>
        ensures numbers { IfOk result (λ queue. waiting queue ≡ range_with_len 0 processes) }
        ensures queue { IfOk result (λ queue. IsQueue processes queue) }
    {
        let mut numbers = Vec::with_capacity(alloc, places_for(processes))?;
        for p in 0..processes {
            numbers.push_reserved(p);
        }
        Ok(Queue { numbers, taken: 0 })
    }

    pub(crate) fn len(&self) -> usize
        requires { self.now.taken ≤ length self.now.numbers.items }
        ensures { result ≡ length (waiting self.now) }
    {
        self.numbers.len() - self.taken
    }

    pub(crate) fn first(&self) -> Option<usize>
        ensures { result ≡ slice_get self.now.numbers.items self.now.taken }
    {
        self.numbers.get(self.taken).copied()
    }

    /// Takes the first number, which is there.
    pub(crate) fn drop_first(&mut self)
        requires { self.old.taken < length self.old.numbers.items }
        ensures numbers { waiting self.new ≡ drop 1 (waiting self.old) }
        ensures queue { (room : ℕ) → IsQueue room self.old → IsQueue room self.new }
    {
        self.taken += 1;
    }

    /// Puts a number after the others. There are fewer than there is room for.
    pub(crate) fn put(&mut self, p: usize)
        requires { (room : ℕ) × IsQueue room self.old × (length (waiting self.old) < room) }
        ensures numbers { waiting self.new ≡ waiting self.old ++ p ∷ [] }
        ensures queue { (room : ℕ) → IsQueue room self.old → IsQueue room self.new }
    {
        if self.numbers.len() == self.numbers.capacity() {
            self.drop_taken();
        }
        self.numbers.push_reserved(p);
    }

    #[cold]
    #[inline(never)]
    fn drop_taken(&mut self)
        requires { self.old.taken ≤ length self.old.numbers.items }
        ensures numbers { self.new.numbers.items ≡ waiting self.old }
        ensures taken { self.new.taken ≡ 0 }
        ensures places { vec_capacity self.new.numbers ≡ vec_capacity self.old.numbers }
    {
        let left = self.len();
        self.numbers.copy_within(self.taken.., 0);
        self.numbers.truncate(left);
        self.taken = 0;
    }
}

/// How many places there are for this many processes. With more places the queue moves numbers less often.
fn places_for(processes: usize) -> usize
    ensures { processes ≤ result }
{
    if processes < 1 << 32 {
        4 * processes + 64
    } else {
        processes
    }
}
