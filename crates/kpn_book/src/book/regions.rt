//! The calls for regions: their processes are claimed together, and committed or put back together.
ghost use Rattle.std.specs.Prelude.{◌≡◌, ℕ, ◌<◌, true, false, length, Contains, IfOk, IfErr, OnErr};
ghost use Rattle.kpn_book.specs.RegionClaims.{ClaimsRegion, RefusesClaim, IsSameBook};
ghost use Rattle.kpn_book.specs.RegionCalls.{CommitsRegion, RefusesRegion};
ghost use Rattle.kpn_book.specs.Regions.{batch_put_back};

use super::Book;
use crate::answers::Refused;
use crate::open_book::regions::put_back_region;
use kpn_region::Batch;
use std::alloc::{AllocError, Allocator};

impl<'n, A: Allocator> Book<'n, A> {
    /// Claims those of these processes that have not ended for a batch: the ready ones are held together, and those
    /// that wait may go on in the batch once it ends their waits. Of a channel between them the batch sees what is
    /// unread, at most `most` items; of one that they only read, at most `most` and half the capacity, or 512 of a
    /// source; and where they write, the room that is free; those channels are made roomy. If `drains` is true, it
    /// empties their sinks, those on which nothing is unread now.
    ///
    /// It returns `false`, and changes nothing, if one of them is held, none is ready, or the commits could not be
    /// counted. The error is that memory ran out. The book is then as before, but for memory that was made ready.
    pub fn claim_region<B: Allocator>(
        &mut self,
        of: &[usize],
        batch: &mut Batch<'n, B>,
        most: usize,
        drains: bool,
    ) -> Result<bool, AllocError>
    where
        A: Copy,
        requires tables { batch.old.tables ≡ self.old.tables }
        requires processes { (p : ℕ) → Contains of.now p → p < length self.old.tables.instances }
        ensures tables { batch.new.tables ≡ batch.old.tables }
        ensures claimed { IfOk result (λ claimed. (claimed ≡ true)
            → ClaimsRegion of.now most drains batch.new self.old self.new) }
        ensures refused { IfOk result (λ claimed. (claimed ≡ false) → RefusesClaim of.now self.old) }
        ensures as_before { IfOk result (λ claimed. (claimed ≡ false) → self.new ≡ self.old) }
        ensures no_memory { OnErr result (IsSameBook self.old self.new) }
    {
        self.parts.claim_region(of, batch, most, drains)
    }

    /// Commits the processes of a batch together. What was claimed has to agree with the book, as it is now: others may
    /// have moved since. The events of the batch are appended, and those whom they wake are ready. Then each process of
    /// the batch that is held is committed at the stop at which it can't go on, as by `commit_own`, or put back if it
    /// has none. It returns whether there was memory for all of these; a process for which there was none is put back.
    pub fn commit_region<B: Allocator>(&mut self, batch: &Batch<'n, B>) -> Result<bool, Refused>
    where
        A: Copy,
        requires { batch.now.tables ≡ self.old.tables }
        ensures done { IfOk result (λ memory. CommitsRegion batch.now memory self.old self.new) }
        ensures refused { IfErr result (λ cause. RefusesRegion batch.now self.old cause) }
        ensures as_before { OnErr result (self.new ≡ self.old) }
    {
        self.parts.commit_region(batch)
    }

    /// Puts the processes of a batch that are held to the tail of the queue, in order of number. Their frames stay, and
    /// what the batch has done is lost.
    pub fn put_back_region<B: Allocator>(&mut self, batch: &Batch<'n, B>)
        requires { batch.now.tables ≡ self.old.tables }
        ensures { self.new ≡ batch_put_back batch.now self.old }
    {
        put_back_region(&mut self.parts.schedule, batch);
    }
}
