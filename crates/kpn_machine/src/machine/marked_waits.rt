//! What each process waits for, and marks on the channels on which one may wait. A channel has one writer and one
//! reader, so an event on it wakes at most one process; if the channel has no mark, it wakes none.
ghost use Rattle.std.specs.Prelude.{◌≡◌, ℕ, ◌<◌, Bool, false, true, length, replicate, slice_index_or, slice_set, if◌then◌else◌, IfOk, Contains};
ghost use Rattle.kpn_net.specs.declared.wait.Wait.TheVariants.{Nobody, Empty, Full};
ghost use Rattle.kpn_net.specs.declared.tables.End.TheVariants.{Process};
ghost use Rattle.kpn_net.specs.Tables.{writer_of, reader_of};
ghost use Rattle.kpn_net.specs.Waits.{AreWaits, WaitsFor};
ghost use Rattle.kpn_machine.specs.Marks.{is_marked};
ghost use Rattle.kpn_machine.specs.Woken.{is_wait, waiting_at, waiting_writer, waiting_reader, woken_at, AreWoken, ends_by_batch};

use kpn_cycle::Waits;
use kpn_net::{End, Network, Wait};
use std::alloc::{AllocError, Allocator};
use std::marker::Model;

/// A wait for each process, in order of number. Contracts see it as the list of these.
#[derive(Debug, Drop)]
pub(crate) struct MarkedWaits<A: Allocator> {
    waits: Waits<A>,
    // whether a process may wait on the channel as full, and as empty
    full: Vec<bool, A>,
    empty: Vec<bool, A>,
}

impl<A: Allocator> Model for MarkedWaits<A> {
    ghost use Rattle.std.specs.Prelude.{List};
    ghost use Rattle.kpn_net.specs.declared.wait.Wait.{Wait};
    ghost use Rattle.kpn_machine.specs.Marks.{AreMarked};

    ghost Value = { List Wait };

    ghost view = { λ w. w.waits };

    ghost invariant = { λ w. AreMarked w.waits w.full.items w.empty.items };
}

impl<A: Allocator + Copy> MarkedWaits<A> {
    /// Nobody waits. The error is that memory ran out.
    pub(super) fn new(alloc: A, processes: usize, channels: usize) -> Result<Self, AllocError>
        ensures { IfOk result (λ waits. waits ≡ replicate processes Nobody) }
    {
        let waits = Waits::new(alloc, processes)?;
        let full = vec![in alloc; false; channels]?;
        let empty = vec![in alloc; false; channels]?;
        Ok(MarkedWaits { waits, full, empty })
    }
}

impl<A: Allocator> MarkedWaits<A> {
    /// The table of waits.
    pub(super) fn table(&self) -> &Waits<A>
        ensures { result.now ≡ self.now }
    {
        &self.waits
    }

    /// From now on process `p` waits on channel `c` as empty.
    pub(super) fn wait_on_empty(&mut self, p: usize, c: usize)
        requires { p < length self.old }
        ensures { self.new ≡ slice_set self.old p (Empty c) }
    {
        set_mark(&mut self.empty, c, true);
        self.waits.set(p, Wait::Empty(c));
    }

    /// From now on process `p` waits on channel `c` as full.
    pub(super) fn wait_on_full(&mut self, p: usize, c: usize)
        requires { p < length self.old }
        ensures { self.new ≡ slice_set self.old p (Full c) }
    {
        set_mark(&mut self.full, c, true);
        self.waits.set(p, Wait::Full(c));
    }

    /// Wakes the writer of a channel, if it waits on it as full: then it waits for nobody. It returns the process.
    #[inline(always)]
    pub(super) fn wake_writer(&mut self, network: &Network, c: usize) -> Option<usize>
        requires channel { c < length network.now.channels }
        requires waits { AreWaits network.now self.old }
        ensures who { result ≡ waiting_writer network.now self.old c }
        ensures after { self.new
            ≡ woken_at (is_wait (Full c)) self.old (writer_of network.now c) }
    {
        if !is_marked(&self.full, c) {
            return None;
        }
        set_mark(&mut self.full, c, false);
        wake(&mut self.waits, network.writer_of(c), Wait::Full(c))
    }

    /// Wakes the reader of a channel, if it waits on it as empty: then it waits for nobody. It returns the process.
    #[inline(always)]
    pub(super) fn wake_reader(&mut self, network: &Network, c: usize) -> Option<usize>
        requires channel { c < length network.now.channels }
        requires waits { AreWaits network.now self.old }
        ensures who { result ≡ waiting_reader network.now self.old c }
        ensures after { self.new
            ≡ woken_at (is_wait (Empty c)) self.old (reader_of network.now c) }
    {
        if !is_marked(&self.empty, c) {
            return None;
        }
        set_mark(&mut self.empty, c, false);
        wake(&mut self.waits, network.reader_of(c), Wait::Empty(c))
    }

    /// Wakes those whom a batch wakes at a channel: the reader, if it waits on it as empty and items were `put`, and
    /// the writer, if it waits on it as full and items were `taken`.
    pub(super) fn wake_by_batch(&mut self, network: &Network, c: usize, taken: bool, put: bool)
        requires channel { c < length network.now.channels }
        requires waits { AreWaits network.now self.old }
        ensures woken { AreWoken (ends_by_batch c taken put) self.old self.new }
        ensures waits { AreWaits network.now self.new }
    {
        self.wake_reader_if(network, c, put);
        self.wake_writer_if(network, c, taken);
    }

    /// Wakes the reader of a channel, as `wake_reader` does, if items were `put` there.
    fn wake_reader_if(&mut self, network: &Network, c: usize, put: bool)
        requires channel { c < length network.now.channels }
        requires waits { AreWaits network.now self.old }
        ensures { self.new ≡ (if put then woken_at (is_wait (Empty c)) self.old
            (reader_of network.now c) else self.old) }
    {
        if !put {
            return;
        }
        let _reader = self.wake_reader(network, c);
    }

    /// Wakes the writer of a channel, as `wake_writer` does, if items were `taken` from there.
    fn wake_writer_if(&mut self, network: &Network, c: usize, taken: bool)
        requires channel { c < length network.now.channels }
        requires waits { AreWaits network.now self.old }
        ensures { self.new ≡ (if taken then woken_at (is_wait (Full c)) self.old
            (writer_of network.now c) else self.old) }
    {
        if !taken {
            return;
        }
        let _writer = self.wake_writer(network, c);
    }

    /// Whether a process may wait for process `p`. If not, there is no cycle through `p`.
    pub(super) fn may_await(&self, network: &Network, p: usize) -> bool
        requires { p < length network.now.instances }
        ensures { result ≡ false → (q : ℕ) → WaitsFor network.now self.now q p → ⊥ }
    {
        if has_mark(&self.empty, network.outs(p)) {
            return true;
        }
        has_mark(&self.full, network.ins(p))
    }
}

/// Wakes the process at this end of a channel, if it waits for this: then it waits for nobody. It returns the process.
// The marks are no argument, since with them and the channel one would go over the stack.
#[inline(never)]
fn wake<A: Allocator>(waits: &mut Waits<A>, end: End, wait: Wait) -> Option<usize>
    requires { (q : ℕ) → end ≡ Process q → q < length waits.old }
    ensures who { result ≡ waiting_at (is_wait wait) waits.old end }
    ensures after { waits.new ≡ woken_at (is_wait wait) waits.old end }
{
    let End::Process(q) = end else {
        return None;
    };
    if waits.get(q) != wait {
        return None;
    }
    waits.set(q, Wait::Nobody);
    Some(q)
}

#[inline(always)]
fn set_mark<A: Allocator>(marks: &mut Vec<bool, A>, c: usize, mark: bool)
    ensures { marks.new.items ≡ slice_set marks.old.items c mark }
{
    if c < marks.len() {
        marks[c] = mark;
    }
}

#[inline(always)]
fn is_marked(marks: &[bool], c: usize) -> bool
    ensures { result ≡ is_marked marks.now c }
{
    marks.get(c).copied().unwrap_or(true)
}

/// Whether one of these channels is marked.
fn has_mark(marks: &[bool], channels: &[usize]) -> bool
    ensures { result ≡ false
        → (c : ℕ) → Contains channels.now c → is_marked marks.now c ≡ false }
{
    'channels: for k in 0..channels.len() {
        if is_marked(marks, channels[k]) {
            return true;
        }
    }
    false
}
