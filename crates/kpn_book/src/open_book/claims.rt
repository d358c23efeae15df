//! The claim of a region: the frames of its processes and what they see of the channels are handed to a batch.
ghost use Rattle.std.specs.Prelude.{◌≡◌, ℕ, ◌<◌, ◌≤◌, true, false, length, Contains, IsTrue, OnOk, IfOk, OnErr};
ghost use Rattle.kpn_net.specs.Faults.{IsNetwork};
ghost use Rattle.kpn_net.specs.Waits.{AreWaits};
ghost use Rattle.kpn_net.specs.declared.tables.End.TheVariants.{Process};
ghost use Rattle.kpn_chan.specs.Channel.{unread};
ghost use Rattle.kpn_machine.specs.Machine.{channel_in, IsMachine};
ghost use Rattle.kpn_region.specs.Batch.{IsFresh, IsEmpty};
ghost use Rattle.kpn_book.specs.Kept.{IsKept};
ghost use Rattle.kpn_book.specs.Open.{book_of};
ghost use Rattle.kpn_book.specs.RegionClaims.{may_claim, is_end_within, items_claimed, room_claimed, drains_claimed, IsRoomyToWrite, ClaimsRegion, RefusesClaim, IsSameBook};
ghost use Rattle.kpn_book.specs.ClaimParts.{with_process_of, HasProcesses, MakesRoom, SeesChannel, SeesChannels};

use super::OpenBook;
use super::regions::hold_region;
use crate::schedule::Schedule;
use kpn_chan::Channel;
use kpn_history::State;
use kpn_machine::Machine;
use kpn_net::{End, Network, Wait};
use kpn_region::Batch;
use std::alloc::{AllocError, Allocator};

// So many items of a source are claimed at most. They are copied, and compared at the commit, whether or not the region
// takes them.
const FROM_SOURCE: usize = 512;

impl<'n, A: Allocator> OpenBook<'n, A> {
    /// Claims those of these processes that have not ended for a batch, as `Book::claim_region` says.
    pub(crate) fn claim_region<B: Allocator>(
        &mut self,
        of: &[usize],
        batch: &mut Batch<'n, B>,
        most: usize,
        drains: bool,
    ) -> Result<bool, AllocError>
    where
        A: Copy,
        requires tables { batch.old.tables ≡ self.old.network.now }
        requires processes { (p : ℕ) → Contains of.now p → p < length self.old.network.now.instances }
        requires kept { IsKept (book_of self.old) }
        ensures tables { batch.new.tables ≡ batch.old.tables }
        ensures claimed { IfOk result (λ claimed. (claimed ≡ true)
            → ClaimsRegion of.now most drains batch.new (book_of self.old) (book_of self.new)) }
        ensures refused { IfOk result (λ claimed. (claimed ≡ false)
            → RefusesClaim of.now (book_of self.old)) }
        ensures as_before { IfOk result (λ claimed. (claimed ≡ false)
            → book_of self.new ≡ book_of self.old) }
        ensures no_memory { OnErr result (IsSameBook (book_of self.old) (book_of self.new)) }
        ensures kept { IsKept (book_of self.new) }
    {
        if !self.can_count(0) || !may_claim(&self.schedule, of) {
            return Ok(false);
        }
        self.network.known();
        self.schedule.known();
        batch.clear();
        claim_processes(&self.machine, &self.schedule, of, batch);
        claim_channels(self.network, &mut self.machine, batch, most, drains)?;
        hold_waits(&self.machine, of, batch);
        hold_region(&mut self.schedule, batch);
        Ok(true)
    }
}

/// Whether these processes may be claimed together: none is held, and one is ready.
fn may_claim<A: Allocator>(schedule: &Schedule<A>, of: &[usize]) -> bool
    requires { (p : ℕ) → Contains of.now p → p < length schedule.now.states }
    ensures { result ≡ may_claim of.now schedule.now.states }
{
    let mut some_ready = false;
    'processes: for k in 0..of.len() {
        match schedule.state(of[k]) {
            State::Held => return false,
            State::Ready => some_ready = true,
            State::WaitsEmpty(_) | State::WaitsFull(_) | State::Ended(_) => {}
        }
    }
    some_ready
}

/// Takes those of these processes that have not ended into a batch, where they stand.
fn claim_processes<A: Allocator, B: Allocator>(
    machine: &Machine<A>,
    schedule: &Schedule<A>,
    of: &[usize],
    batch: &mut Batch<'_, B>,
)
    requires processes { (p : ℕ) → Contains of.now p → p < length batch.old.tables.instances }
    requires states { length schedule.now.states ≡ length batch.old.tables.instances }
    requires shape { IsMachine batch.old.tables machine.now }
    requires fresh { IsFresh batch.old }
    requires empty { IsEmpty batch.old.first }
    ensures { HasProcesses of.now batch.old.tables machine.now batch.new }
{
    'processes: for k in 0..of.len() {
        batch.known();
        claim_process(machine, schedule, of[k], batch);
    }
}

/// Takes process `p` into a batch, if it has not ended.
fn claim_process<A: Allocator, B: Allocator>(
    machine: &Machine<A>,
    schedule: &Schedule<A>,
    p: usize,
    batch: &mut Batch<'_, B>,
)
    requires process { p < length batch.old.tables.instances }
    requires states { length schedule.now.states ≡ length batch.old.tables.instances }
    requires shape { IsMachine batch.old.tables machine.now }
    requires fresh { IsFresh batch.old }
    ensures tables { batch.new.tables ≡ batch.old.tables }
    ensures fresh { IsFresh batch.new }
    ensures claims { batch.new.first ≡ with_process_of machine.now p batch.old.first }
{
    if machine.end_of(p).is_some() {
        return;
    }
    let ready = schedule.state(p) == State::Ready;
    batch.claim_process(p, machine.frame(p), ready);
}

/// Takes the channels of the processes of a batch into it, and makes those roomy to which they write.
fn claim_channels<A: Allocator + Copy, B: Allocator>(
    network: &Network,
    machine: &mut Machine<A>,
    batch: &mut Batch<'_, B>,
    most: usize,
    drains: bool,
) -> Result<(), AllocError>
    requires tables { network.now ≡ batch.old.tables }
    requires channels { length machine.old.channels ≡ length batch.old.tables.channels }
    requires fresh { IsFresh batch.old }
    ensures tables { batch.new.tables ≡ batch.old.tables }
    ensures room { MakesRoom machine.old machine.new }
    ensures places { OnOk result ((c : ℕ) → c < length batch.old.tables.channels
        → IsRoomyToWrite batch.old.tables batch.old.first machine.new c) }
    ensures sees { OnOk result (SeesChannels most drains machine.old
        (length batch.old.tables.channels) batch.old batch.new) }
{
    'channels: for c in 0..network.channels() {
        batch.known();
        claim_channel(network, c, machine, batch, most, drains)?;
    }
    Ok(())
}

/// Takes channel `c` into a batch, as far as it is one of its processes.
fn claim_channel<A: Allocator + Copy, B: Allocator>(
    network: &Network,
    c: usize,
    machine: &mut Machine<A>,
    batch: &mut Batch<'_, B>,
    most: usize,
    drains: bool,
) -> Result<(), AllocError>
    requires tables { network.now ≡ batch.old.tables }
    requires channel { c < length batch.old.tables.channels }
    requires channels { length machine.old.channels ≡ length batch.old.tables.channels }
    requires fresh { IsFresh batch.old }
    ensures tables { batch.new.tables ≡ batch.old.tables }
    ensures room { MakesRoom machine.old machine.new }
    ensures places { OnOk result
        (IsRoomyToWrite batch.old.tables batch.old.first machine.new c) }
    ensures sees { OnOk result (SeesChannel most drains c (channel_in machine.old c)
        batch.old batch.new) }
{
    let reads = is_end_within(batch, network.reader_of(c));
    let writes = is_end_within(batch, network.writer_of(c));
    if !reads && !writes {
        return batch.claim_channel(c, &[], 0, false);
    }
    make_room(machine, c, writes)?;
    let channel = machine.channel(c);
    let items = items_claimed(channel, reads, writes, most);
    let room = room_claimed(channel, writes, items);
    let drains = drains_claimed(drains, writes, network.is_sink(c), channel);
    batch.claim_front(c, channel, items, room, drains)
}

/// Makes channel `c` roomy if the processes of a batch write it.
fn make_room<A: Allocator + Copy>(
    machine: &mut Machine<A>,
    c: usize,
    writes: bool,
) -> Result<(), AllocError>
    requires { c < length machine.old.channels }
    ensures room { MakesRoom machine.old machine.new }
    ensures places { OnOk result (writes ≡ true
        → IsTrue (channel_in machine.new c).is_roomy) }
{
    if !writes {
        return Ok(());
    }
    machine.make_roomy(c)
}

/// Tells a batch on which channels these processes wait.
fn hold_waits<A: Allocator, B: Allocator>(
    machine: &Machine<A>,
    of: &[usize],
    batch: &mut Batch<'_, B>,
)
    requires network { IsNetwork batch.old.tables }
    requires processes { (p : ℕ) → Contains of.now p → p < length batch.old.tables.instances }
    requires waits { AreWaits batch.old.tables machine.now.waits }
    ensures { batch.new ≡ batch.old }
{
    'processes: for k in 0..of.len() {
        hold_wait(machine, of[k], batch);
    }
}

/// Tells a batch on which channel process `p` waits, if it waits.
fn hold_wait<A: Allocator, B: Allocator>(machine: &Machine<A>, p: usize, batch: &mut Batch<'_, B>)
    requires network { IsNetwork batch.old.tables }
    requires process { p < length batch.old.tables.instances }
    requires waits { AreWaits batch.old.tables machine.now.waits }
    ensures { batch.new ≡ batch.old }
{
    match machine.wait(p) {
        Wait::Nobody => {}
        Wait::Empty(c) => batch.hold(p, c),
        Wait::Full(c) => batch.hold(p, c),
    }
}

/// Whether an end of a channel is a process of a batch.
fn is_end_within<B: Allocator>(batch: &Batch<'_, B>, end: End) -> bool
    requires { (p : ℕ) → end ≡ Process p → p < length batch.now.tables.instances }
    ensures { result ≡ is_end_within batch.now.now end }
{
    match end {
        End::Process(p) => batch.is_within(p),
        End::Source | End::Sink => false,
    }
}

/// How many items of a channel are claimed. Who only reads it leaves its writer half of the capacity, and takes part of
/// what a source has.
fn items_claimed<A: Allocator>(
    channel: &Channel<A>,
    reads: bool,
    writes: bool,
    most: usize,
) -> usize
    ensures { result ≡ items_claimed reads writes most channel.now }
{
    if !reads || channel.is_retired() {
        return 0;
    }
    let items = most.min(channel.len());
    if writes {
        return items;
    }
    match channel.cap() {
        Some(cap) => items.min(cap as usize - cap as usize / 2),
        None => items.min(FROM_SOURCE),
    }
}

/// How many items of a channel may be there and not taken, if this many are claimed.
fn room_claimed<A: Allocator>(channel: &Channel<A>, writes: bool, items: usize) -> u64
    requires { items ≤ length (unread channel.now) }
    ensures { result ≡ room_claimed writes items channel.now }
{
    if !writes {
        return 0;
    }
    if channel.is_retired() {
        return u64::MAX;
    }
    match channel.cap() {
        Some(cap) => u64::from(cap).saturating_sub((channel.len() - items) as u64),
        None => 0,
    }
}

/// Whether a batch empties a channel: it writes it, and it is a sink with a reader, on which nothing is unread.
fn drains_claimed<A: Allocator>(
    drains: bool,
    writes: bool,
    sink: bool,
    channel: &Channel<A>,
) -> bool
    ensures { result ≡ drains_claimed drains writes sink channel.now }
{
    drains && writes && sink && !channel.is_retired() && channel.len() == 0
}
