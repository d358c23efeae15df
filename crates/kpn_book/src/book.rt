//! The book as its owner sees it. Each call keeps all that holds of a book.
ghost use Rattle.std.specs.Prelude.{◌≡◌, ◌↔◌, ◌<◌, ◌≤◌, false, ℕ, [], length, is_some, IfOk, IfErr, IsTrue};
ghost use Rattle.kpn_lang.specs.Prefix.{IsPrefix};
ghost use Rattle.kpn_net.specs.Tables.{instance_at, program_of};
ghost use Rattle.kpn_step.specs.Frame.{start_frame};
ghost use Rattle.kpn_chan.specs.Channel.{next_item, unread};
ghost use Rattle.kpn_chan.specs.declared.unread.Unread.TheVariants.{Forgotten};
ghost use Rattle.kpn_history.specs.Channels.{read_on, is_closed};
ghost use Rattle.kpn_history.specs.Views.{AreCounts, Agrees};
ghost use Rattle.kpn_history.specs.Ends.{IsVerdict};
ghost use Rattle.kpn_machine.specs.Machine.{channel_in, frame_in, AreKept};
ghost use Rattle.kpn_book.specs.Schedule.{all_ready};
ghost use Rattle.kpn_book.specs.Kept.{IsBook};
ghost use Rattle.kpn_book.specs.Bounded.{most_places};
ghost use Rattle.kpn_book.specs.Remembering.{Remembers};
ghost use Rattle.kpn_book.specs.Snapshot.{ShowsARun, IsBelowKahn, IsKahnAtRest};

use crate::open_book::OpenBook;
use crate::schedule::Schedule;
use crate::view::{copied_journals, view_without_journals};
use kpn_chan::Unread;
use kpn_history::{Counts, History, Keeping, State, Verdict, View};
use kpn_lang::Sequence;
use kpn_machine::Machine;
use kpn_net::Network;
use std::alloc::{AllocError, Allocator, Global};
use std::marker::Model;

mod complete;
mod detaching;
mod outside;
mod processes;
mod regions;
mod waiting;

/// The value under the lock of a run: its network, the history so far, the machine to which it leads, the
/// schedule of the processes, and how many commits were made.
///
/// Contracts see these five, and whether the events are kept. Each call leaves a book of which `known` holds, and keeps
/// what the book keeps (`laws::what_is_kept`). A call that is refused leaves the book as it was, except for `step_next`
/// and `run_on`: what they have done before memory ran out stays.
#[derive(Debug)]
pub struct Book<'n, A: Allocator = Global> {
    parts: OpenBook<'n, A>,
}

impl<A: Allocator> Drop for Book<'_, A> {
    fn drop(self) {
        let Book { parts } = self;
        drop(parts);
    }
}

impl<'n, A: Allocator> Model for Book<'n, A> {
    ghost use Rattle.std.specs.Coded.{codes};
    ghost use Rattle.kpn_lang.specs.Codes.{parts_code};
    ghost use Rattle.kpn_book.specs.Book.{Book as Seen};

    ghost Value = { Seen };

    ghost coded = { Prim.hlevel (codes, parts_code) };

    ghost use Rattle.kpn_book.specs.Kept.{IsKept};
    ghost use Rattle.kpn_book.specs.Open.{book_of};

    ghost view = { λ b. book_of b.parts };

    ghost invariant = { λ b. IsKept (book_of b.parts) };
}

impl<'n, A: Allocator + Copy> Book<'n, A> {
    /// The book of a network at the start: nothing has happened, each process is at the start of its program, and all
    /// are ready, in order of number. It makes the room of the queue for all of them. The book keeps the allocator for
    /// all that it will hold, and all that will happen. The error is that memory ran out.
    pub fn new(alloc: A, network: &'n Network) -> Result<Self, AllocError>
        ensures tables { IfOk result (λ book. book.tables ≡ network.now) }
        ensures history { IfOk result (λ book. book.history ≡ []) }
        ensures schedule { IfOk result (λ book.
            book.schedule ≡ all_ready (length network.now.instances)) }
        ensures commits { IfOk result (λ book. book.commits ≡ 0) }
        ensures frames { let t = network.now in IfOk result (λ book.
            (p : ℕ) → p < length t.instances → frame_in book.machine p
            ≡ start_frame (program_of t p) (instance_at t p).pars) }
        ensures book { IfOk result (λ book. IsBook book) }
        ensures kept { IfOk result (λ book. Remembers Keeping.All book) }
    {
        Book::keeping(alloc, network, Keeping::All)
    }

    /// The same book, which keeps what it is told to keep of what will happen.
    pub fn keeping(alloc: A, network: &'n Network, keeping: Keeping) -> Result<Self, AllocError>
        ensures tables { IfOk result (λ book. book.tables ≡ network.now) }
        ensures history { IfOk result (λ book. book.history ≡ []) }
        ensures schedule { IfOk result (λ book.
            book.schedule ≡ all_ready (length network.now.instances)) }
        ensures commits { IfOk result (λ book. book.commits ≡ 0) }
        ensures frames { let t = network.now in IfOk result (λ book.
            (p : ℕ) → p < length t.instances → frame_in book.machine p
            ≡ start_frame (program_of t p) (instance_at t p).pars) }
        ensures book { IfOk result (λ book. IsBook book) }
        ensures kept { IfOk result (λ book. Remembers keeping book) }
    {
        let machine = Machine::keeping(alloc, network, keeping)?;
        let schedule = Schedule::new(alloc, network.instances())?;
        network.known();
        schedule.known();
        Ok(Book {
            parts: OpenBook {
                network,
                machine,
                history: History::keeping(alloc, keeping),
                schedule,
                commits: 0,
            },
        })
    }
}

impl<'n, A: Allocator> Book<'n, A> {
    /// Does nothing. A caller's proof learns from it what holds of every book.
    pub fn known(&self)
        ensures { IsBook self.now }
    {
        self.parts.network.known();
        self.parts.schedule.known();
    }

    /// The network.
    pub fn network(&self) -> &'n Network
        ensures { result.now ≡ self.now.tables }
    {
        self.parts.network
    }

    /// How many processes are in each state.
    pub fn counts(&self) -> Counts
        ensures { AreCounts self.now.schedule.states result }
    {
        self.parts.schedule.counts()
    }

    /// How many commits were made.
    pub fn commits(&self) -> u64
        ensures { result ≡ self.now.commits }
    {
        self.parts.commits
    }

    /// The events so far. They are kept if the book keeps them.
    pub fn history(&self) -> &History<A>
        ensures events { result.now.events ≡ self.now.history }
        ensures kept { result.now.is_kept ≡ self.now.keeps_events }
    {
        &self.parts.history
    }

    /// Moves the events so far out of the book.
    pub fn into_history(self) -> History<A>
        ensures events { result.events ≡ self.entry.history }
        ensures kept { result.is_kept ≡ self.entry.keeps_events }
    {
        let Book { parts } = self;
        parts.history
    }

    /// Whether a take from this sink, or a get from this channel, would give an item.
    pub fn has_item(&self, c: usize) -> bool
        requires { c < length self.now.tables.channels }
        ensures { result ≡ is_some (next_item (channel_in self.now.machine c)) }
    {
        self.parts.machine.has_item(c)
    }

    /// How many items of a channel are unread.
    pub fn unread_count(&self, c: usize) -> usize
        requires { c < length self.now.tables.channels }
        ensures { result ≡ length (unread (channel_in self.now.machine c)) }
    {
        self.parts.machine.channel(c).len()
    }

    /// How many items were read from a channel.
    pub fn read_count(&self, c: usize) -> usize
        requires { c < length self.now.tables.channels }
        ensures { result ≡ length (read_on self.now.history c) }
    {
        self.parts.machine.channel(c).read_count()
    }

    /// The most items of a channel that were ever unread while its reader was there.
    pub fn most_unread(&self, c: usize) -> usize
        requires { c < length self.now.tables.channels }
        ensures { result ≡ (channel_in self.now.machine c).most }
    {
        self.parts.machine.channel(c).most()
    }

    /// For how many items of a channel there is memory. If its items are not kept, their number has a bound that stays
    /// the same however long the run is: the capacity sets it, or for a source how many items were ever unread.
    pub fn places(&self, c: usize) -> usize
        requires { c < length self.now.tables.channels }
        ensures { let channel = channel_in self.now.machine c in
            channel.is_kept ≡ false → result ≤ most_places channel }
    {
        self.parts.machine.channel(c).places()
    }

    /// Whether a channel is a source that was closed.
    pub fn is_closed(&self, c: usize) -> bool
        requires { c < length self.now.tables.channels }
        ensures { result ≡ is_closed self.now.history c }
    {
        self.parts.machine.is_closed(c)
    }

    /// Whether the journal of a channel is kept, and begins with these items. The journal is all that was ever put on
    /// the channel.
    pub fn journal_begins(&self, c: usize, items: &[i64]) -> bool
        requires { c < length self.now.tables.channels }
        ensures { IsTrue result ↔ (IsTrue (channel_in self.now.machine c).is_kept
            × IsPrefix items.now (channel_in self.now.machine c).journal) }
    {
        self.parts.machine.channel(c).begins_with(items)
    }

    /// How the run has come to a stop, if it has. It has if each process has ended or waits, each source is closed and
    /// each sink is empty or left.
    pub fn verdict(&self) -> Option<Verdict>
        ensures { IsVerdict self.now.tables self.now.history result }
    {
        self.parts.network.known();
        if !self.parts.schedule.is_idle() {
            return None;
        }
        self.parts.judge()
    }

    /// A view of the run at this moment, in lists of an allocator that the caller names. A legal history that owes no
    /// growth agrees with it. Each journal is a prefix of the least solution for what was fed, and is that solution if
    /// each process has ended or waits on an empty channel. A journal that is not kept is an error.
    pub fn snapshot<B: Allocator + Copy>(&self, alloc: B) -> Result<View<B>, Unread>
        ensures agrees { IfOk result (λ view. Agrees self.now.tables self.now.history view) }
        ensures states { IfOk result (λ view. view.states ≡ self.now.schedule.states) }
        ensures run { IfOk result (λ view. ShowsARun self.now.tables view) }
        ensures below { IfOk result (λ view. IsBelowKahn self.now.tables view) }
        ensures quiet { IfOk result (λ view. IsKahnAtRest self.now.tables view) }
        ensures forgotten { IfErr result (λ why.
            why ≡ Forgotten → ¬ AreKept self.now.machine) }
    {
        self.known();
        let OpenBook {
            network,
            machine,
            schedule,
            ..
        } = &self.parts;
        let channels = network.channels();
        let mut view = view_without_journals(alloc, channels, machine, schedule)?;
        match copied_journals(alloc, channels, machine) {
            Ok(journals) => view.journals = journals,
            Err(why) => return Err(why),
        }
        Ok(view)
    }
}

impl<'n> Book<'n> {
    /// A view of the run at its end, and its history. They are moved out of the book as far as possible: no journal is
    /// copied. The error is that memory ran out.
    pub fn into_view(self, alloc: Global) -> Result<(View, History), AllocError>
        ensures agrees { IfOk result (λ told. Agrees self.entry.tables self.entry.history told.0) }
        ensures states { IfOk result (λ told. told.0.states ≡ self.entry.schedule.states) }
        ensures history { IfOk result (λ told. told.1.events ≡ self.entry.history) }
        ensures kept { IfOk result (λ told. told.1.is_kept ≡ self.entry.keeps_events) }
    {
        let Book { parts } = self;
        let channels = parts.network.channels();
        let mut view = view_without_journals(alloc, channels, &parts.machine, &parts.schedule)?;
        view.journals = parts.machine.into_written(alloc)?;
        Ok((view, parts.history))
    }

    /// The states of the processes, and the history, which is moved out of the book. The error is that memory ran out.
    pub fn into_states(self, alloc: Global) -> Result<(Sequence<State>, History), AllocError>
        ensures states { IfOk result (λ told. told.0 ≡ self.entry.schedule.states) }
        ensures history { IfOk result (λ told. told.1.events ≡ self.entry.history) }
        ensures kept { IfOk result (λ told. told.1.is_kept ≡ self.entry.keeps_events) }
    {
        let Book { parts } = self;
        let states = parts.schedule.copy_states(alloc)?;
        Ok((Sequence::from_vec(states), parts.history))
    }
}
