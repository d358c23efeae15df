//! What holds of every book, as contracts of functions that do nothing. The layers above cite them.
ghost use Rattle.std.specs.Prelude.{◌≡◌, ℕ, ◌+◌, ◌<◌, ◌≤◌, Bool, false, List, [], ◌∷◌, ◌++◌, length, map, count_by, Option, Some};
ghost use Rattle.kpn_lang.specs.declared.talk.Said.{Said};
ghost use Rattle.kpn_lang.specs.Alone.{alone};
ghost use Rattle.kpn_net.specs.declared.tables.Policy.TheVariants.{All};
ghost use Rattle.kpn_net.specs.declared.wait.Wait.TheVariants.{Full as FullOn};
ghost use Rattle.kpn_net.specs.Tables.{instance_at, program_of, larger_capacity};
ghost use Rattle.kpn_net.specs.Process.{Family, at_channel};
ghost use Rattle.kpn_net.specs.Iteration.{IsBelowLeast, IsLeast};
ghost use Rattle.kpn_step.specs.Residual.{residual};
ghost use Rattle.kpn_step.specs.Stops.{Advanced};
ghost use Rattle.kpn_step.specs.After.{GoesOnAs};
ghost use Rattle.kpn_chan.specs.Channel.{unread};
ghost use Rattle.kpn_history.specs.declared.event.Event.{Event};
ghost use Rattle.kpn_history.specs.declared.event.Event.TheVariants as event;
ghost use Rattle.kpn_history.specs.declared.state.Counts.{Counts};
ghost use Rattle.kpn_history.specs.declared.state.Verdict.TheVariants.{Ended, Clogged, Jammed};
ghost use Rattle.kpn_history.specs.Channels.{written_on, read_on, fed, capacity_after, capacity_or_zero};
ghost use Rattle.kpn_history.specs.Talks.{talk_of};
ghost use Rattle.kpn_history.specs.Waiting.{wait_of, waits_of, HasFullCycle};
ghost use Rattle.kpn_history.specs.Legal.{Legal, OwesGrowth};
ghost use Rattle.kpn_history.specs.Stops.{CanGrow, IsJammedAtLimit, WaitsForBlocked};
ghost use Rattle.kpn_history.specs.Ends.{WaitsOnFull, IsQuiet, IsSettled, IsVerdict};
ghost use Rattle.kpn_history.specs.Views.{IsStateOf, AreCounts};
ghost use Rattle.kpn_machine.specs.Machine.{channel_in, frame_in, is_empty_wait, is_full_wait};
ghost use Rattle.kpn_region.specs.Batch.{Batch};
ghost use Rattle.kpn_book.specs.Schedule.{state_at};
ghost use Rattle.kpn_book.specs.declared.answers.Done.{Done};
ghost use Rattle.kpn_book.specs.Book.{Book, IsHeld, IsClaimed};
ghost use Rattle.kpn_book.specs.Appending.{AppendsAll, Happens};
ghost use Rattle.kpn_book.specs.Commits.{Commits};
ghost use Rattle.kpn_book.specs.Kept.{IsBook};
ghost use Rattle.kpn_book.specs.Stepping.{StepsNext};
ghost use Rattle.kpn_book.specs.InARow.{RunsInRow, RunsInVain};
ghost use Rattle.kpn_book.specs.RegionCalls.{CommitsRegion, CommitsAtStops};
ghost use Rattle.kpn_book.specs.RegionClaims.{ClaimsRegion};
ghost use Rattle.kpn_book.specs.Remembering.{RemembersAsMuch};

// ---- at each moment

/// The journal of a channel is what the history wrote there: what was read and then what is unread. If the reader is
/// there, no more is unread than the capacity. Each journal is below the least solution for what was fed.
pub fn journals()
    ensures written { (b : Book) → IsBook b → (c : ℕ) → c < length b.tables.channels
        → (channel_in b.machine c).journal ≡ written_on b.history c }
    ensures queued { (b : Book) → IsBook b → (c : ℕ) → c < length b.tables.channels
        → (channel_in b.machine c).journal
        ≡ read_on b.history c ++ unread (channel_in b.machine c) }
    ensures within { (b : Book) → IsBook b → (c : ℕ) → c < length b.tables.channels
        → (channel_in b.machine c).is_retired ≡ false
        → (cap : ℕ) → (channel_in b.machine c).capacity ≡ Some cap
        → length (unread (channel_in b.machine c)) ≤ cap }
    ensures below { (b : Book) → IsBook b → (c : ℕ) → c < length b.tables.channels
        → IsBelowLeast b.tables (fed b.tables b.history) c
        (channel_in b.machine c).journal }
{}

/// The history is legal. The state of each process is what the history says of it. The counts of waiting processes are
/// the numbers of processes that are blocked by the history.
pub fn the_history()
    ensures legal { (b : Book) → IsBook b → Legal b.tables b.history }
    ensures states { (b : Book) → IsBook b → (p : ℕ) → p < length b.tables.instances
        → IsStateOf b.tables b.history p (state_at b.schedule.states p) }
    ensures empty { (b : Book) → IsBook b → (counts : Counts) → AreCounts b.schedule.states counts
        → counts.empty ≡ count_by is_empty_wait (waits_of b.tables b.history) }
    ensures full { (b : Book) → IsBook b → (counts : Counts) → AreCounts b.schedule.states counts
        → counts.full ≡ count_by is_full_wait (waits_of b.tables b.history) }
{}

/// Each growth took the smallest awaited full channel of a blocked cycle or of a settled network, below the limit, at
/// the moment when it was owed. It names the new capacity. No blocked cycle has a full channel below the limit. Under
/// the policy `all`, no settled book has a process that waits on a full channel below the limit.
pub fn growths()
    ensures owed { (b : Book) → IsBook b → (B rest : List Event) (p d n : ℕ)
        → b.history ≡ B ++ event.Grow p d n ∷ rest → OwesGrowth b.tables B p d }
    ensures told { (b : Book) → IsBook b → (B rest : List Event) (p d n : ℕ)
        → b.history ≡ B ++ event.Grow p d n ∷ rest
        → n ≡ larger_capacity b.tables (capacity_or_zero b.tables B d) }
    ensures none_is_left { (b : Book) → IsBook b → ¬ CanGrow b.tables b.history }
    ensures at_stop { (b : Book) → IsBook b → b.tables.policy ≡ All
        → IsSettled b.tables b.history → (p c : ℕ) → p < length b.tables.instances
        → wait_of b.tables b.history p ≡ FullOn c
        → capacity_after b.tables b.history c ≡ Some b.tables.limit }
{}

/// The frame of a process goes on as the process does after what it has said. Take lists that begin with what the
/// process read. On them it says what it has said, and then what the frame says on the rest, and it comes to what the
/// frame comes to.
pub fn frames_go_on()
    ensures { (b : Book) → IsBook b → (p : ℕ) → p < length b.tables.instances → (X more : Family)
        → ((c : ℕ) → X c ≡ read_on b.history c ++ more c)
        → (said : List Said) × (map (at_channel (instance_at b.tables p)) said ≡ talk_of b.history p)
        × GoesOnAs (alone (program_of b.tables p) (instance_at b.tables p).pars)
        (map X (instance_at b.tables p).ins) said
        (residual (program_of b.tables p).blocks (frame_in b.machine p))
        (map more (instance_at b.tables p).ins) }
{}

// ---- at a stop

/// If each process has ended or waits on an empty channel, each journal is the least solution for what was fed.
pub fn a_quiet_book()
    ensures { (b : Book) → IsBook b → IsQuiet b.tables b.history
        → (c : ℕ) → c < length b.tables.channels
        → IsLeast b.tables (fed b.tables b.history) c (channel_in b.machine c).journal }
{}

/// What a verdict means. Ended: the book is quiet. Jammed: some blocked cycle has full channels, all at the limit.
/// Clogged: each process that is blocked on a full channel waits for a blocked process, and no blocked cycle has a full
/// channel. After each verdict no legal event but a leave can follow.
pub fn what_a_verdict_means()
    ensures ended { (b : Book) → IsBook b → IsVerdict b.tables b.history (Some Ended)
        → IsQuiet b.tables b.history }
    ensures jammed { (b : Book) → IsBook b → IsVerdict b.tables b.history (Some Jammed)
        → IsJammedAtLimit b.tables b.history }
    ensures clogged { (b : Book) → IsBook b → IsVerdict b.tables b.history (Some Clogged)
        → (p : ℕ) → WaitsOnFull b.tables b.history p → WaitsForBlocked b.tables b.history p }
    ensures no_cycle { (b : Book) → IsBook b → IsVerdict b.tables b.history (Some Clogged)
        → ¬ HasFullCycle b.tables b.history }
    ensures last { (b : Book) → IsBook b → IsSettled b.tables b.history
        → (e : Event) → Legal b.tables (b.history ++ e ∷ []) → ((c : ℕ) × (e ≡ event.Leave c)) }
{}

// ---- from one book to the next

/// Events that are appended one after the other extend the history. They change neither the network nor the number of
/// commits.
pub fn what_is_appended()
    ensures tables { (events : List Event) (before after : Book) → AppendsAll events before after
        → after.tables ≡ before.tables }
    ensures history { (events : List Event) (before after : Book) → AppendsAll events before after
        → after.history ≡ before.history ++ events }
    ensures commits { (events : List Event) (before after : Book) → AppendsAll events before after
        → after.commits ≡ before.commits }
{}

/// A commit keeps the network, appends its events and counts itself.
pub fn what_a_commit_does()
    ensures tables { (p : ℕ) (a : Advanced) (answer : Done) (before after : Book)
        → Commits p a answer before after → after.tables ≡ before.tables }
    ensures history { (p : ℕ) (a : Advanced) (answer : Done) (before after : Book)
        → (commits : Commits p a answer before after)
        → after.history ≡ before.history ++ commits.handles.events }
    ensures commits { (p : ℕ) (a : Advanced) (answer : Done) (before after : Book)
        → Commits p a answer before after → after.commits ≡ before.commits + 1 }
{}

/// The commit of a region appends the events of its batch, and then those of its stops: each is an event of one of its
/// processes, or a growth. It counts a commit for each get and put of the batch and for each process that it commits at
/// its stop. No process of the region is held then: each is ready, waits or has ended, as the history says.
pub fn what_a_region_commit_does()
    ensures { (b : Batch) (memory : Bool) (before after : Book) → IsBook before
        → b.tables ≡ before.tables → CommitsRegion b memory before after → CommitsAtStops b before after }
{}

/// A process that is claimed is held.
pub fn a_claimed_process()
    ensures { (p : ℕ) (before after : Book) → IsClaimed p before after → IsHeld after p }
{}

/// What a book keeps in memory, it keeps through each call: events that are appended or happen, commits, steps and rows
/// of steps, and the claim and the commit of a region.
pub fn what_is_kept()
    ensures appended { (events : List Event) (before after : Book) → AppendsAll events before after
        → RemembersAsMuch before after }
    ensures happens { (e : Event) (before after : Book) → Happens e before after
        → RemembersAsMuch before after }
    ensures commits { (p : ℕ) (a : Advanced) (answer : Done) (before after : Book)
        → Commits p a answer before after → RemembersAsMuch before after }
    ensures steps { (quota : ℕ) (answer : Done) (before after : Book)
        → StepsNext quota answer before after → RemembersAsMuch before after }
    ensures rows { (quota most : ℕ) (sink : Option ℕ) (before after : Book)
        → RunsInRow quota most sink before after → RemembersAsMuch before after }
    ensures in_vain { (quota most : ℕ) (before after : Book)
        → RunsInVain quota most before after → RemembersAsMuch before after }
    ensures claims { (of : List ℕ) (most : ℕ) (drains : Bool) (b : Batch) (before after : Book)
        → ClaimsRegion of most drains b before after → RemembersAsMuch before after }
    ensures regions { (b : Batch) (memory : Bool) (before after : Book) → b.tables ≡ before.tables
        → CommitsRegion b memory before after → RemembersAsMuch before after }
{}
