//! A view of a run at one moment, copied from its machine and its schedule.
ghost use Rattle.std.specs.Prelude.{◌≡◌, ◌<◌, ◌∷◌, [], ◌++◌, length, map, IfOk, IfErr};
ghost use Rattle.std.specs.List.{range_with_len};
ghost use Rattle.kpn_history.specs.Views.{AreCounts};
ghost use Rattle.kpn_machine.specs.Machine.{channel_in, AreKept};
ghost use Rattle.kpn_chan.specs.declared.unread.Unread.TheVariants.{Forgotten};

use crate::schedule::Schedule;
use kpn_chan::{Journal, Unread, Written};
use kpn_history::View;
use kpn_lang::Sequence;
use kpn_machine::Machine;
use std::alloc::{AllocError, Allocator};

/// The view of a run with this many channels, without its journals. The error is that memory ran out.
pub(crate) fn view_without_journals<A: Allocator, B: Allocator + Copy>(
    alloc: B,
    channels: usize,
    machine: &Machine<A>,
    schedule: &Schedule<A>,
) -> Result<View<B>, AllocError>
    requires { channels ≡ length machine.now.channels }
    ensures read { let s = machine.now in IfOk result (λ view.
        view.read ≡ map (λ c. (channel_in s c).read) (range_with_len 0 channels)) }
    ensures caps { let s = machine.now in IfOk result (λ view.
        view.caps ≡ map (λ c. (channel_in s c).capacity) (range_with_len 0 channels)) }
    ensures retired { let s = machine.now in IfOk result (λ view.
        view.retired ≡ map (λ c. (channel_in s c).is_retired) (range_with_len 0 channels)) }
    ensures states { IfOk result (λ view. view.states ≡ schedule.now.states) }
    ensures counts { IfOk result (λ view. AreCounts view.states view.counts) }
{
    let mut view = View {
        journals: Sequence::new(alloc),
        read: Sequence::new(alloc),
        caps: Sequence::new(alloc),
        retired: Sequence::new(alloc),
        states: Sequence::from_vec(schedule.copy_states(alloc)?),
        counts: schedule.counts(),
    };
    'channels: for c in 0..channels {
        add_channel(machine, c, &mut view)?;
    }
    Ok(view)
}

/// Appends a channel to a view, without its journal.
fn add_channel<A: Allocator, B: Allocator>(
    machine: &Machine<A>,
    c: usize,
    view: &mut View<B>,
) -> Result<(), AllocError>
    requires { c < length machine.now.channels }
    ensures read { let s = machine.now in IfOk result (λ _.
        view.new.read ≡ view.old.read ++ (channel_in s c).read ∷ []) }
    ensures caps { let s = machine.now in IfOk result (λ _.
        view.new.caps ≡ view.old.caps ++ (channel_in s c).capacity ∷ []) }
    ensures retired { let s = machine.now in IfOk result (λ _.
        view.new.retired ≡ view.old.retired ++ (channel_in s c).is_retired ∷ []) }
    ensures states { IfOk result (λ _. view.new.states ≡ view.old.states) }
    ensures counts { IfOk result (λ _. view.new.counts ≡ view.old.counts) }
{
    let channel = machine.channel(c);
    view.read.push(channel.read_count())?;
    view.caps.push(channel.cap())?;
    view.retired.push(channel.is_retired())?;
    Ok(())
}

/// Copies of the journals of this many channels. One that is not kept is an error.
pub(crate) fn copied_journals<A: Allocator, B: Allocator + Copy>(
    alloc: B,
    channels: usize,
    machine: &Machine<A>,
) -> Result<Sequence<Written<B>, B>, Unread>
    requires { channels ≡ length machine.now.channels }
    ensures journals { let s = machine.now in IfOk result (λ journals.
        journals ≡ map (λ c. (channel_in s c).journal) (range_with_len 0 channels)) }
    ensures forgotten { let s = machine.now in IfErr result (λ why.
        why ≡ Forgotten → ¬ AreKept s) }
{
    let mut journals = Sequence::new(alloc);
    'channels: for c in 0..channels {
        let items = machine.copy_journal(alloc, c)?;
        add_journal(alloc, items, &mut journals)?;
    }
    Ok(journals)
}

/// Appends a journal with these items. The error is that memory ran out.
fn add_journal<B: Allocator + Copy>(
    alloc: B,
    items: Vec<i64, B>,
    journals: &mut Sequence<Written<B>, B>,
) -> Result<(), AllocError>
    ensures { IfOk result (λ _. journals.new ≡ journals.old ++ items.items ∷ []) }
{
    journals.push(Written::from(Journal::from_vec(alloc, items)))?;
    Ok(())
}
