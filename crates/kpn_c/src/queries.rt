//! What C asks about a session: its parts, their names and their states. None of these calls changes anything.
ghost use Rattle.kpn_c.specs.Sessions.{IsOpen};
ghost use Rattle.kpn_c.specs.Telling.{PutsChannelName, PutsProcessName};
ghost use Rattle.kpn_c.specs.States.{TellsNext};
ghost use Rattle.kpn_c.specs.Exports.{Leads, Asks, FindsChannel, TellsCounts, TellsChannel, TellsProcesses};

use crate::codes::{NO_SUCH_CHANNEL, OK};
use crate::ends::{ChannelStatus, PartCounts};
use crate::held::Held;
use crate::processes::ProcessState;
use crate::slot::{put_back, taken};

/// Finds the number of a channel.
#[unsafe(no_mangle)]
pub extern "C" fn kpn_c_channel(
    held: Held,
    name: &[u8],
    back: &mut Held,
    channel: &mut usize,
) -> u32
    requires { IsOpen held.slot }
    ensures { Leads (FindsChannel name.now result channel.new) held.slot back.new.slot }
{
    let (boxed, session) = taken(held);
    let found = session.find_channel(name);
    *back = put_back(boxed, session);
    match found {
        Some(number) => {
            *channel = number;
            OK
        }
        None => NO_SUCH_CHANNEL,
    }
}

/// Tells how many processes and channels there are.
#[unsafe(no_mangle)]
pub extern "C" fn kpn_c_count(held: Held, back: &mut Held, told: &mut PartCounts) -> u32
    requires { IsOpen held.slot }
    ensures { Leads (Asks (TellsCounts result told.new)) held.slot back.new.slot }
{
    let (boxed, session) = taken(held);
    *told = session.counts();
    *back = put_back(boxed, session);
    OK
}

/// Tells the name of a channel.
#[unsafe(no_mangle)]
pub extern "C" fn kpn_c_channel_name(
    held: Held,
    channel: usize,
    room: &mut [u8],
    back: &mut Held,
    length: &mut usize,
) -> u32
    requires { IsOpen held.slot }
    ensures { Leads (Asks (PutsChannelName channel result length.new room.old room.new))
        held.slot back.new.slot }
{
    let (boxed, session) = taken(held);
    let code = session.put_channel_name(channel, room, length);
    *back = put_back(boxed, session);
    code
}

/// Tells the name of a process.
#[unsafe(no_mangle)]
pub extern "C" fn kpn_c_process_name(
    held: Held,
    process: usize,
    room: &mut [u8],
    back: &mut Held,
    length: &mut usize,
) -> u32
    requires { IsOpen held.slot }
    ensures { Leads (Asks (PutsProcessName process result length.new room.old room.new))
        held.slot back.new.slot }
{
    let (boxed, session) = taken(held);
    let code = session.put_process_name(process, room, length);
    *back = put_back(boxed, session);
    code
}

/// Tells the state of a channel.
#[unsafe(no_mangle)]
pub extern "C" fn kpn_c_tell_channel(
    held: Held,
    channel: usize,
    back: &mut Held,
    state: &mut ChannelStatus,
) -> u32
    requires { IsOpen held.slot }
    ensures { Leads (Asks (TellsChannel channel result state.new)) held.slot back.new.slot }
{
    let (boxed, session) = taken(held);
    let (session, told) = session.channel_state(channel);
    *back = put_back(boxed, session);
    match told {
        Some(found) => {
            *state = found;
            OK
        }
        None => NO_SUCH_CHANNEL,
    }
}

/// Tells the states of all processes.
#[unsafe(no_mangle)]
pub extern "C" fn kpn_c_tell_processes(
    held: Held,
    states: &mut [ProcessState],
    back: &mut Held,
    count: &mut usize,
) -> u32
    requires { IsOpen held.slot }
    ensures { Leads (Asks (TellsProcesses result count.new states.old states.new))
        held.slot back.new.slot }
{
    let (boxed, session) = taken(held);
    let (session, (code, processes)) = session.put_states(states);
    *back = put_back(boxed, session);
    *count = processes;
    code
}

/// Copies unread items of a channel.
#[unsafe(no_mangle)]
pub extern "C" fn kpn_c_look(
    held: Held,
    channel: usize,
    room: &mut [i64],
    back: &mut Held,
    count: &mut usize,
) -> u32
    requires { IsOpen held.slot }
    ensures { Leads (Asks (TellsNext channel result count.new room.old room.new))
        held.slot back.new.slot }
{
    let (boxed, session) = taken(held);
    let (session, told) = session.look(channel, room);
    *back = put_back(boxed, session);
    match told {
        Some(shown) => {
            *count = shown;
            OK
        }
        None => NO_SUCH_CHANNEL,
    }
}
