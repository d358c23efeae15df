//! What a description that is right may be meant otherwise: a port that its process never names, a ring that is there
//! from the start, and rates that can't balance. Rows show the words.

use crate::excerpt::push_where;
use crate::first_moves::{FirstMove, first_move, moved_each_turn, names_port};
use crate::ratios::{RatedChannel, first_unbalanced};
use kpn_text::{TextFault, meant_tokens};
use kpn_text_grammar::{
    Description, GrammarFault, Identifier, InstanceNode, Item, ProcessNode, description,
};
use kpn_text_tokens::language_of;
use std::alloc::{AllocError, Global};

// The text of a file, to which lines are added.
#[derive(Clone, Copy)]
struct Described<'s> {
    file: &'s str,
    text: &'s [u8],
}

// An instance and its process.
#[derive(Clone, Copy)]
struct Member<'d, 'a> {
    instance: &'d InstanceNode<'a>,
    process: &'d ProcessNode<'a>,
}

/// A line for each thing of a right description that may be meant otherwise.
pub fn warnings_text(alloc: Global, file: &str, text: &[u8]) -> Result<Vec<u8>, AllocError> {
    let mut told = Vec::new(alloc);
    let language = language_of(text);
    let tokens = match meant_tokens(alloc, language, text) {
        Ok(tokens) => tokens,
        Err(TextFault::NoMemory) => return Err(AllocError),
        Err(_) => return Ok(told),
    };
    let tree = match description(alloc, language, tokens.as_slice(), text.len()) {
        Ok(tree) => tree,
        Err(GrammarFault::NoMemory) => return Err(AllocError),
        Err(_) => return Ok(told),
    };
    let source = Described { file, text };
    for process in &tree.processes {
        push_unnamed(
            &mut told,
            source,
            process,
            &process.parts.ins,
            b" is never read",
        )?;
        push_unnamed(
            &mut told,
            source,
            process,
            &process.parts.outs,
            b" is never written",
        )?;
    }
    let members = members_of(alloc, &tree)?;
    push_rings(alloc, &mut told, source, members.as_slice())?;
    push_unbalanced(alloc, &mut told, source, &tree, members.as_slice())?;
    Ok(told)
}

// Adds which of these ports the body of a process does not name.
fn push_unnamed(
    told: &mut Vec<u8>,
    source: Described<'_>,
    process: &ProcessNode<'_>,
    ports: &[Identifier<'_>],
    said: &[u8],
) -> Result<(), AllocError> {
    for port in ports {
        if !names_port(&process.body, port.bytes) {
            push_named(told, source, port)?;
            told.extend_from_slice(said)?;
            told.push(b'\n')?;
        }
    }
    Ok(())
}

// Adds the place of a name, and the name between backticks.
fn push_named(
    told: &mut Vec<u8>,
    source: Described<'_>,
    name: &Identifier<'_>,
) -> Result<(), AllocError> {
    push_where(told, source.file.as_bytes(), source.text, name.start)?;
    push_name(told, name.bytes)
}

fn push_name(told: &mut Vec<u8>, name: &[u8]) -> Result<(), AllocError> {
    told.push(b'`')?;
    told.extend_from_slice(name)?;
    told.push(b'`')?;
    Ok(())
}

// The instances of a network, each with its process.
fn members_of<'d, 'a>(
    alloc: Global,
    tree: &'d Description<'a>,
) -> Result<Vec<Member<'d, 'a>>, AllocError> {
    let mut members = Vec::new(alloc);
    for item in &tree.network.items {
        if let Item::Instance(instance) = item {
            for process in &tree.processes {
                if process.name.bytes == instance.program.bytes {
                    members.push(Member { instance, process })?;
                }
            }
        }
    }
    Ok(members)
}

// The number of the member that writes a channel.
fn writer_of(members: &[Member<'_, '_>], channel: &[u8]) -> Option<usize> {
    members.iter().position(|member| member
        .instance
        .outs
        .iter()
        .any(|name| name.bytes == channel))
}

// The channel at a port among these.
fn channel_at<'d, 'a>(
    ports: &[Identifier<'_>],
    channels: &'d [Identifier<'a>],
    port: &[u8],
) -> Option<&'d Identifier<'a>> {
    let number = ports.iter().position(|name| name.bytes == port)?;
    channels.get(number)
}

// The channel that a member reads before all else.
fn first_channel<'d, 'a>(member: Member<'d, 'a>) -> Option<&'d Identifier<'a>> {
    match first_move(&member.process.body) {
        FirstMove::Reads(port) => {
            channel_at(&member.process.parts.ins, &member.instance.ins, port)
        }
        _ => None,
    }
}

// Adds each ring of members of which each first reads an item of the next.
fn push_rings(
    alloc: Global,
    told: &mut Vec<u8>,
    source: Described<'_>,
    members: &[Member<'_, '_>],
) -> Result<(), AllocError> {
    let mut next = Vec::new(alloc);
    for member in members {
        next.push(match first_channel(*member) {
            Some(channel) => writer_of(members, channel.bytes),
            None => None,
        })?;
    }
    for start in 0..members.len() {
        if begins_ring(next.as_slice(), start) {
            push_ring(told, source, members, next.as_slice(), start)?;
        }
    }
    Ok(())
}

// Whether a member stands in a ring, and is the first of it in order of number.
fn begins_ring(next: &[Option<usize>], start: usize) -> bool {
    let mut at = start;
    for _turn in 0..next.len() {
        match next.get(at).copied().unwrap_or(None) {
            Some(after) if after == start => return true,
            Some(after) if after > start => at = after,
            _ => return false,
        }
    }
    false
}

fn push_ring(
    told: &mut Vec<u8>,
    source: Described<'_>,
    members: &[Member<'_, '_>],
    next: &[Option<usize>],
    start: usize,
) -> Result<(), AllocError> {
    let mut at = start;
    for turn in 0..members.len() {
        let Some(member) = members.get(at).copied() else {
            break;
        };
        let instance = member.instance;
        if turn == 0 {
            push_named(told, source, &instance.name)?;
        } else {
            told.extend_from_slice(b", ")?;
            push_name(told, instance.name.bytes)?;
        }
        if let Some(channel) = first_channel(member) {
            told.extend_from_slice(b" first reads ")?;
            push_name(told, channel.bytes)?;
        }
        match next.get(at).copied().unwrap_or(None) {
            Some(after) if after != start => at = after,
            _ => break,
        }
    }
    told.extend_from_slice(b": a ring from the start. One of them has to write before it reads.\n")
}

// Adds a channel whose rate is not the one that the other channels give its ends.
fn push_unbalanced(
    alloc: Global,
    told: &mut Vec<u8>,
    source: Described<'_>,
    tree: &Description<'_>,
    members: &[Member<'_, '_>],
) -> Result<(), AllocError> {
    let mut links = Vec::new(alloc);
    let mut names = Vec::new(alloc);
    for item in &tree.network.items {
        if let Item::Channel(name, _) = item {
            if let Some(link) = link_of(members, name.bytes) {
                links.push(link)?;
                names.push(name)?;
            }
        }
    }
    let Some(at) = first_unbalanced(alloc, links.as_slice(), members.len())? else {
        return Ok(());
    };
    if let Some(name) = names.as_slice().get(at).copied() {
        push_named(told, source, name)?;
        told.extend_from_slice(UNBALANCED)?;
    }
    Ok(())
}

const UNBALANCED: &[u8] =
    b" can't balance: by the other channels its writer puts more or fewer items there than its reader gets.\n";

// The ends of a channel, and how many items each moves there in a turn of its loop, if that is known and not 0.
fn link_of(members: &[Member<'_, '_>], channel: &[u8]) -> Option<RatedChannel> {
    let writer = writer_of(members, channel)?;
    let reader = members.iter().position(|member| member
        .instance
        .ins
        .iter()
        .any(|name| name.bytes == channel))?;
    let (puts, gets) = (members.get(writer)?, members.get(reader)?);
    let out = port_of(&puts.process.parts.outs, &puts.instance.outs, channel)?;
    let into = port_of(&gets.process.parts.ins, &gets.instance.ins, channel)?;
    let put = moved_each_turn(&puts.process.body, out)?;
    let got = moved_each_turn(&gets.process.body, into)?;
    if put == 0 || got == 0 {
        return None;
    }
    Some(RatedChannel {
        writer,
        reader,
        put,
        got,
    })
}

// The port that a channel is given to.
fn port_of<'a>(
    ports: &[Identifier<'a>],
    channels: &[Identifier<'_>],
    channel: &[u8],
) -> Option<&'a [u8]> {
    let number = channels.iter().position(|name| name.bytes == channel)?;
    Some(ports.get(number)?.bytes)
}
