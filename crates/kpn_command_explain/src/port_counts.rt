//! How many channels and values an instance is given, and how many its process has, with their names.

use kpn_command_base::push_number;
use kpn_text_grammar::{
    Description, GrammarFault, Identifier, InstanceNode, Item, ProcessNode, description,
};
use kpn_text_tokens::{Lexeme, language_of};
use std::alloc::{AllocError, Global};

/// Adds which numbers differ of the instance whose name begins at this byte.
pub(crate) fn push_port_counts<'a>(
    alloc: Global,
    told: &mut Vec<u8>,
    text: &[u8],
    tokens: &'a [Lexeme<'a>],
    at: usize,
) -> Result<(), AllocError> {
    let tree = match description(alloc, language_of(text), tokens, text.len()) {
        Ok(tree) => tree,
        Err(GrammarFault::NoMemory) => return Err(AllocError),
        Err(_) => return Ok(()),
    };
    let Some(instance) = instance_at(&tree, at) else {
        return Ok(());
    };
    for process in &tree.processes {
        if process.name.bytes == instance.program.bytes {
            push_counts(told, process, instance)?;
        }
    }
    Ok(())
}

// The instance whose name begins at this byte.
fn instance_at<'d, 'a>(tree: &'d Description<'a>, at: usize) -> Option<&'d InstanceNode<'a>> {
    for item in &tree.network.items {
        match item {
            Item::Instance(instance) if instance.name.start == at => return Some(instance),
            _ => {}
        }
    }
    None
}

fn push_counts(
    told: &mut Vec<u8>,
    process: &ProcessNode<'_>,
    instance: &InstanceNode<'_>,
) -> Result<(), AllocError> {
    let parts = &process.parts;
    push_count(told, b"in ports", &parts.ins, instance.ins.len())?;
    push_count(told, b"out ports", &parts.outs, instance.outs.len())?;
    push_count(told, b"parameters", &parts.pars, instance.values.len())
}

// Adds `; PARTS: N given, M wanted (NAMES)`, if the two numbers differ.
fn push_count(
    told: &mut Vec<u8>,
    parts: &[u8],
    names: &[Identifier<'_>],
    given: usize,
) -> Result<(), AllocError> {
    if names.len() == given {
        return Ok(());
    }
    told.extend_from_slice(b"; ")?;
    told.extend_from_slice(parts)?;
    push_number(told, b": ", given, b" given, ")?;
    push_number(told, b"", names.len(), b" wanted")?;
    let mut before: &[u8] = b" (";
    for name in names {
        told.extend_from_slice(before)?;
        told.extend_from_slice(name.bytes)?;
        before = b", ";
    }
    if !names.is_empty() {
        told.push(b')')?;
    }
    Ok(())
}
