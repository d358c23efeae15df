//! Which limit a program or a network passes, and by how much.

use crate::counts::{count_of, nodes_of};
use crate::sentences::{Excess, LimitedPart};
use crate::spots::TokenSpot;
use kpn_command_base::push_number;
use kpn_limits::{MAX_CELLS, MAX_NODES, MAX_PORTS, MAX_PROCESSES, MAX_VARIABLES};
use kpn_text::network_size;
use kpn_text_grammar::{GrammarFault, description};
use kpn_text_names::{NameFault, NameScope, resolve};
use kpn_text_tokens::{Lexeme, language_of};
use std::alloc::{AllocError, Global};

/// How many ports, variables and cells a process has.
#[derive(Clone, Copy)]
struct Sizes {
    ins: usize,
    outs: usize,
    vars: usize,
    cells: usize,
}

const NO_SIZES: Sizes = Sizes {
    ins: 0,
    outs: 0,
    vars: 0,
    cells: 0,
};

/// Which limit the process with this number passes, if its name begins at this byte: that of variables, of in ports, of
/// out ports, of cells, or else of nodes.
pub(crate) fn process_excess<'a>(
    alloc: Global,
    text: &[u8],
    tokens: &'a [Lexeme<'a>],
    process: usize,
    at: usize,
) -> Result<Excess, AllocError> {
    let sizes = sizes_of(alloc, text, tokens, process)?;
    let excess = if sizes.vars > MAX_VARIABLES {
        excess(LimitedPart::Variables, sizes.vars, MAX_VARIABLES)
    } else if sizes.ins > MAX_PORTS {
        excess(LimitedPart::InPorts, sizes.ins, MAX_PORTS)
    } else if sizes.outs > MAX_PORTS {
        excess(LimitedPart::OutPorts, sizes.outs, MAX_PORTS)
    } else if sizes.cells > MAX_CELLS {
        excess(LimitedPart::Cells, sizes.cells, MAX_CELLS)
    } else {
        excess(LimitedPart::Nodes, nodes_of(alloc, tokens, at)?, MAX_NODES)
    };
    Ok(excess)
}

fn excess(part: LimitedPart, count: usize, limit: usize) -> Excess {
    Excess { part, count, limit }
}

// The sizes of the process with this number; none, if the tokens spell no description whose names are right.
fn sizes_of<'a>(
    alloc: Global,
    text: &[u8],
    tokens: &'a [Lexeme<'a>],
    process: usize,
) -> Result<Sizes, AllocError> {
    let language = language_of(text);
    let tree = match description(alloc, language, tokens, text.len()) {
        Ok(tree) => tree,
        Err(GrammarFault::NoMemory) => return Err(AllocError),
        Err(_) => return Ok(NO_SIZES),
    };
    let named = match resolve(alloc, language, &tree) {
        Ok(named) => named,
        Err(NameFault::NoMemory) => return Err(AllocError),
        Err(_) => return Ok(NO_SIZES),
    };
    match named.programs.as_slice().get(process) {
        Some(parts) => Ok(Sizes {
            ins: parts.scope.ins.len(),
            outs: parts.scope.outs.len(),
            vars: parts.scope.vars.len(),
            cells: cells_of(&parts.scope),
        }),
        None => Ok(NO_SIZES),
    }
}

// The cells of arrays stand after the variables, and those of tables, its own and the shared ones that it names, have
// places from 0 on.
fn cells_of(scope: &NameScope<'_>) -> usize {
    let of_arrays = scope.arrays.end.saturating_sub(MAX_VARIABLES);
    of_arrays.saturating_add(scope.tables.rows.end)
}

/// Which limit the network of this text passes: that of processes, of instances, or else of channels.
pub(crate) fn network_excess(
    alloc: Global,
    text: &[u8],
    tokens: &[Lexeme<'_>],
) -> Result<Excess, AllocError> {
    let size = network_size(language_of(text));
    let processes = count_of(alloc, tokens, TokenSpot::Process)?;
    let instances = count_of(alloc, tokens, TokenSpot::Instance)?;
    let channels = count_of(alloc, tokens, TokenSpot::Channel)?;
    if processes > MAX_PROCESSES {
        Ok(excess(LimitedPart::Processes, processes, MAX_PROCESSES))
    } else if instances > size.processes() {
        Ok(excess(LimitedPart::Instances, instances, size.processes()))
    } else {
        Ok(excess(LimitedPart::Channels, channels, size.channels()))
    }
}

/// How many there are, and by how many the limit is passed.
pub(crate) fn push_excess(told: &mut Vec<u8>, excess: Excess) -> Result<(), AllocError> {
    let part: &[u8] = match excess.part {
        LimitedPart::Variables => b" variables, ",
        LimitedPart::InPorts => b" in ports, ",
        LimitedPart::OutPorts => b" out ports, ",
        LimitedPart::Cells => b" cells, ",
        LimitedPart::Nodes => b" statements and operands, ",
        LimitedPart::Processes => b" processes, ",
        LimitedPart::Instances => b" instances, ",
        LimitedPart::Channels => b" channels, ",
    };
    let above = excess.count.saturating_sub(excess.limit);
    push_number(told, b" has ", excess.count, part)?;
    push_number(told, b"", above, b" above the limit of ")?;
    push_number(told, b"", excess.limit, b"")
}
