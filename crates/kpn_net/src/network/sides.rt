//! How many ends each channel has at its writing and at its reading side. The counts are in arrays, so that the rules
//! on channels are tested before the code asks for memory.
ghost use Rattle.std.specs.Prelude.{◌≡◌, ℕ, ◌+◌, ◌<◌, ◌≤◌, List, ◌++◌, length, position, map, All, IfOk, take};
ghost use Rattle.std.specs.List.{range_with_len};
ghost use Rattle.kpn_net.specs.declared.tables.End.{End};
ghost use Rattle.kpn_net.specs.Tables.{ends_among, ends_from, is_source, is_sink};
ghost use Rattle.kpn_net.specs.Sides.{side_of, side_with, is_nobody, is_several, end_or, Keeps};

use crate::tables::{ChannelSpec, End, Instance};
use std::alloc::{AllocError, Global};

/// What is at one side of a channel.
#[derive(Clone, Copy)]
pub enum Side {
    /// Nothing.
    Nobody,
    /// Only this end.
    One(End),
    /// More than one end.
    Several,
}

impl Side {
    fn with(self, end: End) -> Side
        ensures { result ≡ side_with self end }
    {
        match self {
            Side::Nobody => Side::One(end),
            Side::One(_) | Side::Several => Side::Several,
        }
    }

    fn end_or(self, other: End) -> End
        ensures { result ≡ end_or other self }
    {
        match self {
            Side::One(end) => end,
            Side::Nobody | Side::Several => other,
        }
    }
}

/// Adds process `p` to the side of each channel, once for each place among these ports.
pub fn join(sides: &mut [Side], ports: &[usize], p: usize)
    requires { All (λ c. c < length sides.old) ports.now }
    ensures { (ends : ℕ → List End) → Keeps sides.old ends
        → Keeps sides.new (λ c. ends c ++ ends_among c p ports.now) }
{
    for channel in ports {
        sides[*channel] = sides[*channel].with(End::Process(p));
    }
}

/// The first channel with nothing at this side.
pub fn first_nobody(sides: &[Side]) -> Option<usize>
    ensures { result ≡ position is_nobody sides.now }
{
    sides.iter().position(|side| matches!(side, Side::Nobody))
}

/// The first channel with more than one end at this side.
pub fn first_several(sides: &[Side]) -> Option<usize>
    ensures { result ≡ position is_several sides.now }
{
    sides.iter().position(|side| matches!(side, Side::Several))
}

/// The end at this side of each channel, and `other` if there is none or more than one.
pub fn ends(alloc: Global, sides: &[Side], other: End) -> Result<Vec<End>, AllocError>
    ensures { IfOk result (λ ends. ends.items ≡ map (end_or other) sides.now) }
{
    sides.iter().map(|side| side.end_or(other)).collect(alloc)
}
