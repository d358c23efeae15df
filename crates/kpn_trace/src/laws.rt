//! Laws of traces as texts: facts about the definitions only, each the contract of a function that does nothing.
ghost use Rattle.kpn_trace.specs.Laws.{LineSpellsOne, TraceSpellsOne, SpelledIsRead, OneBadLine};

use std::alloc::Allocator;

/// Each event has one spelling by definition, and a line spells at most one event in each version.
pub fn a_line_spells_one_event()
    ensures { LineSpellsOne }
{}

/// If a written trace is read, the same trace comes back. The text of a trace spells it by definition, and spells no
/// other. Reading it fails only if memory runs out.
pub fn written_traces_read_back<A: Allocator>()
    ensures unique { TraceSpellsOne A }
    ensures read { SpelledIsRead A }
{}

/// There is at most one first bad line.
pub fn one_line_is_the_first_bad()
    ensures { OneBadLine }
{}
