//! Laws of the built-in processes: facts about the definitions only, each the contract of a function that does nothing.
ghost use Rattle.kpn_commands.specs.Laws.{IsNeverPaused, PutsPlainly};

/// What a process puts on a list of items, and how it stops, is what its name says.
pub fn built_ins_put_plainly()
    ensures { PutsPlainly }
{}

/// No list of items pauses a process whose quota is above 3 steps an item and one more.
pub fn built_ins_are_never_paused()
    ensures { IsNeverPaused }
{}
