//! The command: the items of an input go to a process alone, and what it puts goes out.
ghost use Rattle.std.specs.Prelude.{◌≡◌, ◌-◌, ◌^◌, ◌≤◌, [], ◌∷◌, vec_len, IfOk, IfErr, OnOk, IsErrOf};
ghost use Rattle.std.specs.Io.KnownBytes.{IsAtEnd};
ghost use Rattle.kpn_command_base.specs.Conclusion.{Succeeds};
ghost use Rattle.kpn_text_items.specs.Input.{LosesItsFront};
ghost use Rattle.kpn_step.specs.Walk.{AloneGives};
ghost use Rattle.kpn_commands.specs.BuiltIn.{built_in_program};
ghost use Rattle.kpn_commands.specs.Plain.{TalksPlainly};
ghost use Rattle.kpn_commands.specs.Refused.{WantsMemory};
ghost use Rattle.kpn_commands.specs.Alone.{IsAloneText, IsRefusalOfAlone, IsUnknown};

use crate::alone_text::text_of;
use crate::built_in::BuiltIn;
use kpn_command_base::{Conclusion, Refusal};
use kpn_lang::Sequence;
use kpn_limits::MAX_INPUT_BYTES;
use kpn_step::{AloneRun, alone};
use kpn_text_items::read_items;
use std::alloc::Global;
use std::io::Read;

/// What `kpn alone NAME` comes to. It checks the name before it reads the input.
pub fn alone_command<I: Read>(
    alloc: Global,
    name: &str,
    input: &mut I,
) -> Result<Conclusion, Refusal>
    ensures ok { IfOk result (Succeeds (IsAloneText name.now (I.remaining input.old))) }
    ensures refused { IfErr result (IsRefusalOfAlone name.now (I.remaining input.old)) }
    ensures unknown { IsUnknown name.now → IsErrOf result Refusal.UnknownProcess }
    ensures unread { IsUnknown name.now → input.new ≡ input.old }
    ensures rest { LosesItsFront (I.remaining input.old) (I.remaining input.new) }
    ensures whole { OnOk result (IsAtEnd (I.remaining input.new)) }
{
    let Some(process) = BuiltIn::named(name) else {
        return Err(Refusal::UnknownProcess);
    };
    let items = read_items(alloc, input).map_err(Refusal::Input)?;
    let run = run_on(alloc, process, items)?;
    let text = text_of(alloc, process.name(), run.talk.as_slice(), run.stop)?;
    Ok(Conclusion {
        text,
        status: 0,
        files: Vec::new(alloc),
    })
}

// The run of a process on these items. They are too few to pause it.
fn run_on(alloc: Global, process: BuiltIn, items: Vec<i64>) -> Result<AloneRun, Refusal>
    requires { vec_len items ≤ MAX_INPUT_BYTES }
    ensures alone { IfOk result (λ run.
        AloneGives (built_in_program process) [] (items.items ∷ []) (2 ^ 64 - 1) run.talk run.stop) }
    ensures plain { IfOk result (λ run. TalksPlainly process items.items run.talk run.stop) }
    ensures refused { IfErr result WantsMemory }
{
    let program = process.program(alloc)?;
    let lists = [Sequence::from_vec(items)];
    Ok(alone(alloc, &program, &[], &lists, u64::MAX)?)
}
