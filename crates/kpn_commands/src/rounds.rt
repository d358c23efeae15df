//! `kpn rounds FILE N` reads a network and the lists of its sources, and writes the n-th iterate.
ghost use Rattle.std.specs.Prelude.{map, IfOk, IfErr};
ghost use Rattle.kpn_command_base.specs.Conclusion.{Succeeds};
ghost use Rattle.kpn_command_base.specs.Inputs.{IsRefusalOfInputs};
ghost use Rattle.kpn_commands.specs.Rounds.{IsRounds};

use crate::rounds_text::text_of;
use kpn_command_base::{Conclusion, Refusal, load_inputs};
use kpn_net::rounds;
use kpn_shelf::Shelf;
use std::alloc::Global;

/// What `kpn rounds FILE N` comes to: the text of the n-th iterate. These words came after the `--source` options.
pub fn rounds_command<S: Shelf>(
    alloc: Global,
    file: &str,
    n: u32,
    words: &[&str],
    shelf: &S,
) -> Result<Conclusion, Refusal>
    ensures ok { IfOk result (Succeeds
        (IsRounds (S.may_give shelf.now) file.now n (map (λ word. word.now) words.now))) }
    ensures refused { IfErr result
        (IsRefusalOfInputs (S.may_give shelf.now) file.now (map (λ word. word.now) words.now)) }
{
    let inputs = load_inputs(alloc, shelf, file, words)?;
    let lists = rounds(alloc, inputs.document.network(), &inputs.given, n)?;
    let text = text_of(alloc, &inputs.document, lists.as_slice())?;
    Ok(Conclusion {
        text,
        status: 0,
        files: Vec::new(alloc),
    })
}
