//! `kpn check FILE` reads a description and counts its parts.
ghost use Rattle.std.specs.Prelude.{IfOk, IfErr};
ghost use Rattle.kpn_command_base.specs.Conclusion.{Succeeds};
ghost use Rattle.kpn_command_base.specs.Description.{IsRefusalOfCommand};
ghost use Rattle.kpn_command_base.specs.Counts.{summary_text};
ghost use Rattle.kpn_commands.specs.TextOf.{IsTextOf};

use kpn_command_base::{Conclusion, Refusal, load_document, summary};
use kpn_shelf::Shelf;
use std::alloc::Global;

/// What `kpn check FILE` comes to: the line that counts the parts of the network that the file spells.
pub fn check_command<S: Shelf>(alloc: Global, file: &str, shelf: &S) -> Result<Conclusion, Refusal>
    ensures ok { IfOk result
        (Succeeds (IsTextOf summary_text (S.may_give shelf.now) file.now)) }
    ensures refused { IfErr result (IsRefusalOfCommand (S.may_give shelf.now) file.now) }
{
    let document = load_document(alloc, shelf, file)?;
    let text = summary(alloc, &document)?;
    Ok(Conclusion {
        text,
        status: 0,
        files: Vec::new(alloc),
    })
}
