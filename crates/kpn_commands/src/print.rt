//! `kpn print FILE` reads a description and writes its canonical text.
ghost use Rattle.std.specs.Prelude.{IfOk, IfErr};
ghost use Rattle.kpn_command_base.specs.Conclusion.{Succeeds};
ghost use Rattle.kpn_command_base.specs.Description.{IsRefusalOfCommand};
ghost use Rattle.kpn_text.specs.Document.{canonical_text};
ghost use Rattle.kpn_commands.specs.TextOf.{IsTextOf};

use kpn_command_base::{Conclusion, Refusal, load_document};
use kpn_shelf::Shelf;
use kpn_text::print_network;
use std::alloc::Global;

/// What `kpn print FILE` comes to: the canonical text of what the file spells.
pub fn print_command<S: Shelf>(alloc: Global, file: &str, shelf: &S) -> Result<Conclusion, Refusal>
    ensures ok { IfOk result
        (Succeeds (IsTextOf canonical_text (S.may_give shelf.now) file.now)) }
    ensures refused { IfErr result (IsRefusalOfCommand (S.may_give shelf.now) file.now) }
{
    let document = load_document(alloc, shelf, file)?;
    let text = print_network(alloc, &document)?;
    Ok(Conclusion {
        text,
        status: 0,
        files: Vec::new(alloc),
    })
}
