//! Descriptions of networks in the files of a shelf.
ghost use Rattle.std.specs.Prelude.{IfOk, IfErr};
ghost use Rattle.kpn_command_base.specs.Description.{IsDescribed, IsRefusalOfDescription};

use crate::refusal::Refusal;
use kpn_shelf::Shelf;
use kpn_text::{Document, read_network};
use std::alloc::Global;

/// The document that a file spells. It refuses a file that can't be read as the shelf does,
/// and a text that spells none with the fault of that text.
pub fn load_document<S: Shelf>(alloc: Global, shelf: &S, file: &str) -> Result<Document, Refusal>
    ensures ok { IfOk result (IsDescribed (S.may_give shelf.now) file.now) }
    ensures refused { IfErr result (IsRefusalOfDescription (S.may_give shelf.now) file.now) }
{
    let bytes = shelf.load(alloc, file).map_err(Refusal::Input)?;
    match read_network(alloc, &bytes) {
        Ok(document) => Ok(document),
        Err(fault) => Err(Refusal::Description(fault)),
    }
}
