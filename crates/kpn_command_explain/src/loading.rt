//! The bytes of a file.
ghost use Rattle.std.specs.Prelude.{Ok, IfOk, IfErr};
ghost use Rattle.kpn_command_explain.specs.Answers.{IsRefusalOfExplaining, IsRefusalOfItemFile};

use kpn_command_base::Refusal;
use kpn_shelf::Shelf;
use std::alloc::Global;

/// The bytes that a shelf has under a name.
pub(crate) fn load<S: Shelf>(alloc: Global, shelf: &S, file: &str) -> Result<Vec<u8>, Refusal>
    ensures ok { IfOk result (λ bytes. S.may_give shelf.now file.now (Ok bytes.items)) }
    ensures refused { IfErr result (IsRefusalOfExplaining (S.may_give shelf.now) file.now) }
    ensures refused_items { IfErr result (IsRefusalOfItemFile (S.may_give shelf.now) file.now) }
{
    match shelf.load(alloc, file) {
        Ok(bytes) => Ok(bytes),
        Err(fault) => Err(Refusal::Input(fault)),
    }
}
