//! `kpn explain FILE` reads a description, and counts its parts or explains what is wrong with it.
ghost use Rattle.std.specs.Prelude.{◌≡◌, ◌⊎◌, ◌≢◌, IfOk, IfErr};
ghost use Rattle.kpn_command_base.specs.Conclusion.{TellsOnly};
ghost use Rattle.kpn_command_base.specs.declared.refusal.Refusal.TheVariants.{Description, NoMemory};
ghost use Rattle.kpn_command_base.specs.Refusal.{status_of};
ghost use Rattle.kpn_command_base.specs.Counts.{summary_text};
ghost use Rattle.kpn_command_explain.specs.Answers.{Explains, IsExplained, IsRefusalOfExplaining};

use crate::explained::explanation_of;
use crate::loading::load;
use kpn_command_base::{Conclusion, Refusal, summary};
use kpn_shelf::Shelf;
use kpn_text::{Document, TextFault, read_network};
use std::alloc::Global;

/// What `kpn explain FILE` comes to.
pub fn explain_command<S: Shelf>(
    alloc: Global,
    file: &str,
    shelf: &S,
) -> Result<Conclusion, Refusal>
    ensures ok { IfOk result (TellsOnly (IsExplained (S.may_give shelf.now) file.now)) }
    ensures refused { IfErr result (IsRefusalOfExplaining (S.may_give shelf.now) file.now) }
{
    let bytes = load(alloc, shelf, file)?;
    let text = bytes.as_slice();
    match read_network(alloc, text) {
        Ok(document) => right(alloc, &document),
        Err(fault) => wrong(alloc, file, text, fault),
    }
}

// The line that counts the parts of a network.
fn right(alloc: Global, document: &Document) -> Result<Conclusion, Refusal>
    ensures ok { IfOk result
        (TellsOnly (λ text status. (text ≡ summary_text document.now) × (status ≡ 0))) }
    ensures refused { IfErr result (λ refusal. refusal ≡ NoMemory) }
{
    let text = summary(alloc, document)?;
    Ok(Conclusion {
        text,
        status: 0,
        files: Vec::new(alloc),
    })
}

// The fault of a text, explained. A fault of memory is refused.
fn wrong(alloc: Global, file: &str, bytes: &[u8], fault: TextFault) -> Result<Conclusion, Refusal>
    ensures ok { IfOk result
        (TellsOnly (λ text status. (status_of (Description fault) ≢ 6)
        × Explains file.now bytes.now fault text × (status ≡ 1))) }
    ensures refused { IfErr result (λ refusal. (refusal ≡ NoMemory)
        ⊎ ((refusal ≡ Description fault) × (status_of (Description fault) ≡ 6))) }
{
    let refusal = Refusal::Description(fault);
    if refusal.status() == 6 {
        return Err(refusal);
    }
    let text = explanation_of(alloc, file.as_bytes(), bytes, fault)?;
    Ok(Conclusion {
        text,
        status: 1,
        files: Vec::new(alloc),
    })
}
