//! A conclusion is carried out, or a refusal reported, in this one place.
ghost use Rattle.std.specs.Prelude.{map, OnOk, OnErr};
ghost use Rattle.std.specs.Io.KnownBytes.{Appends};
ghost use Rattle.kpn_command_base.specs.Conclusion.{stored_as};
ghost use Rattle.kpn_cli.specs.Concludes.{AreStored, Concludes, IsCutShort};

use kpn_command_base::{Conclusion, OutputFile, Refusal};
use kpn_shelf::Shelf;
use kpn_text_items::WriteFault;
use std::io::Write;

/// Carries out a conclusion: it stores the files, and then writes the text. Or it reports why there is none. It returns
/// the status that the program ends with.
pub(crate) fn conclude<S: Shelf, O: Write, E: Write>(
    answer: Result<Conclusion, Refusal>,
    shelf: &mut S,
    out: &mut O,
    err: &mut E,
) -> u8
    ensures { Concludes S.may_give O.contents E.contents answer shelf.old shelf.new
        out.old out.new err.old err.new result }
{
    let conclusion = match answer {
        Ok(conclusion) => conclusion,
        Err(refusal) => return refusal.report(err),
    };
    match store_files(shelf, &conclusion.files) {
        Ok(()) => match write_whole(out, &conclusion.text) {
            Ok(()) => conclusion.status,
            Err(_) => Refusal::Output(WriteFault::Write).report(err),
        },
        Err(fault) => Refusal::Output(fault).report(err),
    }
}

// Stores files in their order. If one can't be stored, those before it stay, and it stores none of those after it.
fn store_files<S: Shelf>(shelf: &mut S, files: &[OutputFile]) -> Result<(), WriteFault>
    ensures stored { OnOk result
        (AreStored S.may_give (map stored_as files.now) shelf.old shelf.new) }
    ensures cut_short { OnErr result
        (IsCutShort S.may_give (map stored_as files.now) shelf.old shelf.new) }
{
    for file in files {
        shelf.store(file.name.as_str(), &file.bytes)?;
    }
    Ok(())
}

// Writes a whole text and flushes it.
fn write_whole<O: Write>(out: &mut O, text: &[u8]) -> Result<(), WriteFault>
    ensures { OnOk result (Appends (O.contents out.old) (O.contents out.new) text.now) }
{
    out.write_all(text).map_err(|_| WriteFault::Write)?;
    out.flush().map_err(|_| WriteFault::Write)
}
