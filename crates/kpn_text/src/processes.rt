//! Processes: a head on the first line, the arrays and tables, the body, and the brace that closes it.

ghost use Rattle.std.specs.Prelude.{◌≡◌, ◌++◌, [], OnOk, codes, take, if◌then◌else◌};
ghost use Rattle.kpn_text.specs.Named.{process_named};
ghost use Rattle.kpn_text.specs.Text.{part_text, parts_text, process_text};
ghost use Rattle.kpn_text.specs.Writing.{Writes};

use crate::blocks::Body;
use crate::pieces::{bytes, names};
use crate::rows::declarations;
use kpn_lang::{Program, Sequence};
use kpn_text_names::ProcessNames;
use kpn_text_tokens::{Keyword, Language};
use std::alloc::AllocError;

/// A process with its names, in a language.
pub(crate) fn process(
    out: &mut Vec<u8>,
    language: Language,
    names: &ProcessNames,
    program: &Program,
) -> Result<(), AllocError>
    ensures { OnOk result
        (Writes out.old.items out.new.items
        (process_text language (process_named names.now program.now))) }
{
    program.known();
    head(out, names, program.pars())?;
    declarations(out, names, program.tables())?;
    let body = Body {
        language,
        names,
        program,
    };
    body.block(out, 0, 1, 1)?;
    bytes(out, b"}\n")
}

/// The head of a process with this many parameters, up to the end of its line, which opens the body.
fn head(out: &mut Vec<u8>, names: &ProcessNames, pars: usize) -> Result<(), AllocError>
    ensures { OnOk result (Writes out.old.items out.new.items (λ more.
        codes "process " ++ (names.now.name ++ (codes "("
        ++ parts_text names.now.ins names.now.outs (take pars names.now.vars)
        (codes ") {\n" ++ more))))) }
{
    let vars = names.vars.as_slice();
    let pars = &vars[..pars.min(vars.len())];
    bytes(out, b"process ")?;
    bytes(out, names.name.as_slice())?;
    bytes(out, b"(")?;
    parts(out, names.ins.as_slice(), names.outs.as_slice(), pars)?;
    bytes(out, b") {\n")
}

/// The parts of a head, without those that have no names.
fn parts(
    out: &mut Vec<u8>,
    ins: &[Sequence<u8>],
    outs: &[Sequence<u8>],
    pars: &[Sequence<u8>],
) -> Result<(), AllocError>
    ensures { OnOk result
        (Writes out.old.items out.new.items (parts_text ins.now outs.now pars.now)) }
{
    part(out, separator(true), Keyword::In, ins)?;
    part(out, separator(ins.is_empty()), Keyword::Out, outs)?;
    part(
        out,
        separator(ins.is_empty() && outs.is_empty()),
        Keyword::Par,
        pars,
    )
}

/// What comes before a part: nothing before the first.
fn separator(is_first: bool) -> &'static [u8]
    ensures { result.now ≡ (if is_first then [] else codes "; ") }
{
    if is_first { b"" } else { b"; " }
}

/// A part of a head, after these bytes; nothing if it has no names.
fn part(
    out: &mut Vec<u8>,
    before: &[u8],
    word: Keyword,
    list: &[Sequence<u8>],
) -> Result<(), AllocError>
    ensures { OnOk result
        (Writes out.old.items out.new.items (part_text before.now word list.now)) }
{
    if list.is_empty() {
        return Ok(());
    }
    bytes(out, before)?;
    bytes(out, word.spelling())?;
    bytes(out, b" ")?;
    names(out, list)
}
