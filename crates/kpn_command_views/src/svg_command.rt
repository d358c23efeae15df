//! The command reads a network and a trace, audits the trace, and draws its history in time.
ghost use Rattle.std.specs.Prelude.{◌≡◌, IfOk, IfErr};
ghost use Rattle.kpn_command_base.specs.Conclusion.{TellsOnly};
ghost use Rattle.kpn_audit.specs.Stored.{audited_under};
ghost use Rattle.kpn_command_base.specs.Audited.{IsTextFor};
ghost use Rattle.kpn_command_views.specs.PictureText.{picture_size};
ghost use Rattle.kpn_command_views.specs.PictureAnswers.{IsPictured, IsPicture, IsPictureOf, IsRefusalOfPicture, size_for, IsNoPicture};

use crate::picture::DrawnRun;
use kpn_command_base::{Audited, Conclusion, Finding, Refusal, load_audited};
use kpn_history::Version;
use kpn_net::{Growth, Policy};
use kpn_shelf::Shelf;
use std::alloc::Global;

/// What `kpn timeline FILE TRACE --svg` comes to: a picture of the ticks from `first` to `last`. Each process may make
/// `steps` steps before each of its events. It reads the description first, then the trace. It tells the picture of a
/// legal trace, and what an audit tells of any other. It refuses a picture of more than 2,000 ticks, or boxes and
/// marks.
pub fn picture_command<S: Shelf>(
    alloc: Global,
    file: &str,
    trace: &str,
    steps: u64,
    first: u64,
    last: u64,
    shelf: &S,
) -> Result<Conclusion, Refusal>
    ensures ok { IfOk result
        (TellsOnly (IsPictured (S.may_give shelf.now) file.now trace.now steps first last)) }
    ensures refused { IfErr result
        (IsRefusalOfPicture (S.may_give shelf.now) file.now trace.now steps first last) }
{
    match load_audited(alloc, shelf, file, trace, steps) {
        Ok(audited) => conclusion_of(alloc, &audited, first as usize, last as usize),
        Err(refusal) => Err(refusal),
    }
}

// The text for a finding, and its status.
fn conclusion_of(
    alloc: Global,
    audited: &Audited,
    first: usize,
    last: usize,
) -> Result<Conclusion, Refusal>
    ensures ok { IfOk result (TellsOnly (IsTextFor
        (IsPictureOf first last audited.now.document audited.now.trace) audited.now.finding)) }
    ensures refused { IfErr result
        (IsNoPicture (size_for first last audited.now)) }
{
    match &audited.finding {
        Finding::Legal(audit) => {
            let trace = &audited.trace;
            let events = trace.events.as_slice();
            let waits = audit.waits.as_slice();
            let document = &audited.document;
            let run = DrawnRun {
                document,
                network: document.network(),
                waits,
                events,
            };
            match run.picture_under(alloc, trace.version, first, last) {
                Ok(text) => Ok(Conclusion {
                    text,
                    status: 0,
                    files: Vec::new(alloc),
                }),
                Err(refusal) => Err(refusal),
            }
        }
        Finding::NotLegal(flaw) => {
            let conclusion = flaw.conclusion(alloc)?;
            Ok(conclusion)
        }
    }
}

impl DrawnRun<'_> {
    // The picture of events of this version, under the rules of growth that it has.
    fn picture_under(
        self,
        alloc: Global,
        version: Version,
        first: usize,
        last: usize,
    ) -> Result<Vec<u8>, Refusal>
        requires { self.network.now ≡ self.document.now.tables }
        ensures ok { let r = self.entry in
            let t = audited_under version r.document.now.tables in
            IfOk result (λ text. IsPicture r.document.now t first last r.waits.now r.events.now
            text.items) }
        ensures refused { let r = self.entry in
            let t = audited_under version r.document.now.tables in
            IfErr result (IsNoPicture
            (picture_size r.document.now t first last r.waits.now r.events.now)) }
    {
        match version {
            Version::One => {
                let plain = self.network.under(Policy::Cycles, Growth::One)?;
                let run = DrawnRun {
                    document: self.document,
                    network: &plain,
                    waits: self.waits,
                    events: self.events,
                };
                run.picture(alloc, first, last)
            }
            Version::Two => self.picture(alloc, first, last),
        }
    }
}
