//! The inputs of a stream, as the devices of its sources.
ghost use Rattle.std.specs.Prelude.{◌≡◌, false, Some, None, Ok, OnOk, IfErr, IfSome, IfNone};
ghost use Rattle.std.specs.Io.{ReadsAtMost};
ghost use Rattle.std.specs.Io.KnownBytes.{ReadConsumes};
ghost use Rattle.kpn_shelf.specs.NonblockingRead.{LookConsumes, LooksAtMost};
ghost use Rattle.kpn_stream.specs.declared.devices.Readiness.TheVariants as look;
ghost use Rattle.kpn_stream_devices.specs.SourceInputs.{device_left, input_of, kept_fault, FailsToRead, HasReadOn, HaveMoved, InputGives, InputLooks, ReadsOnly, WaitsForDevice};

use crate::formats::ItemFormat;
use crate::window::{Answer, Window};
use kpn_shelf::NonblockingRead;
use kpn_stream::{Readiness as Shown, SourceFault, Sources};
use kpn_text_items::{ItemFault, read_some};
use std::io;
use std::io::Read;

/// How many bytes one read asks for.
const INPUT_READ_BYTES: usize = 8192;

/// A fault that a look has met.
#[derive(Clone, Copy)]
pub enum Failed {
    /// The device failed.
    Read,
    /// Memory ran out.
    NoMemory,
}

/// The input of a source: that of this file, or else standard input. A fault that a look has met is told by the next
/// call that waits for its bytes.
#[derive(Drop)]
pub struct SourceInput<F: Drop> {
    pub channel: usize,
    pub format: ItemFormat,
    pub file: Option<F>,
    pub window: Window,
    pub failed: Option<Failed>,
}

/// The inputs of all sources. They are lent, so that the lender has them as the last read left them.
#[derive(Drop)]
pub struct SourceInputs<'i, I, F: Drop> {
    pub standard: &'i mut I,
    pub each: &'i mut Vec<SourceInput<F>>,
}

impl<I: NonblockingRead, F: NonblockingRead + Drop> Sources for SourceInputs<'_, I, F> {
    ghost use Rattle.kpn_stream_devices.specs.SourceInputs.{InputsGive, InputsLook, IsAtHand};

    ghost gives = { InputsGive I.remaining F.remaining };

    ghost looks = { InputsLook I.remaining F.remaining };

    ghost at_hand = { IsAtHand };

    fn next(&mut self, source: usize) -> Answer {
        let Some(i) = input_of(self.each, source) else {
            return Ok(None);
        };
        next_of(&mut self.each[i], self.standard)
    }

    fn is_at_hand(&self, source: usize) -> bool {
        match input_of(self.each, source) {
            Some(i) => is_told(&self.each[i]),
            None => true,
        }
    }

    fn next_at_hand(&mut self, source: usize) -> Option<i64> {
        let i = input_of(self.each, source)?;
        let Some(item) = item_at_hand(&mut self.each[i], self.standard) else {
            return None;
        };
        Some(item)
    }

    fn look(&mut self, source: usize) -> Shown {
        let Some(i) = input_of(self.each, source) else {
            return Shown::AtHand;
        };
        look_at(&mut self.each[i], self.standard)
    }

    fn linger(&self) {
        self.standard.linger();
    }
}

/// Which input is that of a source: the first for its channel.
fn input_of<F: Drop>(inputs: &[SourceInput<F>], source: usize) -> Option<usize>
    ensures { result ≡ input_of inputs.now source }
{
    inputs.iter().position(|input| input.channel == source)
}

/// The next item of an input, if its bytes tell it.
fn item_at_hand<I: Read, F: Read + Drop>(input: &mut SourceInput<F>, standard: &I) -> Option<i64>
    ensures gives { IfSome result (λ item. InputGives I.remaining F.remaining standard.now input.old
        (Ok (Some item)) standard.now input.new) }
    ensures at_hand { IfSome result (λ item. WaitsForDevice input.old → ⊥) }
    ensures as_before { IfNone result (input.new ≡ input.old) }
{
    input.window.next_item(input.format)
}

/// Whether an input has an answer without its device.
fn is_told<F: Drop>(input: &SourceInput<F>) -> bool
    ensures told { WaitsForDevice input.now → result ≡ false }
    ensures waits { result ≡ false → WaitsForDevice input.now }
{
    input.failed.is_some() || input.window.is_at_hand(input.format)
}

/// Takes in what has come, unless the answer of the input is at hand. Shows whether it is then.
fn look_at<I: NonblockingRead, F: NonblockingRead + Drop>(
    input: &mut SourceInput<F>,
    standard: &mut I,
) -> Shown
    ensures looks { InputLooks I.remaining F.remaining standard.old input.old
        standard.new input.new }
    ensures at_hand { result ≡ look.AtHand → WaitsForDevice input.new → ⊥ }
{
    if is_told(input) {
        return Shown::AtHand;
    }
    take_in(input, standard);
    if is_told(input) {
        return Shown::AtHand;
    }
    if can_look(input, standard) {
        Shown::NotYet
    } else {
        Shown::Unknown
    }
}

/// Whether a look can tell what has come to an input.
fn can_look<I: NonblockingRead, F: NonblockingRead + Drop>(
    input: &SourceInput<F>,
    standard: &I,
) -> bool {
    match &input.file {
        Some(file) => file.can_look(),
        None => standard.can_look(),
    }
}

/// Takes into the window what has come, and keeps the fault if that fails. It is apart since the chunk is large.
#[inline(never)]
fn take_in<I: NonblockingRead, F: NonblockingRead + Drop>(
    input: &mut SourceInput<F>,
    standard: &mut I,
)
    requires { WaitsForDevice input.old }
    ensures { InputLooks I.remaining F.remaining standard.old input.old standard.new input.new }
{
    let mut chunk = [0; INPUT_READ_BYTES];
    match look_device(standard, &mut input.file, &mut chunk) {
        Ok(None) => {}
        Ok(Some(count)) => {
            if input.window.add(&chunk[..count]).is_err() {
                input.failed = Some(Failed::NoMemory);
            }
        }
        Err(_) => input.failed = Some(Failed::Read),
    }
}

/// One look at the file, or else at standard input.
fn look_device<I: NonblockingRead, F: NonblockingRead + Drop>(
    standard: &mut I,
    file: &mut Option<F>,
    chunk: &mut [u8],
) -> io::Result<Option<usize>>
    ensures bound { LooksAtMost result chunk.new }
    ensures bytes { LookConsumes (device_left I.remaining F.remaining standard.old file.old)
        (device_left I.remaining F.remaining standard.new file.new) result chunk.new }
    ensures only { ReadsOnly standard.old standard.new file.old file.new }
{
    match file {
        Some(file) => file.look(chunk),
        None => standard.look(chunk),
    }
}

/// The answer of an input. It reads until there are bytes enough to tell.
fn next_of<I: Read, F: Read + Drop>(input: &mut SourceInput<F>, standard: &mut I) -> Answer
    ensures { InputGives I.remaining F.remaining standard.old input.old result
        standard.new input.new }
{
    for _read in 0..u64::MAX {
        if let Some(answer) = input.window.next(input.format) {
            return answer;
        }
        if let Err(fault) = read_on(input, standard) {
            return Err(fault);
        }
    }
    Err(SourceFault::Read)
}

/// One read into the window of an input, unless a look has met a fault, which is told.
fn read_on<I: Read, F: Read + Drop>(
    input: &mut SourceInput<F>,
    standard: &mut I,
) -> Result<(), SourceFault>
    requires { input.old.window.is_over ≡ false }
    ensures moved { OnOk result (HaveMoved I.remaining F.remaining standard.old input.old
        standard.new input.new) }
    ensures grown { OnOk result (HasReadOn input.old.window input.new.window) }
    ensures unfailed { OnOk result (input.old.failed ≡ None) }
    ensures fault { IfErr result (FailsToRead I.remaining F.remaining standard.old input.old
        standard.new input.new) }
{
    match input.failed {
        Some(failed) => Err(fault_of(failed)),
        None => read_more(input, standard),
    }
}

fn fault_of(failed: Failed) -> SourceFault
    ensures { result ≡ kept_fault failed }
{
    match failed {
        Failed::Read => SourceFault::Read,
        Failed::NoMemory => SourceFault::NoMemory,
    }
}

/// One read into the window of an input. It is apart since the chunk is large.
#[inline(never)]
fn read_more<I: Read, F: Read + Drop>(
    input: &mut SourceInput<F>,
    standard: &mut I,
) -> Result<(), SourceFault>
    requires open { input.old.window.is_over ≡ false }
    requires unfailed { input.old.failed ≡ None }
    ensures moved { OnOk result (HaveMoved I.remaining F.remaining standard.old input.old
        standard.new input.new) }
    ensures grown { OnOk result (HasReadOn input.old.window input.new.window) }
    ensures fault { IfErr result (FailsToRead I.remaining F.remaining standard.old input.old
        standard.new input.new) }
{
    let mut chunk = [0; INPUT_READ_BYTES];
    let Ok(count) = read_device(standard, &mut input.file, &mut chunk) else {
        return Err(SourceFault::Read);
    };
    match input.window.add(&chunk[..count]) {
        Ok(()) => Ok(()),
        Err(_) => Err(SourceFault::NoMemory),
    }
}

/// One read of the file, or else of standard input.
fn read_device<I: Read, F: Read + Drop>(
    standard: &mut I,
    file: &mut Option<F>,
    chunk: &mut [u8],
) -> Result<usize, ItemFault>
    ensures bound { ReadsAtMost result chunk.new }
    ensures bytes { ReadConsumes (device_left I.remaining F.remaining standard.old file.old)
        (device_left I.remaining F.remaining standard.new file.new) result chunk.new }
    ensures only { ReadsOnly standard.old standard.new file.old file.new }
{
    match file {
        Some(file) => read_some(file, chunk),
        None => read_some(standard, chunk),
    }
}
