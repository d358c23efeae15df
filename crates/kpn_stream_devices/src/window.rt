//! The bytes of an input that were read and not yet used, and the items that they spell.
ghost use Rattle.std.specs.Prelude.{◌≡◌, ◌+◌, ◌<◌, ◌≤◌, ◌++◌, [], true, false, Ok, Err, Some, None, drop, length, vec_len, IfOk, OnOk, OnErr, IfSome, MatchOption, position, ◌==◌, min};
ghost use Rattle.kpn_stream_devices.specs.Formats.{sample_width};
ghost use Rattle.kpn_stream_devices.specs.Head.{HasHead, head_at};
ghost use Rattle.kpn_stream_devices.specs.Window.{answer_of, end_told, fills_up, fresh, ends_samples, one_after, with_one, NeedsMore, LineNeedsMore, SampleNeedsMore, WindowTells, WavNeedsMore, IsRightOf, IsRightOfWav};
ghost use Rattle.kpn_stream.specs.declared.faults.SourceFault.TheVariants.{BadHead};
ghost use Rattle.kpn_stream_devices.specs.declared.head.Head.TheVariants.{Whole};
ghost use Rattle.kpn_stream_devices.specs.declared.window.Told.TheVariants.{Other};
ghost use Rattle.kpn_stream_devices.specs.declared.formats.ItemFormat.TheVariants.{Lines, Samples};

use crate::formats::{ItemFormat, SampleFormat};
use crate::head::{Head, UNKNOWN, Wav, head_of};
use kpn_stream::SourceFault;
use kpn_text_items::{item_of_line, line_feed, without_carriage_return};
use std::alloc::{AllocError, Global};
use std::marker::Model;

/// What the next read of a source answers.
pub type Answer = Result<Option<i64>, SourceFault>;

/// A line with this many bytes spells no item: 19 digits, a `-` and a carriage return are 21.
const TOO_LONG_LINE: usize = 22;

/// What bytes tell that are enough.
#[derive(Clone, Copy)]
enum Told {
    /// A line or a sample of this many bytes spells this item, or none. This is left of a WAV file after it.
    One(Option<i64>, usize, Option<Wav>),
    /// There is no line or sample, and this is the answer.
    Other(Answer),
}

/// A part of an input.
#[derive(Drop)]
pub struct Window {
    bytes: Vec<u8>,
    // this many of the bytes were used
    start: usize,
    is_over: bool,
    used: u64,
    // once samples of a WAV file were used
    wav: Option<Wav>,
}

impl Model for Window {
    ghost use Rattle.std.specs.Prelude.{drop, ◌≤◌, length};
    ghost use Rattle.kpn_stream_devices.specs.Window as spec;

    ghost Value = { spec.Window };

    ghost view = { λ w. record {
      unused = drop w.start w.bytes.items;
      is_over = w.is_over;
      used = w.used;
      wav = w.wav;
    } };

    ghost invariant = { λ w. w.start ≤ length w.bytes.items };
}

impl Window {
    /// A window with no bytes yet. It takes no memory.
    pub fn new(alloc: Global) -> Window
        ensures { result ≡ fresh }
    {
        Window {
            bytes: Vec::new(alloc),
            start: 0,
            is_over: false,
            used: 0,
            wav: None,
        }
    }

    /// The bytes that were not used yet.
    fn unused(&self) -> &[u8]
        ensures { result.now ≡ self.now.unused }
    {
        &self.bytes[self.start..]
    }

    /// Takes what one read gave. If it gave nothing, the input is over. The error is that memory ran out.
    pub fn add(&mut self, bytes: &[u8]) -> Result<(), AllocError>
        ensures added { OnOk result (self.new.unused ≡ self.old.unused ++ bytes.now) }
        ensures used { self.new.used ≡ self.old.used }
        ensures wav { self.new.wav ≡ self.old.wav }
        ensures over { OnOk result (self.new.is_over ≡ true → bytes.now ≡ []) }
        ensures as_before { OnErr result (self.new ≡ self.old) }
    {
        if bytes.is_empty() {
            self.is_over = true;
            return Ok(());
        }
        self.forget_used();
        self.bytes.extend_from_slice(bytes)?;
        self.is_over = false;
        Ok(())
    }

    /// Makes room where used bytes lie.
    fn forget_used(&mut self)
        ensures { self.new ≡ self.old }
    {
        drop(self.bytes.drain(..self.start));
        self.start = 0;
    }

    /// Uses a line or a sample of this many bytes, and returns its number. This is left of a WAV file after it.
    fn pass(&mut self, count: usize, wav: Option<Wav>) -> u64
        requires { count ≤ length self.old.unused }
        ensures passed { self.new ≡ with_one count wav self.old }
        ensures number { result ≡ one_after self.old.used }
    {
        self.start += count;
        self.wav = wav;
        let number = self.used.saturating_add(1);
        self.used = number;
        number
    }

    /// The answer of the source, if no more bytes are needed to tell.
    pub fn next(&mut self, format: ItemFormat) -> Option<Answer>
        ensures told { IfSome result (λ answer. WindowTells format self.old answer self.new) }
        ensures needs_more { result ≡ None → self.new ≡ self.old }
        ensures needs { result ≡ None → NeedsMore format self.old }
        ensures over { self.new.is_over ≡ self.old.is_over }
    {
        match self.tell(format)? {
            Told::One(item, count, wav) => {
                let number = self.pass(count, wav);
                Some(answer_of(item, number))
            }
            Told::Other(answer) => Some(answer),
        }
    }

    /// The next item, if no more bytes are needed to tell it. Otherwise nothing changes.
    pub fn next_item(&mut self, format: ItemFormat) -> Option<i64>
        ensures told { IfSome result (λ item. WindowTells format self.old (Ok (Some item)) self.new) }
        ensures at_hand { IfSome result (λ item. NeedsMore format self.old → ⊥) }
        ensures as_before { result ≡ None → self.new ≡ self.old }
        ensures over { self.new.is_over ≡ self.old.is_over }
    {
        match self.tell(format)? {
            Told::One(Some(item), count, wav) => {
                self.pass(count, wav);
                Some(item)
            }
            _ => None,
        }
    }

    /// What the unused bytes tell, if no more are needed.
    fn tell(&self, format: ItemFormat) -> Option<Told>
        ensures told { IfSome result (λ told. IsRightOf format self.now told) }
        ensures needs { result ≡ None → NeedsMore format self.now }
        ensures enough { NeedsMore format self.now → result ≡ None }
    {
        match format {
            ItemFormat::Lines => self.tell_line(),
            ItemFormat::Samples(sample) => self.tell_sample(sample),
            ItemFormat::Wav(_) => self.tell_wav(),
        }
    }

    /// Whether `next` needs no more bytes.
    pub fn is_at_hand(&self, format: ItemFormat) -> bool
        ensures told { NeedsMore format self.now → result ≡ false }
        ensures needs { result ≡ false → NeedsMore format self.now }
    {
        self.tell(format).is_some()
    }

    fn tell_line(&self) -> Option<Told>
        ensures told { IfSome result (λ told. IsRightOf Lines self.now told) }
        ensures needs { result ≡ None → LineNeedsMore self.now }
        ensures enough { LineNeedsMore self.now → result ≡ None }
    {
        match line_feed(self.unused()) {
            Some(end) => Some(self.tell_line_of(end)),
            None => self.tell_last_line(),
        }
    }

    /// What the line tells that has a line feed after this many bytes.
    fn tell_line_of(&self, end: usize) -> Told
        requires { position (λ byte. byte == 10) self.now.unused ≡ Some end }
        ensures { IsRightOf Lines self.now result }
    {
        let item = item_of_line(without_carriage_return(&self.unused()[..end]));
        Told::One(item, end + 1, self.wav)
    }

    /// What the last line tells, which lacks its line feed.
    fn tell_last_line(&self) -> Option<Told>
        requires { position (λ byte. byte == 10) self.now.unused ≡ None }
        ensures told { IfSome result (λ told. IsRightOf Lines self.now told) }
        ensures needs { result ≡ None → LineNeedsMore self.now }
        ensures enough { LineNeedsMore self.now → result ≡ None }
    {
        let count = self.unused().len();
        if self.is_over && count == 0 {
            return Some(Told::Other(Ok(None)));
        }
        if self.is_over {
            let item = item_of_line(self.unused());
            return Some(Told::One(item, count, self.wav));
        }
        if count < TOO_LONG_LINE {
            return None;
        }
        Some(Told::One(None, count, self.wav))
    }

    /// What the bytes of a sample tell.
    fn tell_sample(&self, sample: SampleFormat) -> Option<Told>
        ensures told { IfSome result (λ told. IsRightOf (Samples sample) self.now told) }
        ensures needs { result ≡ None → SampleNeedsMore sample self.now }
        ensures enough { SampleNeedsMore sample self.now → result ≡ None }
    {
        let unused = self.unused();
        let width = sample.width();
        if unused.len() >= width {
            return Some(Told::One(sample.value(unused), width, self.wav));
        }
        if !self.is_over {
            return None;
        }
        if unused.is_empty() {
            return Some(Told::Other(Ok(None)));
        }
        Some(Told::Other(Err(SourceFault::CutSample)))
    }

    /// Where the samples of a WAV file go on.
    fn head(&self) -> Head
        ensures is { result ≡ head_at self.now.wav self.now.unused }
        ensures within { HasHead result (length self.now.unused) }
    {
        match self.wav {
            Some(wav) => Head::Whole(0, wav),
            None => head_of(self.unused()),
        }
    }

    /// What the bytes of a WAV file tell.
    fn tell_wav(&self) -> Option<Told>
        ensures told { IfSome result (λ told. IsRightOfWav self.now told) }
        ensures needs { result ≡ None → WavNeedsMore self.now }
        ensures enough { WavNeedsMore self.now → result ≡ None }
    {
        match self.head() {
            Head::Whole(start, wav) => self.tell_behind(start, wav),
            Head::Bad(at) => Some(bad_head(at)),
            Head::Open if self.is_over => Some(bad_head(self.unused().len())),
            Head::Open => None,
        }
    }

    /// The same after this many bytes of the head.
    fn tell_behind(&self, start: usize, wav: Wav) -> Option<Told>
        requires head { head_at self.now.wav self.now.unused ≡ Whole start wav }
        requires within { start ≤ length self.now.unused }
        ensures told { IfSome result (λ told. IsRightOfWav self.now told) }
        ensures needs { result ≡ None → WavNeedsMore self.now }
        ensures enough { WavNeedsMore self.now → result ≡ None }
    {
        let behind = &self.unused()[start..];
        let width = wav.sample.width();
        if behind.len() >= width && wav.left >= width as u64 {
            let rest = Wav {
                sample: wav.sample,
                left: wav.left - width as u64,
            };
            return Some(Told::One(wav.sample.value(behind), start + width, Some(rest)));
        }
        if self.is_over || behind.len() as u64 >= wav.left {
            return Some(Told::Other(end_told(wav, behind)));
        }
        None
    }
}

/// The head of a WAV file is wrong from this byte on.
fn bad_head(at: usize) -> Told
    ensures { result ≡ Other (Err (BadHead at)) }
{
    Told::Other(Err(SourceFault::BadHead(at as u64)))
}

/// The answer where no more bytes come than these, which are too few for a sample.
fn end_told(wav: Wav, bytes: &[u8]) -> Answer
    ensures { result ≡ end_told wav bytes.now }
{
    if ends_samples(wav, bytes) {
        return Ok(None);
    }
    Err(SourceFault::CutSample)
}

/// Whether these bytes are what is left after the last sample: of a counted file nothing that is counted, and of
/// another one nothing but what fills it up.
fn ends_samples(wav: Wav, bytes: &[u8]) -> bool
    ensures { result ≡ ends_samples wav bytes.now }
{
    if wav.left == 0 {
        return true;
    }
    if wav.left < UNKNOWN {
        return false;
    }
    bytes.is_empty() || fills_up(wav, bytes)
}

/// Whether this is a byte 0 that fills up an odd number of bytes to an even one, and no sample.
fn fills_up(wav: Wav, bytes: &[u8]) -> bool
    ensures { result ≡ fills_up wav bytes.now }
{
    wav.sample.width() > 1 && wav.left % 2 == 0 && bytes.len() == 1 && bytes[0] == 0
}

/// The answer of a line or a sample, counted from 1, that spells this item, or none.
fn answer_of(item: Option<i64>, number: u64) -> Answer
    ensures { result ≡ answer_of item number }
{
    match item {
        Some(item) => Ok(Some(item)),
        None => Err(SourceFault::BadItem(number)),
    }
}
