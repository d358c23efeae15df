//! How items are written in the inputs and outputs of a stream.
ghost use Rattle.std.specs.Prelude.{◌≡◌, ◌≤◌, ◌↔◌, ℕ, length, IsTrue, MatchOption};
ghost use Rattle.kpn_stream_devices.specs.Formats.{sample_width, sample_value, wav_sample, least_item, greatest_item, least_sample, greatest_sample, FormatHolds, HasText, nearest_item, written_item, NamesFormat, NamesPower, IsNoFormat};
ghost use Rattle.kpn_stream_devices.specs.declared.formats.SampleFormat.TheVariants.{F32};
ghost use Rattle.kpn_stream_devices.specs.declared.formats.ItemFormat.TheVariants.{Samples};

use crate::floats::float_item;
use byteorder::{ByteOrder, LittleEndian};
use kpn_text_items::item_of_line;

/// The greatest item that is nearer to a float below 2^63 than to 2^63, which no item is.
const LARGEST_FLOAT: i64 = 9_223_371_761_976_868_863;

/// The power of two of floats without another.
const USUAL_POWER: u32 = 15;

/// How a sample writes an item.
#[derive(Clone, Copy)]
pub enum SampleFormat {
    /// 0 to 255, in a byte.
    U8,
    /// 8 bits in two's complement.
    S8,
    /// 16 bits in two's complement, the lowest byte first.
    S16,
    /// 24 bits, likewise.
    S24,
    /// 32 bits, likewise.
    S32,
    /// 64 bits, likewise.
    S64,
    /// A float of 32 bits, the lowest byte first: an item n is n / 2^power. A power above 62 counts as 62.
    F32(u32),
}

/// How many bits the samples of a WAV file have that is written. Its head says it of one that is read.
#[derive(Clone, Copy)]
pub enum WavFormat {
    /// 16, as without a number.
    Usual,
    /// 16.
    Bits16,
    /// 24.
    Bits24,
}

/// How items are written in an input or an output of a stream.
#[derive(Clone, Copy)]
pub enum ItemFormat {
    /// Item files: one item in each line.
    Lines,
    /// Samples, one after the other.
    Samples(SampleFormat),
    /// A WAV file: samples after a head.
    Wav(WavFormat),
}

/// How an output writes items, and whether it writes for one that does not fit the nearest one that does.
#[derive(Clone, Copy)]
pub struct OutputFormat {
    pub items: ItemFormat,
    pub clips: bool,
}

impl SampleFormat {
    /// How many bytes a sample has.
    pub fn width(self) -> usize
        ensures width { result ≡ sample_width self }
        ensures low { 1 ≤ result }
        ensures high { result ≤ 8 }
    {
        match self {
            SampleFormat::U8 | SampleFormat::S8 => 1,
            SampleFormat::S16 => 2,
            SampleFormat::S24 => 3,
            SampleFormat::S32 | SampleFormat::F32(_) => 4,
            SampleFormat::S64 => 8,
        }
    }

    /// The item that the first bytes write, if they write one.
    pub(crate) fn value(self, bytes: &[u8]) -> Option<i64>
        requires { sample_width self ≤ length bytes.now }
        ensures { result ≡ sample_value self bytes.now }
    {
        match self {
            SampleFormat::U8 => Some(i64::from(bytes[0])),
            SampleFormat::S8 => Some(LittleEndian::read_int(bytes, 1)),
            SampleFormat::S16 => Some(LittleEndian::read_int(bytes, 2)),
            SampleFormat::S24 => Some(LittleEndian::read_int(bytes, 3)),
            SampleFormat::S32 => Some(LittleEndian::read_int(bytes, 4)),
            SampleFormat::S64 => Some(LittleEndian::read_int(bytes, 8)),
            SampleFormat::F32(power) => float_item(power, LittleEndian::read_u32(bytes)),
        }
    }

    fn least(self) -> i64
        ensures { result ≡ least_sample self }
    {
        match self {
            SampleFormat::U8 => 0,
            SampleFormat::S8 => i64::from(i8::MIN),
            SampleFormat::S16 => i64::from(i16::MIN),
            SampleFormat::S24 => -8_388_608,
            SampleFormat::S32 => i64::from(i32::MIN),
            SampleFormat::S64 | SampleFormat::F32(_) => i64::MIN,
        }
    }

    fn greatest(self) -> i64
        ensures { result ≡ greatest_sample self }
    {
        match self {
            SampleFormat::U8 => i64::from(u8::MAX),
            SampleFormat::S8 => i64::from(i8::MAX),
            SampleFormat::S16 => i64::from(i16::MAX),
            SampleFormat::S24 => 8_388_607,
            SampleFormat::S32 => i64::from(i32::MAX),
            SampleFormat::S64 => i64::MAX,
            SampleFormat::F32(_) => LARGEST_FLOAT,
        }
    }
}

impl WavFormat {
    /// The samples that are written.
    pub(crate) fn sample(self) -> SampleFormat
        ensures { result ≡ wav_sample self }
    {
        match self {
            WavFormat::Usual | WavFormat::Bits16 => SampleFormat::S16,
            WavFormat::Bits24 => SampleFormat::S24,
        }
    }
}

impl ItemFormat {
    /// The format that a word after `--format` names.
    pub fn of_word(word: &str) -> Option<ItemFormat>
        ensures { MatchOption result (IsNoFormat word.now) (NamesFormat word.now) }
    {
        match word {
            "lines" => Some(ItemFormat::Lines),
            "u8" => Some(ItemFormat::Samples(SampleFormat::U8)),
            "s8" => Some(ItemFormat::Samples(SampleFormat::S8)),
            "s16le" => Some(ItemFormat::Samples(SampleFormat::S16)),
            "s24le" => Some(ItemFormat::Samples(SampleFormat::S24)),
            "s32le" => Some(ItemFormat::Samples(SampleFormat::S32)),
            "s64le" => Some(ItemFormat::Samples(SampleFormat::S64)),
            "f32le" => Some(ItemFormat::Samples(SampleFormat::F32(USUAL_POWER))),
            "wav" => Some(ItemFormat::Wav(WavFormat::Usual)),
            "wav16" => Some(ItemFormat::Wav(WavFormat::Bits16)),
            "wav24" => Some(ItemFormat::Wav(WavFormat::Bits24)),
            _ => ItemFormat::scaled(word),
        }
    }

    /// The format that `f32le:POWER` names.
    fn scaled(word: &str) -> Option<ItemFormat>
        ensures { MatchOption result ((power : ℕ) → NamesPower word.now power → ⊥)
            (λ format. (power : ℕ) × NamesPower word.now power
            × (format ≡ Samples (F32 power))) }
    {
        let bytes = word.as_bytes();
        if !bytes.starts_with(b"f32le:") {
            return None;
        }
        match item_of_line(&bytes[6..]) {
            Some(power) if 0 <= power && power <= 62 => {
                Some(ItemFormat::Samples(SampleFormat::F32(power as u32)))
            }
            _ => None,
        }
    }

    /// The least item for which the format has a text.
    pub fn least(self) -> i64
        ensures { result ≡ least_item self }
    {
        match self {
            ItemFormat::Lines => i64::MIN,
            ItemFormat::Samples(sample) => sample.least(),
            ItemFormat::Wav(wav) => wav.sample().least(),
        }
    }

    /// The greatest item for which it has one.
    pub fn greatest(self) -> i64
        ensures { result ≡ greatest_item self }
    {
        match self {
            ItemFormat::Lines => i64::MAX,
            ItemFormat::Samples(sample) => sample.greatest(),
            ItemFormat::Wav(wav) => wav.sample().greatest(),
        }
    }

    /// Whether the format has a text for an item.
    pub fn has(self, item: i64) -> bool
        ensures { IsTrue result ↔ FormatHolds self item }
    {
        self.least() <= item && item <= self.greatest()
    }

    /// The nearest item for which the format has a text.
    fn nearest(self, item: i64) -> i64
        ensures { result ≡ nearest_item self item }
    {
        self.least().max(item.min(self.greatest()))
    }
}

impl OutputFormat {
    /// The item that is written for an item, if the output has a text for it.
    pub(crate) fn written(self, item: i64) -> Option<i64>
        ensures { MatchOption result (HasText self item → ⊥)
            (λ written. HasText self item × (written ≡ written_item self item)) }
    {
        let written = if self.clips {
            self.items.nearest(item)
        } else {
            item
        };
        if self.items.has(written) {
            Some(written)
        } else {
            None
        }
    }
}
