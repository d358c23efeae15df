//! What follows from the clauses of the inputs and outputs, as contracts of functions that do nothing.
ghost use Rattle.std.specs.Prelude.{◌≡◌, ◌++◌, ℕ, ℤ, ◌+◌, IsSome, true, false, List, [], length, get_or, Contains, Option, Some};
ghost use Rattle.std.specs.Io.KnownBytes.{Appends};
ghost use Rattle.kpn_net.specs.Tables.{Tables, channel_at, is_source, is_sink};
ghost use Rattle.kpn_net.specs.Faults.{IsNetwork};
ghost use Rattle.kpn_history.specs.declared.event.Event.{Event};
ghost use Rattle.kpn_history.specs.Channels.{written_on, read_on, is_left};
ghost use Rattle.kpn_history.specs.Legal.{Legal};
ghost use Rattle.kpn_stream.specs.declared.faults.SinkFault.{SinkFault};
ghost use Rattle.kpn_stream.specs.declared.faults.SourceFault.TheVariants.{BadItem};
ghost use Rattle.kpn_stream.specs.Devices.{AreFlushedLast, Fed, Served};
ghost use Rattle.kpn_stream.specs.Ending.{end_numbers};
ghost use Rattle.kpn_stream_devices.specs.Floats.{float_bits, float_item};
ghost use Rattle.kpn_stream_devices.specs.Formats.{FormatHolds, IsExact, sample_bytes, sample_value};
ghost use Rattle.kpn_stream_devices.specs.declared.formats.SampleFormat.{SampleFormat};
ghost use Rattle.kpn_stream_devices.specs.declared.formats.ItemFormat.TheVariants.{Samples};
ghost use Rattle.kpn_stream_devices.specs.declared.formats.SampleFormat.TheVariants.{F32};
ghost use Rattle.kpn_stream_devices.specs.declared.inputs.SourceInput.{SourceInput as Source};
ghost use Rattle.kpn_stream_devices.specs.declared.inputs.SourceInputs.{SourceInputs as Devices};
ghost use Rattle.kpn_stream_devices.specs.SourceInputs.{InputsGive, InputsLook, input_of};
ghost use Rattle.kpn_stream_devices.specs.Window.{fresh, used_after};
ghost use Rattle.kpn_stream_devices.specs.declared.outputs.SinkOutput.{SinkOutput as One};
ghost use Rattle.kpn_stream_devices.specs.declared.outputs.SinkOutputs.{SinkOutputs as Targets};
ghost use Rattle.kpn_stream_devices.specs.Out.{HasOwnDevice, IsServed, text_of_all};
ghost use Rattle.kpn_stream_devices.specs.SinkOutputs.{OutputsFlush, OutputsTake, device_holds, output_of, was_put};

use kpn_shelf::NonblockingRead;
use std::io::Write;

/// The line or sample that an input tells as bad is the one after those that gave the items so far, counted from 1.
pub fn the_bad_line<I: NonblockingRead, F: NonblockingRead + Drop>()
    ensures { (t : Tables) → IsNetwork t → (H : List Event) → Legal t H
        → (first now : Devices I F) (c i number : ℕ)
        → Fed t (InputsGive I.remaining F.remaining) (InputsLook I.remaining F.remaining)
        first H (Some (c, BadItem number)) now → is_source (channel_at t c) ≡ true
        → input_of first.each.now.items c ≡ Some i
        → (d : Source F) → (get_or first.each.now.items i d).window ≡ fresh
        → number ≡ used_after (length (written_on H c) + 1) }
{}

/// The output of a sink that was not left, and whose device has not failed, was put the texts of all items that were
/// taken from the sink, in order, and nothing else. Once it keeps nothing, its device holds them.
pub fn what_was_put<O: Write, G: Write + Drop>()
    ensures { (t : Tables) → IsNetwork t → (H : List Event) → Legal t H
        → (wanted : Option ℕ) (first now : Targets O G) (failed : Option (ℕ × SinkFault))
        → Served (OutputsTake O.contents G.contents) (OutputsFlush O.contents G.contents)
        wanted first H failed now → (c i : ℕ) → is_sink (channel_at t c) ≡ true
        → output_of first.each.now.items c ≡ Some i → HasOwnDevice first.each.now.items i
        → IsServed H failed c → (d : One G) → Appends
        (was_put O.contents G.contents first.standard.now (get_or first.each.now.items i d))
        (was_put O.contents G.contents now.standard.now (get_or now.each.now.items i d))
        (text_of_all (get_or first.each.now.items i d).format (read_on H c)) }
{}

/// Once a stream has ended without a failed device, the device of each sink that was not left holds them.
pub fn what_is_out<O: Write, G: Write + Drop>()
    ensures { (t : Tables) → IsNetwork t → (H : List Event) (wanted : Option ℕ)
        → (first now : Targets O G) → (last : AreFlushedLast (OutputsTake O.contents G.contents)
        (OutputsFlush O.contents G.contents) wanted t [] first H now)
        → Legal t last.before → (c i : ℕ) → is_sink (channel_at t c) ≡ true
        → Contains (end_numbers is_sink t) c → output_of first.each.now.items c ≡ Some i
        → HasOwnDevice first.each.now.items i → is_left H c ≡ false → (d : One G) → Appends
        (was_put O.contents G.contents first.standard.now (get_or first.each.now.items i d))
        (device_holds O.contents G.contents now.standard.now
        (get_or now.each.now.items i d).file)
        (text_of_all (get_or first.each.now.items i d).format (read_on H c)) }
{}

/// A float that was written for an item that fits its format is read again as an item.
pub fn a_float_is_read_again()
    ensures { (power : ℕ) (item : ℤ) → FormatHolds (Samples (F32 power)) item
        → IsSome (float_item power (float_bits power item)) }
{}

/// A sample that was written for an item is read again as this item, if whole samples hold it, or if it has so few
/// places that a float is not rounded.
pub fn a_sample_is_read_again()
    ensures { (sample : SampleFormat) (item : ℤ) (more : List ℕ)
        → FormatHolds (Samples sample) item → IsExact sample item
        → sample_value sample (sample_bytes sample item ++ more) ≡ Some item }
{}
