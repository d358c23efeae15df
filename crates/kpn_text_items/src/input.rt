//! All bytes of a reader, up to the limit of what the program reads.

ghost use Rattle.std.specs.Prelude.{◌≡◌, ◌≤◌, IfOk, IfErr, OnOk, IfSome, vec_len};
ghost use Rattle.std.specs.Io.{ReadsAtMost};
ghost use Rattle.std.specs.Io.KnownBytes.{IsAtEnd, ReadConsumes};
ghost use Rattle.kpn_text_items.specs.Input.{LosesItsFront, NamesNoLine};

use crate::fault::ItemFault;
use kpn_limits::MAX_INPUT_BYTES;
use std::alloc::Global;
use std::io::{ErrorKind, Read};

/// How many bytes one read asks for.
const CHUNK: usize = 8192;

/// All bytes of the reader, up to its end.
///
/// It fails with `ItemFault::Read` if a read fails, or if more than `MAX_INPUT_BYTES` bytes come, so that it also ends
/// on a reader that has no end. It fails with `ItemFault::NoMemory` if memory for the bytes ran out. If a signal
/// interrupts a read, it reads again. No clause can say that a read fails only if it must: a reader may fail at any
/// time.
pub fn read_all<R: Read>(alloc: Global, reader: &mut R) -> Result<Vec<u8>, ItemFault>
    ensures within { IfOk result (λ bytes. vec_len bytes ≤ MAX_INPUT_BYTES) }
    ensures whole { IfOk result (λ bytes.
        IfSome (R.remaining reader.old) (λ given. bytes.items ≡ given)) }
    ensures at_end { OnOk result (IsAtEnd (R.remaining reader.new)) }
    ensures rest { LosesItsFront (R.remaining reader.old) (R.remaining reader.new) }
    ensures fault { IfErr result NamesNoLine }
{
    read_up_to(alloc, reader, MAX_INPUT_BYTES)
}

/// `read_all` under any limit.
pub fn read_up_to<R: Read>(
    alloc: Global,
    reader: &mut R,
    limit: usize,
) -> Result<Vec<u8>, ItemFault>
    ensures within { IfOk result (λ bytes. vec_len bytes ≤ limit) }
    ensures whole { IfOk result (λ bytes.
        IfSome (R.remaining reader.old) (λ given. bytes.items ≡ given)) }
    ensures at_end { OnOk result (IsAtEnd (R.remaining reader.new)) }
    ensures rest { LosesItsFront (R.remaining reader.old) (R.remaining reader.new) }
    ensures fault { IfErr result NamesNoLine }
{
    let mut bytes = Vec::new(alloc);
    let mut chunk = [0; CHUNK];
    loop {
        let Ok(count) = read_some(reader, &mut chunk) else {
            return Err(ItemFault::Read);
        };
        if count == 0 {
            return Ok(bytes);
        }
        if count > limit - bytes.len() {
            return Err(ItemFault::Read);
        }
        bytes
            .extend_from_slice(&chunk[..count])
            .map_err(|_| ItemFault::NoMemory)?;
    }
}

/// One read. As long as a signal interrupts it, it reads again.
pub fn read_some<R: Read>(reader: &mut R, buf: &mut [u8]) -> Result<usize, ItemFault>
    ensures bound { ReadsAtMost result buf.new }
    ensures bytes { ReadConsumes (R.remaining reader.old) (R.remaining reader.new) result buf.new }
{
    for _attempt in 0..u64::MAX {
        match reader.read(buf) {
            Ok(count) => return Ok(count),
            Err(error) if error.kind() == ErrorKind::Interrupted => {}
            Err(_) => return Err(ItemFault::Read),
        }
    }
    Err(ItemFault::Read)
}
