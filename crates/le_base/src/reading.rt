ghost use Rattle.std.specs.Prelude.{◌≡◌, ◌≢◌, ◌+◌, ◌≤◌, vec_len, IfOk, OnOk, OnErr, IsErrOf};
ghost use Rattle.std.specs.Io.KnownBytes.{Appends};
ghost use Rattle.le_base.specs.Outside.{Rose, AppendsPrefix, ReadsAll, ConsumesAtMost, ConsumesExactly};

use crate::outside::{Got, Sink, Source, Took};
use std::alloc::Global;

/// Why the bytes of a source weren't all read.
#[derive(Clone, Copy, Debug, PartialEq, Eq)]
pub enum ReadStop {
    /// A read failed.
    Fault,
    /// The source holds more bytes than the limit.
    TooLong,
    /// Out of memory.
    Memory,
}

/// A write failed.
#[derive(Clone, Copy, Debug, PartialEq, Eq)]
pub struct WriteFault;

/// The most bytes that one read asks for.
const PIECE: usize = 8192;

/// All bytes that are left in the source, read to its end. `Fault` comes exactly where a read failed,
/// which raises the source's count of faults: every other answer leaves the count as it was. `TooLong`
/// comes exactly where one byte past the limit was read. After a refusal the bytes that were read are
/// gone from the source.
pub fn read_all<S: Source>(alloc: Global, source: &mut S, limit: usize) -> Result<Vec<u8>, ReadStop>
    ensures all { IfOk result (λ bytes. ReadsAll (S.left source.old) (S.left source.new) bytes.items) }
    ensures within { IfOk result (λ bytes. vec_len bytes ≤ limit) }
    ensures fault { IsErrOf result ReadStop.Fault → Rose (S.faults source.old) (S.faults source.new) }
    ensures kept { result ≢ Err ReadStop.Fault → S.faults source.new ≡ S.faults source.old }
    ensures too_long { IsErrOf result ReadStop.TooLong → ConsumesExactly (S.left source.old) (S.left source.new) (limit + 1) }
    ensures stopped { result ≢ Err ReadStop.TooLong → ConsumesAtMost (S.left source.old) (S.left source.new) limit }
    ensures count { S.faults source.old ≤ S.faults source.new }
{
    let mut bytes = Vec::new(alloc);
    let mut buffer = [0; PIECE];
    loop {
        let room = PIECE.min((limit - bytes.len()).saturating_add(1));
        let piece = &mut buffer[..room];
        match source.read(piece) {
            Got::End => return Ok(bytes),
            Got::Failed => return Err(ReadStop::Fault),
            Got::Bytes(count) => {
                if count > limit - bytes.len() {
                    return Err(ReadStop::TooLong);
                }
                if bytes.extend_from_slice(&piece[..count]).is_err() {
                    return Err(ReadStop::Memory);
                }
            }
        }
    }
}

/// Writes all the bytes, and then the sink's count of faults is as it was. `WriteFault` comes exactly
/// where a write failed, which raises the count, and then a prefix of the bytes was written.
pub fn put<K: Sink>(sink: &mut K, bytes: &[u8]) -> Result<(), WriteFault>
    ensures all { OnOk result (Appends (K.written sink.old) (K.written sink.new) bytes.now) }
    ensures part { AppendsPrefix (K.written sink.old) (K.written sink.new) bytes.now }
    ensures fault { OnErr result (Rose (K.faults sink.old) (K.faults sink.new)) }
    ensures kept { OnOk result (K.faults sink.new ≡ K.faults sink.old) }
    ensures count { K.faults sink.old ≤ K.faults sink.new }
{
    let mut rest = bytes;
    while !rest.is_empty() {
        match sink.write(rest) {
            Took::Bytes(count) => rest = &rest[count..],
            Took::Failed => return Err(WriteFault),
        }
    }
    Ok(())
}
