//! Reading a source to its end, and writing a whole text to a sink.

ghost use Rattle.std.specs.Prelude.{◌≡◌, ◌≢◌, ◌+◌, ◌-◌, ◌^◌, ◌<◌, ◌≤◌, [], length, Err, IfOk, OnOk, OnErr, IfSome};
ghost use Rattle.hd_base.specs.Faults.{FaultsIncreased};
ghost use Rattle.hd_base.specs.Streams.{Took, Wrote};
ghost use Rattle.whole_streams.specs.Streams.{NoneFails, TookSome, WroteFront};

use hd_base::{Sink, Source};
use std::alloc::Global;
use thiserror::Error;

/// How many bytes one read asks for at most.
const PIECE: usize = 4096;

/// Why a source wasn't read to its end.
#[derive(Clone, Copy, Debug, PartialEq, Eq, Error)]
pub enum ReadFault {
    /// It has more bytes than the limit.
    #[error("more bytes than the limit")]
    TooLong,
    /// A read failed.
    #[error("a read failed")]
    Failed,
    /// Memory ran out.
    #[error("out of memory")]
    Memory,
}

/// Why a text wasn't written whole.
#[derive(Clone, Copy, Debug, PartialEq, Eq, Error)]
pub enum WriteFault {
    /// A write failed.
    #[error("a write failed")]
    Failed,
    /// Memory ran out.
    #[error("out of memory")]
    Memory,
}

/// Reads a source to its end: at most `limit` bytes. `TooLong` comes once a byte more than `limit`
/// was taken, and no further byte is taken then. `Failed` comes where a read failed, which took
/// nothing. `Memory` is want of memory for the bytes that were taken.
pub fn read_to_end<S: Source>(
    alloc: Global,
    source: &mut S,
    limit: usize,
) -> Result<Vec<u8>, ReadFault>
    // The bytes are what was left, and at most so many.
    ensures read { IfOk result (λ bytes. Took (S.left source.old) (S.left source.new) bytes.items) }
    ensures whole { OnOk result (IfSome (S.left source.new) (λ rest. rest ≡ [])) }
    ensures few { IfOk result (λ bytes. length bytes.items ≤ limit) }

    // Where told, TooLong says that there are more, and where there are more, nothing is read as a whole.
    ensures long { result ≡ Err ReadFault.TooLong → IfSome (S.left source.old) (λ left. limit < length left) }
    ensures bounded { OnOk result (IfSome (S.left source.old) (λ left. length left ≤ limit)) }

    // Never more than a byte past the limit is taken.
    ensures taken { OnErr result (TookSome (S.left source.old) (S.left source.new) (limit + 1)) }

    // A read fails only where the count rose, and where none is to fail the count stays.
    ensures failed { result ≡ Err ReadFault.Failed → FaultsIncreased (S.faults source.old) (S.faults source.new) }
    ensures never_falls { S.faults source.old ≤ S.faults source.new }
    ensures still { NoneFails (S.schedule source.old) → S.faults source.new ≡ S.faults source.old }
    ensures goes_on { NoneFails (S.schedule source.old) → NoneFails (S.schedule source.new) }
    ensures sound { NoneFails (S.schedule source.old) → S.faults source.old < 2 ^ 64 - 1 → result ≢ Err ReadFault.Failed }
{
    let mut bytes = Vec::new(alloc);
    let mut piece = [0; PIECE];
    'reads: loop {
        let room = PIECE.min((limit - bytes.len()).saturating_add(1));
        let Ok(count) = source.read(&mut piece[..room]) else {
            return Err(ReadFault::Failed);
        };
        if count == 0 {
            return Ok(bytes);
        }
        if bytes.extend_from_slice(&piece[..count]).is_err() {
            return Err(ReadFault::Memory);
        }
        if bytes.len() > limit {
            return Err(ReadFault::TooLong);
        }
    }
}

/// Writes a whole text. The memory that this needs is secured first: `Memory` comes before anything
/// is written, and changes nothing. `Failed` comes where a write failed, behind a front of the text.
pub fn write_all<O: Sink>(alloc: Global, sink: &mut O, text: &[u8]) -> Result<(), WriteFault>
    ensures ok { OnOk result (Wrote (O.written sink.old) (O.written sink.new) text.now) }
    ensures front { OnErr result (WroteFront (O.written sink.old) (O.written sink.new) text.now) }
    ensures memory { result ≡ Err WriteFault.Memory → O.written sink.new ≡ O.written sink.old }
    ensures no_call { result ≡ Err WriteFault.Memory → O.schedule sink.new ≡ O.schedule sink.old }

    // A write fails only where the count rose, and where none is to fail the count stays.
    ensures failed { result ≡ Err WriteFault.Failed → FaultsIncreased (O.faults sink.old) (O.faults sink.new) }
    ensures never_falls { O.faults sink.old ≤ O.faults sink.new }
    ensures still { NoneFails (O.schedule sink.old) → O.faults sink.new ≡ O.faults sink.old }
    ensures goes_on { NoneFails (O.schedule sink.old) → NoneFails (O.schedule sink.new) }
    ensures sound { NoneFails (O.schedule sink.old) → O.faults sink.old < 2 ^ 64 - 1 → result ≢ Err WriteFault.Failed }
{
    if sink.room(alloc, text.len() as u64).is_err() {
        return Err(WriteFault::Memory);
    }
    let mut at = 0;
    'writes: while at < text.len() {
        let Ok(count) = sink.write(&text[at..]) else {
            return Err(WriteFault::Failed);
        };
        at += count;
    }
    Ok(())
}
