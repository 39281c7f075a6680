//! The bytes that a restart found.

ghost use Rattle.std.specs.Prelude.{◌≡◌, ℕ, List, Some, IfOk, IfSome, IsSome};
ghost use Rattle.hd_base.specs.Bytes.{IsBytes};
ghost use Rattle.hd_base.specs.FileMaps.{FileMap};
ghost use Rattle.replica_calls.specs.LastSums.{IsLastSum};
ghost use Rattle.replica_calls.specs.Performed.{KeepsAll};
ghost use Rattle.replica_files.specs.Finding.{HoldsFound, HoldsBytes, FailsFor, FindsFor};

use crate::faults::FoundFault;
use bytes::Bytes;
use chunk_sums::crc;
use hd_base::{FileError, FileName, Files, SumRule};
use replica_calls::FileNames;
use replica_model::has_sums;
use std::alloc::Global;

/// Reads a whole file.
pub(crate) fn read_whole<F: Files>(
    alloc: Global,
    drawer: &mut F,
    name: &FileName,
) -> Result<Vec<u8>, FileError>
    requires there { IfSome (F.files drawer.old) (λ m. IsSome (m name.now)) }
    ensures value { IfOk result (λ got. (m : FileMap) (bytes : List ℕ) → F.files drawer.old ≡ Some m
        → m name.now ≡ Some bytes → got.items ≡ bytes) }
    ensures kept { KeepsAll F.Files drawer.old drawer.new }
    ensures cause { FailsFor (F.faults drawer.old) (F.faults drawer.new) result }
{
    let len = drawer.length(name)?;
    let mut bytes = vec![in alloc; 0; len as usize]?;
    let count = drawer.read_at(name, 0, &mut bytes)?;
    bytes.truncate(count);
    Ok(bytes)
}

/// The sum of the bytes in the last chunk, where it is short; else that of no bytes.
pub(crate) fn last_sum(rule: SumRule, bytes: &[u8]) -> u32
    ensures last { IsLastSum rule result bytes.now }
    ensures bytes { IsBytes bytes.now }
{
    let past = bytes.len() % rule.chunk() as usize;
    if !has_sums(rule.kind()) || past == 0 {
        return 0;
    }
    crc(rule.kind(), &bytes[bytes.len() - past..])
}

/// Reads what a restart found of a replica: its bytes, and the sum of the last chunk.
pub(crate) fn read_found<F: Files>(
    alloc: Global,
    drawer: &mut F,
    names: &FileNames,
    sums: SumRule,
) -> Result<(Bytes, u32), FoundFault>
    requires there { IfSome (F.files drawer.old) (λ m. IsSome (m names.now.«data»)) }
    ensures value { IfOk result (λ x. (m : FileMap) (bytes : List ℕ) → F.files drawer.old ≡ Some m
        → m names.now.«data» ≡ Some bytes → x.0 ≡ bytes) }
    ensures last { IfOk result (λ x. IsLastSum sums x.1 x.0) }
    ensures bytes { IfOk result (λ x. IsBytes x.0) }
    ensures kept { KeepsAll F.Files drawer.old drawer.new }
    ensures cause { FindsFor (F.faults drawer.old) (F.faults drawer.new) result }
{
    let bytes = read_whole(alloc, drawer, &names.data)?;
    let sum = last_sum(sums, &bytes);
    match Bytes::from_vec(bytes) {
        Ok(bytes) => Ok((bytes, sum)),
        Err(_) => Err(FoundFault::Memory),
    }
}
