//! The sum of a last chunk that is read.

ghost use Rattle.std.specs.Prelude.{◌≡◌, ℕ, ◌≤◌, List, take, length, Some, IfOk, IfSome, IsSome};
ghost use Rattle.hd_base.specs.Faults.{HasCause};
ghost use Rattle.hd_base.specs.FileMaps.{FileMap};
ghost use Rattle.replica_calls.specs.LastSums.{IsLastSum};
ghost use Rattle.replica_calls.specs.Performed.{KeepsAll};

use chunk_sums::crc;
use hd_base::{FileError, FileName, Files, SumRule};
use replica_model::has_sums;

/// The sum of the bytes in the last chunk of the first `len` bytes of a data file, where it is short,
/// which alone are read; else the sum of no bytes. `buffer` has room for a chunk.
pub fn sum_to<F: Files>(
    files: &mut F,
    name: &FileName,
    rule: SumRule,
    len: u64,
    buffer: &mut [u8],
) -> Result<u32, FileError>
    requires there { IfSome (F.files files.old) (λ m. IsSome (m name.now)) }
    requires room { rule.chunk ≤ length buffer.old }
    ensures value { IfOk result (λ sum. (m : FileMap) (bytes : List ℕ) → F.files files.old ≡ Some m
        → m name.now ≡ Some bytes → len ≤ length bytes → IsLastSum rule sum (take len bytes)) }
    ensures kept { KeepsAll F.Files files.old files.new }
    ensures cause { HasCause (F.faults files.old) (F.faults files.new) result }
{
    let past = len % u64::from(rule.chunk());
    if !has_sums(rule.kind()) || past == 0 {
        return Ok(0);
    }
    let chunk = &mut buffer[..past as usize];
    let count = files.read_at(name, len - past, chunk)?;
    Ok(crc(rule.kind(), &chunk[..count]))
}
