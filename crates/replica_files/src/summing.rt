//! The sum of a replica's bytes.

ghost use Rattle.std.specs.Prelude.{◌<◌, ◌≤◌, length, IfOk, IfSome, IsSome};
ghost use Rattle.replica_calls.specs.Performed.{KeepsAll};
ghost use Rattle.replica_files.specs.Books.{IsBookOf, replica_of};
ghost use Rattle.replica_files.specs.Finding.{FailsFor};
ghost use Rattle.replica_files.specs.Summing.{SumsWritten, LeavesBook, SumsFor, IsSumOf, SumsOn};

use crate::book_state::BookState;
use crate::faults::SumFault;
use chunk_sums::extend;
use hd_base::{FileError, FileName, Files, SumKind};
use replica_calls::FileNames;
use std::alloc::Global;

/// How many bytes are read at once.
const PIECE: usize = 65_536;

/// Up to which place a file's bytes are summed, and their CRC32C.
#[derive(Clone, Copy)]
struct Summed {
    place: u64,
    sum: u32,
}

/// Reads the bytes of a file behind those that are summed, as many as the buffer has room for, and none from `len` on,
/// and sums them too.
fn sum_piece<F: Files>(
    drawer: &mut F,
    name: &FileName,
    len: u64,
    summed: Summed,
    buffer: &mut [u8],
) -> Result<Summed, FileError>
    requires there { IfSome (F.files drawer.old) (λ m. IsSome (m name.now)) }
    requires within { summed.place ≤ len }
    requires room { 0 < length buffer.old }
    ensures value { IfOk result (SumsOn (F.files drawer.old) name.now len summed) }
    ensures kept { KeepsAll F.Files drawer.old drawer.new }
    ensures cause { FailsFor (F.faults drawer.old) (F.faults drawer.new) result }
{
    let room = (len - summed.place).min(buffer.len() as u64) as usize;
    let piece = &mut buffer[..room];
    let count = drawer.read_at(name, summed.place, piece)?;
    Ok(Summed {
        place: summed.place + count as u64,
        sum: extend(SumKind::Crc32c, summed.sum, &piece[..count]),
    })
}

/// The CRC32C of a file of `len` bytes, which are read piece by piece through the buffer.
fn sum_pieces<F: Files>(
    drawer: &mut F,
    name: &FileName,
    len: u64,
    buffer: &mut [u8],
) -> Result<u32, FileError>
    requires there { IfSome (F.files drawer.old) (λ m. IsSome (m name.now)) }
    requires room { 0 < length buffer.old }
    ensures value { IfOk result (IsSumOf (F.files drawer.old) name.now len) }
    ensures kept { KeepsAll F.Files drawer.old drawer.new }
    ensures cause { FailsFor (F.faults drawer.old) (F.faults drawer.new) result }
{
    let mut summed = Summed { place: 0, sum: 0 };
    'pieces: while summed.place < len {
        let next = sum_piece(drawer, name, len, summed, buffer)?;
        // No byte came: there are no more.
        if next.place == summed.place {
            return Ok(next.sum);
        }
        summed = next;
    }
    Ok(summed.sum)
}

/// The CRC32C of a file of `len` bytes.
fn sum_file<F: Files>(
    alloc: Global,
    drawer: &mut F,
    name: &FileName,
    len: u64,
) -> Result<u32, FileError>
    requires there { IfSome (F.files drawer.old) (λ m. IsSome (m name.now)) }
    ensures value { IfOk result (IsSumOf (F.files drawer.old) name.now len) }
    ensures kept { KeepsAll F.Files drawer.old drawer.new }
    ensures cause { FailsFor (F.faults drawer.old) (F.faults drawer.new) result }
{
    let mut buffer = vec![in alloc; 0; PIECE]?;
    sum_pieces(drawer, name, len, &mut buffer)
}

impl<F: Files> BookState<F> {
    /// The CRC32C of all written bytes; none where the replica is absent or broken.
    pub(crate) fn written_sum(&mut self, alloc: Global) -> Result<Option<u32>, SumFault>
        requires { IsBookOf F.Files self.old }
        ensures sum { IfOk result (SumsWritten (F.files self.old.drawer) (replica_of self.old)) }
        ensures kept { LeavesBook F.Files self.old self.new }
        ensures cause { SumsFor (F.faults self.old.drawer) (F.faults self.new.drawer) result }
    {
        if self.replica.is_broken() {
            return Ok(None);
        }
        let Some(held) = self.replica.info() else {
            return Ok(None);
        };
        let names = FileNames::of(self.block, &held);
        let sum = sum_file(alloc, &mut self.drawer, &names.data, held.written)?;
        Ok(Some(sum))
    }
}
