//! A body whose chunks are summed, and which is copied, in one pass.

ghost use Rattle.std.specs.Prelude.{◌≡◌, ◌+◌, ◌-◌, ◌*◌, ◌%◌, ◌≤◌, ◌++◌, length, take, vec_len, vec_capacity};
ghost use Rattle.std.specs.List.{All};
ghost use Rattle.chunk_sums.specs.Crc.{HasSum};
ghost use Rattle.chunk_sums.specs.Chunks.{chunks, summed_chunks, sums_of, count_of};
ghost use Rattle.chunk_sums.specs.Four.{AreReady};

use crate::chunks::{LONG_LANE, MOST, USUAL, USUAL_LANE, chunk_count, has_four, write_each_over};
use crate::four::Lanes;
use hd_base::SumKind;

/// A quarter of the bytes that are summed before they are copied, where a chunk has no more.
const QUARTER: u64 = 1024;

/// Writes the sums of the chunks of a body as `write_sums` does, and appends the body to `copy`, in one pass:
/// each piece of some chunks is copied as soon as it is summed, while it is near.
///
/// `copy` has room for the body, so no memory is taken.
pub fn write_sums_and_copy(
    kind: SumKind,
    body: &[u8],
    first_len: u64,
    chunk: u64,
    into: &mut [u8],
    copy: &mut Vec<u8>,
)
    requires chunk_positive { 1 ≤ chunk }
    requires first_positive { 1 ≤ first_len }
    requires first_at_most_chunk { first_len ≤ chunk }
    requires four_per_chunk { length into.old ≡ 4 * length (summed_chunks kind first_len chunk body.now) }
    requires room { vec_len copy.old + length body.now ≤ vec_capacity copy.old }
    ensures sums { into.new ≡ sums_of kind (summed_chunks kind first_len chunk body.now) }
    ensures copied { copy.new.items ≡ copy.old.items ++ body.now }
{
    match kind {
        SumKind::Null => append(copy, body),
        SumKind::Crc32 | SumKind::Crc32c => write_and_copy(
            kind, body, first_len, chunk, into, copy,
        ),
    }
}

/// Writes the sums of the chunks of a body and copies it, where chunks have sums.
fn write_and_copy(
    kind: SumKind,
    body: &[u8],
    first_len: u64,
    chunk: u64,
    into: &mut [u8],
    copy: &mut Vec<u8>,
)
    requires has_sum { HasSum kind }
    requires chunk_positive { 1 ≤ chunk }
    requires first_positive { 1 ≤ first_len }
    requires four_per_chunk { length into.old ≡ 4 * length (chunks first_len chunk body.now) }
    requires room { vec_len copy.old + length body.now ≤ vec_capacity copy.old }
    ensures sums { into.new ≡ sums_of kind (chunks first_len chunk body.now) }
    ensures copied { copy.new.items ≡ copy.old.items ++ body.now }
{
    if !has_four(body.len() as u64, chunk, chunk) {
        write_and_copy_over::<0>(kind, body, first_len, chunk, into, copy, &mut []);
    } else if chunk <= USUAL {
        write_and_copy_over::<USUAL_LANE>(
            kind,
            body,
            first_len,
            chunk,
            into,
            copy,
            &mut [Lanes::new()],
        );
    } else {
        write_and_copy_over::<LONG_LANE>(
            kind,
            body,
            first_len,
            chunk,
            into,
            copy,
            &mut [Lanes::new()],
        );
    }
}

/// Writes the sums of the chunks of a body and copies it piece by piece, where chunks have sums, with lanes for
/// four chunks or none.
fn write_and_copy_over<const N: usize>(
    kind: SumKind,
    body: &[u8],
    first_len: u64,
    chunk: u64,
    into: &mut [u8],
    copy: &mut Vec<u8>,
    lanes: &mut [Lanes<N>],
)
    requires has_sum { HasSum kind }
    requires chunk_positive { 1 ≤ chunk }
    requires first_positive { 1 ≤ first_len }
    requires lane_len { N ≤ 4112 }
    requires ready { All (AreReady chunk) lanes.old }
    requires four_per_chunk { length into.old ≡ 4 * length (chunks first_len chunk body.now) }
    requires room { vec_len copy.old + length body.now ≤ vec_capacity copy.old }
    ensures sums { into.new ≡ sums_of kind (chunks first_len chunk body.now) }
    ensures copied { copy.new.items ≡ copy.old.items ++ body.now }
{
    let mut rest = body;
    let mut len = first_len;
    let mut at = 0;
    while !rest.is_empty() {
        let (piece, behind) = rest.split_at((piece_len(len, chunk) as usize).min(rest.len()));
        at = put_sums(kind, piece, len, chunk, into, at, lanes);
        append(copy, piece);
        rest = behind;
        len = chunk;
    }
}

/// Writes the sums of the chunks of a piece from place `at` on, where chunks have sums, and returns the place
/// behind them.
fn put_sums<const N: usize>(
    kind: SumKind,
    piece: &[u8],
    len: u64,
    chunk: u64,
    into: &mut [u8],
    at: usize,
    lanes: &mut [Lanes<N>],
) -> usize
    requires has_sum { HasSum kind }
    requires chunk_positive { 1 ≤ chunk }
    requires len_positive { 1 ≤ len }
    requires lane_len { N ≤ 4112 }
    requires ready { All (AreReady chunk) lanes.old }
    requires room { at + 4 * count_of (length piece.now) len chunk ≤ length into.old }
    ensures ready { All (AreReady chunk) lanes.new }
    ensures place { result ≡ at + 4 * count_of (length piece.now) len chunk }
    ensures sums { take result into.new ≡ take at into.old ++ sums_of kind (chunks len chunk piece.now) }
{
    let end = at + 4 * chunk_count(piece.len() as u64, len, chunk) as usize;
    write_each_over(kind, piece, len, chunk, &mut into[at..end], lanes);
    end
}

/// The bytes of a piece whose first chunk has `len` bytes: fours of chunks where each has the same length and
/// they are short, and else one chunk.
fn piece_len(len: u64, chunk: u64) -> u64
    requires { 1 ≤ chunk }
    ensures { (len ≤ result) × ((result - len) % chunk ≡ 0) }
{
    if len != chunk || MOST < chunk {
        return len;
    }
    4 * ((QUARTER / chunk).max(1) * chunk)
}

/// Appends bytes for which there is room.
fn append(copy: &mut Vec<u8>, bytes: &[u8])
    requires { vec_len copy.old + length bytes.now ≤ vec_capacity copy.old }
    ensures items { copy.new.items ≡ copy.old.items ++ bytes.now }
    ensures len { vec_len copy.new ≡ vec_len copy.old + length bytes.now }
    ensures capacity { vec_capacity copy.old ≤ vec_capacity copy.new }
{
    if copy.extend_from_slice(bytes).is_err() {
        unreachable!();
    }
}
