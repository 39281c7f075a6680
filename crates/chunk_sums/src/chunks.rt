//! A body in chunks, each with a sum of its own.

ghost use Rattle.std.specs.Prelude.{◌≡◌, ℕ, ◌+◌, ◌*◌, ◌%◌, ◌<◌, ◌≤◌, ◌↔◌, List, [], ◌++◌, length, map, take, drop};
ghost use Rattle.std.specs.Prelude.{slice_index_or, IfSome, IfNone, IsNone, IsTrue};
ghost use Rattle.std.specs.List.{All};
ghost use Rattle.std.specs.Int.{w32, to_be_bytes, from_be_bytes};
ghost use Rattle.chunk_sums.specs.Crc.{HasSum, sum_of};
ghost use Rattle.chunk_sums.specs.Chunks.{chunks, summed_chunks, four_chunks, chunk_at, IsRight};
ghost use Rattle.chunk_sums.specs.Four.{AreReady};
ghost use Rattle.chunk_sums.specs.Chunks.{sums_of, flat_sums, count_of, sum_count};

use crate::crc;
use crate::four::{Lanes, four_sums};
use crate::tables::{Crc32, Crc32c};
use hd_base::SumKind;

/// The fewest bytes of a chunk of which four are taken at once.
const LEAST: u64 = 512;

/// The most bytes of a chunk of which four are taken at once.
pub(crate) const MOST: u64 = 4096;

/// The most bytes of a chunk for which shorter lanes will do.
pub(crate) const USUAL: u64 = 1024;

/// The bytes of a lane for the usual chunks.
pub(crate) const USUAL_LANE: usize = 1040;

/// The bytes of a lane for longer chunks.
pub(crate) const LONG_LANE: usize = 4112;

/// The least number of a chunk whose sum differs from the one that `sums` has for it, four bytes
/// big-endian, or `None` where all are right, as under `Null`, which has no sums.
///
/// The first chunk has `first_len` bytes, from 1 to `chunk`, and each further one `chunk`; the last
/// may be shorter. There are four bytes of sums for each chunk, as many as `piece_count` says.
pub fn first_bad(kind: SumKind, body: &[u8], sums: &[u8], first_len: u64, chunk: u64) -> Option<u64>
    requires chunk_positive { 1 ≤ chunk }
    requires first_positive { 1 ≤ first_len }
    requires first_at_most_chunk { first_len ≤ chunk }
    requires four_per_chunk { length sums.now ≡ 4 * length (summed_chunks kind first_len chunk body.now) }

    ensures found { IfSome result (λ i. i < length (summed_chunks kind first_len chunk body.now)) }
    ensures wrong { IfSome result (λ i. ¬ IsRight kind (summed_chunks kind first_len chunk body.now) sums.now i) }
    ensures least { IfSome result
        (λ i. (j : ℕ) → j < i → IsRight kind (summed_chunks kind first_len chunk body.now) sums.now j) }
    ensures none { IfNone result ((j : ℕ) → j < length (summed_chunks kind first_len chunk body.now)
        → IsRight kind (summed_chunks kind first_len chunk body.now) sums.now j) }
    ensures same { IsNone result ↔ (sums.now ≡ sums_of kind (summed_chunks kind first_len chunk body.now)) }
{
    match kind {
        SumKind::Null => None,
        SumKind::Crc32 | SumKind::Crc32c => first_wrong(kind, body, sums, first_len, chunk),
    }
}

/// The least number of a chunk whose sum is wrong, where chunks have sums.
fn first_wrong(kind: SumKind, body: &[u8], sums: &[u8], first_len: u64, chunk: u64) -> Option<u64>
    requires has_sum { HasSum kind }
    requires chunk_positive { 1 ≤ chunk }
    requires first_positive { 1 ≤ first_len }
    requires four_per_chunk { length sums.now ≡ 4 * length (chunks first_len chunk body.now) }

    ensures found { IfSome result (λ i. i < length (chunks first_len chunk body.now)) }
    ensures wrong { IfSome result (λ i. ¬ IsRight kind (chunks first_len chunk body.now) sums.now i) }
    ensures least { IfSome result (λ i. (j : ℕ) → j < i → IsRight kind (chunks first_len chunk body.now) sums.now j) }
    ensures none { IfNone result ((j : ℕ) → j < length (chunks first_len chunk body.now)
        → IsRight kind (chunks first_len chunk body.now) sums.now j) }
    ensures same { IsNone result ↔ (sums.now ≡ sums_of kind (chunks first_len chunk body.now)) }
{
    if !has_four(body.len() as u64, chunk, chunk) {
        first_wrong_over::<0>(kind, body, sums, first_len, chunk, &mut [])
    } else if chunk <= USUAL {
        first_wrong_over::<USUAL_LANE>(kind, body, sums, first_len, chunk, &mut [Lanes::new()])
    } else {
        first_wrong_over::<LONG_LANE>(kind, body, sums, first_len, chunk, &mut [Lanes::new()])
    }
}

/// The least number of a chunk whose sum is wrong, where chunks have sums, with lanes for four chunks or none.
fn first_wrong_over<const N: usize>(
    kind: SumKind,
    body: &[u8],
    sums: &[u8],
    first_len: u64,
    chunk: u64,
    lanes: &mut [Lanes<N>],
) -> Option<u64>
    requires has_sum { HasSum kind }
    requires chunk_positive { 1 ≤ chunk }
    requires first_positive { 1 ≤ first_len }
    requires lane_len { N ≤ 4112 }
    requires ready { All (AreReady chunk) lanes.old }
    requires four_per_chunk { length sums.now ≡ 4 * length (chunks first_len chunk body.now) }

    ensures found { IfSome result (λ i. i < length (chunks first_len chunk body.now)) }
    ensures wrong { IfSome result (λ i. ¬ IsRight kind (chunks first_len chunk body.now) sums.now i) }
    ensures least { IfSome result (λ i. (j : ℕ) → j < i → IsRight kind (chunks first_len chunk body.now) sums.now j) }
    ensures none { IfNone result ((j : ℕ) → j < length (chunks first_len chunk body.now)
        → IsRight kind (chunks first_len chunk body.now) sums.now j) }
    ensures same { IsNone result ↔ (sums.now ≡ sums_of kind (chunks first_len chunk body.now)) }
{
    let mut rest = body;
    let mut left = sums;
    let mut len = first_len;
    let mut number = 0u64;
    while let Some((sum, behind)) = left.split_first_chunk::<4>() {
        if let Some((after, behind)) = behind_four(kind, rest, left, len, chunk, lanes) {
            rest = after;
            left = behind;
            number += 4;
            continue;
        }
        let (front, after) = rest.split_at((len as usize).min(rest.len()));
        if crc(kind, front) != u32::from_be_bytes(*sum) {
            return Some(number);
        }
        rest = after;
        left = behind;
        len = chunk;
        number += 1;
    }
    None
}

/// How many sums a body of `body_len` bytes has: none under `Null`, and else one for each chunk. The
/// first chunk has `first_len` bytes and each further one `chunk`; the last may be shorter.
pub fn piece_count(kind: SumKind, body_len: u64, first_len: u64, chunk: u64) -> u64
    requires chunk_positive { 1 ≤ chunk }
    requires first_positive { 1 ≤ first_len }
    ensures value { result ≡ sum_count kind body_len first_len chunk }
    ensures count { (body : List ℕ) → length body ≡ body_len
        → length (summed_chunks kind first_len chunk body) ≡ result }
    ensures places { (body : List ℕ) → length body ≡ body_len → (i : ℕ) → i < result
        → slice_index_or (summed_chunks kind first_len chunk body) i [] ≡ chunk_at first_len chunk body i }
{
    match kind {
        SumKind::Null => 0,
        SumKind::Crc32 | SumKind::Crc32c => chunk_count(body_len, first_len, chunk),
    }
}

/// How many chunks a body of `body_len` bytes has.
pub(crate) fn chunk_count(body_len: u64, first_len: u64, chunk: u64) -> u64
    requires chunk_positive { 1 ≤ chunk }
    requires first_positive { 1 ≤ first_len }
    ensures { result ≡ count_of body_len first_len chunk }
{
    if body_len == 0 {
        return 0;
    }
    1 + body_len.saturating_sub(first_len).div_ceil(chunk)
}

/// Whether the next chunk has the length of all, four of that length can be taken at once, and a body has
/// as many.
pub(crate) fn has_four(body_len: u64, len: u64, chunk: u64) -> bool
    ensures { IsTrue result
        ↔ ((len ≡ chunk) × (512 ≤ chunk) × (chunk ≤ 4096) × (chunk % 16 ≡ 0) × (4 * chunk ≤ body_len)) }
{
    len == chunk && LEAST <= chunk && chunk <= MOST && chunk % 16 == 0 && 4 * chunk <= body_len
}

/// The sums of the first four chunks of a body, where there are lanes for them and the body has as many.
fn four_first<const N: usize>(
    kind: SumKind,
    body: &[u8],
    len: u64,
    chunk: u64,
    lanes: &mut [Lanes<N>],
) -> Option<[u32; 4]>
    requires has_sum { HasSum kind }
    requires lane_len { N ≤ 4112 }
    requires ready { All (AreReady chunk) lanes.old }
    ensures ready { All (AreReady chunk) lanes.new }
    ensures even { IfSome result (λ _. len ≡ chunk) }
    ensures size { IfSome result (λ _. (512 ≤ chunk) × (chunk ≤ 4096)) }
    ensures enough { IfSome result (λ _. 4 * chunk ≤ length body.now) }
    ensures value { IfSome result (λ found. found ≡ map (sum_of kind) (four_chunks chunk body.now)) }
{
    if !has_four(body.len() as u64, len, chunk) {
        return None;
    }
    let size = chunk as usize;
    if size + 16 > N {
        return None;
    }
    let lanes = lanes.first_mut()?;
    match kind {
        SumKind::Null => unreachable!(),
        SumKind::Crc32 => Some(four_sums::<Crc32, N>(lanes, body, size)),
        SumKind::Crc32c => Some(four_sums::<Crc32c, N>(lanes, body, size)),
    }
}

/// What is behind the next four chunks and behind their sums, where these are there, are taken at once,
/// and are right.
fn behind_four<'a, const N: usize>(
    kind: SumKind,
    body: &'a [u8],
    sums: &'a [u8],
    len: u64,
    chunk: u64,
    lanes: &mut [Lanes<N>],
) -> Option<(&'a [u8], &'a [u8])>
    requires has_sum { HasSum kind }
    requires lane_len { N ≤ 4112 }
    requires ready { All (AreReady chunk) lanes.old }
    ensures ready { All (AreReady chunk) lanes.new }
    ensures even { IfSome result (λ _. len ≡ chunk) }
    ensures enough { IfSome result (λ _. (4 * chunk ≤ length body.now) × (16 ≤ length sums.now)) }
    ensures right { IfSome result (λ _. (j : ℕ) → j < 4 → IsRight kind (chunks chunk chunk body.now) sums.now j) }
    ensures after { IfSome result (λ x. x.0.now ≡ drop (4 * chunk) body.now) }
    ensures behind { IfSome result (λ x. x.1.now ≡ drop 16 sums.now) }
{
    if sums.len() < 16 {
        return None;
    }
    let found = four_first(kind, body, len, chunk, lanes)?;
    let noted = [
        word_at(sums, 0),
        word_at(sums, 4),
        word_at(sums, 8),
        word_at(sums, 12),
    ];
    if found == noted {
        let (_, after) = body.split_at(4 * chunk as usize);
        let (_, behind) = sums.split_at(16);
        Some((after, behind))
    } else {
        None
    }
}

/// The number of four bytes, big-endian, at place `at`.
fn word_at(sums: &[u8], at: usize) -> u32
    requires { at + 4 ≤ length sums.now }
    ensures { result ≡ from_be_bytes w32 (take 4 (drop at sums.now)) }
{
    u32::from_be_bytes([sums[at], sums[at + 1], sums[at + 2], sums[at + 3]])
}

/// Writes the sums of the chunks of a body, four bytes big-endian each; under `Null` there are none.
///
/// The first chunk has `first_len` bytes, from 1 to `chunk`, and each further one `chunk`; the last
/// may be shorter. `into` has four bytes for each chunk, as many as `piece_count` says.
pub fn write_sums(kind: SumKind, body: &[u8], first_len: u64, chunk: u64, into: &mut [u8])
    requires chunk_positive { 1 ≤ chunk }
    requires first_positive { 1 ≤ first_len }
    requires first_at_most_chunk { first_len ≤ chunk }
    requires four_per_chunk { length into.old ≡ 4 * length (summed_chunks kind first_len chunk body.now) }
    ensures { into.new ≡ sums_of kind (summed_chunks kind first_len chunk body.now) }
{
    match kind {
        SumKind::Null => {}
        SumKind::Crc32 | SumKind::Crc32c => write_each(kind, body, first_len, chunk, into),
    }
}

/// Writes the sums of the chunks of a body, where chunks have sums.
fn write_each(kind: SumKind, body: &[u8], first_len: u64, chunk: u64, into: &mut [u8])
    requires has_sum { HasSum kind }
    requires chunk_positive { 1 ≤ chunk }
    requires first_positive { 1 ≤ first_len }
    requires four_per_chunk { length into.old ≡ 4 * length (chunks first_len chunk body.now) }
    ensures { into.new ≡ sums_of kind (chunks first_len chunk body.now) }
{
    if !has_four(body.len() as u64, chunk, chunk) {
        write_each_over::<0>(kind, body, first_len, chunk, into, &mut []);
    } else if chunk <= USUAL {
        write_each_over::<USUAL_LANE>(kind, body, first_len, chunk, into, &mut [Lanes::new()]);
    } else {
        write_each_over::<LONG_LANE>(kind, body, first_len, chunk, into, &mut [Lanes::new()]);
    }
}

/// Writes the sums of the chunks of a body, where chunks have sums, with lanes for four chunks or none.
pub(crate) fn write_each_over<const N: usize>(
    kind: SumKind,
    body: &[u8],
    first_len: u64,
    chunk: u64,
    into: &mut [u8],
    lanes: &mut [Lanes<N>],
)
    requires has_sum { HasSum kind }
    requires chunk_positive { 1 ≤ chunk }
    requires first_positive { 1 ≤ first_len }
    requires lane_len { N ≤ 4112 }
    requires ready { All (AreReady chunk) lanes.old }
    requires four_per_chunk { length into.old ≡ 4 * length (chunks first_len chunk body.now) }
    ensures sums { into.new ≡ sums_of kind (chunks first_len chunk body.now) }
    ensures ready { All (AreReady chunk) lanes.new }
{
    let mut rest = body;
    let mut len = first_len;
    let mut at = 0;
    while at < into.len() {
        if let Some(four) = four_first(kind, rest, len, chunk, lanes) {
            put_all(into, at, &four);
            (_, rest) = rest.split_at(4 * chunk as usize);
            at += 16;
            continue;
        }
        let (front, after) = rest.split_at((len as usize).min(rest.len()));
        put(into, at, crc(kind, front));
        rest = after;
        len = chunk;
        at += 4;
    }
}

/// Writes sums, four bytes big-endian each, from place `at` on.
fn put_all(into: &mut [u8], at: usize, sums: &[u32])
    requires { at + 4 * length sums.now ≤ length into.old }
    ensures { take (at + 4 * length sums.now) into.new ≡ take at into.old ++ flat_sums sums.now }
{
    for (i, sum) in sums.iter().enumerate() {
        put(into, at + 4 * i, *sum);
    }
}

/// Writes a sum, four bytes big-endian, at place `at`.
fn put(into: &mut [u8], at: usize, sum: u32)
    requires { at + 4 ≤ length into.old }
    ensures { take (at + 4) into.new ≡ take at into.old ++ to_be_bytes w32 sum }
{
    into[at..at + 4].copy_from_slice(&sum.to_be_bytes());
}
