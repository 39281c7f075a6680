//! One piece in a lane: its bytes are moved ahead sixteen at a time, until 112 are left.

ghost use Rattle.std.specs.Prelude.{◌≡◌, ◌⊎◌, ℕ, ◌+◌, ◌-◌, ◌<◌, ◌≤◌, length, drop, slice_index};
ghost use Rattle.std.specs.Simd.Lanes.{put_chunk};
ghost use Rattle.hd_base.specs.Bytes.{IsBytes};
ghost use Rattle.chunk_sums.specs.Ahead.{joined};
ghost use Rattle.chunk_sums.specs.Crc.{AreWords};
ghost use Rattle.chunk_sums.specs.Lanes.{started, carried, IsMoved, IsSpread, IsMixed};

use crate::tables::Polynomial;
use std::simd::prelude::*;

/// The bytes of the window by which most of a piece is moved, and how many bytes of the piece are left then.
pub const WIDE: usize = 224;

/// The bytes of the window by which half of the rest is moved.
pub const NEAR: usize = 112;

/// The words of as many bytes.
const WORDS: usize = 28;

/// The bytes of a vector.
pub const STEP: usize = 16;

/// The register that a sum starts from, as it is joined to the first bytes.
const ALL_ONES: [u8; 16] = [255, 255, 255, 255, 0, 0, 0, 0, 0, 0, 0, 0, 0, 0, 0, 0];

/// Moves sixteen bytes near the front of a piece ahead: the window before them still holds zeros, and no
/// vector of these is read. A call gives `at` as a literal, so that this is settled when it is compiled.
#[inline(always)]
pub fn spread_front<P: Polynomial>(lane: &mut [u8], piece: &[u8], at: usize)
    requires place { (at ≡ 0) ⊎ (16 ≤ at) }
    requires within { at + 240 ≤ length piece.now }
    requires room { length piece.now + 16 ≤ length lane.old }
    requires before { IsSpread P.wide_places piece.now lane.old at }
    ensures { IsSpread P.wide_places piece.now lane.new (at + 16) }
{
    let behind = lane.len() - STEP;
    let bytes = joined_to(started_at(piece, at), lane, at, P::wide(), WIDE, behind);
    put(lane, WIDE + at, bytes);
}

/// Moves sixteen bytes of a piece ahead.
#[inline(always)]
pub fn spread<P: Polynomial>(lane: &mut [u8], piece: &[u8], at: usize)
    requires place { 16 ≤ at }
    requires within { at + 240 ≤ length piece.now }
    requires room { length piece.now + 16 ≤ length lane.old }
    requires before { IsSpread P.wide_places piece.now lane.old at }
    ensures { IsSpread P.wide_places piece.now lane.new (at + 16) }
{
    let bytes = joined_all(bytes_at(piece, at), lane, at, P::wide());
    put(lane, WIDE + at, bytes);
}

/// Moves sixteen of the last 224 bytes of a piece ahead by the near window, once those before them were
/// moved by the wide one.
#[inline(always)]
pub fn bring<P: Polynomial>(near: &mut [u8], lane: &[u8], piece: &[u8], at: usize)
    requires within { at + 16 ≤ 112 }
    requires piece_len { 512 ≤ length piece.now }
    requires room { length piece.now + 16 ≤ length lane.now }
    requires near_len { length near.old ≡ 240 }
    requires spread { IsSpread P.wide_places piece.now lane.now (length piece.now - 224) }
    requires before { IsMoved P.near_places 112 112 (carried P.wide_places piece.now lane.now) near.old at }
    ensures { IsMoved P.near_places 112 112 (carried P.wide_places piece.now lane.now) near.new (at + 16) }
{
    let bytes = carried_at::<P>(lane, piece, at);
    let bytes = joined_to(bytes, near, at, P::near(), NEAR, 2 * NEAR);
    put(near, NEAR + at, bytes);
}

/// Mixes sixteen of the last 112 bytes of a piece with all that was moved ahead.
#[inline(always)]
pub fn mix<P: Polynomial>(mixed: &mut [u8], near: &[u8], lane: &[u8], piece: &[u8], at: usize)
    requires within { at + 16 ≤ 112 }
    requires piece_len { 512 ≤ length piece.now }
    requires room { length piece.now + 16 ≤ length lane.now }
    requires near_len { length near.now ≡ 240 }
    requires mixed_len { length mixed.old ≡ 112 }
    requires spread { IsSpread P.wide_places piece.now lane.now (length piece.now - 224) }
    requires moved { IsMoved P.near_places 112 112 (carried P.wide_places piece.now lane.now) near.now 112 }
    requires before { IsMixed P.near_places (carried P.wide_places piece.now lane.now) near.now mixed.old at }
    ensures mixed { IsMixed P.near_places (carried P.wide_places piece.now lane.now) near.now mixed.new (at + 16) }
    ensures mixed_len { length mixed.new ≡ 112 }
    ensures piece_bytes { IsBytes piece.now }
    ensures lane_bytes { IsBytes lane.now }
    ensures near_bytes { IsBytes near.now }
{
    let bytes = carried_at::<P>(lane, piece, NEAR + at);
    let bytes = joined_to(bytes, near, NEAR + at, P::near(), NEAR, 2 * NEAR);
    put(mixed, at, bytes);
}

/// The words of the last 112 bytes of a piece, of four bytes each. The tables are read by these, since of
/// words that were made of single bytes each byte would be loaded alone.
#[inline(always)]
pub fn words_of(bytes: &[u8]) -> [u32; WORDS]
    requires { length bytes.now ≡ 112 }
    ensures { AreWords bytes.now result }
{
    let mut words = [0; WORDS];
    for step in 0..NEAR / STEP {
        let four = u32x4::from_le_bytes(bytes_at(bytes, step * STEP));
        put_words(&mut words, 4 * step, four);
    }
    words
}

/// Sixteen of the last 224 bytes of a piece, each joined to what the lane has for it.
#[inline(always)]
fn carried_at<P: Polynomial>(lane: &[u8], piece: &[u8], at: usize) -> u8x16
    requires within { at + 16 ≤ 224 }
    requires piece_len { 512 ≤ length piece.now }
    requires room { length piece.now + 16 ≤ length lane.now }
    requires spread { IsSpread P.wide_places piece.now lane.now (length piece.now - 224) }
    ensures len { length result ≡ 16 }
    ensures value { (k : ℕ) → k < 16
        → slice_index result k ≡ slice_index (carried P.wide_places piece.now lane.now) (at + k) }
{
    let count = piece.len() - WIDE;
    let (_, window) = lane.split_at(count);
    joined_to(bytes_at(piece, count + at), window, at, P::wide(), 0, WIDE)
}

/// Sixteen bytes, each joined to those that a lane has for it at some places from `at` on, where the lane
/// is 0 before `from` and from `to` on. A vector of zeros isn't read.
#[inline(always)]
fn joined_to(bytes: u8x16, lane: &[u8], at: usize, places: &[u8], from: usize, to: usize) -> u8x16
    requires sixteen { length bytes ≡ 16 }
    requires room { to + 16 ≤ length lane.now }
    requires place { at ≤ length lane.now }
    requires before { (k : ℕ) → k < from → slice_index lane.now k ≡ 0 }
    requires behind { (k : ℕ) → to ≤ k → slice_index lane.now k ≡ 0 }
    ensures len { length result ≡ 16 }
    ensures value { (k : ℕ) → k < 16
        → slice_index result k ≡ joined places.now (drop (at + k) lane.now) (slice_index bytes k) }
{
    let mut joined = bytes;
    for place in places {
        let first = at + usize::from(*place);
        if from < first + STEP && first < to {
            joined = joined ^ bytes_at(lane, first);
        }
    }
    joined
}

/// Sixteen bytes, each joined to those that a lane has for it at some places from `at` on.
#[inline(always)]
fn joined_all(bytes: u8x16, lane: &[u8], at: usize, places: &[u8]) -> u8x16
    requires sixteen { length bytes ≡ 16 }
    requires room { (k : ℕ) → at + (slice_index places.now k + 16) ≤ length lane.now }
    ensures len { length result ≡ 16 }
    ensures value { (k : ℕ) → k < 16
        → slice_index result k ≡ joined places.now (drop (at + k) lane.now) (slice_index bytes k) }
{
    let mut joined = bytes;
    for place in places {
        joined = joined ^ bytes_at(lane, at + usize::from(*place));
    }
    joined
}

/// The sixteen bytes of a piece from place `at` on, with the register that a sum starts from joined to the
/// first four of the piece.
#[inline(always)]
fn started_at(piece: &[u8], at: usize) -> u8x16
    requires place { (at ≡ 0) ⊎ (16 ≤ at) }
    requires within { at + 16 ≤ length piece.now }
    ensures len { length result ≡ 16 }
    ensures value { (k : ℕ) → k < 16 → slice_index result k ≡ slice_index (started piece.now) (at + k) }
{
    let bytes = bytes_at(piece, at);
    if at == 0 {
        bytes ^ u8x16::from_array(ALL_ONES)
    } else {
        bytes
    }
}

/// The sixteen bytes from place `at` on.
#[inline(always)]
fn bytes_at(bytes: &[u8], at: usize) -> u8x16
    requires { at + 16 ≤ length bytes.now }
    ensures len { length result ≡ 16 }
    ensures value { (k : ℕ) → k < 16 → slice_index result k ≡ slice_index bytes.now (at + k) }
{
    u8x16::from_slice(&bytes[at..])
}

/// Writes sixteen bytes from place `at` on.
#[inline(always)]
fn put(buffer: &mut [u8], at: usize, bytes: u8x16)
    requires sixteen { length bytes ≡ 16 }
    requires room { at + 16 ≤ length buffer.old }
    ensures { buffer.new ≡ put_chunk at buffer.old bytes }
{
    bytes.copy_to_slice(&mut buffer[at..]);
}

/// Writes four words from place `at` on.
#[inline(always)]
fn put_words(words: &mut [u32], at: usize, four: u32x4)
    requires four { length four ≡ 4 }
    requires room { at + 4 ≤ length words.old }
    ensures { words.new ≡ put_chunk at words.old four }
{
    four.copy_to_slice(&mut words[at..]);
}
