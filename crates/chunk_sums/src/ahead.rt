//! The register of CRC32C over a long body: its bytes are moved ahead onto later bytes until a few hundred are
//! left, and only those go through the tables. The compiler moves sixteen bytes in one step.
//!
//! The polynomial x^3344 + x^2304 + x^864 + x^624 + x^224 + 1 is a multiple of that of CRC32C. A bit
//! that stands earlier in a body has the higher power. So a byte counts exactly as much as the same
//! byte joined, by exclusive or, onto the bytes 130, 310, 340, 390 and 418 places behind it.

ghost use Rattle.std.specs.Prelude.{◌≡◌, ◌+◌, ◌≤◌, length, take, drop};
ghost use Rattle.chunk_sums.specs.Ahead.{held, far_places};
ghost use Rattle.chunk_sums.specs.Crc.{register, crc32c_polynomial};

use crate::slicing::sliced;
use crate::tables::Crc32c;
use crate::window::put_front;

/// How far ahead a byte is moved at most, and so how many moved bytes are still held.
const FAR: usize = 418;

/// How many bytes are moved before those that are held are brought down to the front of the buffer.
const SPAN: usize = 8064;

/// How many bytes are moved in one turn of the loop: fewer than 130, so that none of them is read in
/// the same turn.
const BLOCK: usize = 96;

/// The register that starts at `start` after all bytes of a body that has at least 418.
pub fn moved_ahead(start: u32, body: &[u8]) -> u32
    requires { 418 ≤ length body.now }
    ensures { result ≡ register crc32c_polynomial start body.now }
{
    let mut buffer = [0; FAR + SPAN];
    put_front(&mut buffer, &start.to_le_bytes());
    let mut rest = body;
    while rest.len() >= FAR + SPAN {
        spread(&mut buffer, rest, SPAN);
        bring_down(&mut buffer);
        (_, rest) = rest.split_at(SPAN);
    }
    let count = rest.len() - FAR;
    spread(&mut buffer, rest, count);
    let (_, window) = buffer.split_at(count);
    let (_, last) = rest.split_at(count);
    settle(window, last)
}

/// Moves the first `count` bytes of a body ahead. The first 418 bytes of the buffer are those that
/// were moved last; afterwards those from `count` on are.
fn spread(buffer: &mut [u8], body: &[u8], count: usize)
    requires room { count + 418 ≤ length buffer.old }
    requires behind { count + 418 ≤ length body.now }
    ensures { held crc32c_polynomial far_places (take 418 buffer.old) body.now
        ≡ held crc32c_polynomial far_places (take 418 (drop count buffer.new)) (drop count body.now) }
{
    let blocks = count / BLOCK;
    for block in 0..blocks {
        move_range(buffer, body, block * BLOCK, block * BLOCK + BLOCK);
    }
    move_range(buffer, body, blocks * BLOCK, count);
}

/// Moves the bytes of a body from `from` up to `to` ahead. The 418 bytes of the buffer from `from` on
/// are those that were moved last; afterwards those from `to` on are.
#[inline(always)]
fn move_range(buffer: &mut [u8], body: &[u8], from: usize, to: usize)
    requires range { from ≤ to }
    requires room { to + 418 ≤ length buffer.old }
    requires behind { to + 418 ≤ length body.now }
    ensures { held crc32c_polynomial far_places (take 418 (drop from buffer.old)) (drop from body.now)
        ≡ held crc32c_polynomial far_places (take 418 (drop to buffer.new)) (drop to body.now) }
{
    for i in from..to {
        buffer[i + FAR] = body[i]
            ^ buffer[i + 288]
            ^ buffer[i + 108]
            ^ buffer[i + 78]
            ^ buffer[i + 28]
            ^ buffer[i];
    }
}

/// Brings the bytes that are held behind a whole span down to the front of the buffer.
fn bring_down(buffer: &mut [u8])
    requires { length buffer.old ≡ 8482 }
    ensures { take 418 buffer.new ≡ take 418 (drop 8064 buffer.old) }
{
    for i in 0..FAR {
        buffer[i] = buffer[i + SPAN];
    }
}

/// The register after the last 418 bytes, once the first 418 of the window were moved onto them.
fn settle(window: &[u8], last: &[u8]) -> u32
    requires window_len { 418 ≤ length window.now }
    requires last_len { length last.now ≡ 418 }
    ensures { result ≡ held crc32c_polynomial far_places (take 418 window.now) last.now }
{
    let mut padded = [0; 2 * FAR];
    let (front, _) = window.split_at(FAR);
    put_front(&mut padded, front);
    let mut mixed = [0; FAR];
    for i in 0..FAR {
        mixed[i] = last[i]
            ^ padded[i + 288]
            ^ padded[i + 108]
            ^ padded[i + 78]
            ^ padded[i + 28]
            ^ padded[i];
    }
    sliced::<Crc32c>(0, &mixed)
}
