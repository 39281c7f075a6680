//! Bytes from one place to another.

ghost use Rattle.std.specs.Prelude.{◌≡◌, length, take, min};

/// Copies into the front of the buffer as much as stands there and fits, and answers how many
/// bytes.
pub fn copy_front(from: &[u8], into: &mut [u8]) -> usize
    ensures count { result ≡ min (length from.now) (length into.new) }
    ensures front { take result into.new ≡ take (length into.new) from.now }
{
    let count = from.len().min(into.len());
    into[..count].copy_from_slice(&from[..count]);
    count
}
