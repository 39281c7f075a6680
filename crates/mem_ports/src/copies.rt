//! Bytes from one place to another.

ghost use Rattle.std.specs.Prelude.{◌≡◌, ◌+◌, ◌≤◌, ◌++◌, length, take, drop, min, vec_len, vec_capacity};
ghost use Rattle.hd_base.specs.FileMaps.{overwritten};

/// Copies into the front of the buffer as much as stands there and fits, and answers how many
/// bytes.
pub fn copy_front(from: &[u8], into: &mut [u8]) -> usize
    ensures count { result ≡ min (length from.now) (length into.new) }
    ensures front { take result into.new ≡ take (length into.new) from.now }
    ensures rest { from.now ≡ take result into.new ++ drop result from.now }
{
    let count = from.len().min(into.len());
    into[..count].copy_from_slice(&from[..count]);
    count
}

/// Writes a piece over what stands at its place, and past the end. Takes no memory.
pub fn overwrite(bytes: &mut Vec<u8>, place: usize, piece: &[u8])
    requires within { place ≤ vec_len bytes.old }
    requires room { place + length piece.now ≤ vec_capacity bytes.old }
    ensures items { bytes.new.items ≡ overwritten bytes.old.items place piece.now }
    ensures capacity { vec_capacity bytes.old ≤ vec_capacity bytes.new }
{
    let over = piece.len().min(bytes.len() - place);
    let (inside, past) = piece.split_at(over);
    bytes[place..place + over].copy_from_slice(inside);
    if bytes.extend_from_slice(past).is_err() {
        unreachable!();
    }
}
