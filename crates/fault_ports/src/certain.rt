//! Lists of the bytes that are certain after a loss of power.

ghost use Rattle.std.specs.Prelude.{◌≡◌, IfOk};
ghost use Rattle.fault_ports.specs.Certain.{certain_outside, without_range, all_certain};

use std::alloc::{AllocError, Global};

/// The list without the bytes in a range of places.
pub fn without_range(
    alloc: Global,
    certain: &[Option<u8>],
    place: usize,
    end: usize,
) -> Result<Vec<Option<u8>>, AllocError>
    ensures { IfOk result (λ v. v.items ≡ without_range place end 0 certain.now) }
{
    let mut kept = Vec::new(alloc);
    for (i, byte) in certain.iter().enumerate() {
        kept.push(byte_outside(*byte, i, place, end))?;
    }
    Ok(kept)
}

/// The byte, unless its place is in this range.
fn byte_outside(byte: Option<u8>, i: usize, place: usize, end: usize) -> Option<u8>
    ensures { result ≡ certain_outside place end i byte }
{
    if place <= i && i < end { None } else { byte }
}

/// All bytes of a file, which are on the disk.
pub fn all_certain(alloc: Global, bytes: &[u8]) -> Result<Vec<Option<u8>>, AllocError>
    ensures { IfOk result (λ v. v.items ≡ all_certain bytes.now) }
{
    let mut certain = Vec::new(alloc);
    for byte in bytes {
        certain.push(Some(*byte))?;
    }
    Ok(certain)
}
