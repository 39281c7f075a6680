//! The bytes of a block that is filled.

ghost use Rattle.std.specs.Prelude.{◌≡◌, ◌≤◌, ◌+◌, length, IfOk};
ghost use Rattle.packet_stream.specs.Streams.{fill_byte, fill_bytes};

use crate::extents::BLOCK_LIMIT;
use hd_base::BlockId;
use std::alloc::{AllocError, Global};

/// So many bytes of a block that is filled, from this offset on.
pub(crate) fn fill_bytes(
    alloc: Global,
    block: BlockId,
    offset: u64,
    count: u64,
) -> Result<Vec<u8>, AllocError>
    requires { offset + count ≤ BLOCK_LIMIT }
    ensures value { IfOk result (λ bytes. bytes.items ≡ fill_bytes block offset count) }
    ensures count { IfOk result (λ bytes. length bytes.items ≡ count) }
{
    let mut bytes = Vec::with_capacity(alloc, count as usize)?;
    for i in 0..count {
        bytes.push(fill_byte(block, offset + i))?;
    }
    Ok(bytes)
}

/// The byte at this offset.
fn fill_byte(block: BlockId, offset: u64) -> u8
    ensures { result ≡ fill_byte block offset }
{
    let number = block.0 % 256;
    ((offset % 256 + offset / 256 % 256 + number) % 256) as u8
}
