//! Blocks, as requests name them.

ghost use Rattle.std.specs.Prelude.{◌≡◌, Ok};
ghost use Rattle.hd_base.specs.Results.{with_value};
ghost use Rattle.op_headers.specs.Tables.{decoded_field, Required, Default};
ghost use Rattle.op_headers.specs.Paths.{both};
ghost use Rattle.op_headers.specs.Formats.{block_from};

use crate::messages::{Message, text_under};
use crate::paths::{Decoded, required};
use hd_base::{BlockId, ByteList, Stamp};
use proto_fields::{FieldsFault, fields};
use std::alloc::{AllocError, Global};

/// A block (HDFS `ExtendedBlockProto`).
#[derive(Debug, Drop, PartialEq, Eq)]
pub struct BlockRef {
    /// The block pool's name.
    pub pool: ByteList,
    /// The block's number.
    pub block: BlockId,
    /// Its generation stamp.
    pub stamp: Stamp,
    /// How many bytes it has, 0 where that isn't said.
    pub bytes: u64,
}

impl BlockRef {
    ghost use Rattle.std.specs.Prelude.{◌≡◌, IfOk};

    /// The same block once more.
    pub fn duplicate(&self) -> Result<BlockRef, AllocError>
        ensures { IfOk result (λ copy. copy ≡ self.now) }
    {
        Ok(BlockRef {
            pool: self.pool.duplicate()?,
            block: self.block,
            stamp: self.stamp,
            bytes: self.bytes,
        })
    }
}

impl Message for BlockRef {
    ghost use Rattle.op_headers.specs.Formats.{block_format};

    ghost format = { block_format };

    #[tactic(auto, unfolding(crate::specs::Formats::block_format))]
    fn read(alloc: Global, bytes: &[u8]) -> Result<Decoded<BlockRef>, FieldsFault> {
        let listed = fields(alloc, bytes)?;
        let pool = text_under(alloc, bytes, 1, &listed)?;
        Ok(decoded_block(pool, listed.number(2), listed.number(3), listed.number(4)))
    }
}

/// The block that these fields tell.
fn decoded_block(
    pool: Option<ByteList>,
    block: Option<u64>,
    stamp: Option<u64>,
    bytes: Option<u64>,
) -> Decoded<BlockRef>
    ensures { result ≡ with_value block_from
        (both (decoded_field Required 1 pool) (both (decoded_field Required 2 block)
        (both (decoded_field Required 3 stamp) (both (decoded_field (Default 0) 4 bytes) (Ok tt))))) }
{
    let pool = required(1, pool)?;
    let block = required(2, block)?;
    let stamp = required(3, stamp)?;
    Ok(BlockRef {
        pool,
        block: BlockId(block),
        stamp: Stamp(stamp),
        bytes: bytes.unwrap_or(0),
    })
}
