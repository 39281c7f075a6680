//! What a line of a script asks to read.

ghost use Rattle.std.specs.Prelude.{◌≡◌, IfOk};
ghost use Rattle.world_laws.specs.WriterCore.Requests.{client_name};
ghost use Rattle.play_model.specs.Asks.{request_of};

use hd_base::{BlockId, ByteList, NodeId, Stamp};
use itoa::Buffer;
use std::alloc::{AllocError, Global};
use world_laws::{BlockRef, POOL, ReadOp};

/// What a line of a script asks to read.
#[derive(Clone, Copy, Debug, PartialEq, Eq)]
pub struct ReadAsk {
    /// The reader's number: the line's.
    pub reader: u64,
    /// The node that is read from.
    pub node: NodeId,
    /// The block.
    pub block: BlockId,
    /// The stamp that the request names.
    pub stamp: Stamp,
    /// Where the read begins.
    pub offset: u64,
    /// How many bytes are read.
    pub len: u64,
}

impl ReadAsk {
    /// The request, under the name of the block's client.
    #[tactic(auto, unfolding(crate::specs::Asks::request_of))]
    pub fn request(self, alloc: Global) -> Result<ReadOp, AllocError>
        ensures { IfOk result (λ op. op ≡ request_of self) }
    {
        Ok(ReadOp {
            block: BlockRef {
                pool: ByteList::from_slice(alloc, POOL)?,
                block: self.block,
                stamp: self.stamp,
                bytes: 0,
            },
            client: client_name(alloc, self.block)?,
            offset: self.offset,
            len: self.len,
        })
    }
}

/// The name of a block's client.
fn client_name(alloc: Global, block: BlockId) -> Result<ByteList, AllocError>
    ensures { IfOk result (λ name. name ≡ client_name block) }
{
    let mut name = Vec::from_slice(alloc, b"DFSClient_")?;
    name.extend_from_slice(Buffer::new().format(block.0).as_bytes())?;
    Ok(ByteList::from_vec(name))
}
