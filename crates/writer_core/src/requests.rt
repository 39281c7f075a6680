//! The request by which a pipeline is set up.

ghost use Rattle.std.specs.Prelude.{◌≡◌, ◌≤◌, ◌++◌, length, map, codes, decimal, IfOk};
ghost use Rattle.node_refs.specs.NodeRefs.{ref_of};
ghost use Rattle.writer_core.specs.Requests.{pool_name, client_name, stage_of, min_length, max_length, latest_stamp, request_for};

use crate::phases::Setup;
use hd_base::{BlockId, ByteList, MAX_MEMBERS, NodeId, Stamp};
use itoa::Buffer;
use node_refs::node_ref;
use op_headers::{BlockRef, Op, Stage, Targets, WriteOp};
use packet_stream::PacketStream;
use std::alloc::{AllocError, Global};

/// The name of the only block pool.
pub const POOL: &[u8] = b"BP-1-127.0.0.1-1";

/// What a request says of the pipeline that it sets up.
#[derive(Clone, Copy, Debug, PartialEq, Eq)]
pub struct Order {
    /// The block.
    pub block: BlockId,
    /// The committed stamp.
    pub committed: Stamp,
    /// Why the pipeline is set up.
    pub setup: Setup,
    /// The new stamp.
    pub stamp: Stamp,
}

impl Setup {
    /// The stage that the request has.
    pub(crate) fn stage(&self) -> Stage
        ensures { result ≡ stage_of self.now }
    {
        match self {
            Setup::Create => Stage::PipelineSetupCreate,
            Setup::Append => Stage::PipelineSetupAppend,
            Setup::AppendRecovery => Stage::PipelineSetupAppendRecovery,
            Setup::StreamRecovery => Stage::PipelineSetupStreamingRecovery,
            Setup::CloseRecovery => Stage::PipelineCloseRecovery,
        }
    }

    /// How many bytes each replica has at least.
    fn min(&self, stream: &PacketStream) -> u64
        ensures { result ≡ min_length self.now stream.now }
    {
        match self {
            Setup::Create => 0,
            Setup::StreamRecovery => stream.acked(),
            _ => stream.written(),
        }
    }

    /// How many bytes each replica has at most.
    fn max(&self, stream: &PacketStream) -> u64
        ensures { result ≡ max_length self.now stream.now }
    {
        match self {
            Setup::Create => 0,
            Setup::StreamRecovery => stream.sent(),
            _ => stream.written(),
        }
    }

    /// The new stamp, as the request says it.
    fn latest(&self, stamp: Stamp) -> Stamp
        ensures { result ≡ latest_stamp self.now stamp }
    {
        match self {
            Setup::Create => Stamp(0),
            _ => stamp,
        }
    }
}

/// The request to set up a pipeline of so many members: to the first, with the others as targets.
#[tactic(auto, unfolding(crate::specs::Requests::request_for))]
pub(crate) fn request(
    alloc: Global,
    order: Order,
    stream: &PacketStream,
    members: usize,
    targets: &[NodeId],
) -> Result<Op, AllocError>
    requires { members ≤ MAX_MEMBERS }
    ensures { IfOk result (λ op. op ≡
        request_for order.block order.committed stream.now order.setup order.stamp members targets.now) }
{
    let setup = order.setup;
    let rule = stream.rule();
    let block = block_ref(alloc, order.block, order.committed, setup.min(stream))?;
    Ok(Op::Write(WriteOp {
        block,
        client: client_name(alloc, order.block)?,
        targets: target_refs(alloc, targets)?,
        source: None,
        stage: setup.stage().number(),
        pipeline: members as u32,
        min: setup.min(stream),
        max: setup.max(stream),
        latest: setup.latest(order.stamp),
        kind: rule.kind().number(),
        chunk: rule.chunk(),
    }))
}

/// The block, as requests name it.
fn block_ref(
    alloc: Global,
    block: BlockId,
    stamp: Stamp,
    bytes: u64,
) -> Result<BlockRef, AllocError>
    ensures { IfOk result (λ told. told ≡
        record { pool = pool_name; block = block; stamp = stamp; bytes = bytes }) }
{
    Ok(BlockRef {
        pool: ByteList::from_slice(alloc, POOL)?,
        block,
        stamp,
        bytes,
    })
}

/// The name of the client that writes a block.
fn client_name(alloc: Global, block: BlockId) -> Result<ByteList, AllocError>
    ensures { IfOk result (λ name. name ≡ client_name block) }
{
    let mut name = Vec::from_slice(alloc, b"DFSClient_")?;
    name.extend_from_slice(Buffer::new().format(block.0).as_bytes())?;
    Ok(ByteList::from_vec(name))
}

/// What requests say of these nodes.
fn target_refs(alloc: Global, nodes: &[NodeId]) -> Result<Targets, AllocError>
    ensures { IfOk result (λ targets. targets ≡ map ref_of nodes.now) }
{
    let mut targets = Targets::new(alloc);
    for node in nodes {
        targets.push(node_ref(alloc, *node)?)?;
    }
    Ok(targets)
}
