//! What members of the block are given: requests.

use crate::helpers::BLOCK;
use hd_base::{ByteList, NodeId, Stamp};
use node_refs::node_ref;
use op_headers::{BlockRef, Stage, Targets, WriteOp};
use std::alloc::Global;
use std::process::Abort;

/// The nodes behind a member.
fn targets(rt: &impl Abort, alloc: Global, behind: &[NodeId]) -> Targets {
    let mut targets = Targets::new(alloc);
    for node in behind {
        targets
            .push(node_ref(alloc, *node).expect(rt, "a node"))
            .expect(rt, "memory");
    }
    targets
}

/// The block as a request names it.
fn block(rt: &impl Abort, alloc: Global) -> BlockRef {
    BlockRef {
        pool: ByteList::from_slice(alloc, b"BP-1-127.0.0.1-1").expect(rt, "memory"),
        block: BLOCK,
        stamp: Stamp(1001),
        bytes: 0,
    }
}

/// A request of this stage for the block, which goes on to these nodes.
pub(crate) fn request(rt: &impl Abort, alloc: Global, stage: Stage, behind: &[NodeId]) -> WriteOp {
    WriteOp {
        block: block(rt, alloc),
        client: ByteList::from_slice(alloc, b"client").expect(rt, "memory"),
        targets: targets(rt, alloc, behind),
        source: None,
        stage: stage.number(),
        pipeline: 3,
        min: 0,
        max: 0,
        latest: Stamp(0),
        kind: 2,
        chunk: 512,
    }
}
