//! Requests that a member refuses, and what it says.

use crate::helpers::{Book, End, absent, created, receipt};
use crate::nodes::{
    Node, accepted, dialled_by_client, listening, pass_both, placed, ready, received, retired,
    set_up,
};
use crate::pieces::request;
use hd_base::{ByteList, ConnId, FIRST_PORT, NodeId, Stamp};
use mem_ports::MemRoads;
use op_headers::{Stage, WriteOp};
use pipe_member::Stepped;
use std::alloc::Global;
use std::process::Abort;

/// The client hears this of the member.
fn says(
    rt: &impl Abort,
    alloc: Global,
    roads: &mut MemRoads,
    client: &mut End,
    node: &mut Node,
    said: &[u8],
) {
    pass_both(rt, alloc, roads, node, None);
    assert_eq!(rt; received(rt, alloc, roads, client).as_slice(), said);
}

/// A member whose replica has this book is set up so for this request, and says this.
fn answers(
    rt: &impl Abort,
    alloc: Global,
    op: WriteOp,
    book: Book,
    stepped: &Stepped,
    said: &[u8],
) {
    let mut roads = listening(rt, alloc, 1, &[]);
    let mut client = dialled_by_client(rt, alloc, &mut roads);
    let end = accepted(rt, alloc, &mut roads, FIRST_PORT);
    let mut node = placed(rt, alloc, NodeId(0), end, op, book);
    assert_eq!(rt; set_up(alloc, &mut roads, &mut node), *stepped);
    says(rt, alloc, &mut roads, &mut client, &mut node, said);
    retired(rt, alloc, &mut roads, node);
}

/// A member refuses this request before its replica is asked, and says this.
fn refuses(rt: &impl Abort, alloc: Global, op: WriteOp, said: &[u8]) {
    let book = absent(alloc, &[]).expect(rt, "a book");
    answers(rt, alloc, op, book, &Stepped::Shut { receipt: None }, said);
}

/// A request to create the block, which goes on to these nodes.
fn create(rt: &impl Abort, alloc: Global, behind: &[NodeId]) -> WriteOp {
    request(rt, alloc, Stage::PipelineSetupCreate, behind)
}

/// The block is of another pool.
fn in_another_pool(rt: &impl Abort, alloc: Global) -> WriteOp {
    let mut op = create(rt, alloc, &[]);
    op.block.pool = ByteList::from_slice(alloc, b"BP-2").expect(rt, "memory");
    op
}

/// Sums of too few bytes.
fn with_other_sums(rt: &impl Abort, alloc: Global) -> WriteOp {
    let mut op = create(rt, alloc, &[]);
    op.chunk = 8;
    op
}

/// A pool, a stage and a rule of sums that aren't the member's, and more than 15 members behind it.
#[test]
fn refusals_say_why(rt: HostRuntime) {
    let alloc = rt.alloc();
    let op = in_another_pool(&rt, alloc);
    refuses(&rt, alloc, op, b"\x08\x08\x01\x12\0\x2a\x0215");
    let op = request(&rt, alloc, Stage::TransferFinalized, &[]);
    refuses(&rt, alloc, op, b"\x0a\x08\x01\x12\0\x2a\x0414 8");
    let op = with_other_sums(&rt, alloc);
    refuses(&rt, alloc, op, b"\x0c\x08\x01\x12\0\x2a\x0616 2 8");
    let op = create(&rt, alloc, &[NodeId(1); 16]);
    refuses(&rt, alloc, op, b"\x0b\x08\x01\x12\0\x2a\x0519 16");
}

/// The replica has a later stamp than a recovery asks for.
#[test]
fn a_stale_request_is_refused(rt: HostRuntime) {
    let alloc = rt.alloc();
    let book = created(&rt, alloc, ConnId(9), Stamp(1003), 512);
    let mut op = request(&rt, alloc, Stage::PipelineSetupStreamingRecovery, &[]);
    op.latest = Stamp(1002);
    let shut = Stepped::Shut {
        receipt: Some(receipt(1)),
    };
    answers(
        &rt,
        alloc,
        op,
        book,
        &shut,
        b"\x16\x08\x01\x12\0\x2a\x104 1003 1001 1002",
    );
}

/// The first call on the replica's files fails.
#[test]
fn a_failed_file_is_told_of(rt: HostRuntime) {
    let alloc = rt.alloc();
    let book = absent(alloc, &[2]).expect(&rt, "a book");
    let op = create(&rt, alloc, &[]);
    answers(
        &rt,
        alloc,
        op,
        book,
        &Stepped::File(receipt(0)),
        b"\x08\x08\x01\x12\0\x2a\x0217",
    );
}

/// The member whose mirror isn't there names it, and shuts.
fn names_its_mirror(
    rt: &impl Abort,
    alloc: Global,
    roads: &mut MemRoads,
    client: &mut End,
    node: &mut Node,
) {
    let moved = Stepped::Moved {
        receipt: Some(receipt(0)),
    };
    let shut = Stepped::Shut {
        receipt: Some(receipt(1)),
    };
    assert_eq!(rt; set_up(alloc, roads, node), moved);
    assert_eq!(rt; ready(alloc, node), shut);
    says(
        rt,
        alloc,
        roads,
        client,
        node,
        b"\x12\x08\x01\x12\x0e127.0.0.1:9867",
    );
}

/// Nobody listens at the port of the mirror.
#[test]
fn a_mirror_that_is_not_there_is_named(rt: HostRuntime) {
    let alloc = rt.alloc();
    let mut roads = listening(&rt, alloc, 1, &[]);
    let mut client = dialled_by_client(&rt, alloc, &mut roads);
    let end = accepted(&rt, alloc, &mut roads, FIRST_PORT);
    let book = absent(alloc, &[]).expect(&rt, "a book");
    let op = create(&rt, alloc, &[NodeId(1)]);
    let mut node = placed(&rt, alloc, NodeId(0), end, op, book);
    names_its_mirror(&rt, alloc, &mut roads, &mut client, &mut node);
    retired(&rt, alloc, &mut roads, node);
}
