//! Calls on links and roads that fail at a member, each in its turn.

use crate::helpers::{End, absent, receipt};
use crate::nodes::{
    Node, accepted, dialled_by_client, down, listening, pass_both, placed, ready, received,
    retired, set_up, up,
};
use crate::pieces::request;
use hd_base::{FIRST_PORT, NodeId, Roads};
use mem_ports::MemRoads;
use op_headers::Stage;
use pipe_member::Stepped;
use std::alloc::Global;
use std::process::Abort;

/// The member at node 0 of a request to create the block, which goes on to these nodes.
fn creating(rt: &impl Abort, alloc: Global, roads: &mut MemRoads, behind: &[NodeId]) -> Node {
    let end = accepted(rt, alloc, roads, FIRST_PORT);
    let op = request(rt, alloc, Stage::PipelineSetupCreate, behind);
    let book = absent(alloc, &[]).expect(rt, "a book");
    placed(rt, alloc, NodeId(0), end, op, book)
}

/// The event was done, and this entry booked.
fn moved(index: u64) -> Stepped {
    Stepped::Moved {
        receipt: Some(receipt(index)),
    }
}

/// The member was shut, and this entry booked.
fn shut(index: u64) -> Stepped {
    Stepped::Shut {
        receipt: Some(receipt(index)),
    }
}

/// The link upstream failed, and this entry was booked.
fn failed(index: u64) -> Stepped {
    Stepped::LinkFailed {
        receipt: Some(receipt(index)),
    }
}

/// Makes a call on the roads, which may be the one that fails.
fn call_roads(alloc: Global, roads: &mut MemRoads) {
    let _ = roads.listen(alloc, NodeId(1));
}

/// The client hears that the mirror can't be had.
fn hears_of_mirror(
    rt: &impl Abort,
    alloc: Global,
    roads: &mut MemRoads,
    client: &mut End,
    node: &mut Node,
) {
    pass_both(rt, alloc, roads, node, None);
    let said = received(rt, alloc, roads, client);
    assert_eq!(rt;
        said.as_slice(),
        b"\x12\x08\x01\x12\x0e127.0.0.1:9867".as_slice()
    );
}

/// The member is set up and acts.
fn acts(rt: &impl Abort, alloc: Global, roads: &mut MemRoads, node: &mut Node) {
    assert_eq!(rt; set_up(alloc, roads, node), moved(0));
    assert_eq!(rt; ready(alloc, node), shut(1));
}

/// The dial of the mirror fails.
#[test]
fn a_failed_dial_names_the_mirror(rt: HostRuntime) {
    let alloc = rt.alloc();
    let mut roads = listening(&rt, alloc, 1, &[5]);
    let mut client = dialled_by_client(&rt, alloc, &mut roads);
    let mut node = creating(&rt, alloc, &mut roads, &[NodeId(1)]);
    call_roads(alloc, &mut roads);
    acts(&rt, alloc, &mut roads, &mut node);
    hears_of_mirror(&rt, alloc, &mut roads, &mut client, &mut node);
    retired(&rt, alloc, &mut roads, node);
}

/// The mirror is dialled, and nothing goes over its link.
fn hears_no_mirror(rt: &impl Abort, alloc: Global, roads: &mut MemRoads, node: &mut Node) {
    assert_eq!(rt; set_up(alloc, roads, node), moved(0));
    assert_eq!(rt; up(alloc, node), shut(1));
    call_roads(alloc, roads);
}

/// The request to the mirror can't be sent.
#[test]
fn a_failed_request_names_the_mirror(rt: HostRuntime) {
    let alloc = rt.alloc();
    let mut roads = listening(&rt, alloc, 2, &[6]);
    let mut client = dialled_by_client(&rt, alloc, &mut roads);
    let mut node = creating(&rt, alloc, &mut roads, &[NodeId(1)]);
    hears_no_mirror(&rt, alloc, &mut roads, &mut node);
    hears_of_mirror(&rt, alloc, &mut roads, &mut client, &mut node);
    retired(&rt, alloc, &mut roads, node);
}

/// The answer upstream fails, and the end of the connection is taken.
fn ends_unanswered(rt: &impl Abort, alloc: Global, roads: &mut MemRoads, node: &mut Node) {
    assert_eq!(rt; set_up(alloc, roads, node), failed(0));
    assert_eq!(rt; down(alloc, node), shut(1));
}

/// The answer can't be sent.
#[test]
fn a_failed_answer_ends_the_connection(rt: HostRuntime) {
    let alloc = rt.alloc();
    let mut roads = listening(&rt, alloc, 1, &[4]);
    dialled_by_client(&rt, alloc, &mut roads);
    let mut node = creating(&rt, alloc, &mut roads, &[]);
    ends_unanswered(&rt, alloc, &mut roads, &mut node);
    retired(&rt, alloc, &mut roads, node);
}

/// Nothing comes first, and then the link fails.
fn ends_unheard(rt: &impl Abort, alloc: Global, roads: &mut MemRoads, node: &mut Node) {
    assert_eq!(rt; set_up(alloc, roads, node), moved(0));
    assert_eq!(rt; down(alloc, node), Stepped::NotReady);
    assert_eq!(rt; down(alloc, node), failed(1));
    assert_eq!(rt; down(alloc, node), Stepped::Shut { receipt: None });
}

/// What comes next can't be received.
#[test]
fn a_failed_receipt_is_the_end(rt: HostRuntime) {
    let alloc = rt.alloc();
    let mut roads = listening(&rt, alloc, 1, &[5]);
    dialled_by_client(&rt, alloc, &mut roads);
    let mut node = creating(&rt, alloc, &mut roads, &[]);
    ends_unheard(&rt, alloc, &mut roads, &mut node);
    retired(&rt, alloc, &mut roads, node);
}
