//! Members of the block at nodes, and what they and their client do over roads in memory.

ghost use Rattle.std.specs.Prelude.{◌≤◌, IsTrue, IfSome};
ghost use Rattle.hd_base.specs.declared.roads.TheConstants.{MAX_NODES};
ghost use Rattle.hd_base.specs.Ends.{IsKnown};
ghost use Rattle.pipe_member.specs.Exchanges.{AreKnown};

use crate::helpers::{Book, End};
use hd_base::{ConnId, FIRST_PORT, Got, LinkIn, LinkOut, NodeId, Roads};
use mem_ports::{MemIn, MemOut, MemRoads};
use op_headers::WriteOp;
use pipe_member::{Member, Stepped};
use std::alloc::Global;
use std::process::Abort;

/// A member at a node, with the book of its replica.
#[derive(Drop)]
pub(crate) struct Node {
    pub member: Member<MemIn, MemOut>,
    pub book: Book,
}

/// Roads on which so many nodes listen, and which fail at these calls.
pub(crate) fn listening(rt: &impl Abort, alloc: Global, nodes: u32, failing: &[u64]) -> MemRoads
    requires { nodes ≤ MAX_NODES }
{
    let mut roads = MemRoads::new(alloc, failing).expect(rt, "memory");
    for node in 0..nodes {
        roads.listen(alloc, NodeId(node)).expect(rt, "a port");
    }
    roads
}

/// The client's end of a connection to node 0.
pub(crate) fn dialled_by_client(rt: &impl Abort, alloc: Global, roads: &mut MemRoads) -> End {
    roads.dial(alloc, FIRST_PORT).expect(rt, "a connection")
}

/// The lower end of the dial that waits at a port.
pub(crate) fn accepted(rt: &impl Abort, alloc: Global, roads: &mut MemRoads, port: u16) -> End {
    roads
        .accept(alloc, port)
        .expect(rt, "an answer")
        .expect(rt, "a dial")
}

/// Exchanges an end.
fn pass(rt: &impl Abort, alloc: Global, roads: &mut MemRoads, end: &mut End, take: bool) {
    assert!(rt; roads.knows(end.id));
    roads.exchange(alloc, end, take).expect(rt, "an exchange");
}

/// Receives what the end holds: how many bytes.
fn receive(rt: &impl Abort, end: &mut End, into: &mut [u8]) -> usize {
    assert!(rt; !into.is_empty());
    match end.inward.recv(into) {
        Ok(Got::Bytes(count)) => count,
        _ => panic!(rt; "bytes"),
    }
}

/// What came at the end.
pub(crate) fn received(
    rt: &impl Abort,
    alloc: Global,
    roads: &mut MemRoads,
    end: &mut End,
) -> Vec<u8> {
    pass(rt, alloc, roads, end, true);
    let mut into = vec![in alloc; 0; 4096].expect(rt, "memory");
    let count = receive(rt, end, &mut into);
    into.truncate(count);
    into
}

/// The member of this request at a node, with this book.
pub(crate) fn placed(
    rt: &impl Abort,
    alloc: Global,
    id: NodeId,
    end: End,
    op: WriteOp,
    book: Book,
) -> Node {
    match Member::new(alloc, id, end, op) {
        Ok(member) => Node { member, book },
        Err(_) => panic!(rt; "memory"),
    }
}

/// The member is set up.
pub(crate) fn set_up(alloc: Global, roads: &mut MemRoads, node: &mut Node) -> Stepped {
    node.member.set_up(alloc, &mut node.book, roads)
}

/// The member takes what stands next from above.
pub(crate) fn down(alloc: Global, node: &mut Node) -> Stepped {
    node.member.down(alloc, &mut node.book)
}

/// The member does what it does by itself.
pub(crate) fn ready(alloc: Global, node: &mut Node) -> Stepped {
    node.member.ready(alloc, &mut node.book)
}

/// The member takes what stands next from its mirror.
pub(crate) fn up(alloc: Global, node: &mut Node) -> Stepped {
    node.member.up(alloc, &mut node.book)
}

/// Whether the roads gave the ends of this connection, if there is one.
pub(crate) fn knows_any(roads: &MemRoads, conn: Option<ConnId>) -> bool
    ensures { IsTrue result → IfSome conn (λ c. IsKnown (⟦<MemRoads as Roads>⟧.plain roads.now) c.0) }
{
    match conn {
        Some(conn) => roads.knows(conn),
        None => true,
    }
}

/// Whether the roads gave both ends of the member.
pub(crate) fn knows(roads: &MemRoads, member: &Member<MemIn, MemOut>) -> bool
    ensures { IsTrue result → AreKnown (⟦<MemRoads as Roads>⟧.plain roads.now) member.now }
{
    if !roads.knows(member.conn()) {
        return false;
    }
    knows_any(roads, member.mirror_conn())
}

/// Exchanges the ends of a member, and takes at the one of this connection.
pub(crate) fn pass_both(
    rt: &impl Abort,
    alloc: Global,
    roads: &mut MemRoads,
    node: &mut Node,
    take: Option<ConnId>,
) {
    assert!(rt; knows(roads, &node.member));
    node.member
        .exchange(alloc, roads, take)
        .expect(rt, "an exchange");
}

/// The ends of a member go back to the roads.
pub(crate) fn retired(rt: &impl Abort, alloc: Global, roads: &mut MemRoads, node: Node) {
    assert!(rt; knows(roads, &node.member));
    node.member.retire(alloc, roads).expect(rt, "memory");
}
