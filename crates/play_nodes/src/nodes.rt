//! The nodes of a play.

ghost use Rattle.std.specs.Prelude.{◌≡◌, ◌<◌, length, is_some, option_map, slice_get};
ghost use Rattle.play_nodes.specs.Places.{book_at, IsSeat, Takes, PutBack, Follows, FollowsDown, member_above};

use crate::connections::{Connection, Lower, Upper};
use crate::faults::{NodesFault, fault_at};
use hd_base::{BlockId, ConnId, Files, LinkIn, LinkOut, NodeId};
use member_events::{Downed, Member, MemberFault, ReplicaBook};
use std::mem;

/// The books of a node, in the order of the blocks of the play.
#[derive(Drop)]
pub struct NodeBooks<F: Files> {
    pub books: Vec<ReplicaBook<F>>,
}

/// The nodes of a play: the lower ends of all connections, and the books of all replicas.
#[derive(Drop)]
pub struct Nodes<F: Files, I, O> {
    /// The blocks of the play, each once.
    pub blocks: Vec<BlockId>,
    /// The connections by their numbers.
    pub connections: Vec<Connection<I, O>>,
    /// The nodes by their numbers.
    pub nodes: Vec<NodeBooks<F>>,
}

/// Where a member stands: its connection, its node, and the place of its book.
#[derive(Clone, Copy, Debug, PartialEq, Eq)]
pub(crate) struct Seat {
    pub conn: usize,
    pub node: NodeId,
    pub place: usize,
}

/// What an event leaves in which a member takes what stands next from above, while the writes on its replica's data file
/// are refused.
#[derive(Drop)]
pub(crate) enum Refused<I, O> {
    /// No write was refused, and the event was done; the member goes on, unless it has shut.
    Done(Option<Member<I, O>>),
    /// A write was refused: the replica broke, and the member has shut.
    Broke,
    /// Another call on the replica's files failed, and the drawer's count rose.
    Failed,
}

impl<F: Files, I: LinkIn, O: LinkOut> Nodes<F, I, O> {
    /// Whether there is a book at a place of a node.
    pub(crate) fn has_book(&self, node: NodeId, place: usize) -> bool
        ensures { result ≡ is_some (book_at self.now.nodes.items node.0 place) }
    {
        let node = node.0 as usize;
        node < self.nodes.len() && place < self.nodes[node].books.len()
    }

    /// Where the member at a connection stands, if it has one, and the member's book is there.
    pub(crate) fn seat_of(&self, conn: ConnId) -> Option<Seat>
        ensures { IsSeat self.now conn.0 result }
    {
        let conn = conn.0 as usize;
        if conn >= self.connections.len() {
            return None;
        }
        let connection = &self.connections[conn];
        let Lower::Member { place, .. } = &connection.lower else {
            return None;
        };
        let (node, place) = (connection.node, *place);
        if !self.has_book(node, place) {
            return None;
        }
        Some(Seat { conn, node, place })
    }

    /// The connection of the member that dialled this one, if a member did.
    pub(crate) fn above(&self, conn: ConnId) -> Option<ConnId>
        ensures { result ≡ member_above (option_map (λ x. x.upper) (slice_get self.now.connections.items conn.0)) }
    {
        let conn = conn.0 as usize;
        if conn >= self.connections.len() {
            return None;
        }
        match self.connections[conn].upper {
            Upper::Member { conn } => Some(conn),
            Upper::Writer { .. } | Upper::Reader { .. } | Upper::Primary { .. } => None,
        }
    }

    /// Takes the member at a connection from its place.
    pub(crate) fn take(&mut self, conn: usize) -> Option<Member<I, O>>
        requires { conn < length self.old.connections.items }
        ensures { Takes self.old self.new conn result }
    {
        match mem::replace(&mut self.connections[conn].lower, Lower::Ended) {
            Lower::Member { member, .. } => Some(member),
            _ => None,
        }
    }

    /// What is left of a member is put back in its place.
    pub(crate) fn put_back(&mut self, seat: Seat, left: Option<Member<I, O>>)
        requires { seat.conn < length self.old.connections.items }
        ensures { PutBack self.old self.new seat left }
    {
        let place = seat.place;
        match left {
            Some(member) => self.connections[seat.conn].lower = Lower::Member { member, place },
            None => {}
        }
    }

    /// What follows an event of a member.
    pub(crate) fn follow(
        &mut self,
        seat: Seat,
        left: Result<Option<Member<I, O>>, MemberFault>,
    ) -> Result<(), NodesFault>
        requires { seat.conn < length self.old.connections.items }
        ensures { Follows self.old self.new seat left result }
    {
        match left {
            Ok(left) => {
                self.put_back(seat, left);
                Ok(())
            }
            Err(fault) => Err(fault_at(seat.node, fault)),
        }
    }

    /// What follows an event in which a member has taken what stood next from above: whether its replica grew.
    pub(crate) fn follow_down(
        &mut self,
        seat: Seat,
        ended: Result<Downed<I, O>, MemberFault>,
        grew: bool,
    ) -> Result<bool, NodesFault>
        requires { seat.conn < length self.old.connections.items }
        ensures { FollowsDown self.old self.new seat ended grew result }
    {
        match ended {
            Ok(Downed::Done(left)) => {
                self.put_back(seat, left);
                Ok(grew)
            }
            Ok(Downed::Broke) => Err(NodesFault::FilesFailed { node: seat.node }),
            Err(fault) => Err(fault_at(seat.node, fault)),
        }
    }
}
