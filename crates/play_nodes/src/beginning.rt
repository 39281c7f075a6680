//! A connection's first message.

ghost use Rattle.std.specs.Prelude.{◌≡◌, ◌<◌, ◌⊎◌, length};
ghost use Rattle.hd_base.specs.Ends.{IsKnown};
ghost use Rattle.member_events.specs.Roads.{RoadsPass};
ghost use Rattle.play_nodes.specs.Showing.{Stand};
ghost use Rattle.play_nodes.specs.Places.{KeepsSizes, TakesIdle, IsMirrorNode, Adds, IsSettled, place_of, IsJoined, HasNoBook};
ghost use Rattle.play_nodes.specs.Beginning.{BeginShows};

use crate::connections::{Connection, Lower, Upper};
use crate::faults::{NodesFault, fault_at};
use crate::nodes::{Nodes, Seat};
use hd_base::{Conn, ConnId, FIRST_PORT, Files, LinkIn, LinkOut, NodeId, Roads};
use member_events::{Joined, MemberFault, MirrorDial, Requested, begin, join};
use op_headers::WriteOp;
use std::alloc::Global;
use std::mem;

impl<F: Files, I: LinkIn, O: LinkOut> Nodes<F, I, O> {
    /// The lower end of a connection that has taken nothing yet takes what stands next: a request to write makes it a
    /// member of its node, which asks its mirror; anything else ends the connection. Answers the node of the mirror,
    /// where the dial of it wasn't answered. Nothing is done where no such end is.
    pub fn begin<R: Roads<Inward = I, Outward = O>>(
        &mut self,
        alloc: Global,
        roads: &mut R,
        conn: ConnId,
    ) -> Result<Option<NodeId>, NodesFault>
        requires { Stand R.Roads I.LinkIn O.LinkOut roads.old self.old }
        ensures shows { BeginShows F.Files R.Roads I.LinkIn O.LinkOut conn self.old self.new roads.old roads.new result }
        ensures sizes { KeepsSizes self.old self.new }
        ensures pass { RoadsPass R.Roads roads.old roads.new }
    {
        let index = conn.0 as usize;
        if index >= self.connections.len() {
            return Ok(None);
        }
        let node = self.connections[index].node;
        let Some(end) = self.take_idle(index) else {
            return Ok(None);
        };
        match begin(alloc, roads, end) {
            Ok(Some(requested)) => self.join(alloc, roads, index, node, requested),
            Ok(None) => Ok(None),
            Err(fault) => Err(fault_at(node, fault)),
        }
    }

    /// Makes an end that has taken a request a member of a node. Nothing is done where the node has no book of its block.
    fn join<R: Roads<Inward = I, Outward = O>>(
        &mut self,
        alloc: Global,
        roads: &mut R,
        conn: usize,
        node: NodeId,
        requested: Requested<I, O>,
    ) -> Result<Option<NodeId>, NodesFault>
        requires known { IsKnown (R.plain roads.old) requested.end.id.0 }
        requires within { conn < length self.old.connections.items }
        ensures joins { IsJoined F.Files R.Roads I.LinkIn O.LinkOut
            self.old self.new conn node requested roads.old roads.new result
            ⊎ HasNoBook self.old self.new node requested.op roads.old roads.new result }
        ensures sizes { KeepsSizes self.old self.new }
        ensures pass { RoadsPass R.Roads roads.old roads.new }
    {
        let Some(place) = self.place_of(&requested.op) else {
            return Ok(None);
        };
        if !self.has_book(node, place) {
            return Ok(None);
        }
        let seat = Seat { conn, node, place };
        let mirror = mirror_node(&requested.op);
        let next = ConnId(self.connections.len() as u64);
        let book = &mut self.nodes[node.0 as usize].books[place];
        match join(alloc, roads, book, node, requested, next) {
            Ok(joined) => self.settle(seat, next, mirror, joined),
            Err(fault) => Err(fault_at(node, fault)),
        }
    }

    /// Puts what was made of an end in its place, and the connection to its mirror behind the others.
    fn settle(
        &mut self,
        seat: Seat,
        next: ConnId,
        mirror: NodeId,
        joined: Joined<I, O>,
    ) -> Result<Option<NodeId>, NodesFault>
        requires { seat.conn < length self.old.connections.items }
        ensures settled { IsSettled self.old self.new seat next mirror joined result }
        ensures sizes { KeepsSizes self.old self.new }
    {
        self.put_back(seat, joined.member);
        match joined.mirror {
            MirrorDial::NotDialled => Ok(None),
            MirrorDial::Unanswered => Ok(Some(mirror)),
            MirrorDial::Reached(end) => {
                self.add(seat, next, mirror, end)?;
                Ok(None)
            }
        }
    }

    /// Adds the connection to the mirror of a member, whose lower end this is.
    fn add(
        &mut self,
        seat: Seat,
        next: ConnId,
        mirror: NodeId,
        end: Conn<I, O>,
    ) -> Result<(), NodesFault>
        requires { seat.conn < length self.old.connections.items }
        ensures adds { Adds self.old self.new seat next mirror end result }
        ensures sizes { KeepsSizes self.old self.new }
    {
        self.connections[seat.conn].mirror = Some(next);
        let connection = Connection {
            upper: Upper::Member {
                conn: ConnId(seat.conn as u64),
            },
            node: mirror,
            lower: Lower::Idle(end),
            mirror: None,
        };
        match self.connections.push(connection) {
            Ok(()) => Ok(()),
            Err(_) => Err(NodesFault::Memory),
        }
    }

    /// Takes the end that has taken nothing yet from its place at a connection.
    fn take_idle(&mut self, conn: usize) -> Option<Conn<I, O>>
        requires { conn < length self.old.connections.items }
        ensures { TakesIdle self.old self.new conn result }
    {
        match mem::replace(&mut self.connections[conn].lower, Lower::Ended) {
            Lower::Idle(end) => Some(end),
            _ => None,
        }
    }

    /// The place of the block of a request among those of the play.
    fn place_of(&self, op: &WriteOp) -> Option<usize>
        ensures { result ≡ place_of self.now.blocks.items op.now }
    {
        let block = op.block.block;
        self.blocks.iter().position(|other| other.0 == block.0)
    }
}

/// The node that listens on the port of the first target of a request.
fn mirror_node(op: &WriteOp) -> NodeId
    ensures { IsMirrorNode op.now.targets result }
{
    match op.targets.as_slice() {
        [mirror, ..] => NodeId(mirror.xfer.saturating_sub(u32::from(FIRST_PORT))),
        [] => NodeId(0),
    }
}
