//! The events of the lower ends of connections that primaries dialled.

ghost use Rattle.std.specs.Prelude.{◌≡◌};
ghost use Rattle.play_nodes.specs.MemberEvents.Roads.{RoadsPass};
ghost use Rattle.play_nodes.specs.Places.{KeepsSizes};
ghost use Rattle.play_recoveries.specs.Seats.{IsSeat, followed};
ghost use Rattle.play_recoveries.specs.Serving.{DownShows};
ghost use Rattle.play_recoveries.specs.Showing.{Stand};

use crate::faults::{RecoveriesFault, of_server};
use crate::places::server_of;
use crate::recoveries::Recoveries;
use hd_base::{ConnId, Files, LinkIn, LinkOut, NodeId, Roads};
use play_nodes::{Nodes, nodes_follow, upper_ends_stay};
use play_primaries::primary_clients_stay;
use play_servers::{RecoveryFault, ServerEvent};
use std::alloc::Global;

/// Where the lower end of a connection stands, and its node.
#[derive(Clone, Copy, Debug, PartialEq, Eq)]
pub(crate) struct Seat {
    pub place: usize,
    pub node: NodeId,
}

impl<I: LinkIn, O: LinkOut> Recoveries<I, O> {
    /// The lower end of a connection that a primary dialled takes what stands next, with the books of its node.
    pub fn down<F: Files, R: Roads<Inward = I, Outward = O>>(
        &mut self,
        alloc: Global,
        roads: &mut R,
        nodes: &mut Nodes<F, I, O>,
        conn: ConnId,
    ) -> Result<(), RecoveriesFault>
        requires { Stand R.Roads I.LinkIn O.LinkOut roads.old nodes.old self.old }
        ensures shows { DownShows F.Files R.Roads I.LinkIn O.LinkOut conn
            nodes.old nodes.new self.old self.new roads.old roads.new result }
        ensures sizes { KeepsSizes nodes.old nodes.new }
        ensures pass { RoadsPass R.Roads roads.old roads.new }
    {
        nodes_follow::<F, I, O>();
        upper_ends_stay();
        primary_clients_stay::<I, O>();
        let Some(seat) = self.seat_of(nodes, conn) else {
            return Ok(());
        };
        let books = &mut nodes.nodes[seat.node.0 as usize].books;
        let served = self.servers[seat.place].down(alloc, roads, &nodes.blocks, books);
        followed(seat.node, served)
    }

    /// Where the lower end of a connection stands, if it does and its node has books.
    fn seat_of<F: Files>(&self, nodes: &Nodes<F, I, O>, conn: ConnId) -> Option<Seat>
        ensures { IsSeat nodes.now self.now conn.0 result }
    {
        let Some(place) = server_of(self.servers.as_slice(), conn) else {
            return None;
        };
        let conn = conn.0 as usize;
        if conn >= nodes.connections.len() {
            return None;
        }
        let node = nodes.connections[conn].node;
        let number = node.0 as usize;
        if number >= nodes.nodes.len() {
            return None;
        }
        Some(Seat { place, node })
    }
}

/// What follows an event of a lower end at a node: where a call on files failed it is the fault of the node's files.
fn followed(node: NodeId, served: Result<ServerEvent, RecoveryFault>) -> Result<(), RecoveriesFault>
    ensures { result ≡ followed node served }
{
    match served {
        Ok(ServerEvent::Done) => Ok(()),
        Ok(ServerEvent::Broke) => Err(RecoveriesFault::FilesFailed { node }),
        Err(fault) => Err(of_server(fault)),
    }
}
