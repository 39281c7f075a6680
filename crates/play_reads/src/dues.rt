//! Which events of the reads are due.

ghost use Rattle.std.specs.Prelude.{◌<◌, IfSome, length};
ghost use Rattle.play_nodes.specs.MemberEvents.Roads.{RoadsPass};
ghost use Rattle.play_reads.specs.Dues.{
  TellsStep,
  TellsDown,
  TellsReady,
  TellsUp,
  TellsEnded,
  TellsOver,
  TellsDialler,
  TellsClient,
};

use crate::places::{client_of, server_of};
use crate::reads::Reads;
use hd_base::{ConnId, Files, LinkIn, LinkOut, Roads};
use play_nodes::{Nodes, Upper};

impl<I: LinkIn, O: LinkOut> Reads<I, O> {
    /// Whether the reader of the client at a place has an own step.
    pub fn has_step(&self, place: usize) -> bool
        requires { place < length self.now.clients.items }
        ensures { TellsStep I.LinkIn O.LinkOut place self.now result }
    {
        self.clients[place].has_step()
    }

    /// Whether the lower end of a connection that a reader dialled takes what stands next.
    pub fn can_down<R: Roads<Inward = I, Outward = O>>(&self, roads: &mut R, conn: ConnId) -> bool
        ensures tells { TellsDown R.Roads I.LinkIn O.LinkOut conn self.now roads.old roads.new result }
        ensures pass { RoadsPass R.Roads roads.old roads.new }
    {
        let Some(place) = server_of(self.servers.as_slice(), conn) else {
            return false;
        };
        self.servers[place].can_down(roads)
    }

    /// Whether the lower end of a connection that a reader dialled sends a packet next.
    pub fn can_ready(&self, conn: ConnId) -> bool
        ensures { TellsReady I.LinkIn O.LinkOut conn self.now result }
    {
        let Some(place) = server_of(self.servers.as_slice(), conn) else {
            return false;
        };
        self.servers[place].can_ready()
    }

    /// Whether the reader that dialled a connection takes what stands next there.
    pub fn can_up<F: Files, R: Roads<Inward = I, Outward = O>>(
        &self,
        roads: &mut R,
        nodes: &Nodes<F, I, O>,
        conn: ConnId,
    ) -> bool
        ensures tells { TellsUp R.Roads I.LinkIn O.LinkOut conn nodes.now self.now roads.old roads.new result }
        ensures pass { RoadsPass R.Roads roads.old roads.new }
    {
        let Some(place) = self.client_at(nodes, conn) else {
            return false;
        };
        self.clients[place].can_up(roads, conn)
    }

    /// Whether the lower end of a connection that a reader dialled has no further events.
    pub fn has_ended(&self, conn: ConnId) -> bool
        ensures { TellsEnded I.LinkIn O.LinkOut conn self.now result }
    {
        let Some(place) = server_of(self.servers.as_slice(), conn) else {
            return true;
        };
        self.servers[place].open_conn().is_none()
    }

    /// Whether the reader that dialled a connection reads over it: it doesn't before it has begun, nor once it has
    /// read.
    pub fn reads_over<F: Files>(&self, nodes: &Nodes<F, I, O>, conn: ConnId) -> bool
        ensures { TellsOver I.LinkIn O.LinkOut conn nodes.now self.now result }
    {
        let Some(place) = self.client_at(nodes, conn) else {
            return false;
        };
        let Some(over) = self.clients[place].conn() else {
            return false;
        };
        over.0 == conn.0
    }

    /// The place of the client of the reader that dialled a connection, if one did.
    pub(crate) fn client_at<F: Files>(&self, nodes: &Nodes<F, I, O>, conn: ConnId) -> Option<usize>
        ensures tells { TellsClient I.LinkIn O.LinkOut conn nodes.now self.now result }
        ensures within { IfSome result (λ place. place < length self.now.clients.items) }
    {
        let Some(reader) = reader_of(nodes, conn) else {
            return None;
        };
        client_of(self.clients.as_slice(), reader)
    }
}

/// The reader that dialled a connection, if one did.
pub fn reader_of<F: Files, I: LinkIn, O: LinkOut>(
    nodes: &Nodes<F, I, O>,
    conn: ConnId,
) -> Option<u64>
    ensures { TellsDialler I.LinkIn O.LinkOut conn nodes.now result }
{
    let conn = conn.0 as usize;
    if conn >= nodes.connections.len() {
        return None;
    }
    let Upper::Reader { reader } = nodes.connections[conn].upper else {
        return None;
    };
    Some(reader)
}
