//! Which events of the recoveries are due.

ghost use Rattle.std.specs.Prelude.{◌<◌, IfSome, length, option_map};
ghost use Rattle.play_nodes.specs.MemberEvents.Roads.{RoadsPass};
ghost use Rattle.play_recoveries.specs.Dues.{
  TellsStep,
  TellsDown,
  TellsUp,
  TellsEnded,
  TellsOver,
  TellsDialler,
  TellsClient,
  pair_of,
};

use crate::places::{client_of, server_of};
use crate::recoveries::Recoveries;
use hd_base::{ConnId, Files, LinkIn, LinkOut, Roads};
use play_nodes::{Nodes, Upper};

/// Which primary dialled a connection, and for the member at which place of its list.
#[derive(Clone, Copy, Debug, PartialEq, Eq)]
pub struct Dialler {
    pub primary: u64,
    pub place: usize,
}

/// Where the client of a primary stands, and for the member at which place it dialled a connection.
#[derive(Clone, Copy, Debug, PartialEq, Eq)]
pub(crate) struct Leader {
    pub client: usize,
    pub place: usize,
}

impl<I: LinkIn, O: LinkOut> Recoveries<I, O> {
    /// Whether the primary of the client at a place has an own step.
    pub fn has_step(&self, place: usize) -> bool
        requires { place < length self.now.clients.items }
        ensures { TellsStep I.LinkIn O.LinkOut place self.now result }
    {
        self.clients[place].has_step()
    }

    /// Whether the lower end of a connection that a primary dialled takes what stands next.
    pub fn can_down<R: Roads<Inward = I, Outward = O>>(&self, roads: &mut R, conn: ConnId) -> bool
        ensures tells { TellsDown R.Roads I.LinkIn O.LinkOut conn self.now roads.old roads.new result }
        ensures pass { RoadsPass R.Roads roads.old roads.new }
    {
        let Some(place) = server_of(self.servers.as_slice(), conn) else {
            return false;
        };
        self.servers[place].can_down(roads)
    }

    /// Whether the primary that dialled a connection takes what stands next there.
    pub fn can_up<F: Files, R: Roads<Inward = I, Outward = O>>(
        &self,
        roads: &mut R,
        nodes: &Nodes<F, I, O>,
        conn: ConnId,
    ) -> bool
        ensures tells { TellsUp R.Roads I.LinkIn O.LinkOut conn nodes.now self.now roads.old roads.new result }
        ensures pass { RoadsPass R.Roads roads.old roads.new }
    {
        let Some(leader) = self.client_at(nodes, conn) else {
            return false;
        };
        self.clients[leader.client].can_up(roads, conn, leader.place)
    }

    /// Whether the lower end of a connection that a primary dialled has no further events.
    pub fn has_ended(&self, conn: ConnId) -> bool
        ensures { TellsEnded I.LinkIn O.LinkOut conn self.now result }
    {
        let Some(place) = server_of(self.servers.as_slice(), conn) else {
            return true;
        };
        self.servers[place].open_conn().is_none()
    }

    /// Whether the primary that dialled a connection takes from it.
    pub fn leads_over<F: Files>(&self, nodes: &Nodes<F, I, O>, conn: ConnId) -> bool
        ensures { TellsOver I.LinkIn O.LinkOut conn nodes.now self.now result }
    {
        let Some(leader) = self.client_at(nodes, conn) else {
            return false;
        };
        self.clients[leader.client].hears_on(conn, leader.place)
    }

    /// Where the client of the primary that dialled a connection stands, if one did, and for the member at which place
    /// it dialled.
    pub(crate) fn client_at<F: Files>(&self, nodes: &Nodes<F, I, O>, conn: ConnId) -> Option<Leader>
        ensures tells { TellsClient I.LinkIn O.LinkOut conn nodes.now self.now result }
        ensures within { IfSome result (λ leader. leader.client < length self.now.clients.items) }
    {
        let Some(dialler) = primary_of(nodes, conn) else {
            return None;
        };
        let Some(client) = client_of(self.clients.as_slice(), dialler.primary) else {
            return None;
        };
        let place = dialler.place;
        Some(Leader { client, place })
    }
}

/// Which primary dialled a connection, if one did, and for the member at which place.
pub fn primary_of<F: Files, I: LinkIn, O: LinkOut>(
    nodes: &Nodes<F, I, O>,
    conn: ConnId,
) -> Option<Dialler>
    ensures { TellsDialler I.LinkIn O.LinkOut conn nodes.now (option_map pair_of result) }
{
    let conn = conn.0 as usize;
    if conn >= nodes.connections.len() {
        return None;
    }
    let Upper::Primary { primary, place, .. } = nodes.connections[conn].upper else {
        return None;
    };
    Some(Dialler { primary, place })
}
