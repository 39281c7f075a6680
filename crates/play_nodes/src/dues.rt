//! Which events of the nodes are due.

ghost use Rattle.std.specs.Prelude.{◌≡◌, option_map, slice_get};
ghost use Rattle.member_events.specs.Roads.{RoadsPass};
ghost use Rattle.play_nodes.specs.Dues.{stands, is_idle, is_elsewhere, TellsElsewhere, TellsIdle, TellsReady, TellsDown, TellsUp};

use crate::connections::Lower;
use crate::nodes::Nodes;
use hd_base::{ConnId, Files, LinkIn, LinkOut, Roads, Standing};
use road_traffic::standing;

impl<F: Files, I: LinkIn, O: LinkOut> Nodes<F, I, O> {
    /// Whether the lower end of a connection is kept elsewhere: a reader or a primary dialled.
    pub fn is_elsewhere(&self, conn: ConnId) -> bool
        ensures place { result ≡ is_elsewhere self.now conn.0 }
        ensures tells { TellsElsewhere I.LinkIn O.LinkOut conn self.now result }
    {
        let conn = conn.0 as usize;
        if conn >= self.connections.len() {
            return false;
        }
        !self.connections[conn].lower.stands_here()
    }

    /// Whether the lower end of a connection takes its first message next, if it takes one.
    pub fn takes_first(&self, conn: ConnId) -> bool
        ensures { TellsIdle I.LinkIn O.LinkOut conn self.now result }
    {
        self.is_idle(conn)
    }

    /// Whether the lower end of a connection takes what stands next.
    pub fn can_down<R: Roads<Inward = I, Outward = O>>(&self, roads: &mut R, conn: ConnId) -> bool
        ensures tells { TellsDown R.Roads I.LinkIn O.LinkOut conn self.now roads.old roads.new result }
        ensures pass { RoadsPass R.Roads roads.old roads.new }
    {
        let next = standing(roads, conn, true);
        if self.is_idle(conn) {
            return stands(next);
        }
        let Some(seat) = self.seat_of(conn) else {
            return false;
        };
        let Lower::Member { member, .. } = &self.connections[seat.conn].lower else {
            return false;
        };
        member.takes(
            self.nodes[seat.node.0 as usize].books[seat.place].replica(),
            next,
        )
    }

    /// Whether the lower end of a connection has something to do without a message.
    pub fn can_ready(&self, conn: ConnId) -> bool
        ensures { TellsReady I.LinkIn O.LinkOut conn self.now result }
    {
        let Some(seat) = self.seat_of(conn) else {
            return false;
        };
        let Lower::Member { member, .. } = &self.connections[seat.conn].lower else {
            return false;
        };
        member.acts(self.nodes[seat.node.0 as usize].books[seat.place].replica())
    }

    /// Whether the member that dialled a connection takes what stands next from its mirror.
    pub fn can_up<R: Roads<Inward = I, Outward = O>>(&self, roads: &mut R, conn: ConnId) -> bool
        ensures tells { TellsUp R.Roads I.LinkIn O.LinkOut conn self.now roads.old roads.new result }
        ensures pass { RoadsPass R.Roads roads.old roads.new }
    {
        let next = standing(roads, conn, false);
        let Some(above) = self.above(conn) else {
            return false;
        };
        let Some(seat) = self.seat_of(above) else {
            return false;
        };
        let Lower::Member { member, .. } = &self.connections[seat.conn].lower else {
            return false;
        };
        member.hears() && stands(next)
    }

    /// Whether the lower end of a connection has taken nothing yet.
    fn is_idle(&self, conn: ConnId) -> bool
        ensures { result ≡ is_idle (option_map (λ x. x.lower) (slice_get self.now.connections.items conn.0)) }
    {
        let conn = conn.0 as usize;
        if conn >= self.connections.len() {
            return false;
        }
        match &self.connections[conn].lower {
            Lower::Idle(_) => true,
            _ => false,
        }
    }
}

/// Whether something stands next.
fn stands(next: Standing) -> bool
    ensures { result ≡ stands next }
{
    match next {
        Standing::Nothing => false,
        Standing::Piece | Standing::End => true,
    }
}
