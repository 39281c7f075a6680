//! The events of the nodes.

ghost use Rattle.std.specs.Prelude.{◌≡◌};
ghost use Rattle.member_events.specs.Roads.{RoadsPass};
ghost use Rattle.member_events.specs.Writes.{written_of};
ghost use Rattle.play_nodes.specs.Showing.{Stand};
ghost use Rattle.play_nodes.specs.Places.{KeepsSizes};
ghost use Rattle.play_nodes.specs.Events.{ReadyShows, DownShows, UpShows};

use crate::faults::NodesFault;
use crate::nodes::Nodes;
use hd_base::{ConnId, Files, LinkIn, LinkOut, Roads};
use member_events::{ReplicaBook, member_down, member_ready, mirror_up};
use std::alloc::Global;

/// How many bytes are written of a book's replica.
fn written_of<F: Files>(book: &ReplicaBook<F>) -> u64
    ensures { result ≡ written_of book.now }
{
    book.replica().written()
}

impl<F: Files, I: LinkIn, O: LinkOut> Nodes<F, I, O> {
    /// The member at the lower end of a connection acts without a message. Nothing is done where there is no member.
    pub fn ready<R: Roads<Inward = I, Outward = O>>(
        &mut self,
        alloc: Global,
        roads: &mut R,
        conn: ConnId,
    ) -> Result<(), NodesFault>
        requires { Stand R.Roads I.LinkIn O.LinkOut roads.old self.old }
        ensures shows { ReadyShows F.Files R.Roads I.LinkIn O.LinkOut conn self.old self.new roads.old roads.new result }
        ensures sizes { KeepsSizes self.old self.new }
        ensures pass { RoadsPass R.Roads roads.old roads.new }
    {
        let Some(seat) = self.seat_of(conn) else {
            return Ok(());
        };
        let Some(member) = self.take(seat.conn) else {
            return Ok(());
        };
        let book = &mut self.nodes[seat.node.0 as usize].books[seat.place];
        let left = member_ready(alloc, roads, book, member);
        self.follow(seat, left)
    }

    /// The member at the lower end of a connection takes what stands next from above. Answers whether its replica grew.
    /// Nothing is done where there is no member.
    pub fn member_down<R: Roads<Inward = I, Outward = O>>(
        &mut self,
        alloc: Global,
        roads: &mut R,
        conn: ConnId,
    ) -> Result<bool, NodesFault>
        requires { Stand R.Roads I.LinkIn O.LinkOut roads.old self.old }
        ensures shows { DownShows F.Files R.Roads I.LinkIn O.LinkOut conn self.old self.new roads.old roads.new result }
        ensures sizes { KeepsSizes self.old self.new }
        ensures pass { RoadsPass R.Roads roads.old roads.new }
    {
        let Some(seat) = self.seat_of(conn) else {
            return Ok(false);
        };
        let Some(member) = self.take(seat.conn) else {
            return Ok(false);
        };
        let book = &mut self.nodes[seat.node.0 as usize].books[seat.place];
        let before = written_of(book);
        let ended = member_down(alloc, roads, book, member);
        let grew = before < written_of(book);
        self.follow_down(seat, ended, grew)
    }

    /// The member that dialled a connection takes what stands next from its mirror. Nothing is done where no member
    /// dialled it.
    pub fn mirror_up<R: Roads<Inward = I, Outward = O>>(
        &mut self,
        alloc: Global,
        roads: &mut R,
        conn: ConnId,
    ) -> Result<(), NodesFault>
        requires { Stand R.Roads I.LinkIn O.LinkOut roads.old self.old }
        ensures shows { UpShows F.Files R.Roads I.LinkIn O.LinkOut conn self.old self.new roads.old roads.new result }
        ensures sizes { KeepsSizes self.old self.new }
        ensures pass { RoadsPass R.Roads roads.old roads.new }
    {
        let Some(above) = self.above(conn) else {
            return Ok(());
        };
        let Some(seat) = self.seat_of(above) else {
            return Ok(());
        };
        let Some(member) = self.take(seat.conn) else {
            return Ok(());
        };
        let book = &mut self.nodes[seat.node.0 as usize].books[seat.place];
        let left = mirror_up(alloc, roads, book, member, conn);
        self.follow(seat, left)
    }
}
