//! A node sends the next packet of a read that it serves.

ghost use Rattle.std.specs.Prelude.{IfOk};
ghost use Rattle.hd_base.specs.Ends.{IsKnown};
ghost use Rattle.recovery_events.specs.MemberEvents.Roads.{RoadsPass};
ghost use Rattle.play_servers.specs.Known.{EndIsKnown, LeftIsKnown};
ghost use Rattle.play_servers.specs.Places.{Sends, IsFollowed, HasEnded, RestsUnlessServing};
ghost use Rattle.play_servers.specs.Events.{ReadyShows};

use crate::servers::{Left, ReadEnd, ReadServer, ServerEvent};
use hd_base::{Files, LinkIn, LinkOut, Roads};
use recovery_events::ReplicaBook;
use serving_events::{ServeFault, ServedRead, serve_packet};
use std::alloc::Global;
use std::mem;

impl<I: LinkIn, O: LinkOut> ReadServer<I, O> {
    /// The node sends the next packet of the read that it serves, or ends it early where the replica refuses. Nothing is
    /// done where it serves none. The books are those of the connection's node, one for each of the blocks.
    ///
    /// After a fault the lower end has no further events.
    pub fn ready<R: Roads<Inward = I, Outward = O>, F: Files>(
        &mut self,
        alloc: Global,
        roads: &mut R,
        books: &mut [ReplicaBook<F>],
    ) -> Result<ServerEvent, ServeFault>
        requires { EndIsKnown (R.plain roads.old) self.old.end }
        ensures shows { ReadyShows F.Files R.Roads I.LinkIn O.LinkOut
            self.old self.new books.old books.new roads.old roads.new result }
        ensures failed { HasEnded self.old self.new result }
        ensures rests { RestsUnlessServing self.old.end
            self.old self.new books.old books.new roads.old roads.new result }
        ensures pass { RoadsPass R.Roads roads.old roads.new }
        ensures known { EndIsKnown (R.plain roads.new) self.new.end }
    {
        match mem::replace(&mut self.end, ReadEnd::Ended) {
            ReadEnd::Serving { read, place } => {
                let left = send(alloc, roads, books, read, place);
                self.follow(left)
            }
            ReadEnd::Idle(end) => {
                self.end = ReadEnd::Idle(end);
                Ok(ServerEvent::Done)
            }
            ReadEnd::Ended => Ok(ServerEvent::Done),
        }
    }

    /// What follows an event of which this is left.
    pub(crate) fn follow(
        &mut self,
        left: Result<Left<I, O>, ServeFault>,
    ) -> Result<ServerEvent, ServeFault>
        ensures { IsFollowed self.old self.new left result }
    {
        let left = left?;
        self.end = left.end;
        Ok(left.event)
    }
}

/// Sends the next packet of a read, with the book at a place. Nothing is done where there is none.
fn send<I: LinkIn, O: LinkOut, R: Roads<Inward = I, Outward = O>, F: Files>(
    alloc: Global,
    roads: &mut R,
    books: &mut [ReplicaBook<F>],
    read: ServedRead<I, O>,
    place: usize,
) -> Result<Left<I, O>, ServeFault>
    requires { IsKnown (R.plain roads.old) read.end.id.0 }
    ensures sends { Sends F.Files R.Roads I.LinkIn O.LinkOut place
        read books.old books.new roads.old roads.new result }
    ensures pass { RoadsPass R.Roads roads.old roads.new }
    ensures known { IfOk result (LeftIsKnown (R.plain roads.new)) }
{
    if place >= books.len() {
        return Ok(Left::ended());
    }
    match serve_packet(alloc, roads, &mut books[place], read) {
        Ok(outcome) => Ok(Left::of(place, outcome)),
        Err(fault) => Err(fault),
    }
}
