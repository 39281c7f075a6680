//! A lower end of a connection that a reader dialled takes what stands next.

ghost use Rattle.std.specs.Prelude.{IfOk};
ghost use Rattle.recovery_events.specs.MemberEvents.Roads.{RoadsPass};
ghost use Rattle.play_servers.specs.Known.{EndIsKnown, LeftIsKnown};
ghost use Rattle.play_servers.specs.Places.{HasEnded};
ghost use Rattle.play_servers.specs.Events.{DownShows, EndShowsDown};

use crate::requests::take_first;
use crate::servers::{Left, ReadEnd, ReadServer, ServerEvent};
use hd_base::{BlockId, Files, LinkIn, LinkOut, Roads};
use recovery_events::ReplicaBook;
use serving_events::{ServeFault, serve_down};
use std::alloc::Global;
use std::mem;

impl<I: LinkIn, O: LinkOut> ReadServer<I, O> {
    /// The lower end takes what stands next: the request to read, which is booked and answered; or, once the read is
    /// served, the reader's status or the end, which ends it. The books are those of the connection's node, one for each
    /// of the blocks.
    ///
    /// After a fault the lower end has no further events.
    pub fn down<R: Roads<Inward = I, Outward = O>, F: Files>(
        &mut self,
        alloc: Global,
        roads: &mut R,
        blocks: &[BlockId],
        books: &mut [ReplicaBook<F>],
    ) -> Result<ServerEvent, ServeFault>
        requires { EndIsKnown (R.plain roads.old) self.old.end }
        ensures shows { DownShows F.Files R.Roads I.LinkIn O.LinkOut blocks.now
            self.old self.new books.old books.new roads.old roads.new result }
        ensures failed { HasEnded self.old self.new result }
        ensures pass { RoadsPass R.Roads roads.old roads.new }
        ensures known { EndIsKnown (R.plain roads.new) self.new.end }
    {
        let end = mem::replace(&mut self.end, ReadEnd::Ended);
        let left = take(alloc, roads, blocks, books, end);
        self.follow(left)
    }
}

/// What is left of an end that takes what stands next.
fn take<I: LinkIn, O: LinkOut, R: Roads<Inward = I, Outward = O>, F: Files>(
    alloc: Global,
    roads: &mut R,
    blocks: &[BlockId],
    books: &mut [ReplicaBook<F>],
    end: ReadEnd<I, O>,
) -> Result<Left<I, O>, ServeFault>
    requires { EndIsKnown (R.plain roads.old) end }
    ensures shows { EndShowsDown F.Files R.Roads I.LinkIn O.LinkOut blocks.now
        end books.old books.new roads.old roads.new result }
    ensures pass { RoadsPass R.Roads roads.old roads.new }
    ensures known { IfOk result (LeftIsKnown (R.plain roads.new)) }
{
    match end {
        ReadEnd::Idle(end) => take_first(alloc, roads, blocks, books, end),
        ReadEnd::Serving { read, .. } => match serve_down(alloc, roads, read) {
            Ok(()) => Ok(Left::ended()),
            Err(fault) => Err(fault),
        },
        ReadEnd::Ended => Ok(Left::ended()),
    }
}
