//! The events of the nodes while the writes on a data file are refused.

ghost use Rattle.std.specs.Prelude.{◌≡◌, ◌<◌, length};
ghost use Rattle.member_events.specs.PipeMember.Exchanges.{AreKnown};
ghost use Rattle.member_events.specs.Roads.{RoadsPass};
ghost use Rattle.play_nodes.specs.Showing.{Stand};
ghost use Rattle.play_nodes.specs.Places.{KeepsSizes, FollowsRefusing};
ghost use Rattle.play_nodes.specs.Refusing.{refused_in, MemberRefuses, RefusingShows};

use crate::faults::{NodesFault, fault_at};
use crate::nodes::{Nodes, Refused, Seat};
use hd_base::{ConnId, Files, LinkIn, LinkOut, Roads};
use member_events::{Downed, Member, MemberFault, ReplicaBook, member_down};
use refusing_files::Refusing;
use std::alloc::Global;

/// How an event has ended in which a write was refused, or none was.
fn refused_in<I, O>(
    ended: Result<Downed<I, O>, MemberFault>,
    refused: bool,
) -> Result<Refused<I, O>, MemberFault>
    ensures { result ≡ refused_in ended refused }
{
    match ended {
        Ok(Downed::Done(left)) => Ok(Refused::Done(left)),
        Ok(Downed::Broke) => {
            if refused {
                Ok(Refused::Broke)
            } else {
                Ok(Refused::Failed)
            }
        }
        Err(fault) => Err(fault),
    }
}

/// A member takes what stands next from above, while the writes on its replica's data file are refused.
fn down_refusing<F: Refusing, I: LinkIn, O: LinkOut, R: Roads<Inward = I, Outward = O>>(
    alloc: Global,
    roads: &mut R,
    book: &mut ReplicaBook<F>,
    member: Member<I, O>,
) -> Result<Refused<I, O>, MemberFault>
    requires { AreKnown (R.plain roads.old) member }
    ensures shows { MemberRefuses F.Files R.Roads I.LinkIn O.LinkOut
        member book.old book.new roads.old roads.new result }
    ensures pass { RoadsPass R.Roads roads.old roads.new }
{
    match book.refuse_writes(alloc) {
        Ok(()) => {}
        Err(_) => return Err(MemberFault::Memory),
    }
    let ended = member_down(alloc, roads, book, member);
    let refused = book.take_writes();
    refused_in(ended, refused)
}

impl<F: Files, I: LinkIn, O: LinkOut> Nodes<F, I, O> {
    /// What follows an event of a member in which the writes on its data file were refused: whether one was.
    fn follow_refusing(
        &mut self,
        seat: Seat,
        ended: Result<Refused<I, O>, MemberFault>,
    ) -> Result<bool, NodesFault>
        requires { seat.conn < length self.old.connections.items }
        ensures { FollowsRefusing self.old self.new seat ended result }
    {
        match ended {
            Ok(Refused::Done(left)) => {
                self.put_back(seat, left);
                Ok(false)
            }
            Ok(Refused::Broke) => {
                self.put_back(seat, None);
                Ok(true)
            }
            Ok(Refused::Failed) => Err(NodesFault::FilesFailed { node: seat.node }),
            Err(fault) => Err(fault_at(seat.node, fault)),
        }
    }
}

impl<F: Refusing, I: LinkIn, O: LinkOut> Nodes<F, I, O> {
    /// The member at the lower end of a connection takes what stands next from above, while its replica's files refuse
    /// the writes on the data file. Answers whether one was refused: then the replica has broken. Nothing is done where
    /// there is no member.
    pub fn refusing_down<R: Roads<Inward = I, Outward = O>>(
        &mut self,
        alloc: Global,
        roads: &mut R,
        conn: ConnId,
    ) -> Result<bool, NodesFault>
        requires { Stand R.Roads I.LinkIn O.LinkOut roads.old self.old }
        ensures shows { RefusingShows F.Files R.Roads I.LinkIn O.LinkOut conn self.old self.new roads.old roads.new result }
        ensures sizes { KeepsSizes self.old self.new }
        ensures pass { RoadsPass R.Roads roads.old roads.new }
    {
        let Some(seat) = self.seat_of(conn) else {
            return Ok(false);
        };
        let Some(member) = self.take(seat.conn) else {
            return Ok(false);
        };
        let book = &mut self.nodes[seat.node.0 as usize].books[seat.place];
        let ended = down_refusing(alloc, roads, book, member);
        self.follow_refusing(seat, ended)
    }
}
