//! The events of a member.

ghost use Rattle.std.specs.Prelude.{IfOk, IfSome};
ghost use Rattle.pipe_member.specs.Exchanges.{AreKnown};
ghost use Rattle.member_events.specs.Roads.{RoadsPass};
ghost use Rattle.member_events.specs.Steps.{member_left};
ghost use Rattle.member_events.specs.Events.{ReadyShows, DownShows, UpShows};

use crate::faults::MemberFault;
use crate::steps::{Downed, exchanged, lost, placed, placed_down};
use hd_base::{ConnId, Files, LinkIn, LinkOut, Roads};
use pipe_member::{Looked, Member, ReplicaBook};
use std::alloc::Global;

/// A member acts without a message. The member is handed back, unless it has shut.
pub fn member_ready<I: LinkIn, O: LinkOut, R: Roads<Inward = I, Outward = O>, F: Files>(
    alloc: Global,
    roads: &mut R,
    book: &mut ReplicaBook<F>,
    member: Member<I, O>,
) -> Result<Option<Member<I, O>>, MemberFault>
    requires { AreKnown (R.plain roads.old) member }
    ensures shows { ReadyShows F.Files R.Roads I.LinkIn O.LinkOut member book.old book.new roads.old roads.new result }
    ensures pass { RoadsPass R.Roads roads.old roads.new }
    ensures known { IfOk result (λ left. IfSome left (AreKnown (R.plain roads.new))) }
{
    let mut member = member;
    let _kept = book.replica();
    let stepped = member.ready(alloc, book);
    placed(alloc, roads, member, stepped)
}

/// A member takes what stands next from above. Where the replica grows, bytes are written to its files.
pub fn member_down<I: LinkIn, O: LinkOut, R: Roads<Inward = I, Outward = O>, F: Files>(
    alloc: Global,
    roads: &mut R,
    book: &mut ReplicaBook<F>,
    member: Member<I, O>,
) -> Result<Downed<I, O>, MemberFault>
    requires { AreKnown (R.plain roads.old) member }
    ensures shows { DownShows F.Files R.Roads I.LinkIn O.LinkOut member book.old book.new roads.old roads.new result }
    ensures pass { RoadsPass R.Roads roads.old roads.new }
    ensures known { IfOk result (λ left. IfSome (member_left left) (AreKnown (R.plain roads.new))) }
{
    let conn = member.conn();
    let _kept = book.replica();
    let mut member = exchanged(alloc, roads, member, Some(conn))?;
    let stepped = member.down(alloc, book);
    if member.knows_mirror_end() {
        return Err(lost(alloc, roads, member));
    }
    placed_down(alloc, roads, member, stepped)
}

/// A member takes what stands next on this connection, the one to its mirror.
pub fn mirror_up<I: LinkIn, O: LinkOut, R: Roads<Inward = I, Outward = O>, F: Files>(
    alloc: Global,
    roads: &mut R,
    book: &mut ReplicaBook<F>,
    member: Member<I, O>,
    mirror: ConnId,
) -> Result<Option<Member<I, O>>, MemberFault>
    requires { AreKnown (R.plain roads.old) member }
    ensures shows { UpShows F.Files R.Roads I.LinkIn O.LinkOut mirror member book.old book.new roads.old roads.new result }
    ensures pass { RoadsPass R.Roads roads.old roads.new }
    ensures known { IfOk result (λ left. IfSome left (AreKnown (R.plain roads.new))) }
{
    let _kept = book.replica();
    let mut member = exchanged(alloc, roads, member, Some(mirror))?;
    match member.look_down() {
        Looked::Failed => return Err(lost(alloc, roads, member)),
        Looked::Memory => return Err(MemberFault::Memory),
        Looked::Known => {}
    }
    let stepped = member.up(alloc, book);
    placed(alloc, roads, member, stepped)
}
