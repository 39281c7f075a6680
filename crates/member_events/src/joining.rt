//! A request to write makes an end a member.

ghost use Rattle.std.specs.Prelude.{IfOk, IfSome};
ghost use Rattle.hd_base.specs.Ends.{IsKnown};
ghost use Rattle.pipe_member.specs.Exchanges.{AreKnown};
ghost use Rattle.member_events.specs.Roads.{RoadsPass, ReachedIsKnown};
ghost use Rattle.member_events.specs.Joining.{IsMirrorPort, Accepts, Meets, JoinShows};

use crate::beginning::Requested;
use crate::faults::{MemberFault, road_fault};
use crate::steps::{lost, placed};
use hd_base::{Conn, ConnId, Files, LinkIn, LinkOut, NodeId, Roads};
use op_headers::WriteOp;
use pipe_member::{MAX_PORT, Member, ReplicaBook};
use std::alloc::Global;

/// What became of the dial of a member's mirror.
#[derive(Drop)]
pub enum MirrorDial<I, O> {
    /// There is no mirror, or none at a port, or the request was refused.
    NotDialled,
    /// The mirror couldn't be asked.
    Unanswered,
    /// It was asked, and this is the lower end of the connection to it.
    Reached(Conn<I, O>),
}

/// A request that was set up: the member, unless it has shut, and the dial of its mirror.
#[derive(Drop)]
pub struct Joined<I, O> {
    pub member: Option<Member<I, O>>,
    pub mirror: MirrorDial<I, O>,
}

/// Makes an end that has taken a request a member of a node, and sets it up. Where its mirror is asked, that is on the
/// connection of this number, the next one, whose lower end is accepted at the mirror's port.
pub fn join<I: LinkIn, O: LinkOut, R: Roads<Inward = I, Outward = O>, F: Files>(
    alloc: Global,
    roads: &mut R,
    book: &mut ReplicaBook<F>,
    node: NodeId,
    requested: Requested<I, O>,
    next: ConnId,
) -> Result<Joined<I, O>, MemberFault>
    requires { IsKnown (R.plain roads.old) requested.end.id.0 }
    ensures shows { JoinShows F.Files R.Roads I.LinkIn O.LinkOut
        node next requested book.old book.new roads.old roads.new result }
    ensures pass { RoadsPass R.Roads roads.old roads.new }
    ensures known { IfOk result (λ joined. IfSome joined.member (AreKnown (R.plain roads.new))) }
    ensures reached { IfOk result (λ joined. ReachedIsKnown (R.plain roads.new) joined.mirror) }
{
    let _kept = book.replica();
    let port = mirror_port(&requested.op);
    let Ok(mut member) = Member::new(alloc, node, requested.end, requested.op) else {
        return Err(MemberFault::Memory);
    };
    let stepped = member.set_up(alloc, book, roads);
    if roads.risen(next) {
        return Err(lost(alloc, roads, member));
    }
    let left = placed(alloc, roads, member, stepped)?;
    meet(alloc, roads, port, left)
}

/// The port of the mirror that a request names, if it names one and its port is one.
fn mirror_port(op: &WriteOp) -> Option<u16>
    ensures { IsMirrorPort op.now.targets result }
{
    match op.targets.as_slice() {
        [mirror, ..] if mirror.xfer <= MAX_PORT => Some(mirror.xfer as u16),
        _ => None,
    }
}

/// Meets the mirror of a member that goes on, where it was asked.
fn meet<I: LinkIn, O: LinkOut, R: Roads<Inward = I, Outward = O>>(
    alloc: Global,
    roads: &mut R,
    port: Option<u16>,
    left: Option<Member<I, O>>,
) -> Result<Joined<I, O>, MemberFault>
    ensures ends { Meets R.Roads I.LinkIn O.LinkOut port left roads.old roads.new result }
    ensures pass { RoadsPass R.Roads roads.old roads.new }
{
    match (left, port) {
        (Some(member), Some(port)) => match member.mirror_conn() {
            Some(_) => accepted(alloc, roads, port, member),
            None => Ok(Joined {
                member: Some(member),
                mirror: MirrorDial::Unanswered,
            }),
        },
        (member, _) => Ok(Joined {
            member,
            mirror: MirrorDial::NotDialled,
        }),
    }
}

/// A member, and the lower end of the connection to its mirror, which is accepted at this port.
fn accepted<I: LinkIn, O: LinkOut, R: Roads<Inward = I, Outward = O>>(
    alloc: Global,
    roads: &mut R,
    port: u16,
    member: Member<I, O>,
) -> Result<Joined<I, O>, MemberFault>
    ensures ends { Accepts R.Roads I.LinkIn O.LinkOut port member roads.old roads.new result }
    ensures pass { RoadsPass R.Roads roads.old roads.new }
{
    match roads.accept(alloc, port) {
        Ok(Some(end)) => Ok(Joined {
            member: Some(member),
            mirror: MirrorDial::Reached(end),
        }),
        Ok(None) => Err(MemberFault::RoadsFailed),
        Err(error) => Err(road_fault(error)),
    }
}
