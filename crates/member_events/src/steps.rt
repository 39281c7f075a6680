//! What follows a step of a member.

ghost use Rattle.std.specs.Prelude.{IfOk, IfSome};
ghost use Rattle.pipe_member.specs.Exchanges.{AreKnown};
ghost use Rattle.member_events.specs.Roads.{RoadsPass};
ghost use Rattle.member_events.specs.Steps.{IsExchanged, IsRetired, IsLost, IsPlaced, IsBroken, IsDowned, member_left};

use crate::faults::{MemberFault, road_fault};
use hd_base::{ConnId, LinkIn, LinkOut, Roads};
use pipe_member::{Member, Stepped};
use std::alloc::Global;

/// What an event leaves in which a member takes what stands next from above.
#[derive(Drop)]
pub enum Downed<I, O> {
    /// The event was done; the member is handed back, unless it has shut.
    Done(Option<Member<I, O>>),
    /// A call on the replica's files failed, and the drawer's count rose: the replica broke, and the member has shut.
    Broke,
}

/// A member whose ends were exchanged, with `take` for the one of this connection.
pub(crate) fn exchanged<I: LinkIn, O: LinkOut, R: Roads<Inward = I, Outward = O>>(
    alloc: Global,
    roads: &mut R,
    member: Member<I, O>,
    take: Option<ConnId>,
) -> Result<Member<I, O>, MemberFault>
    requires { AreKnown (R.plain roads.old) member }
    ensures ends { IsExchanged R.Roads I.LinkIn O.LinkOut take member roads.old roads.new result }
    ensures pass { RoadsPass R.Roads roads.old roads.new }
    ensures known { IfOk result (AreKnown (R.plain roads.new)) }
{
    let mut member = member;
    match member.exchange(alloc, roads, take) {
        Ok(()) => Ok(member),
        Err(error) => Err(road_fault(error)),
    }
}

/// Brings both ends of a member back that has shut.
pub(crate) fn retired<I: LinkIn, O: LinkOut, R: Roads<Inward = I, Outward = O>>(
    alloc: Global,
    roads: &mut R,
    member: Member<I, O>,
) -> Result<(), MemberFault>
    requires { AreKnown (R.plain roads.old) member }
    ensures ends { IsRetired R.Roads I.LinkIn O.LinkOut member roads.old roads.new result }
    ensures pass { RoadsPass R.Roads roads.old roads.new }
{
    match member.retire(alloc, roads) {
        Ok(()) => Ok(()),
        Err(_) => Err(MemberFault::Memory),
    }
}

/// Brings both ends of a member back of which a link failed.
pub(crate) fn lost<I: LinkIn, O: LinkOut, R: Roads<Inward = I, Outward = O>>(
    alloc: Global,
    roads: &mut R,
    member: Member<I, O>,
) -> MemberFault
    requires { AreKnown (R.plain roads.old) member }
    ensures ends { IsLost R.Roads I.LinkIn O.LinkOut member roads.old roads.new result }
    ensures pass { RoadsPass R.Roads roads.old roads.new }
{
    match retired(alloc, roads, member) {
        Ok(()) => MemberFault::LinkFailed,
        Err(_) => MemberFault::Memory,
    }
}

/// What follows a step that ended so: a member that goes on is exchanged and handed back, one that has shut, or of which a
/// link failed, is brought back.
pub(crate) fn placed<I: LinkIn, O: LinkOut, R: Roads<Inward = I, Outward = O>>(
    alloc: Global,
    roads: &mut R,
    member: Member<I, O>,
    stepped: Stepped,
) -> Result<Option<Member<I, O>>, MemberFault>
    requires { AreKnown (R.plain roads.old) member }
    ensures ends { IsPlaced R.Roads I.LinkIn O.LinkOut stepped member roads.old roads.new result }
    ensures pass { RoadsPass R.Roads roads.old roads.new }
    ensures known { IfOk result (λ left. IfSome left (AreKnown (R.plain roads.new))) }
{
    match stepped {
        Stepped::LinkFailed { .. } => Err(lost(alloc, roads, member)),
        Stepped::File(_) => Err(MemberFault::FilesFailed),
        Stepped::Memory => Err(MemberFault::Memory),
        Stepped::Shut { .. } => match retired(alloc, roads, member) {
            Ok(()) => Ok(None),
            Err(fault) => Err(fault),
        },
        Stepped::Moved { .. } | Stepped::NotReady => {
            match exchanged(alloc, roads, member, None) {
                Ok(member) => Ok(Some(member)),
                Err(fault) => Err(fault),
            }
        }
    }
}

/// Brings both ends of a member back whose replica broke. Where the link from above has failed too, that is the fault.
fn broken<I: LinkIn, O: LinkOut, R: Roads<Inward = I, Outward = O>>(
    alloc: Global,
    roads: &mut R,
    member: Member<I, O>,
) -> Result<Downed<I, O>, MemberFault>
    requires { AreKnown (R.plain roads.old) member }
    ensures ends { IsBroken R.Roads I.LinkIn O.LinkOut member roads.old roads.new result }
    ensures pass { RoadsPass R.Roads roads.old roads.new }
    ensures known { IfOk result (λ left. IfSome (member_left left) (AreKnown (R.plain roads.new))) }
{
    let conn = member.conn();
    match retired(alloc, roads, member) {
        Ok(()) => {
            if roads.risen(conn) {
                Err(MemberFault::LinkFailed)
            } else {
                Ok(Downed::Broke)
            }
        }
        Err(fault) => Err(fault),
    }
}

/// What follows a step that ended so, in which a member has taken what stood next from above: the same as of any other step,
/// but a member whose replica broke is brought back.
pub(crate) fn placed_down<I: LinkIn, O: LinkOut, R: Roads<Inward = I, Outward = O>>(
    alloc: Global,
    roads: &mut R,
    member: Member<I, O>,
    stepped: Stepped,
) -> Result<Downed<I, O>, MemberFault>
    requires { AreKnown (R.plain roads.old) member }
    ensures ends { IsDowned R.Roads I.LinkIn O.LinkOut stepped member roads.old roads.new result }
    ensures pass { RoadsPass R.Roads roads.old roads.new }
    ensures known { IfOk result (λ left. IfSome (member_left left) (AreKnown (R.plain roads.new))) }
{
    match stepped {
        Stepped::File(_) => broken(alloc, roads, member),
        _ => {
            match placed(alloc, roads, member, stepped) {
                Ok(left) => Ok(Downed::Done(left)),
                Err(fault) => Err(fault),
            }
        }
    }
}
