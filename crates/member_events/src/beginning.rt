//! An end that has taken nothing yet takes its first message: a request of any kind, or one to write.

ghost use Rattle.std.specs.Prelude.{IfOk, IfSome};
ghost use Rattle.hd_base.specs.Ends.{IsKnown};
ghost use Rattle.member_events.specs.Roads.{RoadsPass};
ghost use Rattle.member_events.specs.Beginning.{
  IsDrawn,
  IsBrought,
  IsBroken,
  IsClosed,
  LooksFirst,
  FollowsFirst,
  FollowsRequest,
  FirstShows,
  BeginShows,
};

use crate::faults::{MemberFault, road_fault};
use hd_base::{Conn, LinkIn, LinkOut, Roads};
use link_pieces::exchange_end;
use op_headers::{Op, WriteOp};
use pipe_member::{Incoming, Next};
use std::alloc::Global;

/// A request, and the end that has taken it.
#[derive(Drop)]
pub struct FirstRequest<I, O> {
    pub end: Conn<I, O>,
    pub op: Op,
}

/// A request to write, and the end that has taken it.
#[derive(Drop)]
pub struct Requested<I, O> {
    pub end: Conn<I, O>,
    pub op: WriteOp,
}

/// An end that has taken nothing yet takes what stands next. A request is handed over with the end; where anything else
/// comes, the end is shut and brought back.
pub fn first_request<I: LinkIn, O: LinkOut, R: Roads<Inward = I, Outward = O>>(
    alloc: Global,
    roads: &mut R,
    end: Conn<I, O>,
) -> Result<Option<FirstRequest<I, O>>, MemberFault>
    requires { IsKnown (R.plain roads.old) end.id.0 }
    ensures shows { FirstShows R.Roads I.LinkIn O.LinkOut end roads.old roads.new result }
    ensures pass { RoadsPass R.Roads roads.old roads.new }
    ensures known { IfOk result (λ made. IfSome made (λ new. IsKnown (R.plain roads.new) new.end.id.0)) }
{
    let mut end = drawn(alloc, roads, end)?;
    let next = first(alloc, &mut end);
    follow(alloc, roads, end, next)
}

/// An end that has taken nothing yet takes what stands next. A request to write is handed over with the end; where
/// anything else comes, the end is shut and brought back.
pub fn begin<I: LinkIn, O: LinkOut, R: Roads<Inward = I, Outward = O>>(
    alloc: Global,
    roads: &mut R,
    end: Conn<I, O>,
) -> Result<Option<Requested<I, O>>, MemberFault>
    requires { IsKnown (R.plain roads.old) end.id.0 }
    ensures shows { BeginShows R.Roads I.LinkIn O.LinkOut end roads.old roads.new result }
    ensures pass { RoadsPass R.Roads roads.old roads.new }
    ensures known { IfOk result (λ made. IfSome made (λ new. IsKnown (R.plain roads.new) new.end.id.0)) }
{
    match first_request(alloc, roads, end)? {
        Some(taken) => write_request(alloc, roads, taken),
        None => Ok(None),
    }
}

/// A request to write, and the end that has taken it. At another request the end is shut and brought back.
fn write_request<I: LinkIn, O: LinkOut, R: Roads<Inward = I, Outward = O>>(
    alloc: Global,
    roads: &mut R,
    taken: FirstRequest<I, O>,
) -> Result<Option<Requested<I, O>>, MemberFault>
    requires { IsKnown (R.plain roads.old) taken.end.id.0 }
    ensures ends { FollowsRequest R.Roads I.LinkIn O.LinkOut taken.op taken.end roads.old roads.new result }
    ensures pass { RoadsPass R.Roads roads.old roads.new }
    ensures known { IfOk result (λ made. IfSome made (λ new. IsKnown (R.plain roads.new) new.end.id.0)) }
{
    let end = taken.end;
    match taken.op {
        Op::Write(op) => Ok(Some(Requested { end, op })),
        Op::Read(_) | Op::Transfer(_) | Op::Checksum(_) | Op::Recovery(_) => {
            closed(alloc, roads, end)?;
            Ok(None)
        }
    }
}

/// The first message that an end holds.
fn first<I: LinkIn, O: LinkOut>(alloc: Global, end: &mut Conn<I, O>) -> Next<Op>
    ensures { LooksFirst I.LinkIn end.old end.new result }
{
    match Incoming::new(alloc) {
        Ok(mut incoming) => incoming.next(&mut end.inward),
        Err(_) => Next::Memory,
    }
}

/// What follows what an end has taken first.
fn follow<I: LinkIn, O: LinkOut, R: Roads<Inward = I, Outward = O>>(
    alloc: Global,
    roads: &mut R,
    end: Conn<I, O>,
    next: Next<Op>,
) -> Result<Option<FirstRequest<I, O>>, MemberFault>
    requires { IsKnown (R.plain roads.old) end.id.0 }
    ensures ends { FollowsFirst R.Roads I.LinkIn O.LinkOut next end roads.old roads.new result }
    ensures pass { RoadsPass R.Roads roads.old roads.new }
{
    match next {
        Next::Message(op) => Ok(Some(FirstRequest { end, op })),
        Next::Failed => Err(broken(alloc, roads, end)),
        Next::Memory => Err(MemberFault::Memory),
        Next::Unreadable | Next::End | Next::NotYet => {
            closed(alloc, roads, end)?;
            Ok(None)
        }
    }
}

/// An end that was exchanged, and took what stood next.
fn drawn<I: LinkIn, O: LinkOut, R: Roads<Inward = I, Outward = O>>(
    alloc: Global,
    roads: &mut R,
    end: Conn<I, O>,
) -> Result<Conn<I, O>, MemberFault>
    requires { IsKnown (R.plain roads.old) end.id.0 }
    ensures ends { IsDrawn R.Roads I.LinkIn O.LinkOut end roads.old roads.new result }
    ensures pass { RoadsPass R.Roads roads.old roads.new }
{
    let mut end = end;
    let conn = end.id;
    match exchange_end(alloc, roads, &mut end, Some(conn)) {
        Ok(()) => Ok(end),
        Err(error) => Err(road_fault(error)),
    }
}

/// Brings an end back.
fn brought<I: LinkIn, O: LinkOut, R: Roads<Inward = I, Outward = O>>(
    alloc: Global,
    roads: &mut R,
    end: Conn<I, O>,
) -> Result<(), MemberFault>
    requires { IsKnown (R.plain roads.old) end.id.0 }
    ensures ends { IsBrought R.Roads I.LinkIn O.LinkOut end roads.old roads.new result }
    ensures pass { RoadsPass R.Roads roads.old roads.new }
{
    match roads.bring(alloc, end) {
        Ok(()) => Ok(()),
        Err(_) => Err(MemberFault::Memory),
    }
}

/// Brings an end back that has failed.
fn broken<I: LinkIn, O: LinkOut, R: Roads<Inward = I, Outward = O>>(
    alloc: Global,
    roads: &mut R,
    end: Conn<I, O>,
) -> MemberFault
    requires { IsKnown (R.plain roads.old) end.id.0 }
    ensures ends { IsBroken R.Roads I.LinkIn O.LinkOut end roads.old roads.new result }
    ensures pass { RoadsPass R.Roads roads.old roads.new }
{
    match brought(alloc, roads, end) {
        Ok(()) => MemberFault::LinkFailed,
        Err(_) => MemberFault::Memory,
    }
}

/// Shuts an end, and brings it back.
fn closed<I: LinkIn, O: LinkOut, R: Roads<Inward = I, Outward = O>>(
    alloc: Global,
    roads: &mut R,
    end: Conn<I, O>,
) -> Result<(), MemberFault>
    requires { IsKnown (R.plain roads.old) end.id.0 }
    ensures ends { IsClosed R.Roads I.LinkIn O.LinkOut end roads.old roads.new result }
    ensures pass { RoadsPass R.Roads roads.old roads.new }
{
    let mut end = end;
    end.outward.shut();
    brought(alloc, roads, end)
}
