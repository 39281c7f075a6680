//! A step of the serving of a read, and what follows it.

ghost use Rattle.std.specs.Prelude.{◌≡◌, false, IfOk};
ghost use Rattle.hd_base.specs.Ends.{IsKnown};
ghost use Rattle.visible_read.specs.Servings.{is_over};
ghost use Rattle.member_events.specs.Roads.{RoadsPass};
ghost use Rattle.serving_events.specs.Steps.{
  IsExchanged,
  IsBrought,
  IsClosed,
  IsLost,
  PlacesOpen,
  PlacesShut,
  IsPlaced,
  StepsRead,
  LeftIsKnown,
};

use crate::faults::{ServeFault, road_fault};
use hd_base::{Conn, ConnId, Files, LinkIn, LinkOut, Roads};
use link_pieces::exchange_end;
use member_events::ReplicaBook;
use std::alloc::Global;
use visible_read::{Served, Serving};

/// A read that a node serves, and the lower end of its connection.
#[derive(Drop)]
pub struct ServedRead<I, O> {
    pub end: Conn<I, O>,
    pub serving: Serving,
}

/// What became of the serving of a read in an event that calls the book of its replica.
#[derive(Drop)]
pub enum Outcome<I, O> {
    /// It goes on.
    Serves(ServedRead<I, O>),
    /// It has ended; the end was shut and brought back.
    Ended,
    /// The call on the replica's files failed, and the drawer's count rose; the end was shut and brought back.
    Faulted,
}

/// A read after a step: how its serving ended, where it did, and whether the replica broke in it.
#[derive(Drop)]
pub(crate) struct Stepped<I, O> {
    pub read: ServedRead<I, O>,
    pub served: Option<Served>,
    pub breaks: bool,
}

/// Answers a request, or sends the next packet.
pub(crate) fn step<I: LinkIn, O: LinkOut, F: Files>(
    alloc: Global,
    book: &mut ReplicaBook<F>,
    read: ServedRead<I, O>,
) -> Stepped<I, O>
    requires { is_over read.serving.course ≡ false }
    ensures { StepsRead F.Files O.LinkOut read book.old book.new result }
{
    let ServedRead {
        mut end,
        mut serving,
    } = read;
    let was_broken = book.replica().is_broken();
    let served = serving.step(alloc, book, &mut end.outward);
    let is_broken = book.replica().is_broken();
    Stepped {
        read: ServedRead { end, serving },
        served,
        breaks: is_broken && !was_broken,
    }
}

/// An end that was exchanged, and took what stood next where `take` names its connection.
pub(crate) fn exchanged<I: LinkIn, O: LinkOut, R: Roads<Inward = I, Outward = O>>(
    alloc: Global,
    roads: &mut R,
    end: Conn<I, O>,
    take: Option<ConnId>,
) -> Result<Conn<I, O>, ServeFault>
    requires { IsKnown (R.plain roads.old) end.id.0 }
    ensures ends { IsExchanged R.Roads I.LinkIn O.LinkOut take end roads.old roads.new result }
    ensures pass { RoadsPass R.Roads roads.old roads.new }
    ensures known { IfOk result (λ new. IsKnown (R.plain roads.new) new.id.0) }
{
    let mut end = end;
    match exchange_end(alloc, roads, &mut end, take) {
        Ok(()) => Ok(end),
        Err(error) => Err(road_fault(error)),
    }
}

/// Brings an end back.
fn brought<I: LinkIn, O: LinkOut, R: Roads<Inward = I, Outward = O>>(
    alloc: Global,
    roads: &mut R,
    end: Conn<I, O>,
) -> Result<(), ServeFault>
    requires { IsKnown (R.plain roads.old) end.id.0 }
    ensures ends { IsBrought R.Roads I.LinkIn O.LinkOut end roads.old roads.new result }
    ensures pass { RoadsPass R.Roads roads.old roads.new }
{
    match roads.bring(alloc, end) {
        Ok(()) => Ok(()),
        Err(_) => Err(ServeFault::Memory),
    }
}

/// Shuts an end, and brings it back.
pub(crate) fn closed<I: LinkIn, O: LinkOut, R: Roads<Inward = I, Outward = O>>(
    alloc: Global,
    roads: &mut R,
    end: Conn<I, O>,
) -> Result<(), ServeFault>
    requires { IsKnown (R.plain roads.old) end.id.0 }
    ensures ends { IsClosed R.Roads I.LinkIn O.LinkOut end roads.old roads.new result }
    ensures pass { RoadsPass R.Roads roads.old roads.new }
{
    let mut end = end;
    end.outward.shut();
    match brought(alloc, roads, end) {
        Ok(()) => Ok(()),
        Err(fault) => Err(fault),
    }
}

/// Brings an end back whose link failed.
fn lost<I: LinkIn, O: LinkOut, R: Roads<Inward = I, Outward = O>>(
    alloc: Global,
    roads: &mut R,
    end: Conn<I, O>,
) -> ServeFault
    requires { IsKnown (R.plain roads.old) end.id.0 }
    ensures ends { IsLost R.Roads I.LinkIn O.LinkOut end roads.old roads.new result }
    ensures pass { RoadsPass R.Roads roads.old roads.new }
{
    match brought(alloc, roads, end) {
        Ok(()) => ServeFault::LinkFailed,
        Err(_) => ServeFault::Memory,
    }
}

/// A read that goes on, whose end is exchanged.
fn gone_on<I: LinkIn, O: LinkOut, R: Roads<Inward = I, Outward = O>>(
    alloc: Global,
    roads: &mut R,
    read: ServedRead<I, O>,
) -> Result<Outcome<I, O>, ServeFault>
    requires { IsKnown (R.plain roads.old) read.end.id.0 }
    ensures ends { PlacesOpen R.Roads I.LinkIn O.LinkOut read roads.old roads.new result }
    ensures pass { RoadsPass R.Roads roads.old roads.new }
    ensures known { LeftIsKnown (R.plain roads.new) result }
{
    let ServedRead { end, serving } = read;
    match exchanged(alloc, roads, end, None) {
        Ok(end) => Ok(Outcome::Serves(ServedRead { end, serving })),
        Err(fault) => Err(fault),
    }
}

/// A read that has ended, in a step in which the replica broke or not: its end is shut and brought back.
fn ended<I: LinkIn, O: LinkOut, R: Roads<Inward = I, Outward = O>>(
    alloc: Global,
    roads: &mut R,
    end: Conn<I, O>,
    breaks: bool,
) -> Result<Outcome<I, O>, ServeFault>
    requires { IsKnown (R.plain roads.old) end.id.0 }
    ensures ends { PlacesShut R.Roads I.LinkIn O.LinkOut breaks end roads.old roads.new result }
    ensures pass { RoadsPass R.Roads roads.old roads.new }
{
    match closed(alloc, roads, end) {
        Ok(()) if breaks => Ok(Outcome::Faulted),
        Ok(()) => Ok(Outcome::Ended),
        Err(fault) => Err(fault),
    }
}

/// What follows a step: the end of a read that goes on is exchanged, and that of one that has ended is brought back.
pub(crate) fn placed<I: LinkIn, O: LinkOut, R: Roads<Inward = I, Outward = O>>(
    alloc: Global,
    roads: &mut R,
    stepped: Stepped<I, O>,
) -> Result<Outcome<I, O>, ServeFault>
    requires { IsKnown (R.plain roads.old) stepped.read.end.id.0 }
    ensures ends { IsPlaced R.Roads I.LinkIn O.LinkOut stepped.served stepped roads.old roads.new result }
    ensures pass { RoadsPass R.Roads roads.old roads.new }
    ensures known { LeftIsKnown (R.plain roads.new) result }
{
    let Stepped {
        read,
        served,
        breaks,
    } = stepped;
    match served {
        None | Some(Served::Sent { .. }) => gone_on(alloc, roads, read),
        Some(Served::Pool | Served::Refused(_) | Served::File) => {
            ended(alloc, roads, read.end, breaks)
        }
        Some(Served::LinkFailed) => Err(lost(alloc, roads, read.end)),
        Some(Served::Memory) => Err(ServeFault::Memory),
    }
}
