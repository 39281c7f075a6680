//! What becomes of a writer's end in an event.

ghost use Rattle.hd_base.specs.Ends.{IsKnown};
ghost use Rattle.member_events.specs.Roads.{RoadsPass};
ghost use Rattle.client_events.specs.Steps.{IsExchanged, IsLost, IsKept, IsGivenBack, IsSettled};

use crate::faults::{ClientFault, road_fault};
use crate::pipes::Pipe;
use hd_base::{Conn, ConnId, LinkIn, LinkOut, Roads};
use link_pieces::exchange_end;
use pipe_recovery::Incoming;
use std::alloc::Global;

/// An end that was exchanged; it takes where it is named.
pub(crate) fn exchanged<I: LinkIn, O: LinkOut, R: Roads<Inward = I, Outward = O>>(
    alloc: Global,
    roads: &mut R,
    end: Conn<I, O>,
    take: Option<ConnId>,
) -> Result<Conn<I, O>, ClientFault>
    requires { IsKnown (R.plain roads.old) end.id.0 }
    ensures exchanges { IsExchanged R.Roads I.LinkIn O.LinkOut take end roads.old roads.new result }
    ensures passes { RoadsPass R.Roads roads.old roads.new }
{
    let mut end = end;
    match exchange_end(alloc, roads, &mut end, take) {
        Ok(()) => Ok(end),
        Err(error) => Err(road_fault(error)),
    }
}

/// Brings an end back whose link failed.
pub(crate) fn lost<I: LinkIn, O: LinkOut, R: Roads<Inward = I, Outward = O>>(
    alloc: Global,
    roads: &mut R,
    end: Conn<I, O>,
) -> ClientFault
    requires { IsKnown (R.plain roads.old) end.id.0 }
    ensures loses { IsLost R.Roads I.LinkIn O.LinkOut end roads.old roads.new result }
    ensures passes { RoadsPass R.Roads roads.old roads.new }
{
    match roads.bring(alloc, end) {
        Ok(()) => ClientFault::LinkFailed,
        Err(_) => ClientFault::Memory,
    }
}

/// What follows where a writer still has its connection, or doesn't: the end is exchanged and kept, or shut and brought
/// back.
pub(crate) fn settled<I: LinkIn, O: LinkOut, R: Roads<Inward = I, Outward = O>>(
    alloc: Global,
    roads: &mut R,
    connected: bool,
    end: Conn<I, O>,
    incoming: Incoming,
) -> Result<Pipe<I, O>, ClientFault>
    requires { IsKnown (R.plain roads.old) end.id.0 }
    ensures settles { IsSettled R.Roads I.LinkIn O.LinkOut connected end incoming roads.old roads.new result }
    ensures passes { RoadsPass R.Roads roads.old roads.new }
{
    if connected {
        kept(alloc, roads, end, incoming)
    } else {
        given_back(alloc, roads, end)
    }
}

/// Exchanges an end that is kept.
fn kept<I: LinkIn, O: LinkOut, R: Roads<Inward = I, Outward = O>>(
    alloc: Global,
    roads: &mut R,
    end: Conn<I, O>,
    incoming: Incoming,
) -> Result<Pipe<I, O>, ClientFault>
    requires { IsKnown (R.plain roads.old) end.id.0 }
    ensures keeps { IsKept R.Roads I.LinkIn O.LinkOut end incoming roads.old roads.new result }
    ensures passes { RoadsPass R.Roads roads.old roads.new }
{
    match exchanged(alloc, roads, end, None) {
        Ok(end) => Ok(Pipe::Streaming { end, incoming }),
        Err(fault) => Err(fault),
    }
}

/// Shuts an end, and brings it back.
fn given_back<I: LinkIn, O: LinkOut, R: Roads<Inward = I, Outward = O>>(
    alloc: Global,
    roads: &mut R,
    end: Conn<I, O>,
) -> Result<Pipe<I, O>, ClientFault>
    requires { IsKnown (R.plain roads.old) end.id.0 }
    ensures gives { IsGivenBack R.Roads I.LinkIn O.LinkOut end roads.old roads.new result }
    ensures passes { RoadsPass R.Roads roads.old roads.new }
{
    let mut end = end;
    end.outward.shut();
    match roads.bring(alloc, end) {
        Ok(()) => Ok(Pipe::Closed),
        Err(_) => Err(ClientFault::Memory),
    }
}
