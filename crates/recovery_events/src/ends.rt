//! An end that answers a primary is exchanged, or brought back.

ghost use Rattle.hd_base.specs.Ends.{IsKnown};
ghost use Rattle.member_events.specs.Roads.{RoadsPass};
ghost use Rattle.recovery_events.specs.Ends.{IsExchanged, IsBrought, IsBroken};

use crate::faults::{RecoveryFault, road_fault};
use hd_base::{Conn, ConnId, LinkIn, LinkOut, Roads};
use link_pieces::exchange_end;
use std::alloc::Global;

/// An end that was exchanged, and took what stood next where this names its connection.
pub(crate) fn exchanged<I: LinkIn, O: LinkOut, R: Roads<Inward = I, Outward = O>>(
    alloc: Global,
    roads: &mut R,
    end: Conn<I, O>,
    take: Option<ConnId>,
) -> Result<Conn<I, O>, RecoveryFault>
    requires { IsKnown (R.plain roads.old) end.id.0 }
    ensures ends { IsExchanged R.Roads I.LinkIn O.LinkOut take end roads.old roads.new result }
    ensures pass { RoadsPass R.Roads roads.old roads.new }
{
    let mut end = end;
    match exchange_end(alloc, roads, &mut end, take) {
        Ok(()) => Ok(end),
        Err(error) => Err(road_fault(error)),
    }
}

/// Brings an end back.
pub(crate) fn brought<I: LinkIn, O: LinkOut, R: Roads<Inward = I, Outward = O>>(
    alloc: Global,
    roads: &mut R,
    end: Conn<I, O>,
) -> Result<(), RecoveryFault>
    requires { IsKnown (R.plain roads.old) end.id.0 }
    ensures ends { IsBrought R.Roads I.LinkIn O.LinkOut end roads.old roads.new result }
    ensures pass { RoadsPass R.Roads roads.old roads.new }
{
    match roads.bring(alloc, end) {
        Ok(()) => Ok(()),
        Err(_) => Err(RecoveryFault::Memory),
    }
}

/// Brings an end back whose link has failed.
pub(crate) fn broken<I: LinkIn, O: LinkOut, R: Roads<Inward = I, Outward = O>>(
    alloc: Global,
    roads: &mut R,
    end: Conn<I, O>,
) -> RecoveryFault
    requires { IsKnown (R.plain roads.old) end.id.0 }
    ensures ends { IsBroken R.Roads I.LinkIn O.LinkOut end roads.old roads.new result }
    ensures pass { RoadsPass R.Roads roads.old roads.new }
{
    match brought(alloc, roads, end) {
        Ok(()) => RecoveryFault::LinkFailed,
        Err(_) => RecoveryFault::Memory,
    }
}
