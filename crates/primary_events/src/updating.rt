//! What follows a primary's own step that sent the UPDATE.

ghost use Rattle.std.specs.Prelude.{◌≡◌, length, All};
ghost use Rattle.std.specs.List.{list_any};
ghost use Rattle.block_recovery.specs.Dialling.{LinkIsKnown};
ghost use Rattle.client_events.specs.MemberEvents.Roads.{RoadsPass};
ghost use Rattle.primary_events.specs.Updating.{is_risen, Retires, Flushes, FollowsStep};

use crate::faults::{PrimaryFault, road_fault};
use block_recovery::{Primary, PrimaryStep};
use hd_base::{ConnId, LinkIn, LinkOut, Roads};
use std::alloc::Global;

/// Behind a step that sent the UPDATE all ends of the primary's connections are exchanged. These are the connections
/// that it had before the step.
pub(crate) fn followed<I: LinkIn, O: LinkOut, R: Roads<Inward = I, Outward = O>>(
    alloc: Global,
    roads: &mut R,
    primary: &mut Primary<I, O>,
    conns: &[Option<ConnId>],
    step: PrimaryStep,
) -> Result<PrimaryStep, PrimaryFault>
    requires { All (LinkIsKnown (R.plain roads.old)) primary.old.links.items }
    ensures follows { FollowsStep R.Roads I.LinkIn O.LinkOut conns.now step primary.old primary.new
        roads.old roads.new result }
    ensures same { (primary.new.block ≡ primary.old.block) × (primary.new.members ≡ primary.old.members) }
    ensures count { length primary.new.links.items ≡ length primary.old.links.items }
    ensures pass { RoadsPass R.Roads roads.old roads.new }
    ensures known { All (LinkIsKnown (R.plain roads.new)) primary.new.links.items }
{
    match step {
        PrimaryStep::Moved => flushed(alloc, roads, primary, conns),
        PrimaryStep::Waiting => Ok(PrimaryStep::Waiting),
        PrimaryStep::Ended(recovered) => Ok(PrimaryStep::Ended(recovered)),
    }
}

/// Exchanges all ends, where no link failed on which the UPDATE was sent.
pub(crate) fn flushed<I: LinkIn, O: LinkOut, R: Roads<Inward = I, Outward = O>>(
    alloc: Global,
    roads: &mut R,
    primary: &mut Primary<I, O>,
    conns: &[Option<ConnId>],
) -> Result<PrimaryStep, PrimaryFault>
    requires { All (LinkIsKnown (R.plain roads.old)) primary.old.links.items }
    ensures flushes { Flushes R.Roads I.LinkIn O.LinkOut conns.now primary.old primary.new
        roads.old roads.new result }
    ensures same { (primary.new.block ≡ primary.old.block) × (primary.new.members ≡ primary.old.members) }
    ensures count { length primary.new.links.items ≡ length primary.old.links.items }
    ensures pass { RoadsPass R.Roads roads.old roads.new }
    ensures known { All (LinkIsKnown (R.plain roads.new)) primary.new.links.items }
{
    if primary.has_failed_any() {
        return Err(retired(alloc, roads, primary));
    }
    if has_risen(roads, conns) {
        return Err(PrimaryFault::LinkFailed);
    }
    match primary.exchange(alloc, roads, None) {
        Ok(()) => Ok(PrimaryStep::Moved),
        Err(error) => Err(road_fault(error)),
    }
}

/// Brings all ends back, since a link failed.
fn retired<I: LinkIn, O: LinkOut, R: Roads<Inward = I, Outward = O>>(
    alloc: Global,
    roads: &mut R,
    primary: &mut Primary<I, O>,
) -> PrimaryFault
    requires { All (LinkIsKnown (R.plain roads.old)) primary.old.links.items }
    ensures retires { Retires R.Roads I.LinkIn O.LinkOut primary.old primary.new roads.old roads.new result }
    ensures same { (primary.new.block ≡ primary.old.block) × (primary.new.members ≡ primary.old.members) }
    ensures count { length primary.new.links.items ≡ length primary.old.links.items }
    ensures pass { RoadsPass R.Roads roads.old roads.new }
    ensures known { All (LinkIsKnown (R.plain roads.new)) primary.new.links.items }
{
    primary.bring_back(alloc, roads);
    if primary.has_lost_any() {
        PrimaryFault::Memory
    } else {
        PrimaryFault::LinkFailed
    }
}

/// Whether an end of one of these connections was brought back with a count that had risen.
fn has_risen<R: Roads>(roads: &R, conns: &[Option<ConnId>]) -> bool
    ensures { result ≡ list_any (is_risen (R.risen roads.now)) conns.now }
{
    conns.iter().any(|conn| is_risen(roads, *conn))
}

/// Whether an end of this connection, if there is one, was.
fn is_risen<R: Roads>(roads: &R, conn: Option<ConnId>) -> bool
    ensures { result ≡ is_risen (R.risen roads.now) conn }
{
    match conn {
        Some(conn) => roads.risen(conn),
        None => false,
    }
}
