//! A primary's own step.

ghost use Rattle.std.specs.Prelude.{◌≡◌, length, All};
ghost use Rattle.block_recovery.specs.Dialling.{LinkIsKnown};
ghost use Rattle.client_events.specs.MemberEvents.Roads.{RoadsPass};
ghost use Rattle.primary_events.specs.Leading.{led_as, IsWanting, StepsBy, LeadsBy, LeadShows};

use crate::faults::PrimaryFault;
use crate::updating::followed;
use block_recovery::{Primary, PrimaryStep};
use hd_base::{ConnId, LinkIn, LinkOut, Roads};
use name_core::Desk;
use recovery_core::Recovered;
use std::alloc::Global;
use world_primaries::{primaries_ask, primaries_send, primaries_step};

/// A primary that has begun does its own step. It waits as long as an answer is awaited. Once every answer to the INIT
/// is in it sends the chosen members the UPDATE, and the ends of the connections of which nothing more is awaited are
/// shut and brought back; the others are exchanged. Once every answer to the UPDATE is in it ends the recovery, by the
/// office's answer where members were updated, and the ends of its connections are shut and brought back. Where a link
/// fails on which the UPDATE is sent, its end is brought back, and the step ends with that fault.
pub fn lead<I: LinkIn, O: LinkOut, D: Desk, R: Roads<Inward = I, Outward = O>>(
    alloc: Global,
    office: &mut D,
    roads: &mut R,
    primary: &mut Primary<I, O>,
) -> Result<PrimaryStep, PrimaryFault>
    requires count { length primary.old.links.items ≡ length primary.old.members }
    requires known { All (LinkIsKnown (R.plain roads.old)) primary.old.links.items }
    ensures shows { LeadShows D.Desk R.Roads I.LinkIn O.LinkOut primary.old primary.new office.old office.new
        roads.old roads.new result }
    ensures fails { IsWanting primary.old.core result }
    ensures same { (primary.new.block ≡ primary.old.block) × (primary.new.members ≡ primary.old.members) }
    ensures count { length primary.new.links.items ≡ length primary.new.members }
    ensures pass { RoadsPass R.Roads roads.old roads.new }
    ensures known { All (LinkIsKnown (R.plain roads.new)) primary.new.links.items }
{
    primaries_ask();
    primaries_step();
    primaries_send();
    match primary.conns(alloc) {
        Ok(conns) => led(alloc, office, roads, primary, conns.as_slice()),
        Err(_) => Err(PrimaryFault::Memory),
    }
}

/// The step, of a primary that has these connections, and what follows it.
fn led<I: LinkIn, O: LinkOut, D: Desk, R: Roads<Inward = I, Outward = O>>(
    alloc: Global,
    office: &mut D,
    roads: &mut R,
    primary: &mut Primary<I, O>,
    conns: &[Option<ConnId>],
) -> Result<PrimaryStep, PrimaryFault>
    requires count { length primary.old.links.items ≡ length primary.old.members }
    requires known { All (LinkIsKnown (R.plain roads.old)) primary.old.links.items }
    ensures leads { LeadsBy D.Desk R.Roads I.LinkIn O.LinkOut conns.now primary.old primary.new office.old office.new
        roads.old roads.new result }
    ensures same { (primary.new.block ≡ primary.old.block) × (primary.new.members ≡ primary.old.members) }
    ensures count { length primary.new.links.items ≡ length primary.new.members }
    ensures pass { RoadsPass R.Roads roads.old roads.new }
    ensures known { All (LinkIsKnown (R.plain roads.new)) primary.new.links.items }
{
    match stepped(alloc, office, roads, primary) {
        Ok(step) => followed(alloc, roads, primary, conns, step),
        Err(why) => Err(why),
    }
}

/// The step alone.
fn stepped<I: LinkIn, O: LinkOut, D: Desk, R: Roads<Inward = I, Outward = O>>(
    alloc: Global,
    office: &mut D,
    roads: &mut R,
    primary: &mut Primary<I, O>,
) -> Result<PrimaryStep, PrimaryFault>
    requires count { length primary.old.links.items ≡ length primary.old.members }
    requires known { All (LinkIsKnown (R.plain roads.old)) primary.old.links.items }
    ensures steps { StepsBy D.Desk R.Roads I.LinkIn O.LinkOut primary.old primary.new office.old office.new
        roads.old roads.new result }
    ensures same { (primary.new.block ≡ primary.old.block) × (primary.new.members ≡ primary.old.members) }
    ensures count { length primary.new.links.items ≡ length primary.new.members }
    ensures pass { RoadsPass R.Roads roads.old roads.new }
    ensures known { All (LinkIsKnown (R.plain roads.new)) primary.new.links.items }
{
    let step = primary.lead_on(alloc, office, roads);
    led_as(step, primary.has_lost_any())
}

/// How the step ends, by what was done, and by whether the end of a connection is lost.
pub(crate) fn led_as(step: PrimaryStep, lost: bool) -> Result<PrimaryStep, PrimaryFault>
    ensures { result ≡ led_as step lost }
{
    if lost {
        return Err(PrimaryFault::Memory);
    }
    match step {
        PrimaryStep::Ended(Recovered::Memory) => Err(PrimaryFault::Memory),
        step => Ok(step),
    }
}
