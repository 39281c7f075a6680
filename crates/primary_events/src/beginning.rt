//! How a primary begins.

ghost use Rattle.std.specs.Prelude.{◌≡◌, length, All, IfOk, Ok};
ghost use Rattle.block_recovery.specs.Dialling.{LinkIsKnown};
ghost use Rattle.client_events.specs.MemberEvents.Roads.{RoadsPass};
ghost use Rattle.primary_events.specs.Beginning.{
  BeginsBy,
  AcceptsAt,
  AcceptsAll,
  Meets,
  GoesOut,
  GoesOutBehind,
  BeginShows,
  LowerIsKnown,
  BegunIsKnown,
};

use crate::faults::{PrimaryFault, road_fault};
use crate::leading::led_as;
use crate::updating::flushed;
use block_recovery::{Primary, PrimaryStep};
use hd_base::{Conn, LinkIn, LinkOut, Roads};
use name_core::Desk;
use recovery_core::Recovered;
use std::alloc::Global;
use world_primaries::{primaries_ask, primaries_begin};

/// How a primary began.
#[derive(Drop)]
pub enum PrimaryBegun<I, O> {
    /// It leads. The lower end of the connection to each member whose dial was answered, in the members' order.
    Leads(Vec<Option<Conn<I, O>>>),
    /// The office refused, and the recovery has ended so.
    Ended(Recovered),
}

/// A new primary asks the office to begin, dials each member, sends those that answered the INIT, and takes the lower
/// ends of their connections, each at its member's port. Where the office refuses, the recovery has ended. Where a link
/// fails on which the INIT is sent, its end is brought back, and the beginning ends with that fault.
pub fn begin<I: LinkIn, O: LinkOut, D: Desk, R: Roads<Inward = I, Outward = O>>(
    alloc: Global,
    office: &mut D,
    roads: &mut R,
    primary: &mut Primary<I, O>,
) -> Result<PrimaryBegun<I, O>, PrimaryFault>
    requires count { length primary.old.links.items ≡ length primary.old.members }
    requires known { All (LinkIsKnown (R.plain roads.old)) primary.old.links.items }
    ensures shows { BeginShows D.Desk R.Roads I.LinkIn O.LinkOut primary.old primary.new office.old office.new
        roads.old roads.new result }
    ensures same { (primary.new.block ≡ primary.old.block) × (primary.new.members ≡ primary.old.members) }
    ensures count { length primary.new.links.items ≡ length primary.new.members }
    ensures pass { RoadsPass R.Roads roads.old roads.new }
    ensures known { All (LinkIsKnown (R.plain roads.new)) primary.new.links.items }
    ensures lowers { IfOk result (BegunIsKnown (R.plain roads.new)) }
{
    primaries_ask();
    primaries_begin();
    match started(alloc, office, roads, primary) {
        Ok(step) => gone_on(alloc, roads, primary, step),
        Err(why) => Err(why),
    }
}

/// The first step alone.
fn started<I: LinkIn, O: LinkOut, D: Desk, R: Roads<Inward = I, Outward = O>>(
    alloc: Global,
    office: &mut D,
    roads: &mut R,
    primary: &mut Primary<I, O>,
) -> Result<PrimaryStep, PrimaryFault>
    requires count { length primary.old.links.items ≡ length primary.old.members }
    requires known { All (LinkIsKnown (R.plain roads.old)) primary.old.links.items }
    ensures begins { BeginsBy D.Desk R.Roads I.LinkIn O.LinkOut primary.old primary.new office.old office.new
        roads.old roads.new result }
    ensures same { (primary.new.block ≡ primary.old.block) × (primary.new.members ≡ primary.old.members) }
    ensures count { length primary.new.links.items ≡ length primary.new.members }
    ensures pass { RoadsPass R.Roads roads.old roads.new }
    ensures known { All (LinkIsKnown (R.plain roads.new)) primary.new.links.items }
{
    let step = primary.begin(alloc, office, roads);
    led_as(step, primary.has_lost_any())
}

/// Behind the first step, where the recovery has not ended, all ends are exchanged, and the lower ones are taken.
fn gone_on<I: LinkIn, O: LinkOut, R: Roads<Inward = I, Outward = O>>(
    alloc: Global,
    roads: &mut R,
    primary: &mut Primary<I, O>,
    step: PrimaryStep,
) -> Result<PrimaryBegun<I, O>, PrimaryFault>
    requires { All (LinkIsKnown (R.plain roads.old)) primary.old.links.items }
    ensures goes { GoesOutBehind R.Roads I.LinkIn O.LinkOut (Ok step) primary.old primary.new
        roads.old roads.new result }
    ensures same { (primary.new.block ≡ primary.old.block) × (primary.new.members ≡ primary.old.members) }
    ensures count { length primary.new.links.items ≡ length primary.old.links.items }
    ensures pass { RoadsPass R.Roads roads.old roads.new }
    ensures known { All (LinkIsKnown (R.plain roads.new)) primary.new.links.items }
    ensures lowers { IfOk result (BegunIsKnown (R.plain roads.new)) }
{
    match step {
        PrimaryStep::Ended(end) => Ok(PrimaryBegun::Ended(end)),
        PrimaryStep::Moved | PrimaryStep::Waiting => gone_out(alloc, roads, primary),
    }
}

/// Exchanges all ends, and takes the lower ones.
fn gone_out<I: LinkIn, O: LinkOut, R: Roads<Inward = I, Outward = O>>(
    alloc: Global,
    roads: &mut R,
    primary: &mut Primary<I, O>,
) -> Result<PrimaryBegun<I, O>, PrimaryFault>
    requires { All (LinkIsKnown (R.plain roads.old)) primary.old.links.items }
    ensures goes { GoesOut R.Roads I.LinkIn O.LinkOut primary.old primary.new roads.old roads.new result }
    ensures same { (primary.new.block ≡ primary.old.block) × (primary.new.members ≡ primary.old.members) }
    ensures count { length primary.new.links.items ≡ length primary.old.links.items }
    ensures pass { RoadsPass R.Roads roads.old roads.new }
    ensures known { All (LinkIsKnown (R.plain roads.new)) primary.new.links.items }
    ensures lowers { IfOk result (BegunIsKnown (R.plain roads.new)) }
{
    match flushed(alloc, roads, primary, &[]) {
        Ok(_) => met(alloc, roads, primary),
        Err(why) => Err(why),
    }
}

/// Takes the lower ends of the connections.
fn met<I: LinkIn, O: LinkOut, R: Roads<Inward = I, Outward = O>>(
    alloc: Global,
    roads: &mut R,
    primary: &Primary<I, O>,
) -> Result<PrimaryBegun<I, O>, PrimaryFault>
    ensures meets { Meets R.Roads I.LinkIn O.LinkOut primary.now roads.old roads.new result }
    ensures pass { RoadsPass R.Roads roads.old roads.new }
    ensures lowers { IfOk result (BegunIsKnown (R.plain roads.new)) }
{
    match primary.ports(alloc) {
        Ok(ports) => match accept_all(alloc, roads, ports.as_slice()) {
            Ok(lowers) => Ok(PrimaryBegun::Leads(lowers)),
            Err(why) => Err(why),
        },
        Err(_) => Err(PrimaryFault::Memory),
    }
}

/// Accepts a dial at each of these ports, in order.
fn accept_all<R: Roads>(
    alloc: Global,
    roads: &mut R,
    ports: &[Option<u16>],
) -> Result<Vec<Option<Conn<R::Inward, R::Outward>>>, PrimaryFault>
    ensures accepts { AcceptsAll R.Roads R.Inward.LinkIn R.Outward.LinkOut ports.now roads.old roads.new
        result }
    ensures pass { RoadsPass R.Roads roads.old roads.new }
    ensures known { IfOk result (λ lowers. All (LowerIsKnown (R.plain roads.new)) lowers.items) }
{
    let mut lowers = Vec::new(alloc);
    for place in 0..ports.len() {
        match accept_at(alloc, roads, ports[place]) {
            Ok(lower) => match lowers.push(lower) {
                Ok(()) => {}
                Err(_) => return Err(PrimaryFault::Memory),
            },
            Err(why) => return Err(why),
        }
    }
    Ok(lowers)
}

/// Accepts a dial at this port, if there is one.
fn accept_at<R: Roads>(
    alloc: Global,
    roads: &mut R,
    port: Option<u16>,
) -> Result<Option<Conn<R::Inward, R::Outward>>, PrimaryFault>
    ensures accepts { AcceptsAt R.Roads R.Inward.LinkIn R.Outward.LinkOut port roads.old roads.new result }
    ensures pass { RoadsPass R.Roads roads.old roads.new }
    ensures known { IfOk result (LowerIsKnown (R.plain roads.new)) }
{
    let Some(port) = port else {
        return Ok(None);
    };
    match roads.accept(alloc, port) {
        Ok(Some(lower)) => Ok(Some(lower)),
        Ok(None) => Err(PrimaryFault::RoadsFailed),
        Err(error) => Err(road_fault(error)),
    }
}
