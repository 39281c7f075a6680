//! What a primary takes from one of the members.

ghost use Rattle.std.specs.Prelude.{◌≡◌, length, All};
ghost use Rattle.block_recovery.specs.Dialling.{LinkIsKnown};
ghost use Rattle.client_events.specs.MemberEvents.Roads.{RoadsPass};
ghost use Rattle.primary_events.specs.Hearing.{heard_as, IsTaken, HearShows};

use crate::faults::{PrimaryFault, road_fault};
use block_recovery::{MemberHeard, Primary};
use hd_base::{LinkIn, LinkOut, Roads};
use std::alloc::Global;
use world_primaries::{primaries_hear, primaries_send};

/// A primary takes what stands next on its connection to the member at this place: the answer, or the end, and goes on.
/// Behind the answer to the UPDATE, or the end in its place, its end of the connection is shut and brought back.
pub fn hear<I: LinkIn, O: LinkOut, R: Roads<Inward = I, Outward = O>>(
    alloc: Global,
    roads: &mut R,
    primary: &mut Primary<I, O>,
    place: usize,
) -> Result<(), PrimaryFault>
    requires { All (LinkIsKnown (R.plain roads.old)) primary.old.links.items }
    ensures shows { HearShows R.Roads I.LinkIn O.LinkOut place primary.old primary.new roads.old roads.new result }
    ensures same { (primary.new.block ≡ primary.old.block) × (primary.new.members ≡ primary.old.members) }
    ensures count { length primary.new.links.items ≡ length primary.old.links.items }
    ensures pass { RoadsPass R.Roads roads.old roads.new }
    ensures known { All (LinkIsKnown (R.plain roads.new)) primary.new.links.items }
{
    primaries_hear();
    primaries_send();
    taken(alloc, roads, primary, place)?;
    let heard = primary.hear_from(alloc, roads, place);
    heard_as(&heard, primary.has_lost(place))
}

/// Takes what stands next on the connection to the member at this place.
fn taken<I: LinkIn, O: LinkOut, R: Roads<Inward = I, Outward = O>>(
    alloc: Global,
    roads: &mut R,
    primary: &mut Primary<I, O>,
    place: usize,
) -> Result<(), PrimaryFault>
    requires { All (LinkIsKnown (R.plain roads.old)) primary.old.links.items }
    ensures takes { IsTaken R.Roads I.LinkIn O.LinkOut place primary.old primary.new roads.old roads.new result }
    ensures same { (primary.new.block ≡ primary.old.block) × (primary.new.members ≡ primary.old.members) }
    ensures count { length primary.new.links.items ≡ length primary.old.links.items }
    ensures pass { RoadsPass R.Roads roads.old roads.new }
    ensures known { All (LinkIsKnown (R.plain roads.new)) primary.new.links.items }
{
    match primary.take_from(alloc, roads, place) {
        Ok(()) => Ok(()),
        Err(error) => Err(road_fault(error)),
    }
}

/// How the event ends, by what was heard, and by whether the end of the connection is lost.
fn heard_as(heard: &MemberHeard, lost: bool) -> Result<(), PrimaryFault>
    ensures { result ≡ heard_as heard.now lost }
{
    if lost {
        return Err(PrimaryFault::Memory);
    }
    match heard {
        MemberHeard::Taken | MemberHeard::Nothing => Ok(()),
        MemberHeard::LinkFailed => Err(PrimaryFault::LinkFailed),
        MemberHeard::Memory => Err(PrimaryFault::Memory),
    }
}
