//! Laws of the primaries of a world.

ghost use Rattle.world_primaries.specs.Drawn.{PrimariesAsk, PrimariesBegin, PrimariesHear, PrimariesStep};
ghost use Rattle.world_primaries.specs.Links.{AllAreDistinct, PrimariesSend};
ghost use Rattle.world_primaries.specs.Dials.{AllDialsAreNets, AllDialsMakeEnds, PrimariesDial};

use hd_base::Roads;
use world_orders::messages_come_in_order;

/// The office answers a new primary, and one that commits.
pub fn primaries_ask()
    ensures { PrimariesAsk }
{}

/// A primary to which the office has answered begins, or ends by the office's refusal.
pub fn primaries_begin()
    ensures { PrimariesBegin }
{}

/// A primary's further step is what its rules say.
pub fn primaries_step()
    ensures { PrimariesStep }
{}

/// So is what it hears from a member.
pub fn primaries_hear()
    ensures { PrimariesHear }
{}

/// No primary has one connection at two places.
pub fn primaries_have_distinct_connections()
    ensures { AllAreDistinct }
{
    messages_come_in_order();
}

/// What a primary sends and shuts is what the ends of its connections flush.
pub fn primaries_send()
    ensures { PrimariesSend }
{}

/// The dials of its first step are of new connections, with the request on each.
pub fn primaries_dial()
    ensures { PrimariesDial }
{}

/// Where several ports are dialled, and the new ends flush their requests, the connections become those of the world
/// after the dials.
pub fn all_dials_are_nets()
    ensures { AllDialsAreNets }
{}

/// The ends of the new connections, and all others, are ends of that world.
pub fn all_dials_make_ends<R: Roads>()
    ensures { AllDialsMakeEnds R.Inward.LinkIn R.Outward.LinkOut }
{}
