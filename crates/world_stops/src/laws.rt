//! Laws of nodes that stop.

ghost use Rattle.world_stops.specs.Origins.{DialsHaveOrigins};
ghost use Rattle.world_stops.specs.Stopping.{EndedStay, StopsAreCuts, StopsEnd};

use hd_base::{LinkIn, LinkOut};
use world_cuts::{cuts_are_losses, losses_are_nets};
use world_laws::{indices_are_in_range, the_past_only_grows};

/// A writer and a reader dial from no node, and a member from its own.
pub fn dials_have_origins()
    ensures { DialsHaveOrigins }
{
    indices_are_in_range();
    the_past_only_grows();
}

/// Where all connections of a node were cut, and its port is no longer listened on, roads and ends are those of the world
/// in which the node stops.
pub fn stops_are_cuts<I: LinkIn, O: LinkOut>()
    ensures { StopsAreCuts I.LinkIn O.LinkOut }
{
    cuts_are_losses();
}

/// Each connection of a node that was stopped has ended.
pub fn stops_end_connections()
    ensures { StopsEnd }
{}

/// An end of a connection that has ended may be shut and given up: nothing changes by that.
pub fn ended_connections_stay()
    ensures { EndedStay }
{
    losses_are_nets();
}
