//! A node stops.

ghost use Rattle.std.specs.Prelude.{◌<◌};
ghost use Rattle.hd_base.specs.declared.roads.TheConstants.{MAX_NODES};
ghost use Rattle.play_nodes.specs.MemberEvents.Roads.{RoadsPass};
ghost use Rattle.play_nodes.specs.Places.{KeepsSizes};
ghost use Rattle.play_nodes.specs.Showing.{Stand};
ghost use Rattle.node_stops.specs.Stopping.{StopShows};

use crate::connections::connections_of;
use crate::cutting::cut_all;
use crate::ending::end_all;
use fault_ports::CutRoads;
use hd_base::{FIRST_PORT, Files, LinkIn, LinkOut, NodeId};
use play_nodes::Nodes;
use std::alloc::{AllocError, Global};
use world_stops::{cuts_are_losses, ends_stay_in_cuts, stops_are_cuts};

/// Stops a node between two events: nothing further arrives on its connections, nobody listens on its port any more, and
/// the ends that it had are brought back, but for those that are kept elsewhere. Its books stay with the nodes, as they
/// are.
pub fn stop_node<F: Files, I: LinkIn, O: LinkOut, R: CutRoads<Inward = I, Outward = O>>(
    alloc: Global,
    roads: &mut R,
    nodes: &mut Nodes<F, I, O>,
    node: NodeId,
) -> Result<(), AllocError>
    requires in_range { node.0 < MAX_NODES }
    requires stand { Stand R.Roads I.LinkIn O.LinkOut roads.old nodes.old }
    ensures shows { StopShows R.Roads I.LinkIn O.LinkOut node nodes.old nodes.new roads.old roads.new result }
    ensures sizes { KeepsSizes nodes.old nodes.new }
    ensures pass { RoadsPass R.Roads roads.old roads.new }
{
    cuts_are_losses();
    ends_stay_in_cuts::<I, O>();
    stops_are_cuts::<I, O>();
    let conns = connections_of(alloc, nodes.connections.as_slice(), node)?;
    cut_all(roads, conns.as_slice())?;
    roads.hang_up(FIRST_PORT + node.0 as u16);
    end_all(alloc, roads, nodes, node)
}
