//! A node of a play stops.

ghost use Rattle.std.specs.Prelude.{◌<◌};
ghost use Rattle.hd_base.specs.declared.roads.TheConstants.{MAX_NODES};
ghost use Rattle.node_stops.specs.MemberEvents.Roads.{RoadsPass};
ghost use Rattle.node_stops.specs.PlayNodes.Places.{KeepsSizes};
ghost use Rattle.play.specs.Showing.{PlayerStands};
ghost use Rattle.play.specs.Stopping.{StopShows};

use crate::faults::PlayFault;
use crate::laws::{recoveries_leave_others, worlds_are_lawful};
use crate::player::Player;
use fault_ports::CutRoads;
use hd_base::{Files, LinkIn, LinkOut, NodeId};
use node_stops::{dials_have_origins, stop_node};
use play_dues::clients_stay;
use std::alloc::Global;
use world::Event;

impl<F: Files, I: LinkIn, O: LinkOut> Player<F, I, O> {
    /// A node that runs stops between two events: nothing further arrives on its connections, nobody listens on its port
    /// any more, the ends that it had are brought back, and its primaries lead no more. Its books stay.
    pub fn stop<R: CutRoads<Inward = I, Outward = O>>(
        &mut self,
        alloc: Global,
        roads: &mut R,
        node: NodeId,
    ) -> Result<(), PlayFault>
        requires stands { PlayerStands R.Roads I.LinkIn O.LinkOut roads.old self.old }
        requires in_range { node.0 < MAX_NODES }
        ensures shows { StopShows R.Roads I.LinkIn O.LinkOut node self.old self.new roads.old roads.new result }
        ensures sizes { KeepsSizes self.old.nodes self.new.nodes }
        ensures pass { RoadsPass R.Roads roads.old roads.new }
    {
        worlds_are_lawful();
        recoveries_leave_others::<I, O>();
        dials_have_origins();
        clients_stay::<I, O>();
        let Ok(()) = stop_node(alloc, roads, &mut self.nodes, node) else {
            return Err(PlayFault::Memory);
        };
        let Ok(()) = self.reads.stop(alloc, roads, &self.nodes, node) else {
            return Err(PlayFault::Memory);
        };
        let Ok(()) = self.recoveries.stop(alloc, roads, &self.nodes, node) else {
            return Err(PlayFault::Memory);
        };
        self.stopped(node);
        self.keep(Event::Stop { node })
    }
}
