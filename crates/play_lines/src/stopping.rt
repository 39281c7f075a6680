//! A node stops.

ghost use Rattle.play_scripts.specs.MemberEvents.Roads.{RoadsPass};
ghost use Rattle.play_scripts.specs.PlayNodes.Places.{KeepsSizes};
ghost use Rattle.play_lines.specs.Stopping.{StopShows};
ghost use Rattle.play_lines.specs.Showing.{IsPlaying};

use crate::playing::Playing;
use fault_ports::CutRoads;
use hd_base::{Files, LinkIn, LinkOut, NodeId};
use play_opening::{PlayFault, worlds_are_lawful};
use std::alloc::Global;

impl<F: Files, I: LinkIn, O: LinkOut> Playing<F, I, O> {
    /// A node that runs stops between two events: nothing further arrives on its connections, and dials to it aren't
    /// answered any more. Nothing is done where it doesn't run.
    pub fn stop<R: CutRoads<Inward = I, Outward = O>>(
        &mut self,
        alloc: Global,
        roads: &mut R,
        node: NodeId,
    ) -> Result<(), PlayFault>
        requires { IsPlaying F.Files R.Roads I.LinkIn O.LinkOut roads.old self.old }
        ensures shows { StopShows F.Files R.Roads I.LinkIn O.LinkOut node self.old self.new roads.old roads.new result }
        ensures sizes { KeepsSizes self.old.player.nodes self.new.player.nodes }
        ensures pass { RoadsPass R.Roads roads.old roads.new }
    {
        worlds_are_lawful();
        if !self.player.runs(node) {
            return Ok(());
        }
        self.player.stop(alloc, roads, node)
    }
}
