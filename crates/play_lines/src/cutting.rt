//! A connection of a block's pipeline is cut.

ghost use Rattle.play_scripts.specs.MemberEvents.Roads.{RoadsPass};
ghost use Rattle.play_scripts.specs.PlayNodes.Places.{KeepsSizes};
ghost use Rattle.play_lines.specs.Cutting.{CutShows};
ghost use Rattle.play_lines.specs.Showing.{IsPlaying};

use crate::pipelines::pipeline_conn;
use crate::playing::Playing;
use fault_ports::CutRoads;
use hd_base::{BlockId, Files, LinkIn, LinkOut};
use play_opening::{PlayFault, cuts_are_losses, worlds_are_lawful};
use play_scripts::takers_are_open;

impl<F: Files, I: LinkIn, O: LinkOut> Playing<F, I, O> {
    /// The connection at a place of the block's present pipeline ends: of the messages on their way so many still
    /// arrive, down and up. Nothing is done where there is no such connection.
    pub fn cut<R: CutRoads<Inward = I, Outward = O>>(
        &mut self,
        roads: &mut R,
        block: BlockId,
        place: u64,
        down: u64,
        up: u64,
    ) -> Result<(), PlayFault>
        requires { IsPlaying F.Files R.Roads I.LinkIn O.LinkOut roads.old self.old }
        ensures shows { CutShows F.Files R.Roads I.LinkIn O.LinkOut block place down up
            self.old self.new roads.old roads.new result }
        ensures sizes { KeepsSizes self.old.player.nodes self.new.player.nodes }
        ensures pass { RoadsPass R.Roads roads.old roads.new }
    {
        worlds_are_lawful();
        takers_are_open();
        cuts_are_losses();
        let Some(conn) = pipeline_conn(&self.player.nodes, block, place) else {
            return Ok(());
        };
        self.player.cut(roads, conn, down, up)
    }
}
