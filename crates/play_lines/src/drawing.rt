//! What happens next is drawn.

ghost use Rattle.play_scripts.specs.MemberEvents.Roads.{RoadsPass};
ghost use Rattle.play_scripts.specs.PlayNodes.Places.{KeepsSizes};
ghost use Rattle.play_lines.specs.Showing.{IsPlaying};
ghost use Rattle.play_lines.specs.Drawing.{DrawShows, RunShows, SettleShows};

use crate::playing::Playing;
use hd_base::{LinkIn, LinkOut, Roads};
use play_model::listed_dues_are_due;
use play_opening::{
    PlayFault, draw_due, dues_are_listed, live_connections_are_covered, plays_are_drawn,
    plays_lower, worlds_are_lawful,
};
use play_scripts::takers_are_open;
use refusing_files::Refusing;
use std::alloc::Global;

impl<F: Refusing, I: LinkIn, O: LinkOut> Playing<F, I, O> {
    /// Where something is due, one word of the generator is taken, and what it draws befalls. Answers whether something
    /// was due.
    pub fn draw<R: Roads<Inward = I, Outward = O>>(
        &mut self,
        alloc: Global,
        roads: &mut R,
    ) -> Result<bool, PlayFault>
        requires { IsPlaying F.Files R.Roads I.LinkIn O.LinkOut roads.old self.old }
        ensures shows { DrawShows F.Files R.Roads I.LinkIn O.LinkOut self.old self.new roads.old roads.new result }
        ensures sizes { KeepsSizes self.old.player.nodes self.new.player.nodes }
        ensures pass { RoadsPass R.Roads roads.old roads.new }
    {
        worlds_are_lawful();
        takers_are_open();
        dues_are_listed();
        plays_are_drawn();
        listed_dues_are_due();
        live_connections_are_covered();
        let clients = self.player.clients.as_slice();
        let Ok(()) = self.live.refresh(
            &self.player.nodes,
            clients,
            &self.player.reads,
            &self.player.recoveries,
        )
        else {
            return Err(PlayFault::Memory);
        };
        let drawn = draw_due(
            &self.player.nodes,
            clients,
            &self.player.reads,
            &self.player.recoveries,
            &self.live,
            roads,
            &mut self.generator,
        );
        let Some(due) = drawn else {
            return Ok(false);
        };
        self.befall(alloc, roads, due)?;
        Ok(true)
    }

    /// Up to so many draws: fewer where nothing is due any more.
    pub fn run<R: Roads<Inward = I, Outward = O>>(
        &mut self,
        alloc: Global,
        roads: &mut R,
        count: u64,
    ) -> Result<(), PlayFault>
        requires { IsPlaying F.Files R.Roads I.LinkIn O.LinkOut roads.old self.old }
        ensures shows { RunShows F.Files R.Roads I.LinkIn O.LinkOut count self.old self.new roads.old roads.new result }
        ensures sizes { KeepsSizes self.old.player.nodes self.new.player.nodes }
        ensures pass { RoadsPass R.Roads roads.old roads.new }
    {
        for _ in 0..count {
            if !self.draw(alloc, roads)? {
                return Ok(());
            }
        }
        Ok(())
    }

    /// Draws until nothing is due.
    pub fn settle<R: Roads<Inward = I, Outward = O>>(
        &mut self,
        alloc: Global,
        roads: &mut R,
    ) -> Result<(), PlayFault>
        requires { IsPlaying F.Files R.Roads I.LinkIn O.LinkOut roads.old self.old }
        ensures shows { SettleShows F.Files R.Roads I.LinkIn O.LinkOut self.old self.new roads.old roads.new result }
        ensures sizes { KeepsSizes self.old.player.nodes self.new.player.nodes }
        ensures pass { RoadsPass R.Roads roads.old roads.new }
    {
        worlds_are_lawful();
        listed_dues_are_due();
        plays_lower();
        while self.draw(alloc, roads)? {}
        Ok(())
    }
}
