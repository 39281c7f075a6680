//! What is due befalls.

ghost use Rattle.play.specs.Befalling.{BefallShows};
ghost use Rattle.play_opening.specs.Play.Showing.{PlayerStands};
ghost use Rattle.play_scripts.specs.MemberEvents.Roads.{RoadsPass};
ghost use Rattle.play_scripts.specs.PlayNodes.Places.{KeepsSizes};
ghost use Rattle.play_lines.specs.Befalling.{KeepsRest};

use crate::playing::Playing;
use hd_base::{LinkIn, LinkOut, Roads};
use play_model::Due;
use play_opening::PlayFault;
use refusing_files::Refusing;
use std::alloc::Global;

impl<F: Refusing, I: LinkIn, O: LinkOut> Playing<F, I, O> {
    /// Something that is due befalls: it happens, unless it writes on a data file and this is the write that is to fail
    /// at its node, which fails then.
    pub(crate) fn befall<R: Roads<Inward = I, Outward = O>>(
        &mut self,
        alloc: Global,
        roads: &mut R,
        due: Due,
    ) -> Result<(), PlayFault>
        requires { PlayerStands R.Roads I.LinkIn O.LinkOut roads.old self.old.player }
        ensures shows { BefallShows F.Files R.Roads I.LinkIn O.LinkOut due self.old.faults.items self.new.faults.items
            self.old.player self.new.player roads.old roads.new result }
        ensures rest { KeepsRest self.old self.new }
        ensures sizes { KeepsSizes self.old.player.nodes self.new.player.nodes }
        ensures pass { RoadsPass R.Roads roads.old roads.new }
    {
        let numbers = self.faults.as_mut_slice();
        self.player.befall(alloc, roads, numbers, due)
    }
}
