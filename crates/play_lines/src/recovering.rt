//! A line asks to recover.

ghost use Rattle.play_scripts.specs.PlayNodes.Places.{KeepsSizes};
ghost use Rattle.play_lines.specs.Recovering.{Recovers, RecoversArePlays, recovery_in};

use crate::playing::Playing;
use hd_base::{BlockId, Files, LinkIn, LinkOut, Members, NodeId, Roads};
use play_model::Recovery;
use play_opening::PlayFault;

impl<F: Files, I: LinkIn, O: LinkOut> Playing<F, I, O> {
    /// A primary, which has the line's number, joins the play: it is to recover a block with these members, at a node,
    /// and may begin where this runs. It hasn't begun then.
    pub fn recover(
        &mut self,
        number: u64,
        block: BlockId,
        node: NodeId,
        members: Members,
    ) -> Result<(), PlayFault>
        ensures recovers { Recovers I.LinkIn O.LinkOut (recovery_in self.old number block node members)
            self.old self.new result }
        ensures sizes { KeepsSizes self.old.player.nodes self.new.player.nodes }
    {
        let recovery = Recovery {
            primary: number,
            node,
            block,
            members,
            may_begin: self.player.runs(node),
        };
        match self.player.recoveries.join(recovery) {
            Ok(()) => Ok(()),
            Err(_) => Err(PlayFault::Memory),
        }
    }
}

/// A play that a primary joined, whose number is above all others', is the play in which this was asked, where its node
/// runs if it may begin.
pub fn recovers_are_plays<F: Files, I: LinkIn, O: LinkOut, R: Roads<Inward = I, Outward = O>>()
    ensures { RecoversArePlays F.Files R.Roads I.LinkIn O.LinkOut }
{}
