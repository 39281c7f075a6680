//! Writes on data files that are to fail.

ghost use Rattle.play_scripts.specs.PlayNodes.Places.{KeepsSizes};
ghost use Rattle.play_lines.specs.Faulting.{Arms, ArmsArePlays};

use crate::playing::Playing;
use hd_base::{Files, LinkIn, LinkOut, NodeId, Roads};

impl<F: Files, I: LinkIn, O: LinkOut> Playing<F, I, O> {
    /// Of the coming writes on a data file at a node the one with this number, from 1, fails. It takes the place of one
    /// that was to fail there.
    pub fn arm(&mut self, node: NodeId, nth: u64)
        ensures arms { Arms node nth self.old self.new }
        ensures sizes { KeepsSizes self.old.player.nodes self.new.player.nodes }
    {
        if let Some(number) = self.faults.get_mut(node.0 as usize) {
            *number = nth;
        }
    }
}

/// A play in which a node has a number is the play in which this write is to fail, where all files are told.
pub fn arms_are_plays<F: Files, I: LinkIn, O: LinkOut, R: Roads<Inward = I, Outward = O>>()
    ensures { ArmsArePlays F.Files R.Roads I.LinkIn O.LinkOut }
{}
