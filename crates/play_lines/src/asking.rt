//! A line asks to read.

ghost use Rattle.play_model.specs.Asks.{request_of};
ghost use Rattle.play_scripts.specs.PlayNodes.Places.{KeepsSizes};
ghost use Rattle.play_scripts.specs.WorldTexts.Texts.{CanBeAsked};
ghost use Rattle.play_lines.specs.Asking.{Asks, AsksArePlays, ask_in};

use crate::playing::Playing;
use hd_base::{BlockId, Files, LinkIn, LinkOut, NodeId, Roads};
use play_model::ReadAsk;
use play_opening::PlayFault;

impl<F: Files, I: LinkIn, O: LinkOut> Playing<F, I, O> {
    /// A reader, which has the line's number, joins the play: it asks for so many bytes of a block at a node, from an
    /// offset on, under the stamp that the office has committed, 0 where it doesn't know the block. It hasn't begun
    /// then.
    pub fn ask(
        &mut self,
        number: u64,
        block: BlockId,
        node: NodeId,
        offset: u64,
        count: u64,
    ) -> Result<(), PlayFault>
        ensures asks { Asks I.LinkIn O.LinkOut (ask_in self.old number block node offset count) self.old self.new result }
        ensures fits { CanBeAsked (request_of (ask_in self.old number block node offset count)) }
        ensures sizes { KeepsSizes self.old.player.nodes self.new.player.nodes }
    {
        let ask = ReadAsk {
            reader: number,
            node,
            block,
            stamp: self.player.office.committed(block),
            offset,
            len: count,
        };
        match self.player.reads.ask(ask) {
            Ok(()) => Ok(()),
            Err(_) => Err(PlayFault::Memory),
        }
    }
}

/// A play that a reader joined, whose number is above all others', is the play in which this was asked, where all files
/// are told.
pub fn asks_are_plays<F: Files, I: LinkIn, O: LinkOut, R: Roads<Inward = I, Outward = O>>()
    ensures { AsksArePlays F.Files R.Roads I.LinkIn O.LinkOut }
{}
