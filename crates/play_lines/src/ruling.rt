//! The rules of sums of the blocks.

ghost use Rattle.play_scripts.specs.PlayNodes.Places.{KeepsSizes};
ghost use Rattle.play_lines.specs.Ruling.{Rules, RulesArePlays};

use crate::playing::Playing;
use hd_base::{BlockId, Files, LinkIn, LinkOut, Roads, SumRule};
use play_opening::client_of;

impl<F: Files, I: LinkIn, O: LinkOut> Playing<F, I, O> {
    /// The rule of the sums of a block that is created next. The block has a client.
    pub fn rule(&mut self, block: BlockId, rule: SumRule)
        ensures rules { Rules block rule self.old self.new }
        ensures sizes { KeepsSizes self.old.player.nodes self.new.player.nodes }
    {
        let Some(place) = client_of(self.player.clients.as_slice(), block) else {
            return;
        };
        self.player.clients[place].rule = rule;
    }
}

/// A play in which a client was given a rule is the play with the rule.
pub fn rules_are_plays<F: Files, I: LinkIn, O: LinkOut, R: Roads<Inward = I, Outward = O>>()
    ensures { RulesArePlays F.Files R.Roads I.LinkIn O.LinkOut }
{}
