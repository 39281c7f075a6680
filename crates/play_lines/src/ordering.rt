//! The clients are given commands.

ghost use Rattle.std.specs.Prelude.{◌≡◌, ◌++◌, [], ◌∷◌, OnOk, IfErr};
ghost use Rattle.play_scripts.specs.PlayNodes.Places.{KeepsSizes};
ghost use Rattle.play_lines.specs.Ordering.{Orders, OrdersArePlays};

use crate::playing::Playing;
use hd_base::{BlockId, Files, LinkIn, LinkOut, Roads};
use play_opening::{PlayFault, client_of};
use std::collections::VecDeque;
use world::TakenCommand;
use writer_core::Command;

impl<F: Files, I: LinkIn, O: LinkOut> Playing<F, I, O> {
    /// A command joins the queue of its block, with the rule that the block's sums have. The block has a client.
    pub fn order(&mut self, block: BlockId, command: Command) -> Result<(), PlayFault>
        ensures orders { Orders block command self.old self.new result }
        ensures sizes { KeepsSizes self.old.player.nodes self.new.player.nodes }
    {
        let Some(place) = client_of(self.player.clients.as_slice(), block) else {
            return Ok(());
        };
        let rule = self.player.clients[place].rule;
        let taken = TakenCommand { command, rule };
        enqueue(&mut self.player.clients[place].queue, taken)
    }
}

/// A command joins a queue.
fn enqueue(queue: &mut VecDeque<TakenCommand>, taken: TakenCommand) -> Result<(), PlayFault>
    ensures ok { OnOk result (queue.new.items ≡ queue.old.items ++ taken ∷ []) }
    ensures err { IfErr result (λ why. why ≡ PlayFault.Memory) }
{
    match queue.push_back(taken) {
        Ok(()) => Ok(()),
        Err(_) => Err(PlayFault::Memory),
    }
}

/// A play in which a client was given a command that fits those before it is the play with the command.
pub fn orders_are_plays<F: Files, I: LinkIn, O: LinkOut, R: Roads<Inward = I, Outward = O>>()
    ensures { OrdersArePlays F.Files R.Roads I.LinkIn O.LinkOut }
{}
