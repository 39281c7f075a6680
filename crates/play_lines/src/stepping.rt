//! One event of a block's pipeline befalls.

ghost use Rattle.std.specs.Prelude.{◌≡◌};
ghost use Rattle.play_scripts.specs.MemberEvents.Roads.{RoadsPass};
ghost use Rattle.play_scripts.specs.PlayNodes.Places.{KeepsSizes};
ghost use Rattle.play_lines.specs.Showing.{IsPlaying};
ghost use Rattle.play_lines.specs.Stepping.{due_behind, due_for, StepShows, StaysAlone};

use crate::pipelines::pipeline_conn;
use crate::playing::Playing;
use hd_base::{BlockId, Files, LinkIn, LinkOut, Roads};
use play_model::Due;
use play_opening::{PlayFault, client_of, is_due, live_connections_are_covered, worlds_are_lawful};
use play_scripts::{Nodes, takers_are_open};
use refusing_files::Refusing;
use script_lang::StepEvent;
use std::alloc::Global;

impl<F: Refusing, I: LinkIn, O: LinkOut> Playing<F, I, O> {
    /// One event of the block's present pipeline befalls where it is due; else nothing does.
    pub fn step<R: Roads<Inward = I, Outward = O>>(
        &mut self,
        alloc: Global,
        roads: &mut R,
        block: BlockId,
        event: StepEvent,
    ) -> Result<(), PlayFault>
        requires { IsPlaying F.Files R.Roads I.LinkIn O.LinkOut roads.old self.old }
        ensures shows { StepShows F.Files R.Roads I.LinkIn O.LinkOut block event
            self.old self.new roads.old roads.new result }
        ensures alone { StaysAlone block self.old self.new roads.old roads.new result }
        ensures sizes { KeepsSizes self.old.player.nodes self.new.player.nodes }
        ensures pass { RoadsPass R.Roads roads.old roads.new }
    {
        worlds_are_lawful();
        takers_are_open();
        live_connections_are_covered();
        let Some(due) = self.due_for(block, event) else {
            return Ok(());
        };
        if !is_due(
            &self.player.nodes,
            self.player.clients.as_slice(),
            &self.player.reads,
            &self.player.recoveries,
            roads,
            duplicate(&due),
        ) {
            return Ok(());
        }
        self.befall(alloc, roads, due)
    }
}

impl<F: Files, I: LinkIn, O: LinkOut> Playing<F, I, O> {
    /// What an event of the block's present pipeline is, where the block has a client and the pipeline that connection.
    fn due_for(&self, block: BlockId, event: StepEvent) -> Option<Due>
        ensures { result ≡ due_for self.now block event }
    {
        client_of(self.player.clients.as_slice(), block)?;
        due_behind(&self.player.nodes, block, event)
    }
}

/// What an event of the present pipeline of a block is, where the pipeline has that connection.
fn due_behind<F: Files, I: LinkIn, O: LinkOut>(
    nodes: &Nodes<F, I, O>,
    block: BlockId,
    event: StepEvent,
) -> Option<Due>
    ensures { result ≡ due_behind nodes.now.connections.items block event }
{
    match event {
        StepEvent::Writer => Some(Due::Own { block }),
        StepEvent::Down { connection } => {
            let conn = pipeline_conn(nodes, block, connection)?;
            Some(Due::Down { conn })
        }
        StepEvent::Ready { connection } => {
            let conn = pipeline_conn(nodes, block, connection)?;
            Some(Due::Ready { conn })
        }
        StepEvent::Up { connection } => {
            let conn = pipeline_conn(nodes, block, connection)?;
            Some(Due::Up { conn })
        }
    }
}

/// The same once more. Takes no memory.
fn duplicate(due: &Due) -> Due
    ensures { result ≡ due.now }
{
    match due {
        Due::Own { block } => Due::Own { block: *block },
        Due::Reader { ask } => Due::Reader { ask: *ask },
        Due::Primary { recovery } => Due::Primary {
            recovery: recovery.duplicate(),
        },
        Due::Down { conn } => Due::Down { conn: *conn },
        Due::Ready { conn } => Due::Ready { conn: *conn },
        Due::Up { conn } => Due::Up { conn: *conn },
    }
}
