//! The own steps of the writers of a play.

ghost use Rattle.std.specs.Prelude.{◌<◌, length};
ghost use Rattle.node_stops.specs.MemberEvents.Roads.{RoadsPass};
ghost use Rattle.node_stops.specs.PlayNodes.Places.{KeepsSizes};
ghost use Rattle.play.specs.Showing.{PlayerStands};
ghost use Rattle.play.specs.Owning.{IsDialled, IsAsked, IsOwned, OwnShows};

use crate::faults::{PlayFault, of_client, of_nodes};
use crate::laws::pipelines_leave_others;
use crate::player::Player;
use hd_base::{BlockId, ConnId, Files, LinkIn, LinkOut, Roads};
use node_stops::{nodes_ends_stay, nodes_stay, writers_keep_nodes};
use play_dues::{First, Owned, clients_stay, own_steps_keep_others};
use std::alloc::Global;
use world::{Caller, Event, OwnStep};

impl<F: Files, I: LinkIn, O: LinkOut> Player<F, I, O> {
    /// The writer of the client at a place takes its own step, with the answer of the office where it asks; the node that
    /// it dials, if it dials one, has the lower end of the connection then.
    pub fn own<R: Roads<Inward = I, Outward = O>>(
        &mut self,
        alloc: Global,
        roads: &mut R,
        place: usize,
    ) -> Result<(), PlayFault>
        requires stands { PlayerStands R.Roads I.LinkIn O.LinkOut roads.old self.old }
        requires within { place < length self.old.clients.items }
        ensures shows { OwnShows F.Files R.Roads I.LinkIn O.LinkOut place self.old self.new roads.old roads.new result }
        ensures sizes { KeepsSizes self.old.nodes self.new.nodes }
        ensures pass { RoadsPass R.Roads roads.old roads.new }
    {
        pipelines_leave_others::<I, O>();
        writers_keep_nodes();
        nodes_stay::<F, I, O>();
        nodes_ends_stay::<I, O>();
        own_steps_keep_others();
        clients_stay::<I, O>();
        let next = ConnId(self.nodes.connections.len() as u64);
        let block = self.clients[place].block;
        match self.clients[place].own(alloc, roads, &mut self.office, next) {
            Ok(left) => self.owned(block, left),
            Err(fault) => Err(of_client(fault)),
        }
    }

    /// Keeps what an own step of the writer of a block left. Where a node that runs left its dial unanswered, the roads have
    /// failed.
    fn owned(&mut self, block: BlockId, left: Owned<I, O>) -> Result<(), PlayFault>
        ensures owned { IsOwned I.LinkIn O.LinkOut self.old self.new block left result }
        ensures sizes { KeepsSizes self.old.nodes self.new.nodes }
    {
        if self.is_running(left.unreached) {
            return Err(PlayFault::RoadFault);
        }
        self.dialled(block, left.first)?;
        self.asked(block, left.asked)?;
        self.keep(Event::Own(OwnStep::Writer {
            block,
            takes: left.took,
            answered: true,
        }))
    }

    /// Gives the node that the writer of a block dialled, if it dialled one, the lower end of the connection.
    fn dialled(&mut self, block: BlockId, first: Option<First<I, O>>) -> Result<(), PlayFault>
        ensures dialled { IsDialled I.LinkIn O.LinkOut self.old self.new block first result }
        ensures sizes { KeepsSizes self.old.nodes self.new.nodes }
    {
        let Some(first) = first else {
            return Ok(());
        };
        match self.nodes.dialled(block, first.node, first.end) {
            Ok(()) => Ok(()),
            Err(fault) => Err(of_nodes(fault)),
        }
    }

    /// Keeps the office's answer to the writer of a block, if it was asked.
    fn asked(&mut self, block: BlockId, asked: bool) -> Result<(), PlayFault>
        ensures asked { IsAsked self.old self.new block asked result }
        ensures sizes { KeepsSizes self.old.nodes self.new.nodes }
    {
        if asked {
            self.keep(Event::Office {
                caller: Caller::Writer { block },
            })
        } else {
            Ok(())
        }
    }
}
