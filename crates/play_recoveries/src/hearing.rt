//! What a primary hears on a connection.

ghost use Rattle.play_nodes.specs.MemberEvents.Roads.{RoadsPass};
ghost use Rattle.play_recoveries.specs.Hearing.{HearShows};
ghost use Rattle.play_recoveries.specs.Showing.{Stand};

use crate::faults::{RecoveriesFault, of_primary};
use crate::recoveries::Recoveries;
use hd_base::{ConnId, Files, LinkIn, LinkOut, Roads};
use play_nodes::{Nodes, nodes_stay};
use play_primaries::{primaries_keep_nodes, primaries_keep_others, primary_clients_stay};
use std::alloc::Global;

impl<I: LinkIn, O: LinkOut> Recoveries<I, O> {
    /// The primary that dialled a connection takes what stands next there. The nodes stay.
    pub fn hear<F: Files, R: Roads<Inward = I, Outward = O>>(
        &mut self,
        alloc: Global,
        roads: &mut R,
        nodes: &Nodes<F, I, O>,
        conn: ConnId,
    ) -> Result<(), RecoveriesFault>
        requires { Stand R.Roads I.LinkIn O.LinkOut roads.old nodes.now self.old }
        ensures shows { HearShows F.Files R.Roads I.LinkIn O.LinkOut conn
            nodes.now self.old self.new roads.old roads.new result }
        ensures pass { RoadsPass R.Roads roads.old roads.new }
    {
        nodes_stay::<F, I, O>();
        primaries_keep_nodes();
        primaries_keep_others();
        primary_clients_stay::<I, O>();
        let Some(leader) = self.client_at(nodes, conn) else {
            return Ok(());
        };
        match self.clients[leader.client].hear(alloc, roads, leader.place) {
            Ok(()) => Ok(()),
            Err(fault) => Err(of_primary(fault)),
        }
    }
}
