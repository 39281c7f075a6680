//! What a reader hears on its connection.

ghost use Rattle.play_nodes.specs.MemberEvents.Roads.{RoadsPass};
ghost use Rattle.play_reads.specs.Hearing.{HearShows};
ghost use Rattle.play_reads.specs.Showing.{Stand};

use crate::faults::{ReadsFault, of_reader};
use crate::reads::Reads;
use hd_base::{ConnId, Files, LinkIn, LinkOut, Roads};
use play_nodes::{Nodes, nodes_stay};
use play_primaries::{read_clients_stay, readers_keep_nodes, readers_keep_others};
use std::alloc::Global;

impl<I: LinkIn, O: LinkOut> Reads<I, O> {
    /// The reader that dialled a connection takes what stands next there. The nodes stay.
    pub fn hear<F: Files, R: Roads<Inward = I, Outward = O>>(
        &mut self,
        alloc: Global,
        roads: &mut R,
        nodes: &Nodes<F, I, O>,
        conn: ConnId,
    ) -> Result<(), ReadsFault>
        requires { Stand R.Roads I.LinkIn O.LinkOut roads.old nodes.now self.old }
        ensures shows { HearShows F.Files R.Roads I.LinkIn O.LinkOut conn
            nodes.now self.old self.new roads.old roads.new result }
        ensures pass { RoadsPass R.Roads roads.old roads.new }
    {
        nodes_stay::<F, I, O>();
        readers_keep_nodes();
        readers_keep_others();
        read_clients_stay::<I, O>();
        let Some(place) = self.client_at(nodes, conn) else {
            return Ok(());
        };
        match self.clients[place].hear(alloc, roads) {
            Ok(()) => Ok(()),
            Err(fault) => Err(of_reader(fault)),
        }
    }
}
