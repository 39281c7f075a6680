//! The own step of a reader.

ghost use Rattle.std.specs.Prelude.{◌<◌, length};
ghost use Rattle.play_nodes.specs.MemberEvents.Roads.{RoadsPass};
ghost use Rattle.play_nodes.specs.Places.{KeepsSizes};
ghost use Rattle.play_reads.specs.Owning.{OwnShows, Reaches, Serves};
ghost use Rattle.play_reads.specs.Showing.{Stand};

use crate::faults::{ReadsFault, of_reader};
use crate::reads::Reads;
use hd_base::{Conn, Files, LinkIn, LinkOut, Roads};
use play_nodes::{Nodes, ReadAsk, nodes_stay};
use play_primaries::{read_clients_stay, readers_keep_nodes, readers_keep_others};
use play_servers::{ReadEnd, ReadServer};
use std::alloc::Global;

impl<I: LinkIn, O: LinkOut> Reads<I, O> {
    /// The reader of the client at a place asks its node: it dials it, and sends its request. The connection stands
    /// among those of the nodes then, and its lower end among those of the reads. Where the node doesn't run the read
    /// has ended.
    pub fn own<F: Files, R: Roads<Inward = I, Outward = O>>(
        &mut self,
        alloc: Global,
        roads: &mut R,
        nodes: &mut Nodes<F, I, O>,
        place: usize,
    ) -> Result<(), ReadsFault>
        requires stands { Stand R.Roads I.LinkIn O.LinkOut roads.old nodes.old self.old }
        requires within { place < length self.old.clients.items }
        ensures shows { OwnShows F.Files R.Roads I.LinkIn O.LinkOut place
            nodes.old nodes.new self.old self.new roads.old roads.new result }
        ensures sizes { KeepsSizes nodes.old nodes.new }
        ensures pass { RoadsPass R.Roads roads.old roads.new }
    {
        nodes_stay::<F, I, O>();
        readers_keep_nodes();
        readers_keep_others();
        read_clients_stay::<I, O>();
        let ask = self.clients[place].ask;
        match self.clients[place].own(alloc, roads) {
            Ok(Some(end)) => self.reach(nodes, ask, end),
            Ok(None) => Ok(()),
            Err(fault) => Err(of_reader(fault)),
        }
    }

    /// Puts the connection that a reader dialled behind the others of the nodes, and its lower end behind the others.
    fn reach<F: Files>(
        &mut self,
        nodes: &mut Nodes<F, I, O>,
        ask: ReadAsk,
        end: Conn<I, O>,
    ) -> Result<(), ReadsFault>
        ensures reaches { Reaches I.LinkIn O.LinkOut ask end nodes.old nodes.new self.old self.new result }
        ensures sizes { KeepsSizes nodes.old nodes.new }
    {
        match nodes.read(ask.reader, ask.node) {
            Ok(()) => self.serve(end),
            Err(_) => Err(ReadsFault::Memory),
        }
    }

    /// Puts a lower end that has taken nothing yet behind the others.
    fn serve(&mut self, end: Conn<I, O>) -> Result<(), ReadsFault>
        ensures { Serves end self.old self.new result }
    {
        let server = ReadServer {
            conn: end.id,
            end: ReadEnd::Idle(end),
        };
        match self.servers.push(server) {
            Ok(()) => Ok(()),
            Err(_) => Err(ReadsFault::Memory),
        }
    }
}
