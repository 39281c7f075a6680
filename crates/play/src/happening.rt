//! What is due in a play happens.

ghost use Rattle.node_stops.specs.MemberEvents.Roads.{RoadsPass};
ghost use Rattle.node_stops.specs.PlayNodes.Places.{KeepsSizes};
ghost use Rattle.play.specs.Showing.{PlayerStands};
ghost use Rattle.play.specs.Standing.{ElsewhereShows, HappenShows};

use crate::faults::PlayFault;
use crate::laws::worlds_are_lawful;
use crate::player::Player;
use hd_base::{BlockId, ConnId, Files, LinkIn, LinkOut, Roads};
use play_dues::{
    client_of, none_is_ready, primary_client_of, primary_of, read_client_of, writer_of,
};
use play_model::{Due, ReadAsk, Recovery};
use std::alloc::Global;

impl<F: Files, I: LinkIn, O: LinkOut> Player<F, I, O> {
    /// Something that is due happens: a writer, a reader or a primary takes its own step, or an end takes what stands next or
    /// acts without a message. Its events stand behind those that happened then.
    pub fn happen<R: Roads<Inward = I, Outward = O>>(
        &mut self,
        alloc: Global,
        roads: &mut R,
        due: Due,
    ) -> Result<(), PlayFault>
        requires { PlayerStands R.Roads I.LinkIn O.LinkOut roads.old self.old }
        ensures shows { HappenShows F.Files R.Roads I.LinkIn O.LinkOut due self.old self.new roads.old roads.new result }
        ensures sizes { KeepsSizes self.old.nodes self.new.nodes }
        ensures pass { RoadsPass R.Roads roads.old roads.new }
    {
        match due {
            Due::Own { block } => self.step(alloc, roads, block),
            Due::Reader { ask } => self.begin_read(alloc, roads, ask),
            Due::Primary { recovery } => self.lead_on(alloc, roads, &recovery),
            Due::Down { conn } => self.take_down(alloc, roads, conn),
            Due::Ready { conn } => self.act(alloc, roads, conn),
            Due::Up { conn } => self.take_up(alloc, roads, conn),
        }
    }

    /// The writer of a block takes its own step.
    fn step<R: Roads<Inward = I, Outward = O>>(
        &mut self,
        alloc: Global,
        roads: &mut R,
        block: BlockId,
    ) -> Result<(), PlayFault>
        requires { PlayerStands R.Roads I.LinkIn O.LinkOut roads.old self.old }
        ensures shows { HappenShows F.Files R.Roads I.LinkIn O.LinkOut (Due.Own block)
            self.old self.new roads.old roads.new result }
        ensures sizes { KeepsSizes self.old.nodes self.new.nodes }
        ensures pass { RoadsPass R.Roads roads.old roads.new }
    {
        worlds_are_lawful();
        let Some(place) = client_of(self.clients.as_slice(), block) else {
            return Ok(());
        };
        self.own(alloc, roads, place)
    }

    /// A reader asks its node.
    fn begin_read<R: Roads<Inward = I, Outward = O>>(
        &mut self,
        alloc: Global,
        roads: &mut R,
        ask: ReadAsk,
    ) -> Result<(), PlayFault>
        requires { PlayerStands R.Roads I.LinkIn O.LinkOut roads.old self.old }
        ensures shows { HappenShows F.Files R.Roads I.LinkIn O.LinkOut (Due.Reader ask)
            self.old self.new roads.old roads.new result }
        ensures sizes { KeepsSizes self.old.nodes self.new.nodes }
        ensures pass { RoadsPass R.Roads roads.old roads.new }
    {
        worlds_are_lawful();
        let Some(place) = read_client_of(self.reads.clients.as_slice(), ask.reader) else {
            return Ok(());
        };
        self.ask(alloc, roads, place)
    }

    /// A primary begins, or goes on.
    fn lead_on<R: Roads<Inward = I, Outward = O>>(
        &mut self,
        alloc: Global,
        roads: &mut R,
        recovery: &Recovery,
    ) -> Result<(), PlayFault>
        requires { PlayerStands R.Roads I.LinkIn O.LinkOut roads.old self.old }
        ensures shows { HappenShows F.Files R.Roads I.LinkIn O.LinkOut (Due.Primary recovery.now)
            self.old self.new roads.old roads.new result }
        ensures sizes { KeepsSizes self.old.nodes self.new.nodes }
        ensures pass { RoadsPass R.Roads roads.old roads.new }
    {
        worlds_are_lawful();
        let clients = self.recoveries.clients.as_slice();
        let Some(place) = primary_client_of(clients, recovery.primary) else {
            return Ok(());
        };
        self.lead(alloc, roads, place)
    }

    /// The lower end of a connection takes what stands next.
    fn take_down<R: Roads<Inward = I, Outward = O>>(
        &mut self,
        alloc: Global,
        roads: &mut R,
        conn: ConnId,
    ) -> Result<(), PlayFault>
        requires { PlayerStands R.Roads I.LinkIn O.LinkOut roads.old self.old }
        ensures shows { HappenShows F.Files R.Roads I.LinkIn O.LinkOut (Due.Down conn)
            self.old self.new roads.old roads.new result }
        ensures sizes { KeepsSizes self.old.nodes self.new.nodes }
        ensures pass { RoadsPass R.Roads roads.old roads.new }
    {
        worlds_are_lawful();
        if self.nodes.is_elsewhere(conn) {
            return self.elsewhere_down(alloc, roads, conn);
        }
        if self.nodes.takes_first(conn) {
            self.begin(alloc, roads, conn)
        } else {
            self.member_down(alloc, roads, conn)?;
            Ok(())
        }
    }

    /// The lower end of a connection acts without a message.
    fn act<R: Roads<Inward = I, Outward = O>>(
        &mut self,
        alloc: Global,
        roads: &mut R,
        conn: ConnId,
    ) -> Result<(), PlayFault>
        requires { PlayerStands R.Roads I.LinkIn O.LinkOut roads.old self.old }
        ensures shows { HappenShows F.Files R.Roads I.LinkIn O.LinkOut (Due.Ready conn)
            self.old self.new roads.old roads.new result }
        ensures sizes { KeepsSizes self.old.nodes self.new.nodes }
        ensures pass { RoadsPass R.Roads roads.old roads.new }
    {
        worlds_are_lawful();
        none_is_ready::<I, O>();
        if self.nodes.is_elsewhere(conn) {
            self.server_ready(alloc, roads, conn)
        } else {
            self.ready(alloc, roads, conn)
        }
    }

    /// The upper end of a connection takes what stands next.
    fn take_up<R: Roads<Inward = I, Outward = O>>(
        &mut self,
        alloc: Global,
        roads: &mut R,
        conn: ConnId,
    ) -> Result<(), PlayFault>
        requires { PlayerStands R.Roads I.LinkIn O.LinkOut roads.old self.old }
        ensures shows { HappenShows F.Files R.Roads I.LinkIn O.LinkOut (Due.Up conn)
            self.old self.new roads.old roads.new result }
        ensures sizes { KeepsSizes self.old.nodes self.new.nodes }
        ensures pass { RoadsPass R.Roads roads.old roads.new }
    {
        worlds_are_lawful();
        if self.nodes.is_elsewhere(conn) {
            return self.elsewhere_up(alloc, roads, conn);
        }
        let Some(block) = writer_of(&self.nodes, conn) else {
            return self.mirror_up(alloc, roads, conn);
        };
        let Some(place) = client_of(self.clients.as_slice(), block) else {
            return Ok(());
        };
        self.hear(alloc, roads, conn, place)
    }

    /// The lower end of a connection that a reader or a primary dialled takes what stands next.
    fn elsewhere_down<R: Roads<Inward = I, Outward = O>>(
        &mut self,
        alloc: Global,
        roads: &mut R,
        conn: ConnId,
    ) -> Result<(), PlayFault>
        requires { PlayerStands R.Roads I.LinkIn O.LinkOut roads.old self.old }
        ensures shows { ElsewhereShows F.Files R.Roads I.LinkIn O.LinkOut conn (Due.Down conn)
            self.old self.new roads.old roads.new result }
        ensures sizes { KeepsSizes self.old.nodes self.new.nodes }
        ensures pass { RoadsPass R.Roads roads.old roads.new }
    {
        worlds_are_lawful();
        if primary_of(&self.nodes, conn).is_some() {
            return self.answer_down(alloc, roads, conn);
        }
        self.server_down(alloc, roads, conn)
    }

    /// The reader or the primary that dialled a connection takes what stands next.
    fn elsewhere_up<R: Roads<Inward = I, Outward = O>>(
        &mut self,
        alloc: Global,
        roads: &mut R,
        conn: ConnId,
    ) -> Result<(), PlayFault>
        requires { PlayerStands R.Roads I.LinkIn O.LinkOut roads.old self.old }
        ensures shows { ElsewhereShows F.Files R.Roads I.LinkIn O.LinkOut conn (Due.Up conn)
            self.old self.new roads.old roads.new result }
        ensures sizes { KeepsSizes self.old.nodes self.new.nodes }
        ensures pass { RoadsPass R.Roads roads.old roads.new }
    {
        worlds_are_lawful();
        if primary_of(&self.nodes, conn).is_some() {
            return self.primary_up(alloc, roads, conn);
        }
        self.reader_up(alloc, roads, conn)
    }
}
