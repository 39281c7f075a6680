//! The events of readers, and of the lower ends of connections that they dialled.

ghost use Rattle.std.specs.Prelude.{◌<◌, length, true};
ghost use Rattle.node_stops.specs.MemberEvents.Roads.{RoadsPass};
ghost use Rattle.play_model.specs.Asks.{asking_node};
ghost use Rattle.node_stops.specs.PlayNodes.Places.{KeepsSizes};
ghost use Rattle.play.specs.Events.{Keeps};
ghost use Rattle.play.specs.Reading.{AskShows, ReaderShows, TakeShows, SendShows};
ghost use Rattle.play.specs.Showing.{PlayerStands};

use crate::faults::{PlayFault, of_reads};
use crate::laws::{reads_leave_others, worlds_are_lawful};
use crate::player::Player;
use hd_base::{ConnId, Files, LinkIn, LinkOut, Roads};
use play_dues::clients_stay;
use play_model::ReadAsk;
use std::alloc::Global;
use world::{Event, OwnStep};

impl<F: Files, I: LinkIn, O: LinkOut> Player<F, I, O> {
    /// The reader of the client at a place asks its node: it dials it, and sends its request.
    pub fn ask<R: Roads<Inward = I, Outward = O>>(
        &mut self,
        alloc: Global,
        roads: &mut R,
        place: usize,
    ) -> Result<(), PlayFault>
        requires stands { PlayerStands R.Roads I.LinkIn O.LinkOut roads.old self.old }
        requires within { place < length self.old.reads.clients.items }
        ensures shows { AskShows F.Files R.Roads I.LinkIn O.LinkOut place self.old self.new roads.old roads.new result }
        ensures sizes { KeepsSizes self.old.nodes self.new.nodes }
        ensures pass { RoadsPass R.Roads roads.old roads.new }
    {
        worlds_are_lawful();
        reads_leave_others::<I, O>();
        clients_stay::<I, O>();
        let ask = self.reads.clients[place].ask;
        match self.reads.own(alloc, roads, &mut self.nodes, place) {
            Ok(()) => self.keep_asked(alloc, ask),
            Err(fault) => Err(of_reads(fault)),
        }
    }

    /// Keeps that a reader asked its node.
    fn keep_asked(&mut self, alloc: Global, ask: ReadAsk) -> Result<(), PlayFault>
        ensures kept { Keeps self.old self.new (asking_node ask true) result }
        ensures sizes { KeepsSizes self.old.nodes self.new.nodes }
    {
        let Ok(op) = ask.request(alloc) else {
            return Err(PlayFault::Memory);
        };
        self.keep(Event::Own(OwnStep::Reader {
            reader: ask.reader,
            node: ask.node,
            op,
            answered: true,
        }))
    }

    /// The reader that dialled a connection takes what stands next there.
    pub fn reader_up<R: Roads<Inward = I, Outward = O>>(
        &mut self,
        alloc: Global,
        roads: &mut R,
        conn: ConnId,
    ) -> Result<(), PlayFault>
        requires { PlayerStands R.Roads I.LinkIn O.LinkOut roads.old self.old }
        ensures shows { ReaderShows F.Files R.Roads I.LinkIn O.LinkOut conn self.old self.new roads.old roads.new result }
        ensures sizes { KeepsSizes self.old.nodes self.new.nodes }
        ensures pass { RoadsPass R.Roads roads.old roads.new }
    {
        worlds_are_lawful();
        reads_leave_others::<I, O>();
        clients_stay::<I, O>();
        match self.reads.hear(alloc, roads, &self.nodes, conn) {
            Ok(()) => self.keep(Event::Up { conn }),
            Err(fault) => Err(of_reads(fault)),
        }
    }

    /// The lower end of a connection that a reader dialled takes what stands next.
    pub fn server_down<R: Roads<Inward = I, Outward = O>>(
        &mut self,
        alloc: Global,
        roads: &mut R,
        conn: ConnId,
    ) -> Result<(), PlayFault>
        requires { PlayerStands R.Roads I.LinkIn O.LinkOut roads.old self.old }
        ensures shows { TakeShows F.Files R.Roads I.LinkIn O.LinkOut conn self.old self.new roads.old roads.new result }
        ensures sizes { KeepsSizes self.old.nodes self.new.nodes }
        ensures pass { RoadsPass R.Roads roads.old roads.new }
    {
        worlds_are_lawful();
        reads_leave_others::<I, O>();
        clients_stay::<I, O>();
        match self.reads.down(alloc, roads, &mut self.nodes, conn) {
            Ok(()) => self.keep(Event::Down {
                conn,
                answered: true,
            }),
            Err(fault) => Err(of_reads(fault)),
        }
    }

    /// The lower end of a connection that a reader dialled sends the next packet of the read that it serves.
    pub fn server_ready<R: Roads<Inward = I, Outward = O>>(
        &mut self,
        alloc: Global,
        roads: &mut R,
        conn: ConnId,
    ) -> Result<(), PlayFault>
        requires { PlayerStands R.Roads I.LinkIn O.LinkOut roads.old self.old }
        ensures shows { SendShows F.Files R.Roads I.LinkIn O.LinkOut conn self.old self.new roads.old roads.new result }
        ensures sizes { KeepsSizes self.old.nodes self.new.nodes }
        ensures pass { RoadsPass R.Roads roads.old roads.new }
    {
        worlds_are_lawful();
        reads_leave_others::<I, O>();
        clients_stay::<I, O>();
        match self.reads.ready(alloc, roads, &mut self.nodes, conn) {
            Ok(()) => self.keep(Event::Ready { conn }),
            Err(fault) => Err(of_reads(fault)),
        }
    }
}
