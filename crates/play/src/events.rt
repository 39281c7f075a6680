//! The events of a play.

ghost use Rattle.std.specs.Prelude.{◌≡◌, ◌<◌, false, length};
ghost use Rattle.node_stops.specs.MemberEvents.Roads.{RoadsPass};
ghost use Rattle.node_stops.specs.PlayNodes.Places.{KeepsSizes};
ghost use Rattle.node_stops.specs.PlayNodes.Showing.{Stand};
ghost use Rattle.play.specs.Showing.{PlayerStands};
ghost use Rattle.play.specs.Events.{Keeps, KeepsDown, Begins, BeginShows, ReadyShows, DownShows, MirrorShows, HeardShows};

use crate::faults::{PlayFault, of_client, of_nodes};
use crate::laws::pipelines_leave_others;
use crate::player::Player;
use hd_base::{ConnId, Files, LinkIn, LinkOut, NodeId, Roads};
use node_stops::{nodes_ends_stay, nodes_keep_writers, nodes_stay, writers_keep_nodes};
use play_dues::{clients_stay, hearing_keeps_others};
use play_laws::running_stays;
use std::alloc::Global;
use world::{Delivery, Event};

impl<F: Files, I: LinkIn, O: LinkOut> Player<F, I, O> {
    /// The member at the lower end of a connection acts without a message.
    pub fn ready<R: Roads<Inward = I, Outward = O>>(
        &mut self,
        alloc: Global,
        roads: &mut R,
        conn: ConnId,
    ) -> Result<(), PlayFault>
        requires { Stand R.Roads I.LinkIn O.LinkOut roads.old self.old.nodes }
        ensures shows { ReadyShows F.Files R.Roads I.LinkIn O.LinkOut conn self.old self.new roads.old roads.new result }
        ensures sizes { KeepsSizes self.old.nodes self.new.nodes }
        ensures pass { RoadsPass R.Roads roads.old roads.new }
    {
        pipelines_leave_others::<I, O>();
        nodes_keep_writers();
        running_stays();
        clients_stay::<I, O>();
        match self.nodes.ready(alloc, roads, conn) {
            Ok(()) => self.keep(Event::Ready { conn }),
            Err(fault) => Err(of_nodes(fault)),
        }
    }

    /// The lower end of a connection that has taken nothing yet takes what stands next.
    pub fn begin<R: Roads<Inward = I, Outward = O>>(
        &mut self,
        alloc: Global,
        roads: &mut R,
        conn: ConnId,
    ) -> Result<(), PlayFault>
        requires { Stand R.Roads I.LinkIn O.LinkOut roads.old self.old.nodes }
        ensures shows { BeginShows F.Files R.Roads I.LinkIn O.LinkOut conn self.old self.new roads.old roads.new result }
        ensures sizes { KeepsSizes self.old.nodes self.new.nodes }
        ensures pass { RoadsPass R.Roads roads.old roads.new }
    {
        pipelines_leave_others::<I, O>();
        nodes_keep_writers();
        running_stays();
        clients_stay::<I, O>();
        match self.nodes.begin(alloc, roads, conn) {
            Ok(unanswered) => self.begun(conn, unanswered),
            Err(fault) => Err(of_nodes(fault)),
        }
    }

    /// Keeps that an end took its first message, where this node didn't answer the dial of a mirror, if one was dialled in
    /// vain. If it runs, the roads have failed.
    fn begun(&mut self, conn: ConnId, unanswered: Option<NodeId>) -> Result<(), PlayFault>
        ensures begins { Begins self.old self.new conn unanswered result }
        ensures sizes { KeepsSizes self.old.nodes self.new.nodes }
    {
        if self.is_running(unanswered) {
            return Err(PlayFault::RoadFault);
        }
        self.keep(Event::Down {
            conn,
            answered: true,
        })
    }

    /// The member at the lower end of a connection takes what stands next from above. Answers whether its replica grew.
    pub fn member_down<R: Roads<Inward = I, Outward = O>>(
        &mut self,
        alloc: Global,
        roads: &mut R,
        conn: ConnId,
    ) -> Result<bool, PlayFault>
        requires { Stand R.Roads I.LinkIn O.LinkOut roads.old self.old.nodes }
        ensures shows { DownShows F.Files R.Roads I.LinkIn O.LinkOut conn false
            self.old self.new roads.old roads.new result }
        ensures sizes { KeepsSizes self.old.nodes self.new.nodes }
        ensures pass { RoadsPass R.Roads roads.old roads.new }
    {
        pipelines_leave_others::<I, O>();
        nodes_keep_writers();
        running_stays();
        clients_stay::<I, O>();
        match self.nodes.member_down(alloc, roads, conn) {
            Ok(grew) => self.keep_down(conn, false, grew),
            Err(fault) => Err(of_nodes(fault)),
        }
    }

    /// The member that dialled a connection takes what stands next from its mirror.
    pub fn mirror_up<R: Roads<Inward = I, Outward = O>>(
        &mut self,
        alloc: Global,
        roads: &mut R,
        conn: ConnId,
    ) -> Result<(), PlayFault>
        requires { Stand R.Roads I.LinkIn O.LinkOut roads.old self.old.nodes }
        ensures shows { MirrorShows F.Files R.Roads I.LinkIn O.LinkOut conn self.old self.new roads.old roads.new result }
        ensures sizes { KeepsSizes self.old.nodes self.new.nodes }
        ensures pass { RoadsPass R.Roads roads.old roads.new }
    {
        pipelines_leave_others::<I, O>();
        nodes_keep_writers();
        running_stays();
        clients_stay::<I, O>();
        match self.nodes.mirror_up(alloc, roads, conn) {
            Ok(()) => self.keep(Event::Up { conn }),
            Err(fault) => Err(of_nodes(fault)),
        }
    }

    /// The writer of the client at a place takes what stands next on its connection.
    pub fn hear<R: Roads<Inward = I, Outward = O>>(
        &mut self,
        alloc: Global,
        roads: &mut R,
        conn: ConnId,
        place: usize,
    ) -> Result<(), PlayFault>
        requires stands { PlayerStands R.Roads I.LinkIn O.LinkOut roads.old self.old }
        requires within { place < length self.old.clients.items }
        ensures shows { HeardShows F.Files R.Roads I.LinkIn O.LinkOut conn place self.old self.new roads.old roads.new result }
        ensures sizes { KeepsSizes self.old.nodes self.new.nodes }
        ensures pass { RoadsPass R.Roads roads.old roads.new }
    {
        pipelines_leave_others::<I, O>();
        writers_keep_nodes();
        nodes_stay::<F, I, O>();
        nodes_ends_stay::<I, O>();
        hearing_keeps_others();
        clients_stay::<I, O>();
        match self.clients[place].hear(alloc, roads, &mut self.office) {
            Ok(()) => self.keep(Event::Up { conn }),
            Err(fault) => Err(of_client(fault)),
        }
    }

    /// Keeps that a member took what stood next, or that a write failed in it. Answers whether a write came with it.
    pub(crate) fn keep_down(
        &mut self,
        conn: ConnId,
        fails: bool,
        writes: bool,
    ) -> Result<bool, PlayFault>
        ensures kept { KeepsDown self.old self.new conn fails writes result }
        ensures nodes { self.new.nodes ≡ self.old.nodes }
        ensures sizes { KeepsSizes self.old.nodes self.new.nodes }
    {
        let event = if fails {
            Event::Fault {
                delivery: Delivery::Down { conn },
            }
        } else {
            Event::Down {
                conn,
                answered: true,
            }
        };
        match self.keep(event) {
            Ok(()) => Ok(writes),
            Err(fault) => Err(fault),
        }
    }

    /// Keeps an event that happened.
    pub(crate) fn keep(&mut self, event: Event) -> Result<(), PlayFault>
        ensures kept { Keeps self.old self.new event result }
        ensures nodes { self.new.nodes ≡ self.old.nodes }
        ensures sizes { KeepsSizes self.old.nodes self.new.nodes }
    {
        match self.events.push(event) {
            Ok(()) => Ok(()),
            Err(_) => Err(PlayFault::Memory),
        }
    }
}
