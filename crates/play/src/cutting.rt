//! A connection of a play is cut.

ghost use Rattle.std.specs.Prelude.{◌<◌, length};
ghost use Rattle.node_stops.specs.MemberEvents.Roads.{RoadsPass};
ghost use Rattle.node_stops.specs.PlayNodes.Places.{KeepsSizes};
ghost use Rattle.play.specs.Showing.{PlayerStands};
ghost use Rattle.play.specs.Cutting.{CutShows};

use crate::faults::PlayFault;
use crate::laws::{pipelines_leave_others, worlds_are_lawful};
use crate::player::Player;
use fault_ports::CutRoads;
use hd_base::{ConnId, Files, LinkIn, LinkOut};
use node_stops::{cuts_are_losses, cuts_show, ends_stay_in_cuts, nodes_stay};
use play_dues::clients_stay;
use world::{Direction, Event};

impl<F: Files, I: LinkIn, O: LinkOut> Player<F, I, O> {
    /// A connection ends: of the messages on their way so many still arrive, down and up. What is sent on it later is
    /// lost.
    pub fn cut<R: CutRoads<Inward = I, Outward = O>>(
        &mut self,
        roads: &mut R,
        conn: ConnId,
        down: u64,
        up: u64,
    ) -> Result<(), PlayFault>
        requires stands { PlayerStands R.Roads I.LinkIn O.LinkOut roads.old self.old }
        requires within { conn.0 < length self.old.nodes.connections.items }
        ensures shows { CutShows R.Roads I.LinkIn O.LinkOut conn down up self.old self.new roads.old roads.new result }
        ensures sizes { KeepsSizes self.old.nodes self.new.nodes }
        ensures pass { RoadsPass R.Roads roads.old roads.new }
    {
        worlds_are_lawful();
        pipelines_leave_others::<I, O>();
        cuts_show::<R>();
        cuts_are_losses();
        ends_stay_in_cuts::<I, O>();
        nodes_stay::<F, I, O>();
        clients_stay::<I, O>();
        let Ok(()) = roads.cut(conn, down, up) else {
            return Err(PlayFault::Memory);
        };
        self.keep(Event::Lost {
            conn,
            direction: Direction::Down,
            more: down,
        })?;
        self.keep(Event::Lost {
            conn,
            direction: Direction::Up,
            more: up,
        })
    }
}
