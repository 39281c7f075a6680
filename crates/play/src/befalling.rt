//! What befalls a play where something is due: a write on a data file may fail in its place.

ghost use Rattle.std.specs.Prelude.{◌≡◌, ◌==◌, true, option_map, slice_get};
ghost use Rattle.node_stops.specs.MemberEvents.Roads.{RoadsPass};
ghost use Rattle.node_stops.specs.PlayNodes.Places.{KeepsSizes};
ghost use Rattle.node_stops.specs.PlayNodes.Showing.{Stand};
ghost use Rattle.play.specs.Befalling.{number_in, RunsDown, down_of, TellsWriting, BefallShows, MemberBefalls};
ghost use Rattle.play.specs.Events.{DownShows};
ghost use Rattle.play.specs.Showing.{PlayerStands};

use crate::faults::{PlayFault, of_nodes};
use crate::laws::{pipelines_leave_others, worlds_are_lawful};
use crate::player::Player;
use hd_base::{ConnId, Files, LinkIn, LinkOut, NodeId, Roads};
use node_stops::nodes_keep_writers;
use play_dues::clients_stay;
use play_laws::running_stays;
use play_model::Due;
use refusing_files::Refusing;
use std::alloc::Global;

/// The connection at which the lower end takes what stands next, if that is due.
fn down_of(due: &Due) -> Option<ConnId>
    ensures { result ≡ down_of due.now }
{
    match due {
        Due::Down { conn } => Some(*conn),
        Due::Own { .. }
        | Due::Reader { .. }
        | Due::Primary { .. }
        | Due::Ready { .. }
        | Due::Up { .. } => None,
    }
}

/// The number of a node, 0 where it has none.
fn number_in(numbers: &[u64], node: NodeId) -> u64
    ensures { result ≡ number_in numbers.now node.0 }
{
    match numbers.get(node.0 as usize) {
        Some(number) => *number,
        None => 0,
    }
}

/// Whether the next write at a node is to fail.
fn fails_next(numbers: &[u64], node: NodeId) -> bool
    ensures { result ≡ (number_in numbers.now node.0 == 1) }
{
    number_in(numbers, node) == 1
}

/// The number of a node runs down, if something was written there.
fn run_down(numbers: &mut [u64], node: NodeId, writes: bool)
    ensures { RunsDown writes node.0 numbers.old numbers.new }
{
    if !writes {
        return;
    }
    let place = node.0 as usize;
    if place < numbers.len() {
        numbers[place] = numbers[place].saturating_sub(1);
    }
}

impl<F: Files, I: LinkIn, O: LinkOut> Player<F, I, O> {
    /// The connection at which a member takes what stands next, if that is due: nothing else writes on a data file.
    fn member_of(&self, due: &Due) -> Option<ConnId>
        ensures { TellsWriting I.LinkIn O.LinkOut due.now self.now.nodes result }
    {
        let conn = down_of(due)?;
        if self.nodes.is_elsewhere(conn) || self.nodes.takes_first(conn) {
            return None;
        }
        Some(conn)
    }

    /// The node at the lower end of a connection.
    fn node_below(&self, conn: ConnId) -> Option<NodeId>
        ensures { result ≡ option_map (λ x. x.node) (slice_get self.now.nodes.connections.items conn.0) }
    {
        match self.nodes.connections.get(conn.0 as usize) {
            Some(connection) => Some(connection.node),
            None => None,
        }
    }
}

impl<F: Refusing, I: LinkIn, O: LinkOut> Player<F, I, O> {
    /// Something that is due befalls: it happens, unless it writes on a data file and the number of its node has run down
    /// to this write, which fails then. With each such write the number of its node, if it isn't 0, runs down by one.
    pub fn befall<R: Roads<Inward = I, Outward = O>>(
        &mut self,
        alloc: Global,
        roads: &mut R,
        numbers: &mut [u64],
        due: Due,
    ) -> Result<(), PlayFault>
        requires { PlayerStands R.Roads I.LinkIn O.LinkOut roads.old self.old }
        ensures shows { BefallShows F.Files R.Roads I.LinkIn O.LinkOut due numbers.old numbers.new
            self.old self.new roads.old roads.new result }
        ensures sizes { KeepsSizes self.old.nodes self.new.nodes }
        ensures pass { RoadsPass R.Roads roads.old roads.new }
    {
        worlds_are_lawful();
        let Some(conn) = self.member_of(&due) else {
            return self.happen(alloc, roads, due);
        };
        self.member_befalls(alloc, roads, numbers, conn)
    }

    /// What stands next at a member befalls.
    fn member_befalls<R: Roads<Inward = I, Outward = O>>(
        &mut self,
        alloc: Global,
        roads: &mut R,
        numbers: &mut [u64],
        conn: ConnId,
    ) -> Result<(), PlayFault>
        requires { PlayerStands R.Roads I.LinkIn O.LinkOut roads.old self.old }
        ensures shows { MemberBefalls F.Files R.Roads I.LinkIn O.LinkOut conn numbers.old numbers.new
            self.old self.new roads.old roads.new result }
        ensures sizes { KeepsSizes self.old.nodes self.new.nodes }
        ensures pass { RoadsPass R.Roads roads.old roads.new }
    {
        worlds_are_lawful();
        let Some(node) = self.node_below(conn) else {
            return Ok(());
        };
        let refuses = fails_next(numbers, node);
        let writes = self.write_down(alloc, roads, conn, refuses)?;
        run_down(numbers, node, writes);
        Ok(())
    }

    /// The member at the lower end of a connection takes what stands next from above. A write on its data file is refused,
    /// if such writes are to be. Answers whether there was one.
    fn write_down<R: Roads<Inward = I, Outward = O>>(
        &mut self,
        alloc: Global,
        roads: &mut R,
        conn: ConnId,
        refuses: bool,
    ) -> Result<bool, PlayFault>
        requires { Stand R.Roads I.LinkIn O.LinkOut roads.old self.old.nodes }
        ensures shows { DownShows F.Files R.Roads I.LinkIn O.LinkOut conn refuses
            self.old self.new roads.old roads.new result }
        ensures sizes { KeepsSizes self.old.nodes self.new.nodes }
        ensures pass { RoadsPass R.Roads roads.old roads.new }
    {
        if refuses {
            self.refusing_down(alloc, roads, conn)
        } else {
            self.member_down(alloc, roads, conn)
        }
    }

    /// The member at the lower end of a connection takes what stands next from above, while its files refuse the writes on
    /// its data file. Answers whether one was refused.
    fn refusing_down<R: Roads<Inward = I, Outward = O>>(
        &mut self,
        alloc: Global,
        roads: &mut R,
        conn: ConnId,
    ) -> Result<bool, PlayFault>
        requires { Stand R.Roads I.LinkIn O.LinkOut roads.old self.old.nodes }
        ensures shows { DownShows F.Files R.Roads I.LinkIn O.LinkOut conn true
            self.old self.new roads.old roads.new result }
        ensures sizes { KeepsSizes self.old.nodes self.new.nodes }
        ensures pass { RoadsPass R.Roads roads.old roads.new }
    {
        pipelines_leave_others::<I, O>();
        nodes_keep_writers();
        running_stays();
        clients_stay::<I, O>();
        match self.nodes.refusing_down(alloc, roads, conn) {
            Ok(refused) => self.keep_down(conn, refused, refused),
            Err(fault) => Err(of_nodes(fault)),
        }
    }
}
