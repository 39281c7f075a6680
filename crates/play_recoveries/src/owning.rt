//! The own step of a primary.

ghost use Rattle.std.specs.Prelude.{◌≡◌, ◌<◌, [], ◌∷◌, length};
ghost use Rattle.play_nodes.specs.MemberEvents.Roads.{RoadsPass};
ghost use Rattle.play_nodes.specs.Places.{KeepsSizes};
ghost use Rattle.play_recoveries.specs.Owning.{OwnShows, Reaches, Serve, misses, misses_any};
ghost use Rattle.play_recoveries.specs.Showing.{Stand};

use crate::faults::{RecoveriesFault, of_primary};
use crate::recoveries::Recoveries;
use hd_base::{Conn, Files, LinkIn, LinkOut, NodeId, Roads};
use name_core::Desk;
use play_nodes::{Nodes, nodes_stay};
use play_primaries::{primaries_keep_nodes, primaries_keep_others, primary_clients_stay};
use play_servers::{AnswerEnd, RecoveryServer};
use std::alloc::Global;

impl<I: LinkIn, O: LinkOut> Recoveries<I, O> {
    /// The primary of the client at a place takes its own step: it begins, dials its members, and sends each the INIT;
    /// it sends those chosen the UPDATE; or it ends the recovery. It asks the office to begin, and to commit. The
    /// connections that it dialled stand behind those of the nodes then, and their lower ends behind those of the
    /// recoveries. These are the nodes that run: where the dial of one isn't answered the roads have failed.
    pub fn own<F: Files, D: Desk, R: Roads<Inward = I, Outward = O>>(
        &mut self,
        alloc: Global,
        office: &mut D,
        roads: &mut R,
        nodes: &mut Nodes<F, I, O>,
        running: &[bool],
        place: usize,
    ) -> Result<(), RecoveriesFault>
        requires stands { Stand R.Roads I.LinkIn O.LinkOut roads.old nodes.old self.old }
        requires within { place < length self.old.clients.items }
        ensures shows { OwnShows D.Desk F.Files R.Roads I.LinkIn O.LinkOut running.now place
            nodes.old nodes.new self.old self.new office.old office.new roads.old roads.new result }
        ensures sizes { KeepsSizes nodes.old nodes.new }
        ensures pass { RoadsPass R.Roads roads.old roads.new }
    {
        nodes_stay::<F, I, O>();
        primaries_keep_nodes();
        primaries_keep_others();
        primary_clients_stay::<I, O>();
        match self.clients[place].own(alloc, office, roads) {
            Ok(lowers) => self.reach(nodes, running, place, lowers),
            Err(fault) => Err(of_primary(fault)),
        }
    }

    /// What follows a step in which these lower ends were handed out: the connections stand behind those of the nodes,
    /// and the lower ends behind those of the recoveries.
    fn reach<F: Files>(
        &mut self,
        nodes: &mut Nodes<F, I, O>,
        running: &[bool],
        place: usize,
        lowers: Vec<Option<Conn<I, O>>>,
    ) -> Result<(), RecoveriesFault>
        requires { place < length self.old.clients.items }
        ensures reaches { Reaches I.LinkIn O.LinkOut running.now place lowers.items
            nodes.old nodes.new self.old self.new result }
        ensures sizes { KeepsSizes nodes.old nodes.new }
    {
        let recovery = &self.clients[place].recovery;
        let members = recovery.members.as_slice();
        if misses_any(running, members, lowers.as_slice()) {
            return Err(RecoveriesFault::RoadsFailed);
        }
        match nodes.led(recovery.primary, recovery.node, members, lowers.as_slice()) {
            Ok(()) => self.serve(lowers),
            Err(_) => Err(RecoveriesFault::Memory),
        }
    }

    /// Puts lower ends that have taken nothing yet behind the others.
    fn serve(&mut self, lowers: Vec<Option<Conn<I, O>>>) -> Result<(), RecoveriesFault>
        ensures { Serve lowers.items self.old self.new result }
    {
        for lower in lowers {
            self.serve_one(lower)?;
        }
        Ok(())
    }

    /// Puts this one there, if the dial was answered.
    fn serve_one(&mut self, lower: Option<Conn<I, O>>) -> Result<(), RecoveriesFault>
        ensures { Serve (lower ∷ []) self.old self.new result }
    {
        let Some(end) = lower else {
            return Ok(());
        };
        let server = RecoveryServer {
            conn: end.id,
            end: AnswerEnd::Idle(end),
        };
        match self.servers.push(server) {
            Ok(()) => Ok(()),
            Err(_) => Err(RecoveriesFault::Memory),
        }
    }
}

/// Whether a member's dial wasn't answered, though its node runs.
fn misses_any<I: Drop, O: Drop>(
    running: &[bool],
    members: &[NodeId],
    lowers: &[Option<Conn<I, O>>],
) -> bool
    ensures { result ≡ misses_any running.now members.now lowers.now }
{
    members
        .iter()
        .zip(lowers.iter())
        .any(|(member, lower)| misses(running, *member, lower))
}

/// Whether this member's wasn't.
fn misses<I: Drop, O: Drop>(running: &[bool], member: NodeId, lower: &Option<Conn<I, O>>) -> bool
    ensures { result ≡ misses running.now member lower.now }
{
    match running.get(member.0 as usize) {
        Some(runs) => *runs && lower.is_none(),
        None => false,
    }
}
