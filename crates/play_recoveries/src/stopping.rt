//! A node has stopped, whose primaries and lower ends are brought back.

ghost use Rattle.std.specs.Prelude.{◌≡◌, ◌≤◌, ◌<◌, length, OnOk};
ghost use Rattle.hd_base.specs.Ends.{KeepsConnections};
ghost use Rattle.play_nodes.specs.MemberEvents.Roads.{RoadsPass};
ghost use Rattle.play_servers.specs.Answering.{AnswerIsKnown};
ghost use Rattle.play_recoveries.specs.Stopping.{
  AreKnown,
  StopShows,
  StopsClient,
  ClientsStop,
  Ends,
  EndsAt,
  ServersEnd,
  took,
};

use crate::recoveries::Recoveries;
use hd_base::{ConnId, Files, LinkIn, LinkOut, NodeId, Roads};
use play_nodes::{Nodes, nodes_follow, nodes_stay};
use play_primaries::primary_clients_stay;
use play_servers::{AnswerEnd, ends_elsewhere_stay, idle_flushes_are_nets, nets_stay_sane};
use road_traffic::brings_show;
use std::alloc::{AllocError, Global};
use std::mem;

impl<I: LinkIn, O: LinkOut> Recoveries<I, O> {
    /// Once a node has stopped, its primaries lead no more, and the lower ends of the connections that it took from
    /// primaries are brought back: they have no further events.
    pub fn stop<F: Files, R: Roads<Inward = I, Outward = O>>(
        &mut self,
        alloc: Global,
        roads: &mut R,
        nodes: &Nodes<F, I, O>,
        node: NodeId,
    ) -> Result<(), AllocError>
        requires { AreKnown (R.plain roads.old) self.old }
        ensures shows { OnOk result (StopShows R.Roads I.LinkIn O.LinkOut node
            nodes.now self.old self.new roads.old roads.new) }
        ensures pass { RoadsPass R.Roads roads.old roads.new }
    {
        nodes_stay::<F, I, O>();
        primary_clients_stay::<I, O>();
        self.stop_clients(alloc, roads, node)?;
        self.stop_servers(alloc, roads, nodes, node)
    }

    /// The primaries at a node lead no more.
    fn stop_clients<R: Roads<Inward = I, Outward = O>>(
        &mut self,
        alloc: Global,
        roads: &mut R,
        node: NodeId,
    ) -> Result<(), AllocError>
        requires { AreKnown (R.plain roads.old) self.old }
        ensures stops { OnOk result (ClientsStop R.Roads I.LinkIn O.LinkOut node self.old self.new
            roads.old roads.new) }
        ensures known { AreKnown (R.plain roads.new) self.new }
        ensures pass { RoadsPass R.Roads roads.old roads.new }
    {
        primary_clients_stay::<I, O>();
        for place in 0..self.clients.len() {
            self.stop_client(alloc, roads, node, place)?;
        }
        Ok(())
    }

    /// That of the client at a place leads no more, if it is at a node.
    fn stop_client<R: Roads<Inward = I, Outward = O>>(
        &mut self,
        alloc: Global,
        roads: &mut R,
        node: NodeId,
        place: usize,
    ) -> Result<(), AllocError>
        requires within { place < length self.old.clients.items }
        requires known { AreKnown (R.plain roads.old) self.old }
        ensures stops { OnOk result (StopsClient R.Roads I.LinkIn O.LinkOut node place self.old self.new
            roads.old roads.new) }
        ensures known { AreKnown (R.plain roads.new) self.new }
        ensures pass { RoadsPass R.Roads roads.old roads.new }
    {
        if self.clients[place].recovery.node.0 != node.0 {
            return Ok(());
        }
        self.clients[place].stop(alloc, roads)
    }

    /// The lower ends of the connections that a node took are brought back.
    fn stop_servers<F: Files, R: Roads<Inward = I, Outward = O>>(
        &mut self,
        alloc: Global,
        roads: &mut R,
        nodes: &Nodes<F, I, O>,
        node: NodeId,
    ) -> Result<(), AllocError>
        requires { AreKnown (R.plain roads.old) self.old }
        ensures ends { OnOk result (ServersEnd R.Roads I.LinkIn O.LinkOut node nodes.now self.old self.new
            roads.old roads.new) }
        ensures pass { RoadsPass R.Roads roads.old roads.new }
    {
        nodes_follow::<F, I, O>();
        brings_show::<R>();
        idle_flushes_are_nets();
        nets_stay_sane();
        ends_elsewhere_stay::<R>();
        for place in 0..self.servers.len() {
            self.stop_at(alloc, roads, nodes, node, place)?;
        }
        Ok(())
    }

    /// Brings back the lower end at a place, if a node took its connection.
    fn stop_at<F: Files, R: Roads<Inward = I, Outward = O>>(
        &mut self,
        alloc: Global,
        roads: &mut R,
        nodes: &Nodes<F, I, O>,
        node: NodeId,
        place: usize,
    ) -> Result<(), AllocError>
        requires within { place < length self.old.servers.items }
        requires known { AreKnown (R.plain roads.old) self.old }
        ensures ends { OnOk result (EndsAt R.Roads I.LinkIn O.LinkOut nodes.now node place
            self.old self.new roads.old roads.new) }
        ensures pass { RoadsPass R.Roads roads.old roads.new }
    {
        if !took(nodes, node, self.servers[place].conn) {
            return Ok(());
        }
        let end = mem::replace(&mut self.servers[place].end, AnswerEnd::Ended);
        bring(alloc, roads, end)
    }
}

/// Whether a node took a connection.
fn took<F: Files, I: LinkIn, O: LinkOut>(nodes: &Nodes<F, I, O>, node: NodeId, conn: ConnId) -> bool
    ensures { result ≡ took nodes.now.connections.items node conn.0 }
{
    match nodes.connections.get(conn.0 as usize) {
        Some(connection) => node.0 == connection.node.0,
        None => false,
    }
}

/// Brings back a lower end, if it has further events.
fn bring<I: LinkIn, O: LinkOut, R: Roads<Inward = I, Outward = O>>(
    alloc: Global,
    roads: &mut R,
    end: AnswerEnd<I, O>,
) -> Result<(), AllocError>
    requires { AnswerIsKnown (R.plain roads.old) end }
    ensures ends { OnOk result (Ends R.Roads I.LinkIn O.LinkOut end roads.old roads.new) }
    ensures connections { KeepsConnections (R.plain roads.old) (R.plain roads.new) }
    ensures faults { R.faults roads.old ≤ R.faults roads.new }
{
    let brought = match end {
        AnswerEnd::Idle(end) => roads.bring(alloc, end),
        AnswerEnd::Answering { recovering, .. } => roads.bring(alloc, recovering.end),
        AnswerEnd::Ended => Ok(()),
    };
    match brought {
        Ok(()) => Ok(()),
        Err(_) => Err(AllocError),
    }
}
