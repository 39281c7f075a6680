//! A node has stopped, whose lower ends of connections that readers dialled are brought back.

ghost use Rattle.std.specs.Prelude.{◌≡◌, ◌≤◌, ◌<◌, length, OnOk};
ghost use Rattle.hd_base.specs.Ends.{KeepsConnections};
ghost use Rattle.play_nodes.specs.MemberEvents.Roads.{RoadsPass};
ghost use Rattle.play_servers.specs.Known.{EndIsKnown};
ghost use Rattle.play_reads.specs.Stopping.{AreKnown, StopShows, EndsAt, Ends, conn_of, took};

use crate::reads::Reads;
use hd_base::{Conn, ConnId, Files, LinkIn, LinkOut, NodeId, Roads};
use play_nodes::{Nodes, nodes_follow};
use play_primaries::read_clients_stay;
use play_servers::{ReadEnd, ends_elsewhere_stay, idle_flushes_are_nets, nets_stay_sane};
use road_traffic::brings_show;
use std::alloc::{AllocError, Global};
use std::mem;

impl<I: LinkIn, O: LinkOut> Reads<I, O> {
    /// Once a node has stopped, the lower ends of the connections that it took from readers are brought back: they have
    /// no further events.
    pub fn stop<F: Files, R: Roads<Inward = I, Outward = O>>(
        &mut self,
        alloc: Global,
        roads: &mut R,
        nodes: &Nodes<F, I, O>,
        node: NodeId,
    ) -> Result<(), AllocError>
        requires { AreKnown (R.plain roads.old) self.old }
        ensures shows { OnOk result (StopShows R.Roads I.LinkIn O.LinkOut node
            nodes.now self.old self.new roads.old roads.new) }
        ensures pass { RoadsPass R.Roads roads.old roads.new }
    {
        nodes_follow::<F, I, O>();
        brings_show::<R>();
        idle_flushes_are_nets();
        nets_stay_sane();
        ends_elsewhere_stay::<R>();
        read_clients_stay::<I, O>();
        for place in 0..self.servers.len() {
            self.stop_at(alloc, roads, nodes, node, place)?;
        }
        Ok(())
    }

    /// Brings back the lower end at a place, if a node took its connection.
    fn stop_at<F: Files, R: Roads<Inward = I, Outward = O>>(
        &mut self,
        alloc: Global,
        roads: &mut R,
        nodes: &Nodes<F, I, O>,
        node: NodeId,
        place: usize,
    ) -> Result<(), AllocError>
        requires within { place < length self.old.servers.items }
        requires known { AreKnown (R.plain roads.old) self.old }
        ensures ends { OnOk result (EndsAt R.Roads I.LinkIn O.LinkOut nodes.now node place
            self.old self.new roads.old roads.new) }
        ensures pass { RoadsPass R.Roads roads.old roads.new }
    {
        if !took(nodes, node, self.servers[place].conn) {
            return Ok(());
        }
        let end = mem::replace(&mut self.servers[place].end, ReadEnd::Ended);
        bring(alloc, roads, end)
    }
}

/// Whether a node took a connection.
fn took<F: Files, I: LinkIn, O: LinkOut>(nodes: &Nodes<F, I, O>, node: NodeId, conn: ConnId) -> bool
    ensures { result ≡ took nodes.now.connections.items node conn.0 }
{
    match nodes.connections.get(conn.0 as usize) {
        Some(connection) => node.0 == connection.node.0,
        None => false,
    }
}

/// Brings back a lower end, if it has further events.
fn bring<I: LinkIn, O: LinkOut, R: Roads<Inward = I, Outward = O>>(
    alloc: Global,
    roads: &mut R,
    end: ReadEnd<I, O>,
) -> Result<(), AllocError>
    requires { EndIsKnown (R.plain roads.old) end }
    ensures ends { OnOk result (Ends R.Roads I.LinkIn O.LinkOut end roads.old roads.new) }
    ensures connections { KeepsConnections (R.plain roads.old) (R.plain roads.new) }
    ensures faults { R.faults roads.old ≤ R.faults roads.new }
{
    let Some(end) = conn_of(end) else {
        return Ok(());
    };
    match roads.bring(alloc, end) {
        Ok(()) => Ok(()),
        Err(_) => Err(AllocError),
    }
}

/// The end of the connection, if it has further events.
fn conn_of<I: Drop, O: Drop>(end: ReadEnd<I, O>) -> Option<Conn<I, O>>
    ensures { result ≡ conn_of end }
{
    match end {
        ReadEnd::Idle(end) => Some(end),
        ReadEnd::Serving { read, .. } => Some(read.end),
        ReadEnd::Ended => None,
    }
}
