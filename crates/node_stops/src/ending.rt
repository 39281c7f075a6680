//! The ends that a node had are brought back.

ghost use Rattle.std.specs.Prelude.{◌≡◌, ◌≤◌, ◌<◌, length, OnOk, slice_get};
ghost use Rattle.hd_base.specs.Ends.{KeepsConnections};
ghost use Rattle.play_nodes.specs.declared.connections.Lower.TheVariants as Lower;
ghost use Rattle.play_nodes.specs.Places.{KeepsSizes};
ghost use Rattle.node_stops.specs.Ending.{AllKnown, AllEnd, Ends, EndsAt, LowerIsKnown, ends_here};

use hd_base::{Files, LinkIn, LinkOut, NodeId, Roads};
use play_nodes::{Connection, Lower, Nodes};
use road_traffic::brings_show;
use std::alloc::{AllocError, Global};
use std::mem;
use world_stops::{ends_elsewhere_stay, idle_flushes_are_nets, nets_stay_sane};

/// Brings back the lower ends of all connections that a node took, but for those that are kept elsewhere, and the ends of its
/// members to their mirrors.
pub(crate) fn end_all<F: Files, I: LinkIn, O: LinkOut, R: Roads<Inward = I, Outward = O>>(
    alloc: Global,
    roads: &mut R,
    nodes: &mut Nodes<F, I, O>,
    node: NodeId,
) -> Result<(), AllocError>
    requires { AllKnown (R.plain roads.old) nodes.old }
    ensures ended { OnOk result (AllEnd R.Roads I.LinkIn O.LinkOut node nodes.old nodes.new roads.old roads.new) }
    ensures sizes { KeepsSizes nodes.old nodes.new }
    ensures connections { KeepsConnections (R.plain roads.old) (R.plain roads.new) }
    ensures faults { R.faults roads.old ≤ R.faults roads.new }
{
    brings_show::<R>();
    idle_flushes_are_nets();
    nets_stay_sane();
    ends_elsewhere_stay::<R>();
    for index in 0..nodes.connections.len() {
        end_at(alloc, roads, nodes, node, index)?;
    }
    Ok(())
}

/// Brings back the end of the connection at a place, if a node took it and it isn't kept elsewhere.
fn end_at<F: Files, I: LinkIn, O: LinkOut, R: Roads<Inward = I, Outward = O>>(
    alloc: Global,
    roads: &mut R,
    nodes: &mut Nodes<F, I, O>,
    node: NodeId,
    index: usize,
) -> Result<(), AllocError>
    requires within { index < length nodes.old.connections.items }
    requires known { AllKnown (R.plain roads.old) nodes.old }
    ensures ends { OnOk result (EndsAt R.Roads I.LinkIn O.LinkOut node index nodes.old nodes.new roads.old roads.new) }
    ensures sizes { KeepsSizes nodes.old nodes.new }
    ensures connections { KeepsConnections (R.plain roads.old) (R.plain roads.new) }
    ensures faults { R.faults roads.old ≤ R.faults roads.new }
{
    if !ends_here(&nodes.connections[index], node) {
        return Ok(());
    }
    let lower = mem::replace(&mut nodes.connections[index].lower, Lower::Ended);
    end(alloc, roads, lower)
}

/// Whether a node took a connection whose lower end isn't kept elsewhere.
fn ends_here<I, O>(connection: &Connection<I, O>, node: NodeId) -> bool
    ensures { result ≡ ends_here connection.now node }
{
    node.0 == connection.node.0 && connection.lower.stands_here()
}

/// Brings back the ends of a lower end.
fn end<I: LinkIn, O: LinkOut, R: Roads<Inward = I, Outward = O>>(
    alloc: Global,
    roads: &mut R,
    lower: Lower<I, O>,
) -> Result<(), AllocError>
    requires { LowerIsKnown (R.plain roads.old) lower }
    ensures ends { OnOk result (Ends R.Roads I.LinkIn O.LinkOut lower roads.old roads.new) }
    ensures connections { KeepsConnections (R.plain roads.old) (R.plain roads.new) }
    ensures faults { R.faults roads.old ≤ R.faults roads.new }
{
    let brought = match lower {
        Lower::Idle(end) => roads.bring(alloc, end),
        Lower::Member { member, .. } => member.retire(alloc, roads),
        Lower::Ended | Lower::Elsewhere => Ok(()),
    };
    match brought {
        Ok(()) => Ok(()),
        Err(_) => Err(AllocError),
    }
}
