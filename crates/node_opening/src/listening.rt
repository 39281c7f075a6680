//! The nodes of a play listen.

ghost use Rattle.std.specs.Prelude.{◌≡◌, ◌≤◌, ◌<◌, ◌+◌, IfErr, OnOk};
ghost use Rattle.hd_base.specs.declared.roads.TheConstants.{MAX_NODES};
ghost use Rattle.node_opening.specs.Listening.{ListensAt, ListenAll, IsRoadFault};

use crate::faults::{OpenFault, road_fault};
use hd_base::{NodeId, Roads};
use road_traffic::listen;
use std::alloc::Global;

/// A node listens on its port.
fn listen_at<R: Roads>(alloc: Global, roads: &mut R, node: NodeId) -> Result<(), OpenFault>
    requires { node.0 < MAX_NODES }
    ensures shows { OnOk result (ListensAt R.Roads node.0 roads.old roads.new) }
    ensures cause { IfErr result (IsRoadFault (R.faults roads.old) (R.faults roads.new)) }
    ensures never_falls { R.faults roads.old ≤ R.faults roads.new }
    ensures risen { R.risen roads.new ≡ R.risen roads.old }
{
    match listen(alloc, roads, node) {
        Ok(_) => Ok(()),
        Err(error) => Err(road_fault(error)),
    }
}

/// So many nodes listen, each on its port.
pub(crate) fn listen_all<R: Roads>(
    alloc: Global,
    roads: &mut R,
    nodes: u32,
) -> Result<(), OpenFault>
    requires { nodes ≤ MAX_NODES }
    ensures shows { OnOk result (ListenAll R.Roads nodes roads.old roads.new) }
    ensures cause { IfErr result (IsRoadFault (R.faults roads.old) (R.faults roads.new)) }
    ensures never_falls { R.faults roads.old ≤ R.faults roads.new }
    ensures risen { R.risen roads.new ≡ R.risen roads.old }
{
    for node in 0..nodes {
        listen_at(alloc, roads, NodeId(node))?;
    }
    Ok(())
}
