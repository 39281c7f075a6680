//! What a block recovery learns of replicas.

ghost use Rattle.std.specs.Prelude.{◌≡◌, ◌≤◌, ◌↔◌, length, Any, IsSome, IfSome, IsTrue};
ghost use Rattle.hd_base.specs.Lists.{IteratesOver};
ghost use Rattle.name_core.specs.Infos.{NodesDiffer};

use hd_base::{MAX_MEMBERS, NodeId, ReplicaState, Stamp};
use std::marker::Model;
use std::{fmt, slice};

/// What a block recovery learns of a replica from the node's answer.
#[derive(Clone, Copy, Debug, PartialEq, Eq)]
pub struct Info {
    /// The node.
    pub node: NodeId,
    /// The state of the replica before the recovery began there.
    pub state: ReplicaState,
    /// The replica's stamp.
    pub stamp: Stamp,
    /// How many bytes are written.
    pub length: u64,
}

/// What a block recovery learned, of at most 16 different nodes, seen as its list in the order of
/// the members that the recovery asked. Takes no memory.
#[derive(Drop)]
pub struct Infos {
    infos: [Info; MAX_MEMBERS],
    count: usize,
}

impl Model for Infos {
    ghost use Rattle.std.specs.Prelude.{◌≤◌, List, take};
    ghost use Rattle.name_core.specs.declared.infos.Info.{Info};
    ghost use Rattle.name_core.specs.Infos.{NodesDiffer};

    ghost Value = { List Info };

    ghost view = { λ i. take i.count i.infos };

    ghost invariant = { λ i. (i.count ≤ 16) × NodesDiffer (take i.count i.infos) };
}

impl Infos {
    /// The infos in this order, `None` exactly where there are over 16 or a node stands twice.
    pub fn new(infos: &[Info]) -> Option<Infos>
        ensures made { IsSome result ↔ ((length infos.now ≤ MAX_MEMBERS) × NodesDiffer infos.now) }
        ensures value { IfSome result (λ made. made ≡ infos.now) }
    {
        if infos.len() > MAX_MEMBERS || !are_of_different_nodes(infos) {
            return None;
        }
        let mut kept = [UNUSED; MAX_MEMBERS];
        kept[..infos.len()].copy_from_slice(infos);
        Some(Infos {
            infos: kept,
            count: infos.len(),
        })
    }

    /// The infos in their order.
    pub fn as_slice(&self) -> &[Info]
        ensures value { result.now ≡ self.now }
        ensures within_limit { length result.now ≤ MAX_MEMBERS }
        ensures different { NodesDiffer result.now }
    {
        &self.infos[..self.count]
    }

    /// The infos in their order.
    pub fn iter(&self) -> slice::Iter<'_, Info>
        ensures { IteratesOver self.now result }
    {
        self.as_slice().iter()
    }
}

impl fmt::Debug for Infos {
    fn fmt<W: fmt::Write>(&self, f: &mut fmt::Formatter<W>) -> fmt::Result {
        write!(f, "{:?}", self.as_slice())
    }
}

/// What stands in the places behind the last info.
const UNUSED: Info = Info {
    node: NodeId(0),
    state: ReplicaState::Rbw,
    stamp: Stamp(0),
    length: 0,
};

/// Whether no node stands twice.
fn are_of_different_nodes(infos: &[Info]) -> bool
    ensures { IsTrue result ↔ NodesDiffer infos.now }
{
    for (i, info) in infos.iter().enumerate() {
        if has_node(&infos[..i], info.node) {
            return false;
        }
    }
    true
}

/// Whether one of the infos is of this node.
fn has_node(infos: &[Info], node: NodeId) -> bool
    ensures { IsTrue result ↔ Any (λ info. info.node ≡ node) infos.now }
{
    infos.iter().any(|info| info.node == node)
}
