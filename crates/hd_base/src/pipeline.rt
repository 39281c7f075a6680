//! The members of a pipeline.

ghost use Rattle.std.specs.Prelude.{◌≡◌, ◌==◌, ℕ, ◌≤◌, ◌↔◌, length, IsSome, IfSome, IsTrue};
ghost use Rattle.std.proofs.Common.{rules};
ghost use Rattle.std.specs.Cmp.Lexicographic.{pointwise};
ghost use Rattle.std.specs.Cmp.Rules.{comparing};
ghost use Rattle.std.specs.Ordering.{on};
ghost use Rattle.hd_base.specs.Lists.{AllDistinct, IteratesOver};

use crate::numbers::NodeId;
use std::alloc::AllocError;
use std::marker::Model;
use std::{fmt, slice};

/// The most members that a pipeline has.
pub const MAX_MEMBERS: usize = 16;

/// At most 16 distinct nodes, seen as their list in pipeline order. Takes no memory.
#[derive(Drop)]
pub struct Members {
    nodes: [NodeId; MAX_MEMBERS],
    count: usize,
}

impl Model for Members {
    ghost use Rattle.std.specs.Prelude.{◌≤◌, List, take};
    ghost use Rattle.hd_base.specs.Lists.{AllDistinct};
    ghost use Rattle.hd_base.specs.declared.numbers.NodeId.{NodeId};

    ghost Value = { List NodeId };

    ghost view = { λ m. take m.count m.nodes };

    ghost invariant = { λ m. (m.count ≤ 16) × AllDistinct (take m.count m.nodes) };
}

impl Members {
    /// The members in this order, `None` exactly where there are over 16 or one stands twice.
    pub fn new(nodes: &[NodeId]) -> Option<Members>
        ensures made { IsSome result ↔ ((length nodes.now ≤ MAX_MEMBERS) × AllDistinct nodes.now) }
        ensures value { IfSome result (λ members. members ≡ nodes.now) }
    {
        if nodes.len() > MAX_MEMBERS || !are_distinct(nodes) {
            return None;
        }
        let mut kept = [NodeId(0); MAX_MEMBERS];
        kept[..nodes.len()].copy_from_slice(nodes);
        Some(Members {
            nodes: kept,
            count: nodes.len(),
        })
    }

    /// The members in pipeline order.
    pub fn as_slice(&self) -> &[NodeId]
        ensures value { result.now ≡ self.now }
        ensures within_limit { length result.now ≤ MAX_MEMBERS }
        ensures distinct { AllDistinct result.now }
    {
        &self.nodes[..self.count]
    }

    /// How many members there are, at most 16.
    pub fn len(&self) -> usize
        ensures value { result ≡ length self.now }
        ensures within_limit { result ≤ MAX_MEMBERS }
    {
        self.as_slice().len()
    }

    /// Whether there is no member.
    pub fn is_empty(&self) -> bool
        ensures { IsTrue result ↔ (length self.now ≡ 0) }
    {
        self.as_slice().is_empty()
    }

    /// The members in pipeline order.
    pub fn iter(&self) -> slice::Iter<'_, NodeId>
        ensures { IteratesOver self.now result }
    {
        self.as_slice().iter()
    }

    /// The same members once more.
    pub fn duplicate(&self) -> Members
        ensures { result ≡ self.now }
    {
        Members {
            nodes: self.nodes,
            count: self.count,
        }
    }
}

impl<'a> IntoIterator for &'a Members {
    type Item = &'a NodeId;

    type IntoIter = slice::Iter<'a, NodeId>;

    ghost into_iter_gives = { λ members it. IteratesOver members.now it };

    fn into_iter(self) -> slice::Iter<'a, NodeId> {
        self.iter()
    }
}

impl fmt::Debug for Members {
    fn fmt<W: fmt::Write>(&self, f: &mut fmt::Formatter<W>) -> fmt::Result {
        write!(f, "{:?}", self.as_slice())
    }
}

impl Clone for Members {
    ghost is_clone = { λ members copy. copy ≡ members };

    ghost is_infallible = { λ _. Unit {0} };

    fn clone(&self) -> Result<Members, AllocError> {
        Ok(self.duplicate())
    }
}

impl PartialEq for Members {
    ghost eq = { pointwise (on (λ n. n.0) ◌==◌) };

    ghost laws = { Prim.search (comparing, rules) };

    fn eq(&self, other: &Members) -> bool {
        self.as_slice() == other.as_slice()
    }
}

impl Eq for Members {
    ghost laws = { Prim.search (comparing, rules) };
}

/// Whether no node stands twice.
fn are_distinct(nodes: &[NodeId]) -> bool
    ensures { IsTrue result ↔ AllDistinct nodes.now }
{
    for (i, node) in nodes.iter().enumerate() {
        if nodes[..i].contains(node) {
            return false;
        }
    }
    true
}
