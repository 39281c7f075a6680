//! How a member is dialled.

ghost use Rattle.std.specs.Prelude.{◌≡◌, IfOk, OnErr};
ghost use Rattle.link_pieces.specs.Roads.{KeepsRoads};
ghost use Rattle.block_recovery.specs.Dialling.{dial_port, Dials, LinkIsKnown, KeepsKnown};

use crate::links::{Link, Seat};
use hd_base::{FIRST_PORT, NodeId, RoadError, Roads};
use link_messages::Incoming;
use std::alloc::{AllocError, Global};

/// Dials a member. The place is empty where the dial isn't answered, or the node has no port.
pub(crate) fn dial<R: Roads>(
    alloc: Global,
    node: NodeId,
    roads: &mut R,
) -> Result<Seat<R::Inward, R::Outward>, AllocError>
    ensures dials { Dials R.Roads R.Inward.LinkIn R.Outward.LinkOut node roads.old roads.new result }
    ensures known { IfOk result (LinkIsKnown (R.plain roads.new)) }
    ensures kept { KeepsKnown (R.plain roads.old) (R.plain roads.new) }
    ensures err { OnErr result (KeepsRoads R.Roads roads.old roads.new) }
{
    let Some(port) = dial_port(node) else {
        return Ok(Seat::Empty);
    };
    let incoming = Incoming::new(alloc)?;
    match roads.dial(alloc, port) {
        Ok(end) => Ok(Seat::Open(Link {
            end,
            incoming,
            asked: false,
            failed: false,
            over: false,
        })),
        Err(RoadError::Memory) => Err(AllocError),
        Err(RoadError::NotListening | RoadError::Failed) => Ok(Seat::Empty),
    }
}

/// A node's port, `None` where its number is too great for one.
pub(crate) fn dial_port(node: NodeId) -> Option<u16>
    ensures { result ≡ dial_port node }
{
    u16::try_from(u32::from(FIRST_PORT).saturating_add(node.0)).ok()
}
