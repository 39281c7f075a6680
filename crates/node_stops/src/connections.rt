//! The connections of a node.

ghost use Rattle.std.specs.Prelude.{◌≡◌, ℕ, IfOk, Some, slice_get};
ghost use Rattle.world_stops.specs.Stopping.{is_among};
ghost use Rattle.node_stops.specs.Connections.{has_end_at, is_at, is_dialled_at, is_taken_at};

use hd_base::{ConnId, NodeId};
use play_nodes::{Connection, Upper};
use std::alloc::{AllocError, Global};

/// The connections with an end at a node: those that it took, and those that its members and primaries dialled.
pub(crate) fn connections_of<I: Drop, O: Drop>(
    alloc: Global,
    connections: &[Connection<I, O>],
    node: NodeId,
) -> Result<Vec<ConnId>, AllocError>
    ensures { IfOk result (λ found. (c : ℕ) → is_among found.items c ≡ is_at connections.now node c) }
{
    let mut found = Vec::new(alloc);
    for index in 0..connections.len() {
        if is_at(connections, node, index) {
            found.push(ConnId(index as u64))?;
        }
    }
    Ok(found)
}

/// Whether the connection at a place has an end at a node.
fn is_at<I: Drop, O: Drop>(connections: &[Connection<I, O>], node: NodeId, index: usize) -> bool
    ensures { result ≡ is_at connections.now node index }
{
    match connections.get(index) {
        Some(connection) => has_end_at(connections, node, connection),
        None => false,
    }
}

/// Whether a connection has an end at a node.
fn has_end_at<I: Drop, O: Drop>(
    connections: &[Connection<I, O>],
    node: NodeId,
    connection: &Connection<I, O>,
) -> bool
    ensures { result ≡ has_end_at connections.now node (Some connection.now) }
{
    node.0 == connection.node.0 || is_dialled_at(connections, node, connection.upper)
}

/// Whether a member or a primary at a node dialled.
fn is_dialled_at<I: Drop, O: Drop>(
    connections: &[Connection<I, O>],
    node: NodeId,
    upper: Upper,
) -> bool
    ensures { result ≡ is_dialled_at connections.now node upper }
{
    match upper {
        Upper::Member { conn } => is_taken_at(connections, node, conn.0 as usize),
        Upper::Primary { node: from, .. } => node.0 == from.0,
        Upper::Writer { .. } | Upper::Reader { .. } => false,
    }
}

/// Whether a node took the connection at a place.
fn is_taken_at<I: Drop, O: Drop>(
    connections: &[Connection<I, O>],
    node: NodeId,
    index: usize,
) -> bool
    ensures { result ≡ is_taken_at (slice_get connections.now index) node }
{
    match connections.get(index) {
        Some(connection) => node.0 == connection.node.0,
        None => false,
    }
}
