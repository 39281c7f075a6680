//! Reaching the mirror.

ghost use Rattle.std.specs.Prelude.{◌≡◌, ◌≤◌};
ghost use Rattle.hd_base.specs.Ends.{IsKnown};
ghost use Rattle.member_core.specs.declared.requests.TheConstants.{MAX_PORT};
ghost use Rattle.pipe_setup.specs.Requests.{first_port};
ghost use Rattle.link_pieces.specs.Roads.{IsDialled};
ghost use Rattle.pipe_setup.specs.Reaching.{IsListening, Reaches, ReachesPort};

use crate::requests::request_text;
use hd_base::{Conn, NodeId, RoadError, Roads};
use link_pieces::{give_up, send_piece, take_room};
use member_core::MAX_PORT;
use op_headers::WriteOp;
use std::alloc::Global;

/// How the mirror was reached.
#[derive(Drop)]
pub(crate) enum Reached<I, O> {
    /// The request was sent on this end.
    Asked(Conn<I, O>),
    /// The dial was answered, and the link of this end failed before the request was sent.
    Unsent(Conn<I, O>),
    /// It wasn't dialled, or its dial wasn't answered.
    NotDialled,
    /// Memory ran out. An end that was dialled is given up.
    Memory,
}

/// Dials the mirror of a request, and sends it the request that goes on.
pub(crate) fn reach_mirror<R: Roads>(
    alloc: Global,
    node: NodeId,
    op: &WriteOp,
    roads: &mut R,
) -> Reached<R::Inward, R::Outward>
    ensures { Reaches R.Roads R.Inward.LinkIn R.Outward.LinkOut node op.now roads.old roads.new result }
{
    let Ok(found) = request_text(alloc, node, op) else {
        return Reached::Memory;
    };
    let Some(text) = found else {
        return Reached::NotDialled;
    };
    dial_mirror(alloc, first_port(op), &text, roads)
}

/// The port of the first target.
fn first_port(op: &WriteOp) -> u16
    requires { first_port op.now.targets ≤ MAX_PORT }
    ensures { result ≡ first_port op.now.targets }
{
    match op.targets.as_slice() {
        [mirror, ..] => mirror.xfer as u16,
        [] => 0,
    }
}

/// Dials a port, and sends it this request.
fn dial_mirror<R: Roads>(
    alloc: Global,
    port: u16,
    text: &[u8],
    roads: &mut R,
) -> Reached<R::Inward, R::Outward>
    ensures { ReachesPort R.Roads R.Inward.LinkIn R.Outward.LinkOut text.now port roads.old roads.new result }
{
    match roads.dial(alloc, port) {
        Ok(end) => ask_mirror(alloc, port, text, roads, end),
        Err(RoadError::Memory) => Reached::Memory,
        Err(RoadError::NotListening | RoadError::Failed) => Reached::NotDialled,
    }
}

/// Sends the request on an end that was dialled.
fn ask_mirror<R: Roads>(
    alloc: Global,
    port: u16,
    text: &[u8],
    roads: &mut R,
    mut end: Conn<R::Inward, R::Outward>,
) -> Reached<R::Inward, R::Outward>
    requires { IsKnown (R.plain roads.old) end.id.0 }
    ensures { (first : R) → IsListening R.Roads port first →
        IsDialled R.Roads R.Inward.LinkIn R.Outward.LinkOut port first roads.old end
        → ReachesPort R.Roads R.Inward.LinkIn R.Outward.LinkOut text.now port first roads.new result }
{
    if take_room(alloc, &mut end.outward, text.len()).is_err() {
        give_up(alloc, roads, end);
        return Reached::Memory;
    }
    match send_piece(&mut end.outward, text) {
        Ok(_) => Reached::Asked(end),
        Err(_) => Reached::Unsent(end),
    }
}
