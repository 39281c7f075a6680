//! A request of a recovery, sent to members.

ghost use Rattle.std.specs.Prelude.{◌≡◌, IfOk, option_map, length};
ghost use Rattle.op_headers.specs.declared.ops.Op.TheVariants as Op;
ghost use Rattle.recovery_core.specs.Primaries.{request_of};
ghost use Rattle.block_recovery.specs.Dialling.{KeepsEnds};
ghost use Rattle.block_recovery.specs.Requests.{IsText, SendsRequest};

use crate::actions::send_all;
use crate::links::Seat;
use hd_base::{LinkOut, Members};
use op_headers::{Op, RecoveryKind, encode_op};
use recovery_core::Primary as Core;
use std::alloc::{AllocError, Global};

/// Sends the INIT, or the UPDATE to a length, to each of the chosen members.
pub(crate) fn send_request<I: Drop, O: LinkOut>(
    alloc: Global,
    core: &Core,
    kind: RecoveryKind,
    new_length: u64,
    members: &Members,
    chosen: &Members,
    links: &mut [Seat<I, O>],
) -> Result<(), AllocError>
    ensures sends { SendsRequest O.LinkOut (Op.Recovery (request_of core.now kind new_length)) members.now chosen.now
        links.old links.new result }
    ensures count { length links.new ≡ length links.old }
    ensures ends { KeepsEnds links.old links.new }
{
    let op = Op::Recovery(core.request(alloc, kind, new_length)?);
    send_op(alloc, &op, members, chosen, links)
}

/// Sends a request to each of the chosen members.
fn send_op<I: Drop, O: LinkOut>(
    alloc: Global,
    op: &Op,
    members: &Members,
    chosen: &Members,
    links: &mut [Seat<I, O>],
) -> Result<(), AllocError>
    ensures sends { SendsRequest O.LinkOut op.now members.now chosen.now links.old links.new result }
    ensures count { length links.new ≡ length links.old }
    ensures ends { KeepsEnds links.old links.new }
{
    match request_text(alloc, op)? {
        Some(text) => send_all(alloc, &text, members, chosen, links),
        None => Ok(()),
    }
}

/// A request as it is written, `None` where it isn't one that may be written.
fn request_text(alloc: Global, op: &Op) -> Result<Option<Vec<u8>>, AllocError>
    ensures { IfOk result (λ found. IsText op.now (option_map (λ text. text.items) found)) }
{
    if !op.is_encodable(alloc)? {
        return Ok(None);
    }
    let mut text = Vec::new(alloc);
    encode_op(op, &mut text)?;
    Ok(Some(text))
}
