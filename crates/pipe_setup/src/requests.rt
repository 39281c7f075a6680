//! The request that goes on to the mirror.

ghost use Rattle.std.specs.Prelude.{◌≡◌, IfOk, option_map};
ghost use Rattle.pipe_setup.specs.Requests.{IsWrite, request_text, sized_text};

use hd_base::NodeId;
use member_core::mirror_request;
use node_refs::node_ref;
use op_headers::{Op, WriteOp, encode_op};
use std::alloc::{AllocError, Global};

/// The request that goes on to the mirror, as it is written: without the first of its targets, from this node. `None`
/// where there is no target, its port is none, or the request is too long to be one.
#[tactic(auto, unfolding(crate::specs::Requests::request_text))]
pub(crate) fn request_text(
    alloc: Global,
    node: NodeId,
    op: &WriteOp,
) -> Result<Option<Vec<u8>>, AllocError>
    ensures { IfOk result (λ found. option_map (λ text. text.items) found ≡ request_text node op.now) }
{
    let source = node_ref(alloc, node)?;
    let Some(request) = mirror_request(alloc, source, op)? else {
        return Ok(None);
    };
    sized_text(alloc, &Op::Write(request))
}

/// A request as it is written, where it isn't too long to be one.
fn sized_text(alloc: Global, op: &Op) -> Result<Option<Vec<u8>>, AllocError>
    requires { IsWrite op.now }
    ensures { IfOk result (λ found. option_map (λ text. text.items) found ≡ sized_text op.now) }
{
    if !op.is_encodable(alloc)? {
        return Ok(None);
    }
    let mut text = Vec::new(alloc);
    encode_op(op, &mut text)?;
    Ok(Some(text))
}
