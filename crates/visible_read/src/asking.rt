//! Whether a read can be requested.

ghost use Rattle.std.specs.Prelude.{◌↔◌, IfOk, IsTrue};
ghost use Rattle.visible_read.specs.Talking.{FitsRequest};

use op_headers::{Op, ReadOp};
use std::alloc::{AllocError, Global};

/// Whether a read's request has a message of at most 65,536 bytes, as `Reading::new` and `read_back` ask for. It
/// writes the message into a list of its own to see its length, so it may want memory.
pub fn fits_request(alloc: Global, op: &ReadOp) -> Result<bool, AllocError>
    ensures { IfOk result (λ fits. IsTrue fits ↔ FitsRequest op.now) }
{
    Op::Read(op.duplicate()?).is_encodable(alloc)
}
