//! The request for what a line of a script asks to read.

ghost use Rattle.std.specs.Prelude.{◌≡◌, IfOk};
ghost use Rattle.reader_events.specs.WorldTexts.Texts.{CanBeAsked};
ghost use Rattle.play_model.specs.Asks.{request_of};

use op_headers::ReadOp;
use play_model::ReadAsk;
use std::alloc::{AllocError, Global};

/// The request. It can always be asked: its numbers have their widths, and its message is short.
pub(crate) fn request(alloc: Global, ask: ReadAsk) -> Result<ReadOp, AllocError>
    ensures value { IfOk result (λ op. op ≡ request_of ask) }
    ensures fits { CanBeAsked (request_of ask) }
{
    ask.request(alloc)
}
