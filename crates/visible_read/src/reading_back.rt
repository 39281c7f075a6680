//! A read, waited for.

ghost use Rattle.std.specs.Prelude.{IfOk};
ghost use Rattle.visible_read.specs.ReadingBack.{ReadsBack, HasRead};
ghost use Rattle.visible_read.specs.Talking.{FitsRequest};

use crate::talking::{ReadFault, ReadStep, Talk};
use hd_base::{Conn, LinkIn, LinkOut};
use op_headers::ReadOp;
use std::alloc::Global;
use std::sync::Wait;

/// Reads bytes of a block over a connection to a node, and waits where the next message isn't there yet: the bytes
/// that were asked for, each under a sum that agrees, which CHECKSUM_OK has answered. The request's message has at
/// most 65,536 bytes: `fits_request` tests this. The connection is shut then, unless memory ran out before the request
/// was sent.
pub fn read_back<H: Wait, I: LinkIn, O: LinkOut>(
    rt: &H,
    alloc: Global,
    conn: &mut Conn<I, O>,
    op: &ReadOp,
) -> Result<Vec<u8>, ReadFault>
    requires { FitsRequest op.now }
    ensures steps { ReadsBack I.LinkIn O.LinkOut op.now conn.old conn.new (ReadStep.Ended result) }
    ensures read { IfOk result (λ bytes. HasRead O.LinkOut op.now conn.old.outward conn.new.outward bytes.items) }
{
    let Ok(copy) = op.duplicate() else {
        return Err(ReadFault::Memory);
    };
    let Ok(mut talk) = Talk::new(alloc, copy) else {
        return Err(ReadFault::Memory);
    };
    'steps: for _ in rt.forever() {
        if let ReadStep::Ended(result) = talk.step(alloc, conn) {
            return result;
        }
    }
    unreachable!()
}
