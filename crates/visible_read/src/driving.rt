//! The serving of a read, from its answer to its last packet.

ghost use Rattle.visible_read.specs.Driving.{Serves};

use crate::answering::Served;
use crate::serving::Serving;
use hd_base::{Files, LinkOut};
use op_headers::ReadOp;
use pipe_turns::ReplicaBook;
use std::alloc::Global;

/// Serves a read: answers it, and then sends its packets, the empty last one too, each as one piece.
pub fn serve_read<F: Files, O: LinkOut>(
    alloc: Global,
    book: &mut ReplicaBook<F>,
    op: &ReadOp,
    out: &mut O,
) -> Served
    ensures { Serves F.Files O.LinkOut op.now book.old book.new out.old out.new result }
{
    let Ok(copy) = op.duplicate() else {
        return Served::Memory;
    };
    let mut serving = Serving::new(copy);
    if let Some(served) = serving.step(alloc, book, out) {
        return served;
    }
    'packets: loop {
        if let Some(served) = serving.step(alloc, book, out) {
            return served;
        }
    }
}
