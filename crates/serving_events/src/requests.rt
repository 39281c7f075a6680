//! A node takes a request to read: it is booked and answered.

ghost use Rattle.hd_base.specs.Ends.{IsKnown};
ghost use Rattle.member_events.specs.Roads.{RoadsPass};
ghost use Rattle.serving_events.specs.Requests.{RequestShows};
ghost use Rattle.serving_events.specs.Steps.{LeftIsKnown};

use crate::faults::ServeFault;
use crate::steps::{Outcome, ServedRead, placed, step};
use hd_base::{Conn, Files, LinkIn, LinkOut, Roads};
use member_events::ReplicaBook;
use op_headers::ReadOp;
use std::alloc::Global;
use visible_read::Serving;

/// Books and answers the request to read that an end has taken. Where the replica takes it, the read is served from then
/// on; else the answer is sent, and the end is shut and brought back.
pub fn serve_request<I: LinkIn, O: LinkOut, R: Roads<Inward = I, Outward = O>, F: Files>(
    alloc: Global,
    roads: &mut R,
    book: &mut ReplicaBook<F>,
    end: Conn<I, O>,
    op: ReadOp,
) -> Result<Outcome<I, O>, ServeFault>
    requires { IsKnown (R.plain roads.old) end.id.0 }
    ensures shows { RequestShows F.Files R.Roads I.LinkIn O.LinkOut op end book.old book.new roads.old roads.new result }
    ensures pass { RoadsPass R.Roads roads.old roads.new }
    ensures known { LeftIsKnown (R.plain roads.new) result }
{
    let read = ServedRead {
        end,
        serving: Serving::new(op),
    };
    let stepped = step(alloc, book, read);
    placed(alloc, roads, stepped)
}
