//! A node sends the next packet of a read that it serves.

ghost use Rattle.std.specs.Prelude.{◌≡◌};
ghost use Rattle.hd_base.specs.Ends.{IsKnown};
ghost use Rattle.member_events.specs.Roads.{RoadsPass};
ghost use Rattle.serving_events.specs.Packets.{PacketShows, IsMissing, is_short};
ghost use Rattle.serving_events.specs.Steps.{LeftIsKnown};

use crate::faults::ServeFault;
use crate::steps::{Outcome, ServedRead, Stepped, closed, placed, step};
use hd_base::{Conn, Files, LinkIn, LinkOut, Roads};
use member_events::ReplicaBook;
use std::alloc::Global;
use visible_read::Served;

/// Books the next packet of a read, and sends it as one piece. A read whose packet the replica refuses has ended. One
/// that has no next packet stays as it is.
pub fn serve_packet<I: LinkIn, O: LinkOut, R: Roads<Inward = I, Outward = O>, F: Files>(
    alloc: Global,
    roads: &mut R,
    book: &mut ReplicaBook<F>,
    read: ServedRead<I, O>,
) -> Result<Outcome<I, O>, ServeFault>
    requires { IsKnown (R.plain roads.old) read.end.id.0 }
    ensures shows { PacketShows F.Files R.Roads I.LinkIn O.LinkOut read book.old book.new roads.old roads.new result }
    ensures pass { RoadsPass R.Roads roads.old roads.new }
    ensures known { LeftIsKnown (R.plain roads.new) result }
{
    if read.serving.is_over() {
        return Ok(Outcome::Serves(read));
    }
    let stepped = step(alloc, book, read);
    if is_short(stepped.served, stepped.breaks) {
        return Err(missing(alloc, roads, stepped.read.end));
    }
    placed(alloc, roads, stepped)
}

/// Whether a step has read fewer bytes than the replica has, though no call on its files failed.
fn is_short(served: Option<Served>, breaks: bool) -> bool
    ensures { result ≡ is_short served breaks }
{
    match served {
        Some(Served::File) => !breaks,
        _ => false,
    }
}

/// Shuts an end, and brings it back, whose next packet has too few bytes.
fn missing<I: LinkIn, O: LinkOut, R: Roads<Inward = I, Outward = O>>(
    alloc: Global,
    roads: &mut R,
    end: Conn<I, O>,
) -> ServeFault
    requires { IsKnown (R.plain roads.old) end.id.0 }
    ensures ends { IsMissing result }
    ensures pass { RoadsPass R.Roads roads.old roads.new }
{
    match closed(alloc, roads, end) {
        Ok(()) => ServeFault::BytesMissing,
        Err(fault) => fault,
    }
}
