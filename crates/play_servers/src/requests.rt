//! A lower end that has taken nothing yet takes its first message.

ghost use Rattle.std.specs.Prelude.{◌≡◌, IfOk};
ghost use Rattle.hd_base.specs.Ends.{IsKnown};
ghost use Rattle.recovery_events.specs.MemberEvents.Roads.{RoadsPass};
ghost use Rattle.play_servers.specs.Known.{LeftIsKnown};
ghost use Rattle.play_servers.specs.Places.{Serves, read_fault};
ghost use Rattle.play_servers.specs.Events.{IdleShows};

use crate::servers::{Left, place_of};
use hd_base::{BlockId, Conn, Files, LinkIn, LinkOut, Roads};
use op_headers::Op;
use recovery_events::{FirstRequest, MemberFault, ReplicaBook, first_request};
use serving_events::{ServeFault, serve_request};
use std::alloc::Global;

/// Takes what stands next: a request to read is booked and answered, with the book of its block; anything else ends the
/// connection.
pub(crate) fn take_first<I: LinkIn, O: LinkOut, R: Roads<Inward = I, Outward = O>, F: Files>(
    alloc: Global,
    roads: &mut R,
    blocks: &[BlockId],
    books: &mut [ReplicaBook<F>],
    end: Conn<I, O>,
) -> Result<Left<I, O>, ServeFault>
    requires { IsKnown (R.plain roads.old) end.id.0 }
    ensures shows { IdleShows F.Files R.Roads I.LinkIn O.LinkOut blocks.now
        end books.old books.new roads.old roads.new result }
    ensures pass { RoadsPass R.Roads roads.old roads.new }
    ensures known { IfOk result (LeftIsKnown (R.plain roads.new)) }
{
    match first_request(alloc, roads, end) {
        Ok(Some(first)) => serve(alloc, roads, blocks, books, first),
        Ok(None) => Ok(Left::ended()),
        Err(fault) => Err(read_fault(fault)),
    }
}

/// Serves a request to read. Nothing is done where it is another request, or where there is no book of its block.
fn serve<I: LinkIn, O: LinkOut, R: Roads<Inward = I, Outward = O>, F: Files>(
    alloc: Global,
    roads: &mut R,
    blocks: &[BlockId],
    books: &mut [ReplicaBook<F>],
    first: FirstRequest<I, O>,
) -> Result<Left<I, O>, ServeFault>
    requires { IsKnown (R.plain roads.old) first.end.id.0 }
    ensures serves { Serves F.Files R.Roads I.LinkIn O.LinkOut blocks.now
        first books.old books.new roads.old roads.new result }
    ensures pass { RoadsPass R.Roads roads.old roads.new }
    ensures known { IfOk result (LeftIsKnown (R.plain roads.new)) }
{
    let FirstRequest { end, op } = first;
    let Op::Read(read) = op else {
        return Ok(Left::ended());
    };
    let Some(place) = place_of(blocks, &read) else {
        return Ok(Left::ended());
    };
    if place >= books.len() {
        return Ok(Left::ended());
    }
    match serve_request(alloc, roads, &mut books[place], end, read) {
        Ok(outcome) => Ok(Left::of(place, outcome)),
        Err(fault) => Err(fault),
    }
}

/// Why an end takes no first message.
fn read_fault(fault: MemberFault) -> ServeFault
    ensures { result ≡ read_fault fault }
{
    match fault {
        MemberFault::LinkFailed => ServeFault::LinkFailed,
        MemberFault::RoadsFailed => ServeFault::RoadsFailed,
        MemberFault::FilesFailed => ServeFault::BytesMissing,
        MemberFault::Memory => ServeFault::Memory,
    }
}
