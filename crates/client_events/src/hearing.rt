//! What a writer hears on its connection.

ghost use Rattle.std.specs.Prelude.{◌≡◌, IfOk};
ghost use Rattle.hd_base.specs.Ends.{IsKnown};
ghost use Rattle.member_events.specs.PipeMember.Looks.{looked_of};
ghost use Rattle.member_events.specs.Roads.{RoadsPass};
ghost use Rattle.client_events.specs.Hearing.{told_of, Hears};
ghost use Rattle.client_events.specs.declared.pipes.Pipe.TheVariants.{Streaming};
ghost use Rattle.client_events.specs.Events.{HearShows};
ghost use Rattle.client_events.specs.Showing.{FitsAfter, PipeIsKnown};

use crate::faults::ClientFault;
use crate::pipes::Pipe;
use crate::steps::{exchanged, lost, settled};
use ack_codec::Ack;
use hd_base::{Conn, LinkIn, LinkOut, Roads};
use member_events::Looked;
use pipe_recovery::{Incoming, Next};
use std::alloc::Global;
use writer_core::Writer;

/// A writer whose pipeline stands takes what stands next on its connection: an ack, or the end. What was received there
/// and not yet taken is `incoming`.
pub fn hear_ack<I: LinkIn, O: LinkOut, R: Roads<Inward = I, Outward = O>>(
    alloc: Global,
    roads: &mut R,
    writer: &mut Writer,
    end: Conn<I, O>,
    incoming: Incoming,
) -> Result<Pipe<I, O>, ClientFault>
    requires { IsKnown (R.plain roads.old) end.id.0 }
    ensures shows { HearShows R.Roads I.LinkIn O.LinkOut writer.old writer.new end incoming roads.old roads.new result }
    ensures fits { FitsAfter writer.old writer.new (Streaming end incoming) result }
    ensures pass { RoadsPass R.Roads roads.old roads.new }
    ensures known { IfOk result (λ left. PipeIsKnown (R.plain roads.new) left) }
{
    let conn = end.id;
    let mut incoming = incoming;
    let mut end = exchanged(alloc, roads, end, Some(conn))?;
    match heard(writer, &mut incoming, &mut end.inward) {
        Looked::Failed => return Err(lost(alloc, roads, end)),
        Looked::Memory => return Err(ClientFault::Memory),
        Looked::Known => {}
    }
    let connected = writer.connected();
    settled(alloc, roads, connected, end, incoming)
}

/// Tells a writer what stands next: an ack, or the end.
fn heard<I: LinkIn>(writer: &mut Writer, incoming: &mut Incoming, inward: &mut I) -> Looked
    ensures { Hears I.LinkIn writer.old writer.new incoming.old incoming.new inward.old inward.new result }
{
    let came = incoming.next::<Ack, I>(inward);
    tell(writer, &came);
    looked_of(&came)
}

/// Tells a writer what came.
fn tell(writer: &mut Writer, came: &Next<Ack>)
    ensures { writer.new ≡ told_of writer.old came.now }
{
    match came {
        Next::Message(ack) => writer.acked(ack),
        Next::Unreadable | Next::End => writer.ended(),
        Next::NotYet | Next::Failed | Next::Memory => {}
    }
}

/// What was found where this came.
fn looked_of(came: &Next<Ack>) -> Looked
    ensures { result ≡ looked_of came.now }
{
    match came {
        Next::Failed => Looked::Failed,
        Next::Memory => Looked::Memory,
        _ => Looked::Known,
    }
}
