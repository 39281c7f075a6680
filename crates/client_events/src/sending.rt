//! What a writer sends in its own step.

ghost use Rattle.hd_base.specs.Ends.{IsKnown};
ghost use Rattle.member_events.specs.Roads.{RoadsPass};
ghost use Rattle.client_events.specs.Sending.{SendsPacket, SendsAction, IsStreamed, IsFollowed};
ghost use Rattle.client_events.specs.Showing.{PipeIsKnown};

use crate::faults::ClientFault;
use crate::pipes::Pipe;
use crate::steps::{lost, settled};
use hd_base::{Conn, LinkIn, LinkOut, Roads};
use link_pieces::{send_piece, take_room};
use packet_codec::{Packet, encode_packet};
use pipe_recovery::Incoming;
use std::alloc::Global;
use writer_core::Action;

/// How the sending of a packet went.
#[derive(Clone, Copy, Debug, PartialEq, Eq)]
pub(crate) enum Sending {
    /// All was sent that was to be sent.
    Done,
    /// The link failed.
    Failed,
    /// Memory ran out.
    Memory,
}

/// What follows an action of a writer, which then still has its connection or doesn't: what it sends is sent where its
/// pipeline stands, and the end is kept, or shut and brought back.
pub(crate) fn followed<I: LinkIn, O: LinkOut, R: Roads<Inward = I, Outward = O>>(
    alloc: Global,
    roads: &mut R,
    connected: bool,
    pipe: Pipe<I, O>,
    action: &Action,
) -> Result<Pipe<I, O>, ClientFault>
    requires { PipeIsKnown (R.plain roads.old) pipe }
    ensures follows { IsFollowed R.Roads I.LinkIn O.LinkOut connected action.now pipe roads.old roads.new result }
    ensures passes { RoadsPass R.Roads roads.old roads.new }
{
    match pipe {
        Pipe::Closed => Ok(Pipe::Closed),
        Pipe::SettingUp(setup) => Ok(Pipe::SettingUp(setup)),
        Pipe::Streaming { end, incoming } => {
            streamed(alloc, roads, connected, end, incoming, action)
        }
    }
}

/// What follows it where the pipeline stands.
fn streamed<I: LinkIn, O: LinkOut, R: Roads<Inward = I, Outward = O>>(
    alloc: Global,
    roads: &mut R,
    connected: bool,
    end: Conn<I, O>,
    incoming: Incoming,
    action: &Action,
) -> Result<Pipe<I, O>, ClientFault>
    requires { IsKnown (R.plain roads.old) end.id.0 }
    ensures streams { IsStreamed R.Roads I.LinkIn O.LinkOut connected action.now end incoming roads.old roads.new result }
    ensures passes { RoadsPass R.Roads roads.old roads.new }
{
    let mut end = end;
    match sent(alloc, &mut end.outward, action) {
        Sending::Done => settled(alloc, roads, connected, end, incoming),
        Sending::Failed => Err(lost(alloc, roads, end)),
        Sending::Memory => Err(ClientFault::Memory),
    }
}

/// Sends what an action sends.
fn sent<O: LinkOut>(alloc: Global, outward: &mut O, action: &Action) -> Sending
    ensures { SendsAction O.LinkOut action.now outward.old outward.new result }
{
    match action {
        Action::Send(packet) => send(alloc, outward, packet),
        _ => Sending::Done,
    }
}

/// Sends a packet as one piece, unless it has no written form.
fn send<O: LinkOut>(alloc: Global, outward: &mut O, packet: &Packet) -> Sending
    ensures { SendsPacket O.LinkOut packet.now outward.old outward.new result }
{
    if !packet.is_encodable() {
        return Sending::Done;
    }
    let mut text = Vec::new(alloc);
    if encode_packet(packet, &mut text).is_err() {
        return Sending::Memory;
    }
    if take_room(alloc, outward, text.len()).is_err() {
        return Sending::Memory;
    }
    match send_piece(outward, &text) {
        Ok(_) => Sending::Done,
        Err(_) => Sending::Failed,
    }
}
