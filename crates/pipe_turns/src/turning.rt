//! Doing a turn: its call on the book, and what is sent then.

ghost use Rattle.std.specs.Prelude.{◌≡◌, ◌<◌, Some, IfSome, length, option_map};
ghost use Rattle.block_receiver.specs.PacketCodec.Packets.{IsEncodable, SpellsPacket};
ghost use Rattle.packet_responder.specs.ReplicaCore.TheConstants.{MAX_PENDING};
ghost use Rattle.block_receiver.specs.ReplicaModel.ReplicaEvent.TheVariants as ReplicaEvent;
ghost use Rattle.block_receiver.specs.ReplicaFiles.Endings.{BookEnds};
ghost use Rattle.block_receiver.specs.Packets.{booked_as};
ghost use Rattle.packet_responder.specs.Sendings.{IsAnswering, booked_in};
ghost use Rattle.pipe_turns.specs.Turning.{
  CanBook,
  IsSpelled,
  Performs,
  PassesEnd,
  SendsText,
  SendsAlone,
  packet_done,
  sending_done,
};

use block_receiver::{
    Packet, ReplicaBook, ReplicaEvent, Taken, pass_packet, send_piece, take_room, taken_as,
};
use bytes::Bytes;
use hd_base::{Conn, ConnId, Files, LinkOut, Receipt};
use packet_responder::{Event, Refusal, Sending, book_and_send, book_event, sending_as};
use std::alloc::Global;

/// How a turn's call on the book, and the sending that follows it, ended.
#[derive(Clone, Copy, Debug)]
pub enum Done {
    /// The book took the call, or there was none, and what follows was sent.
    Taken { receipt: Option<Receipt> },
    /// The replica refused the call.
    Refused(Refusal, Receipt),
    /// A call on the replica's files failed.
    File(Receipt),
    /// The book took the packet, and the mirror's link failed.
    MirrorFailed(Receipt),
    /// The book took the call, or there was none, and the link upstream failed.
    LinkFailed { receipt: Option<Receipt> },
    /// Memory ran out; nothing was booked or sent.
    Memory,
}

/// Makes a turn's call on the book and, where the book took it, sends what goes down and up. Memory for what is sent is
/// taken before the book is touched. A packet whose spelling is given goes on in it, where that is the written one.
pub(crate) fn perform<F: Files, I: Drop, O: LinkOut>(
    alloc: Global,
    book: &mut ReplicaBook<F>,
    call: &Option<ReplicaEvent>,
    spelling: &Option<Bytes>,
    text: &Option<Vec<u8>>,
    upstream: &mut O,
    mirror: &mut Option<Conn<I, O>>,
) -> Done
    requires book { CanBook (length book.old.replica.pending) call.now }
    requires spelled { IsSpelled call.now spelling.now }
    ensures { Performs F.Files O.LinkOut call.now (option_map (λ t. t.items) text.now)
        book.old book.new upstream.old upstream.new mirror.old mirror.new result }
{
    let Some(call) = call else {
        return send_alone(alloc, text, upstream);
    };
    match call {
        ReplicaEvent::Packet { conn, packet } => {
            packet_done(book_packet(alloc, book, *conn, packet, spelling, mirror))
        }
        ReplicaEvent::Other(event) => {
            sending_done(tell_event(alloc, book, event, text, upstream))
        }
    }
}

/// Books a packet, and sends it to the mirror, if there is one.
fn book_packet<F: Files, I: Drop, O: LinkOut>(
    alloc: Global,
    book: &mut ReplicaBook<F>,
    conn: ConnId,
    packet: &Packet,
    spelling: &Option<Bytes>,
    mirror: &mut Option<Conn<I, O>>,
) -> Taken
    requires place { length book.old.replica.pending < MAX_PENDING }
    requires encodable { IsEncodable packet.now }
    requires spelled { IfSome spelling.now (SpellsPacket packet.now) }
    ensures booked { BookEnds F.Files book.old book.new (ReplicaEvent.Packet conn packet.now) (booked_as result) }
    ensures passes { PassesEnd O.LinkOut packet.now result mirror.old mirror.new }
{
    let Some(end) = mirror else {
        return taken_as(book.packet(conn, packet));
    };
    pass_end(alloc, book, conn, packet, spelling, end)
}

/// Books a packet, and sends it to the mirror at this end.
fn pass_end<F: Files, I: Drop, O: LinkOut>(
    alloc: Global,
    book: &mut ReplicaBook<F>,
    conn: ConnId,
    packet: &Packet,
    spelling: &Option<Bytes>,
    end: &mut Conn<I, O>,
) -> Taken
    requires place { length book.old.replica.pending < MAX_PENDING }
    requires encodable { IsEncodable packet.now }
    requires spelled { IfSome spelling.now (SpellsPacket packet.now) }
    ensures booked { BookEnds F.Files book.old book.new (ReplicaEvent.Packet conn packet.now) (booked_as result) }
    ensures passes { PassesEnd O.LinkOut packet.now result (Some end.old) (Some end.new) }
{
    let came = came_in(spelling);
    pass_packet(alloc, book, conn, packet, came, &mut end.outward)
}

/// The bytes in which a packet came, where they are known.
fn came_in(spelling: &Option<Bytes>) -> Option<&[u8]>
    ensures { option_map (λ text. text.now) result ≡ spelling.now }
{
    match spelling {
        Some(text) => Some(text.as_slice()),
        None => None,
    }
}

/// Books an ack or the end of the connection, and sends the text up where the book took it.
fn tell_event<F: Files, O: LinkOut>(
    alloc: Global,
    book: &mut ReplicaBook<F>,
    event: &Event,
    text: &Option<Vec<u8>>,
    upstream: &mut O,
) -> Sending
    requires { IsAnswering event.now }
    ensures booked { BookEnds F.Files book.old book.new (ReplicaEvent.Other event.now) (booked_in result) }
    ensures sends { SendsText O.LinkOut (option_map (λ t. t.items) text.now) result upstream.old upstream.new }
{
    let Some(text) = text else {
        return sending_as(book_event(book, event));
    };
    book_and_send(alloc, book, event, text, upstream)
}

/// Sends the text up, where there is one, and books nothing.
pub fn send_alone<O: LinkOut>(alloc: Global, text: &Option<Vec<u8>>, upstream: &mut O) -> Done
    ensures { SendsAlone O.LinkOut (option_map (λ t. t.items) text.now) result upstream.old upstream.new }
{
    let Some(text) = text else {
        return Done::Taken { receipt: None };
    };
    if take_room(alloc, upstream, text.len()).is_err() {
        return Done::Memory;
    }
    match send_piece(upstream, text) {
        Ok(_) => Done::Taken { receipt: None },
        Err(_) => Done::LinkFailed { receipt: None },
    }
}

/// How a packet was taken.
fn packet_done(taken: Taken) -> Done
    ensures { result ≡ packet_done taken }
{
    match taken {
        Taken::Booked(receipt) => Done::Taken {
            receipt: Some(receipt),
        },
        Taken::Refused(refusal, receipt) => Done::Refused(refusal, receipt),
        Taken::File(receipt) => Done::File(receipt),
        Taken::MirrorFailed(receipt) => Done::MirrorFailed(receipt),
        Taken::Memory => Done::Memory,
    }
}

/// How an ack or the end was booked and told.
fn sending_done(sending: Sending) -> Done
    ensures { result ≡ sending_done sending }
{
    match sending {
        Sending::Done(receipt) => Done::Taken {
            receipt: Some(receipt),
        },
        Sending::Refused(refusal, receipt) => Done::Refused(refusal, receipt),
        Sending::File(receipt) => Done::File(receipt),
        Sending::LinkFailed(receipt) => Done::LinkFailed {
            receipt: Some(receipt),
        },
        Sending::Memory => Done::Memory,
    }
}
