//! What is booked is sent.

ghost use Rattle.std.specs.Prelude.{◌≡◌};
ghost use Rattle.member_core.specs.ReplicaModel.ReplicaEvent.TheVariants as ReplicaEvent;
ghost use Rattle.replica_files.specs.Endings.{BookEnds};
ghost use Rattle.packet_responder.specs.Sendings.{IsAnswering, booked_in, sending_as, SendsUp};

use hd_base::{ConnId, Files, LinkOut, Receipt};
use link_pieces::{send_piece, take_room};
use replica_core::{Event, Refusal};
use replica_files::{BookFault, ReplicaBook};
use std::alloc::Global;

/// How a call of the book and the sending that follows it ended. But for `Memory` the receipt names the entry of the book.
#[derive(Clone, Copy, Debug, PartialEq, Eq)]
pub enum Sending {
    /// It was booked, and what follows was sent.
    Done(Receipt),
    /// The replica refused it; nothing was sent.
    Refused(Refusal, Receipt),
    /// A call on the replica's files failed, and the drawer's count of faults rose; nothing was sent.
    File(Receipt),
    /// It was booked, and the link failed, whose count of faults rose.
    LinkFailed(Receipt),
    /// Memory ran out; nothing was booked or sent.
    Memory,
}

/// Books an ack or the end of a connection, and sends the piece where the book took it. Room for the piece is taken before
/// the book is touched.
pub fn book_and_send<F: Files, O: LinkOut>(
    alloc: Global,
    book: &mut ReplicaBook<F>,
    event: &Event,
    piece: &[u8],
    upstream: &mut O,
) -> Sending
    requires { IsAnswering event.now }
    ensures booked { BookEnds F.Files book.old book.new (ReplicaEvent.Other event.now) (booked_in result) }
    ensures sent { SendsUp O.LinkOut piece.now result upstream.old upstream.new }
{
    if take_room(alloc, upstream, piece.len()).is_err() {
        return Sending::Memory;
    }
    let receipt = match book_event(book, event) {
        Ok(receipt) => receipt,
        Err(fault) => return sending_as(Err(fault)),
    };
    match send_piece(upstream, piece) {
        Ok(_) => Sending::Done(receipt),
        Err(_) => Sending::LinkFailed(receipt),
    }
}

/// Books an ack or the end of a connection.
pub fn book_event<F: Files>(book: &mut ReplicaBook<F>, event: &Event) -> Result<Receipt, BookFault>
    requires { IsAnswering event.now }
    ensures { BookEnds F.Files book.old book.new (ReplicaEvent.Other event.now) result }
{
    match *event {
        Event::Ack { conn, seqno, good } => book.ack(conn, seqno, good),
        Event::Ended { conn } => book.ended(conn),
        _ => unreachable!(),
    }
}

/// How it ended where nothing is sent.
pub fn sending_as(booked: Result<Receipt, BookFault>) -> Sending
    ensures { result ≡ sending_as booked }
{
    match booked {
        Ok(receipt) => Sending::Done(receipt),
        Err(BookFault::Refused(refusal, receipt)) => Sending::Refused(refusal, receipt),
        Err(BookFault::File(receipt)) => Sending::File(receipt),
        Err(BookFault::Memory) => Sending::Memory,
    }
}
