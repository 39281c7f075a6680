//! A turn of a member that books an ack or the end of its connection.

ghost use Rattle.std.specs.Prelude.{◌≡◌, All, Some};
ghost use Rattle.hd_base.specs.Wire.{IsStatus};
ghost use Rattle.member_core.specs.AckCodec.AckTexts.{ack_text};
ghost use Rattle.member_core.specs.ReplicaModel.ReplicaEvent.TheVariants as ReplicaEvent;
ghost use Rattle.replica_files.specs.Endings.{BookEnds};
ghost use Rattle.packet_responder.specs.Sendings.{IsAnswering, booked_in, SendsUp};
ghost use Rattle.packet_responder.specs.Turns.{IsAnswer, MaySend, PassEnds, SendsTurn, passed_as, done_as, is_good};

use crate::sendings::{Sending, book_and_send, book_event, sending_as};
use hd_base::{Files, LinkOut, Receipt};
use member_core::{Ack, AckBytes, ReplicaEvent, Shuts, Turn, Upward, encode_ack};
use replica_core::{Event, Refusal};
use replica_files::ReplicaBook;
use std::alloc::Global;

/// How an ack was taken, or what was due. The receipt names the entry of the book.
#[derive(Clone, Copy, Debug, PartialEq, Eq)]
pub enum Passed {
    /// It was booked and sent, and the member goes on.
    Sent(Receipt),
    /// It was booked and, where an ack goes up, sent; the member shuts both connections.
    Closed(Receipt),
    /// The last packet was booked as acked by all, and its ack sent; the member shuts both connections.
    Finalized(Receipt),
    /// Nothing is pending, nothing was booked and nothing sent; the book has so many entries.
    Idle { seen: u64 },
    /// The replica refused it; nothing was sent, and the member shuts both connections.
    Refused(Refusal, Receipt),
    /// A call on the replica's files failed, and the drawer's count of faults rose; nothing was sent, and the member shuts
    /// both connections.
    File(Receipt),
    /// It was booked, and the link upstream failed, whose count of faults rose.
    LinkFailed(Receipt),
    /// Memory ran out; nothing was booked or sent.
    Memory,
}

/// Does a turn of a member that books an ack or the end of its connection, and sends its ack up where the book took it.
/// Room for the ack is taken before the book is touched.
pub fn take_turn<F: Files, O: LinkOut>(
    alloc: Global,
    book: &mut ReplicaBook<F>,
    turn: &Turn,
    upstream: &mut O,
) -> Passed
    requires { IsAnswer turn.now }
    ensures { PassEnds F.Files O.LinkOut turn.now book.old book.new upstream.old upstream.new result }
{
    let event = event_of(turn);
    let sending = send_turn(alloc, book, event, &turn.effect.sends, upstream);
    passed_as(turn.effect.shuts, event, sending)
}

/// The event that a turn books.
fn event_of(turn: &Turn) -> &Event
    requires { IsAnswer turn.now }
    ensures booked { turn.now.call ≡ Some (ReplicaEvent.Other result.now) }
    ensures answering { IsAnswering result.now }
{
    let Some(call) = &turn.call else {
        unreachable!();
    };
    let ReplicaEvent::Other(event) = call else {
        unreachable!();
    };
    event
}

/// Books the event, and sends what goes up where the book took it.
fn send_turn<F: Files, O: LinkOut>(
    alloc: Global,
    book: &mut ReplicaBook<F>,
    event: &Event,
    sends: &Option<Upward>,
    upstream: &mut O,
) -> Sending
    requires answering { IsAnswering event.now }
    requires sends { MaySend sends.now }
    ensures booked { BookEnds F.Files book.old book.new (ReplicaEvent.Other event.now) (booked_in result) }
    ensures sent { SendsTurn O.LinkOut sends.now result upstream.old upstream.new }
{
    let Some(message) = sends else {
        return sending_as(book_event(book, event));
    };
    let Upward::Ack(ack) = message else {
        unreachable!();
    };
    send_ack(alloc, book, event, ack, upstream)
}

/// Books the event, and sends the ack where the book took it.
fn send_ack<F: Files, O: LinkOut>(
    alloc: Global,
    book: &mut ReplicaBook<F>,
    event: &Event,
    ack: &Ack,
    upstream: &mut O,
) -> Sending
    requires answering { IsAnswering event.now }
    requires listed { All IsStatus ack.now.replies }
    ensures booked { BookEnds F.Files book.old book.new (ReplicaEvent.Other event.now) (booked_in result) }
    ensures sent { SendsUp O.LinkOut (ack_text ack.now) result upstream.old upstream.new }
{
    let mut text = AckBytes::new();
    encode_ack(ack, &mut text);
    book_and_send(alloc, book, event, text.as_slice(), upstream)
}

/// How the turn of this event ended.
fn passed_as(shuts: Shuts, event: &Event, sending: Sending) -> Passed
    ensures { result ≡ passed_as shuts event.now sending }
{
    match sending {
        Sending::Done(receipt) => done_as(shuts, event, receipt),
        Sending::Refused(refusal, receipt) => Passed::Refused(refusal, receipt),
        Sending::File(receipt) => Passed::File(receipt),
        Sending::LinkFailed(receipt) => Passed::LinkFailed(receipt),
        Sending::Memory => Passed::Memory,
    }
}

/// How a turn ended that is done: the member goes on or, where it shuts, was the last ack a good one or not.
fn done_as(shuts: Shuts, event: &Event, receipt: Receipt) -> Passed
    ensures { result ≡ done_as shuts event.now receipt }
{
    match shuts {
        Shuts::Nothing => Passed::Sent(receipt),
        Shuts::Mirror | Shuts::Both if is_good(event) => Passed::Finalized(receipt),
        Shuts::Mirror | Shuts::Both => Passed::Closed(receipt),
    }
}

/// Whether the event is a good ack.
fn is_good(event: &Event) -> bool
    ensures { result ≡ is_good event.now }
{
    matches!(event, Event::Ack { good: true, .. })
}
