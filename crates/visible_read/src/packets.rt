//! The packets of a read.

ghost use Rattle.std.specs.Prelude.{◌≡◌, ◌==◌, length, IfOk};
ghost use Rattle.packet_codec.specs.Packets.{packet_text};
ghost use Rattle.replica_core.specs.declared.events.Event.TheVariants as Event;
ghost use Rattle.read_core.specs.ReplicaModel.ReplicaEvent.TheVariants as ReplicaEvent;
ghost use Rattle.read_core.specs.Servings.{piece_len, piece_event, packet_of};
ghost use Rattle.pipe_turns.specs.ReplicaFiles.Endings.{BookEnds};
ghost use Rattle.visible_read.specs.Sound.{IsNext, IsSound};
ghost use Rattle.visible_read.specs.Packets.{SendsNext, SendsBody, faulted, lacking, passed, passed_on};

use crate::answering::{Course, Served, Took, ended, wanting};
use crate::sending::{Sending, make_room, send_text};
use bytes::Bytes;
use frame_feed::Message;
use hd_base::{Files, LinkOut, Receipt, Stamp};
use packet_codec::{Packet, encode_packet};
use pipe_turns::{BookFault, ReplicaBook};
use read_core::Serving as CoreServing;
use replica_core::Event;
use std::alloc::{AllocError, Global};

/// Books the next packet of a read, and sends it: its bytes are read once, into its body. They are read and written as
/// they are sent before the read is booked, so that nothing is booked for want of memory.
pub(crate) fn send_next<F: Files, O: LinkOut>(
    alloc: Global,
    book: &mut ReplicaBook<F>,
    core: &CoreServing,
    out: &mut O,
) -> Took
    requires { IsNext core.now }
    ensures sends { SendsNext F.Files O.LinkOut core.now book.old book.new out.old out.new result }
    ensures sound { IsSound result.course }
{
    let (named, offset, length) = asked(core);
    match book.read_ahead(named, offset, length) {
        Ok(body) => pass(alloc, book, core, body, out),
        Err(fault) => faulted(core, fault),
    }
}

/// What the next packet asks the book for: the stamp that is named, the offset and the length.
fn asked(core: &CoreServing) -> (Stamp, u64, u64)
    requires { IsNext core.now }
    ensures { Event.Read result.0 result.1 result.2 ≡ piece_event core.now }
{
    let Some(event) = core.next_call() else {
        unreachable!();
    };
    let Event::Read {
        named,
        offset,
        length,
    } = event
    else {
        unreachable!();
    };
    (named, offset, length)
}

/// Books the next packet, and sends it with these bytes of the replica, which are fewer only where its files are not
/// observable.
fn pass<F: Files, O: LinkOut>(
    alloc: Global,
    book: &mut ReplicaBook<F>,
    core: &CoreServing,
    body: Vec<u8>,
    out: &mut O,
) -> Took
    requires { IsNext core.now }
    ensures sends { SendsBody F.Files O.LinkOut core.now body.items book.old book.new out.old out.new result }
    ensures sound { IsSound result.course }
{
    if body.len() as u64 != core.piece_len() {
        return lacking(core, admit(book, core));
    }
    let Ok((packet, text)) = written(alloc, core, body) else {
        return wanting(Course::Sending(*core));
    };
    let text = Some(text);
    if make_room(alloc, &text, out).is_err() {
        return wanting(Course::Sending(*core));
    }
    match admit(book, core) {
        Ok(receipt) => passed(core, packet, receipt, send_text(&text, out)),
        Err(fault) => faulted(core, fault),
    }
}

/// Books the next packet.
fn admit<F: Files>(book: &mut ReplicaBook<F>, core: &CoreServing) -> Result<Receipt, BookFault>
    requires { IsNext core.now }
    ensures { BookEnds F.Files book.old book.new (ReplicaEvent.Other (piece_event core.now)) result }
{
    let (named, offset, length) = asked(core);
    book.admit_read(named, offset, length)
}

/// What follows where there are fewer bytes than the replica has.
fn lacking(core: &CoreServing, booked: Result<Receipt, BookFault>) -> Took
    requires { IsNext core.now }
    ensures value { result ≡ lacking core.now booked }
    ensures sound { IsSound result.course }
{
    match booked {
        Ok(receipt) => ended(Some(receipt), None, Served::File),
        Err(fault) => faulted(core, fault),
    }
}

/// What follows where the book doesn't give the bytes.
fn faulted(core: &CoreServing, fault: BookFault) -> Took
    requires { IsNext core.now }
    ensures value { result ≡ faulted core.now fault }
    ensures sound { IsSound result.course }
{
    match fault {
        BookFault::Refused(refusal, receipt) => {
            ended(Some(receipt), None, Served::Refused(refusal))
        }
        BookFault::File(receipt) => ended(Some(receipt), None, Served::File),
        BookFault::Memory => wanting(Course::Sending(*core)),
    }
}

/// The next packet with these bytes, and how it is written.
fn written(
    alloc: Global,
    core: &CoreServing,
    body: Vec<u8>,
) -> Result<(Packet, Vec<u8>), AllocError>
    requires next { IsNext core.now }
    requires whole { length body.items ≡ piece_len core.now }
    ensures packet { IfOk result (λ x. x.0 ≡ packet_of core.now body.items) }
    ensures text { IfOk result (λ x. x.1.items ≡ packet_text (packet_of core.now body.items)) }
{
    let _few = core.piece_len();
    let packet = core.packet(alloc, Bytes::from_vec(body)?)?;
    let mut text = Vec::new(alloc);
    encode_packet(&packet, &mut text)?;
    Ok((packet, text))
}

/// What follows of a packet.
fn passed(core: &CoreServing, packet: Packet, receipt: Receipt, sending: Sending) -> Took
    requires next { IsNext core.now }
    requires ends { packet.last ≡ (piece_len core.now == 0) }
    ensures value { result ≡ passed core.now packet receipt sending }
    ensures sound { IsSound result.course }
{
    match sending {
        Sending::Sent => passed_on(core, packet, receipt),
        Sending::LinkFailed => ended(Some(receipt), None, Served::LinkFailed),
    }
}

/// What follows once a packet was sent.
fn passed_on(core: &CoreServing, packet: Packet, receipt: Receipt) -> Took
    requires next { IsNext core.now }
    requires ends { packet.last ≡ (piece_len core.now == 0) }
    ensures value { result ≡ passed_on core.now packet receipt }
    ensures sound { IsSound result.course }
{
    if packet.last {
        let packets = packet.seqno.unsigned_abs() + 1;
        let reply = Some(Message::Packet(packet));
        return ended(Some(receipt), reply, Served::Sent { packets });
    }
    let mut next = *core;
    next.sent();
    Took {
        receipt: Some(receipt),
        reply: Some(Message::Packet(packet)),
        course: Course::Sending(next),
        served: None,
    }
}
