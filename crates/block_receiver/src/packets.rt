//! Taking a packet.

ghost use Rattle.std.specs.Prelude.{◌≡◌, ◌<◌, length, IfOk, IfSome};
ghost use Rattle.packet_codec.specs.Packets.{IsEncodable, SpellsPacket, packet_text};
ghost use Rattle.member_core.specs.ReplicaCore.TheConstants.{MAX_PENDING};
ghost use Rattle.member_core.specs.ReplicaModel.ReplicaEvent.TheVariants as ReplicaEvent;
ghost use Rattle.replica_files.specs.Endings.{BookEnds};
ghost use Rattle.block_receiver.specs.Packets.{booked_as, taken_as, PassesOn, PassesTo};

use crate::spellings::as_written;
use hd_base::{ConnId, Files, LinkOut, Receipt};
use link_pieces::{send_piece, take_room};
use member_core::Refusal;
use packet_codec::{Packet, encode_packet};
use replica_files::{BookFault, ReplicaBook};
use std::alloc::{AllocError, Global};

/// How a packet was taken. But for `Memory` its receipt names the entry of the book.
#[derive(Clone, Copy, Debug, PartialEq, Eq)]
pub enum Taken {
    /// It was booked, and sent to the mirror where there is one.
    Booked(Receipt),
    /// The replica refused it; nothing was sent.
    Refused(Refusal, Receipt),
    /// A call on the replica's files failed, and the drawer's count of faults rose; nothing was sent.
    File(Receipt),
    /// It was booked, and the mirror's link failed, whose count of faults rose.
    MirrorFailed(Receipt),
    /// Memory ran out; nothing was booked or sent.
    Memory,
}

/// Books a packet of a connection, and sends it to the mirror where the book took it: unchanged, in its written spelling,
/// as one piece. Memory for what is sent is taken before the book is touched. The replica has a place for one more pending
/// packet (`Replica::is_full`), and the packet can be written (`Packet::is_encodable`).
pub fn take_packet<F: Files, O: LinkOut>(
    alloc: Global,
    book: &mut ReplicaBook<F>,
    conn: ConnId,
    packet: &Packet,
    mirror: Option<&mut O>,
) -> Taken
    requires place { length book.old.replica.pending < MAX_PENDING }
    requires encodable { IsEncodable packet.now }
    ensures booked { BookEnds F.Files book.old book.new (ReplicaEvent.Packet conn packet.now) (booked_as result) }
    ensures sent { PassesOn O.LinkOut packet.now result mirror.entry mirror.exit }
{
    let Some(mirror) = mirror else {
        return taken_as(book.packet(conn, packet));
    };
    pass_packet(alloc, book, conn, packet, None, mirror)
}

/// Books a packet, and sends it to this mirror where the book took it, as `take_packet` does where there is one. The bytes
/// in which it came, where they are given, spell it; they go on without a copy where they are its written spelling.
pub fn pass_packet<F: Files, O: LinkOut>(
    alloc: Global,
    book: &mut ReplicaBook<F>,
    conn: ConnId,
    packet: &Packet,
    came: Option<&[u8]>,
    mirror: &mut O,
) -> Taken
    requires place { length book.old.replica.pending < MAX_PENDING }
    requires encodable { IsEncodable packet.now }
    requires came { IfSome came (λ text. SpellsPacket packet.now text.now) }
    ensures booked { BookEnds F.Files book.old book.new (ReplicaEvent.Packet conn packet.now) (booked_as result) }
    ensures sent { PassesTo O.LinkOut packet.now result mirror.old mirror.new }
{
    let Ok(came) = as_written(alloc, packet, came) else {
        return Taken::Memory;
    };
    if let Some(text) = came {
        return pass_text(alloc, book, conn, packet, text, mirror);
    }
    let Ok(text) = written(alloc, packet) else {
        return Taken::Memory;
    };
    pass_text(alloc, book, conn, packet, &text, mirror)
}

/// The packet in its written spelling.
fn written(alloc: Global, packet: &Packet) -> Result<Vec<u8>, AllocError>
    requires { IsEncodable packet.now }
    ensures { IfOk result (λ text. text.items ≡ packet_text packet.now) }
{
    let mut text = Vec::new(alloc);
    encode_packet(packet, &mut text)?;
    Ok(text)
}

/// Books a packet, and sends this to the mirror, its written spelling, where the book took it.
fn pass_text<F: Files, O: LinkOut>(
    alloc: Global,
    book: &mut ReplicaBook<F>,
    conn: ConnId,
    packet: &Packet,
    text: &[u8],
    mirror: &mut O,
) -> Taken
    requires place { length book.old.replica.pending < MAX_PENDING }
    requires encodable { IsEncodable packet.now }
    requires written { text.now ≡ packet_text packet.now }
    ensures booked { BookEnds F.Files book.old book.new (ReplicaEvent.Packet conn packet.now) (booked_as result) }
    ensures sent { PassesTo O.LinkOut packet.now result mirror.old mirror.new }
{
    if take_room(alloc, mirror, text.len()).is_err() {
        return Taken::Memory;
    }
    let receipt = match book.packet(conn, packet) {
        Ok(receipt) => receipt,
        Err(fault) => return taken_as(Err(fault)),
    };
    match send_piece(mirror, text) {
        Ok(_) => Taken::Booked(receipt),
        Err(_) => Taken::MirrorFailed(receipt),
    }
}

/// How a packet was taken that goes to no mirror, or no further, by what the book answered.
pub fn taken_as(booked: Result<Receipt, BookFault>) -> Taken
    ensures { result ≡ taken_as booked }
{
    match booked {
        Ok(receipt) => Taken::Booked(receipt),
        Err(BookFault::Refused(refusal, receipt)) => Taken::Refused(refusal, receipt),
        Err(BookFault::File(receipt)) => Taken::File(receipt),
        Err(BookFault::Memory) => Taken::Memory,
    }
}
