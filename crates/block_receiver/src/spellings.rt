//! Packets that can go on in the very bytes in which they came.

ghost use Rattle.std.specs.Prelude.{◌≡◌, ◌≤◌, ◌++◌, IfOk, IfSome, IsTrue, OnOk, length};
ghost use Rattle.std.specs.Int.{w64, cast_unsigned};
ghost use Rattle.packet_codec.specs.Frames.{limit};
ghost use Rattle.packet_codec.specs.Headers.{header_text, places_text, marks_text};
ghost use Rattle.packet_codec.specs.Packets.{SpellsPacket, header_for, packet_text};

use packet_codec::Packet;
use proto_fields::{put_fixed32, put_fixed64, put_varint};
use std::alloc::{AllocError, Global};

/// How many bytes the two lengths in front of a header have.
const LENGTHS: usize = 6;

/// The bytes in which a packet came, where they are its written spelling: they can go on as they are.
pub(crate) fn as_written<'a>(
    alloc: Global,
    packet: &Packet,
    came: Option<&'a [u8]>,
) -> Result<Option<&'a [u8]>, AllocError>
    requires { IfSome came (λ text. SpellsPacket packet.now text.now) }
    ensures { IfOk result (λ found. IfSome found (λ text. text.now ≡ packet_text packet.now)) }
{
    let Some(text) = came else {
        return Ok(None);
    };
    let written = is_written(alloc, packet, text)?;
    Ok(written.then_some(text))
}

/// Whether bytes that spell a packet are its written spelling: whether its header is written so.
fn is_written(alloc: Global, packet: &Packet, text: &[u8]) -> Result<bool, AllocError>
    requires { SpellsPacket packet.now text.now }
    ensures { IfOk result (λ written. IsTrue written → text.now ≡ packet_text packet.now) }
{
    let written = header_text(alloc, packet)?;
    let header = written.as_slice();
    let data = packet.sums.len() + packet.body.len();
    if text.len() != LENGTHS + header.len() + data {
        return Ok(false);
    }
    Ok(text.split_at(LENGTHS).1.starts_with(header))
}

/// A packet's header as it is written.
fn header_text(alloc: Global, packet: &Packet) -> Result<Vec<u8>, AllocError>
    requires { length packet.now.body ≤ limit }
    ensures { IfOk result (λ text. text.items ≡ header_text (header_for packet.now)) }
{
    let mut text = Vec::new(alloc);
    push_places(packet, &mut text)?;
    let data_len = packet.body.len() as u32;
    push_marks(packet.last, data_len, packet.sync, &mut text)?;
    Ok(text)
}

/// Appends offsetInBlock and seqno.
#[tactic(auto, unfolding(packet_codec::specs::Headers::places_text))]
fn push_places(packet: &Packet, text: &mut Vec<u8>) -> Result<(), AllocError>
    ensures { OnOk result (text.new.items ≡ text.old.items
        ++ places_text (cast_unsigned w64 packet.now.offset) (cast_unsigned w64 packet.now.seqno)) }
{
    put_fixed64(text, 1, packet.offset.cast_unsigned())?;
    put_fixed64(text, 2, packet.seqno.cast_unsigned())
}

/// Appends lastPacketInBlock and dataLen, and syncBlock where it is true.
#[tactic(auto, unfolding(packet_codec::specs::Headers::marks_text))]
fn push_marks(last: bool, data_len: u32, sync: bool, text: &mut Vec<u8>) -> Result<(), AllocError>
    ensures { OnOk result (text.new.items ≡ text.old.items ++ marks_text last data_len sync) }
{
    put_varint(text, 3, u64::from(last))?;
    put_fixed32(text, 4, data_len)?;
    if sync {
        put_varint(text, 5, 1)?;
    }
    Ok(())
}
