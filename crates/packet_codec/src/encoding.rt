//! Writing packets.

ghost use Rattle.std.specs.Prelude.{◌≡◌, ◌+◌, ◌%◌, ◌≤◌, ◌++◌, length, take, OnOk, OnErr};
ghost use Rattle.packet_codec.specs.Headers.{header_text, header_size, places_text, marks_text};
ghost use Rattle.packet_codec.specs.Frames.{limit};
ghost use Rattle.packet_codec.specs.Packets.{
  SpellsPacket,
  ReadsPacket,
  payload_for,
  packet_text,
  front_text,
  lengths_text,
};

use crate::headers::Header;
use crate::packets::Packet;
use byteorder::{BigEndian, ByteOrder};
use proto_fields::{cut_back, put_fixed32, put_fixed64, put_varint};
use std::alloc::AllocError;

/// How many bytes a written header has without syncBlock.
const HEADER_SIZE: u16 = 25;

/// How many bytes a written header has with syncBlock.
const SYNC_HEADER_SIZE: u16 = 27;

/// Appends a packet in its written spelling: fields in ascending order, and syncBlock only where it
/// is true. Its sums are of four bytes each, and payload and header have at most 16,777,216 bytes,
/// which `Packet::is_encodable` tests. Want of memory leaves `out` as it was.
pub fn encode_packet(packet: &Packet, out: &mut Vec<u8>) -> Result<(), AllocError>
    requires whole { length packet.now.sums % 4 ≡ 0 }
    requires within { payload_for packet.now + header_size packet.now.sync ≤ limit }
    ensures ok { OnOk result (out.new.items ≡ out.old.items ++ packet_text packet.now) }
    ensures err { OnErr result (out.new.items ≡ out.old.items) }
    ensures spelled { OnOk result (SpellsPacket packet.now (packet_text packet.now)) }
    ensures again { OnOk result (ReadsPacket out.old.items out.new.items packet.now) }
{
    let before = out.len();
    let done = push_packet(packet, out);
    cut_back(out, before, done)
}

/// Appends a packet.
fn push_packet(packet: &Packet, out: &mut Vec<u8>) -> Result<(), AllocError>
    requires whole { length packet.now.sums % 4 ≡ 0 }
    requires within { payload_for packet.now + header_size packet.now.sync ≤ limit }
    ensures spelled { OnOk result (SpellsPacket packet.now (packet_text packet.now)) }
    ensures ok { OnOk result (out.new.items ≡ out.old.items ++ packet_text packet.now) }
    ensures front { take (length out.old.items) out.new.items ≡ out.old.items }
{
    let payload = 4 + packet.sums.len() + packet.body.len();
    let header = Header {
        offset: packet.offset,
        seqno: packet.seqno,
        last: packet.last,
        sync: packet.sync,
        data_len: packet.body.len() as i32,
    };
    push_front(payload as u32, header, out)?;
    out.extend_from_slice(packet.sums.as_slice())?;
    out.extend_from_slice(packet.body.as_slice())
}

/// Appends the two lengths and the header.
#[tactic(auto, unfolding(crate::specs::Packets::front_text))]
fn push_front(payload: u32, header: Header, out: &mut Vec<u8>) -> Result<(), AllocError>
    ensures ok { OnOk result (out.new.items ≡ out.old.items ++ front_text payload header) }
    ensures front { take (length out.old.items) out.new.items ≡ out.old.items }
{
    push_lengths(payload, written_header_size(header.sync), out)?;
    push_header(header, out)
}

/// How many bytes a written header has.
pub(crate) fn written_header_size(sync: bool) -> u16
    ensures { result ≡ header_size sync }
{
    if sync { SYNC_HEADER_SIZE } else { HEADER_SIZE }
}

/// Appends the payload's and the header's length, big-endian.
#[tactic(auto, unfolding(crate::specs::Packets::lengths_text))]
fn push_lengths(payload: u32, header: u16, out: &mut Vec<u8>) -> Result<(), AllocError>
    ensures ok { OnOk result (out.new.items ≡ out.old.items ++ lengths_text payload header) }
    ensures front { take (length out.old.items) out.new.items ≡ out.old.items }
{
    let mut lengths = [0; 6];
    BigEndian::write_u32(&mut lengths[..4], payload);
    BigEndian::write_u16(&mut lengths[4..], header);
    out.extend_from_slice(&lengths)
}

/// Appends a header.
#[tactic(auto, unfolding(crate::specs::Headers::header_text))]
fn push_header(header: Header, out: &mut Vec<u8>) -> Result<(), AllocError>
    ensures ok { OnOk result (out.new.items ≡ out.old.items ++ header_text header) }
    ensures front { take (length out.old.items) out.new.items ≡ out.old.items }
{
    let offset = header.offset.cast_unsigned();
    let seqno = header.seqno.cast_unsigned();
    push_places(offset, seqno, out)?;
    push_marks(
        header.last,
        header.data_len.cast_unsigned(),
        header.sync,
        out,
    )
}

/// Appends offsetInBlock and seqno.
#[tactic(auto, unfolding(crate::specs::Headers::places_text))]
fn push_places(offset: u64, seqno: u64, out: &mut Vec<u8>) -> Result<(), AllocError>
    ensures ok { OnOk result (out.new.items ≡ out.old.items ++ places_text offset seqno) }
    ensures front { take (length out.old.items) out.new.items ≡ out.old.items }
{
    put_fixed64(out, 1, offset)?;
    put_fixed64(out, 2, seqno)
}

/// Appends lastPacketInBlock and dataLen, and syncBlock where it is true.
#[tactic(auto, unfolding(crate::specs::Headers::marks_text))]
fn push_marks(last: bool, data_len: u32, sync: bool, out: &mut Vec<u8>) -> Result<(), AllocError>
    ensures ok { OnOk result (out.new.items ≡ out.old.items ++ marks_text last data_len sync) }
    ensures front { take (length out.old.items) out.new.items ≡ out.old.items }
{
    put_varint(out, 3, u64::from(last))?;
    put_fixed32(out, 4, data_len)?;
    if sync {
        put_varint(out, 5, 1)?;
    }
    Ok(())
}
