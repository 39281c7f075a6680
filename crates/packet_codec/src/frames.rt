//! The frame of a packet.

ghost use Rattle.std.specs.Prelude.{◌≡◌, ◌+◌, ◌-◌, ◌≤◌, ◌++◌, ℕ, List, Ok, IfOk, length};
ghost use Rattle.hd_base.specs.Results.{with_value};
ghost use Rattle.packet_codec.specs.Frames.{limit, payload_of, header_len_of, frame_at, length_at, frame_value};
ghost use Rattle.packet_codec.specs.Packets.{SpellsPacket};
ghost use Rattle.packet_codec.specs.declared.packets.Packet.{Packet};

use crate::faults::PacketFault;
use byteorder::{BigEndian, ByteOrder};

/// How many bytes the two lengths have.
const LENGTHS: usize = 6;

/// The most bytes that payload and header have together (HDFS `MAX_PACKET_SIZE`).
pub const MAX_PACKET_SIZE: u64 = 16_777_216;

/// The header's bytes, the data behind it, and how many bytes the frame at the front has.
#[tactic(auto, unfolding(crate::specs::Frames::frame_at, crate::specs::Frames::length_at))]
pub(crate) fn frame_of(bytes: &[u8]) -> Result<(&[u8], &[u8], usize), PacketFault>
    ensures frame { with_value frame_value result ≡ frame_at bytes.now }
    ensures within_limit { IfOk result (λ f. length f.1.now ≤ limit) }
{
    let (header_len, rest_len) = lawful_lengths(bytes)?;
    if bytes.len() < LENGTHS + header_len + rest_len {
        return Err(PacketFault::Short);
    }
    let (header, behind) = bytes[LENGTHS..].split_at(header_len);
    let (rest, _) = behind.split_at(rest_len);
    Ok((header, rest, LENGTHS + header_len + rest_len))
}

/// How many bytes the packet has that begins with these bytes, which are at least its two lengths
/// (the first six bytes): from 6 to 16,777,218. The faults are those of `decode_packet` that come
/// before the rest is looked at: `Short` for the first six bytes, and `Length`.
pub fn packet_length(front: &[u8]) -> Result<usize, PacketFault>
    ensures exact { result ≡ length_at front.now }
    ensures least { IfOk result (λ size. 6 ≤ size) }
    ensures most { IfOk result (λ size. size ≤ limit + 2) }

    // A packet has as many bytes as its front says.
    ensures spelled { (m : Packet) (text rest more : List ℕ) → SpellsPacket m text → front.now ++ more ≡ text ++ rest
        → 6 ≤ length front.now → result ≡ Ok (length text) }
{
    let (header_len, rest_len) = lawful_lengths(front)?;
    Ok(LENGTHS + header_len + rest_len)
}

/// The lengths of the header and of the data, where both are there and lawful.
#[tactic(auto, unfolding(crate::specs::Frames::length_at))]
fn lawful_lengths(bytes: &[u8]) -> Result<(usize, usize), PacketFault>
    ensures size { with_value (λ x. 6 + x.0 + x.1) result ≡ length_at bytes.now }
    ensures header { IfOk result (λ x. x.0 ≡ header_len_of bytes.now) }
    ensures rest { IfOk result (λ x. x.1 ≡ payload_of bytes.now - 4) }
    ensures within_limit { IfOk result (λ x. 4 + x.0 + x.1 ≤ limit) }
{
    if bytes.len() < LENGTHS {
        return Err(PacketFault::Short);
    }
    let (payload, header) = lengths(bytes);
    if payload < 4 || u64::from(payload) + u64::from(header) > MAX_PACKET_SIZE {
        return Err(PacketFault::Length { payload, header });
    }
    Ok((usize::from(header), payload as usize - 4))
}

/// The payload's and the header's length, big-endian.
fn lengths(bytes: &[u8]) -> (u32, u16)
    requires { 6 ≤ length bytes.now }
    ensures payload { result.0 ≡ payload_of bytes.now }
    ensures header { result.1 ≡ header_len_of bytes.now }
{
    let payload = BigEndian::read_u32(&bytes[..4]);
    let header = BigEndian::read_u16(&bytes[4..6]);
    (payload, header)
}
