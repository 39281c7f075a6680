//! Reading packets.

ghost use Rattle.std.specs.Prelude.{◌≡◌, ◌≤◌, ◌++◌, ℕ, List, [], length, take, Ok, Err, IfOk, IfErr};
ghost use Rattle.hd_base.specs.Results.{Gives, FailsFor};
ghost use Rattle.packet_codec.specs.Packets.{SpellsPacket, packet_at};
ghost use Rattle.packet_codec.specs.Refusals.{IsRefused};
ghost use Rattle.packet_codec.specs.declared.packets.Packet.{Packet};
ghost use Rattle.packet_codec.specs.declared.faults.PacketFault.{PacketFault};

use crate::faults::PacketFault;
use crate::packets::Packet;
use crate::parts::packet_parts;
use bytes::Bytes;
use std::alloc::Global;

/// Reads the packet at the front of the bytes, and says how many bytes it has. The header may be in
/// any spelling. Of the body and the sums one copy is made each.
pub fn decode_packet(alloc: Global, bytes: &[u8]) -> Result<(Packet, usize), PacketFault>
    // What is read is spelled there, and what is spelled there is read, whatever follows.
    ensures found { IfOk result (λ x. SpellsPacket x.0 (take x.1 bytes.now)) }
    ensures within { IfOk result (λ x. x.1 ≤ length bytes.now) }
    ensures only { (m : Packet) (text rest : List ℕ) → SpellsPacket m text → bytes.now ≡ text ++ rest
        → Gives PacketFault.Memory result (Ok (m, length text)) }

    // Why bytes are no packet, and that they are then refused for just that, unless memory runs out.
    ensures refused { IfErr result (λ e. FailsFor PacketFault.Memory IsRefused e bytes.now) }
    ensures refuses { (e : PacketFault) → IsRefused e bytes.now → Gives PacketFault.Memory result (Err e) }

    // No spelling is a proper prefix of another.
    ensures prefix { (m n : Packet) (text more : List ℕ) → SpellsPacket m text → SpellsPacket n (text ++ more)
        → more ≡ [] }

    // The same as a function of the bytes.
    ensures exact { Gives PacketFault.Memory result (packet_at bytes.now) }
{
    packet(alloc, bytes)
}

/// Reads the packet at the front of the bytes.
fn packet(alloc: Global, bytes: &[u8]) -> Result<(Packet, usize), PacketFault>
    ensures { Gives PacketFault.Memory result (packet_at bytes.now) }
{
    let parts = packet_parts(bytes)?;
    let (_, data) = bytes[..parts.size].split_at(parts.data_at);
    let (sums, body) = data.split_at(parts.sums);
    let sums = Bytes::copy_from_slice(alloc, sums)?;
    let body = Bytes::copy_from_slice(alloc, body)?;
    Ok((Packet::from_parts(parts.header, sums, body), parts.size))
}
