//! Where the parts of a packet lie in its bytes.

ghost use Rattle.std.specs.Prelude.{◌≡◌, ◌+◌, ◌≤◌, length, IfOk};
ghost use Rattle.hd_base.specs.Results.{with_value};
ghost use Rattle.packet_codec.specs.Frames.{limit};
ghost use Rattle.packet_codec.specs.Packets.{sums_within, packet_at};
ghost use Rattle.packet_codec.specs.Parts.{packet_in};

use crate::faults::PacketFault;
use crate::frames::frame_of;
use crate::headers::{Header, header_of};

/// Where the parts of a packet lie, in bytes from its first. Behind the two lengths and the header
/// stand the sums, and behind them, to the packet's end, the body.
#[derive(Clone, Copy, Debug, PartialEq, Eq)]
pub struct PacketParts {
    /// What the header says.
    pub header: Header,
    /// Where the sums begin.
    pub data_at: usize,
    /// How many bytes the sums have.
    pub sums: usize,
    /// How many bytes the packet has.
    pub size: usize,
}

/// Reads the lengths and the header of the packet at the front of the bytes, and where its parts
/// lie. It takes no memory; its faults are those of `decode_packet`.
#[tactic(auto, unfolding(crate::specs::Packets::packet_at))]
pub fn packet_parts(bytes: &[u8]) -> Result<PacketParts, PacketFault>
    ensures exact { with_value (packet_in bytes.now) result ≡ packet_at bytes.now }
    ensures parts { IfOk result (λ p. p.data_at + p.sums ≤ p.size) }
    ensures within { IfOk result (λ p. p.size ≤ length bytes.now) }
{
    let (header, data, size) = frame_of(bytes)?;
    let header = header_of(header)?;
    let sums = sums_of(data.len(), header)?;
    Ok(PacketParts {
        header,
        data_at: size - data.len(),
        sums,
        size,
    })
}

/// How many bytes of so much data are sums. The others are the body, as the header says.
#[tactic(auto, unfolding(crate::specs::Packets::sums_within))]
fn sums_of(available: usize, header: Header) -> Result<usize, PacketFault>
    requires { available ≤ limit }
    ensures sums { result ≡ sums_within available header.data_len }
    ensures within { IfOk result (λ n. n ≤ available) }
{
    let rest = available as i64 - i64::from(header.data_len);
    if header.data_len < 0 || rest < 0 || rest % 4 != 0 {
        return Err(PacketFault::SumCount { rest });
    }
    Ok(rest as usize)
}
