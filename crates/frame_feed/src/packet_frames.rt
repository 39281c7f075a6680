//! Packets with the bytes that they came in.

use bytes::Bytes;
use packet_codec::Packet;

/// A packet with the bytes that spelled it, of which its sums and its body are shares. So it can go on as it came
/// without a copy.
#[derive(Clone, Debug, Drop)]
pub struct PacketFrame {
    /// The packet.
    pub packet: Packet,
    /// The bytes that spelled it, from the first of its lengths to the last of its body.
    pub text: Bytes,
}
