//! Packets.

use crate::encoding::written_header_size;
use crate::frames::MAX_PACKET_SIZE;
use crate::headers::Header;
use bytes::Bytes;

/// A packet of a block's bytes (HDFS `PacketHeaderProto`, the sums and the body). A clone shares the
/// sums and the body.
#[derive(Clone, Debug, Drop, PartialEq, Eq)]
pub struct Packet {
    /// Where in the block the body begins, in bytes.
    pub offset: i64,
    /// The packet's number in its stream; -1 is a heartbeat.
    pub seqno: i64,
    /// Whether it is the last packet of the block.
    pub last: bool,
    /// Whether the member is to bring the block to the disk.
    pub sync: bool,
    /// The sums of the body's chunks, four bytes big-endian each.
    pub sums: Bytes,
    /// The block's bytes.
    pub body: Bytes,
}

impl Packet {
    ghost use Rattle.std.specs.Prelude.{◌≡◌, ◌↔◌, IsTrue};
    ghost use Rattle.packet_codec.specs.Packets.{IsEncodable, packet_with};

    /// The packet of a header, its sums and its body. The header's length of the body isn't looked at.
    pub fn from_parts(header: Header, sums: Bytes, body: Bytes) -> Packet
        ensures { result ≡ packet_with header sums body }
    {
        Packet {
            offset: header.offset,
            seqno: header.seqno,
            last: header.last,
            sync: header.sync,
            sums,
            body,
        }
    }

    /// Whether `encode_packet` may write the packet: its sums are of four bytes each, and payload and
    /// header have at most 16,777,216 bytes.
    pub fn is_encodable(&self) -> bool
        ensures { IsTrue result ↔ IsEncodable self.now }
    {
        let header = written_header_size(self.sync);
        let whole = self.sums.len() % 4 == 0;
        let most = MAX_PACKET_SIZE as usize - 4 - usize::from(header);
        whole && self.sums.len() <= most && self.body.len() <= most - self.sums.len()
    }
}
