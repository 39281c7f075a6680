//! Packets of the HDFS data transfer protocol, version 28: read in any spelling of their header,
//! and written in one.
#![tactic(auto)]

mod decoding;
mod encoding;
mod faults;
mod frames;
mod headers;
mod packets;
mod parts;

pub use decoding::decode_packet;
pub use encoding::encode_packet;
pub use faults::{HeaderCause, PacketFault};
pub use frames::{MAX_PACKET_SIZE, packet_length};
pub use headers::Header;
pub use packets::Packet;
pub use parts::{PacketParts, packet_parts};
