//! The stream of packets in which a client writes the bytes of a block: which packets are formed of
//! the bytes written, which of them aren't acked yet, and how they are sent again, unchanged.
#![tactic(auto)]

mod extents;
mod fills;
mod laws;
mod packets;
mod stream;

pub use extents::{BLOCK_LIMIT, PACKET_SIZE};
pub use laws::{forming_keeps_the_written, packets_are_short, packets_carry_the_written};
pub use stream::{MAX_UNACKED, PacketStream};
