//! A packet at a member of a pipeline: it is booked, and then goes on to the mirror.
#![tactic(auto)]

mod laws;
mod packets;
mod spellings;

pub use laws::packets_follow_the_member;
pub use link_pieces::{send_piece, take_room};
pub use member_core::{
    Ack, AckBytes, Booked, Member, ReplicaEvent, Response, SetupAnswer, Shuts, Turn, Upward,
    WriteOp, encode_ack, encode_response, response,
};
pub use packet_codec::Packet;
pub use packets::{Taken, pass_packet, take_packet, taken_as};
pub use replica_files::{BookFault, ReplicaBook};
