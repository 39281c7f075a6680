//! What a member takes.

use ack_codec::{Ack, Response};
use packet_codec::Packet;

/// What a member takes from above, from the client or the member before it.
#[derive(Debug, Drop, PartialEq, Eq)]
pub enum FromAbove {
    /// A packet.
    Packet(Packet),
    /// What is no packet.
    Unreadable,
    /// The end of the connection.
    End,
}

/// What a member takes from below, from its mirror.
#[derive(Debug, Drop, PartialEq, Eq)]
pub enum FromBelow {
    /// The answer to the request.
    Response(Response),
    /// The ack of a packet.
    Ack(Ack),
    /// What is neither.
    Unreadable,
    /// The end of the connection.
    End,
}
