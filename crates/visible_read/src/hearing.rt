//! What comes from the node that is read from.

ghost use Rattle.std.specs.Prelude.{◌≡◌};
ghost use Rattle.visible_read.specs.Hearing.{Hears, response_came, packet_came};

use ack_codec::Response;
use hd_base::LinkIn;
use link_messages::{Incoming, Next};
use packet_codec::Packet;
use read_core::FromNode;

/// What comes next from the node.
#[derive(Debug, Drop)]
pub(crate) enum Came {
    /// This: a message, the end, or what can't be read.
    Taken(FromNode),
    /// Nothing yet.
    NotYet,
    /// The link failed, and its count of faults rose.
    LinkFailed,
    /// Memory ran out.
    Memory,
}

/// What comes next: the answer, or behind it a packet.
pub(crate) fn hear<I: LinkIn>(answered: bool, incoming: &mut Incoming, inward: &mut I) -> Came
    ensures { Hears I.LinkIn answered incoming.old incoming.new inward.old inward.new result }
{
    if answered {
        packet_came(incoming.next::<Packet, I>(inward))
    } else {
        response_came(incoming.next::<Response, I>(inward))
    }
}

/// What came where the answer is awaited.
fn response_came(next: Next<Response>) -> Came
    ensures { result ≡ response_came next }
{
    match next {
        Next::Message(response) => Came::Taken(FromNode::Response(response)),
        Next::Unreadable => Came::Taken(FromNode::Unreadable),
        Next::End => Came::Taken(FromNode::End),
        Next::NotYet => Came::NotYet,
        Next::Failed => Came::LinkFailed,
        Next::Memory => Came::Memory,
    }
}

/// What came where a packet is awaited.
fn packet_came(next: Next<Packet>) -> Came
    ensures { result ≡ packet_came next }
{
    match next {
        Next::Message(packet) => Came::Taken(FromNode::Packet(packet)),
        Next::Unreadable => Came::Taken(FromNode::Unreadable),
        Next::End => Came::Taken(FromNode::End),
        Next::NotYet => Came::NotYet,
        Next::Failed => Came::LinkFailed,
        Next::Memory => Came::Memory,
    }
}
