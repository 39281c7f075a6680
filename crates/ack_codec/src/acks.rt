//! Acks.

use crate::replies::Replies;

/// What the members of a pipeline say of a packet (HDFS `PipelineAckProto`).
#[derive(Debug, Drop, PartialEq, Eq)]
pub struct Ack {
    /// The packet's number in its stream; -1 is a heartbeat.
    pub seqno: i64,
    /// Each member's reply, the nearest first.
    pub replies: Replies,
}

impl Ack {
    ghost use Rattle.std.specs.Prelude.{◌≡◌};

    /// The same ack once more.
    pub fn duplicate(&self) -> Ack
        ensures { result ≡ self.now }
    {
        Ack {
            seqno: self.seqno,
            replies: self.replies.duplicate(),
        }
    }
}
