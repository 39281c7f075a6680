//! Why no message is taken.

use ack_codec::{AckFault, ResponseFault};
use op_headers::{AnswerFault, OpFault};
use packet_codec::PacketFault;
use std::alloc::AllocError;
use thiserror::Error;

/// Why a feed gives no message of the kind that was asked for. `Memory` comes alone: none of the
/// others has a `Memory` or a `Short` within.
#[derive(Clone, Copy, Debug, PartialEq, Eq, Error)]
pub enum FeedFault {
    /// No request begins so.
    #[error("{0}")]
    Op(OpFault),
    /// No packet begins so.
    #[error("{0}")]
    Packet(PacketFault),
    /// No ack or read status begins so.
    #[error("{0}")]
    Ack(AckFault),
    /// No response begins so.
    #[error("{0}")]
    Response(ResponseFault),
    /// No answer of a recovery begins so.
    #[error("{0}")]
    Recovery(AnswerFault),
    /// Memory ran out.
    #[error("out of memory")]
    Memory,
}

/// Why no message is taken off the front of the bytes.
#[derive(Clone, Copy, Debug)]
pub(crate) enum NoMessage {
    /// The bytes end before the message does.
    Short,
    /// Memory ran out.
    Memory,
    /// No message of the kind begins so.
    Refused(FeedFault),
}

impl From<AllocError> for NoMessage {
    ghost use Rattle.std.specs.Prelude.{◌≡◌};
    ghost use Rattle.frame_feed.specs.declared.faults.NoMessage.TheVariants.{Memory};

    ghost from_gives = { λ _ e. e ≡ Memory };

    fn from(_error: AllocError) -> NoMessage {
        NoMessage::Memory
    }
}

impl From<OpFault> for NoMessage {
    ghost use Rattle.std.specs.Prelude.{◌≡◌};
    ghost use Rattle.frame_feed.specs.Faults.{no_op};

    ghost from_gives = { λ fault e. e ≡ no_op fault };

    fn from(fault: OpFault) -> NoMessage {
        match fault {
            OpFault::Short => NoMessage::Short,
            OpFault::Memory => NoMessage::Memory,
            _ => NoMessage::Refused(FeedFault::Op(fault)),
        }
    }
}

impl From<PacketFault> for NoMessage {
    ghost use Rattle.std.specs.Prelude.{◌≡◌};
    ghost use Rattle.frame_feed.specs.Faults.{no_packet};

    ghost from_gives = { λ fault e. e ≡ no_packet fault };

    fn from(fault: PacketFault) -> NoMessage {
        match fault {
            PacketFault::Short => NoMessage::Short,
            PacketFault::Memory => NoMessage::Memory,
            _ => NoMessage::Refused(FeedFault::Packet(fault)),
        }
    }
}

impl From<AckFault> for NoMessage {
    ghost use Rattle.std.specs.Prelude.{◌≡◌};
    ghost use Rattle.frame_feed.specs.Faults.{no_ack};

    ghost from_gives = { λ fault e. e ≡ no_ack fault };

    fn from(fault: AckFault) -> NoMessage {
        match fault {
            AckFault::Short => NoMessage::Short,
            _ => NoMessage::Refused(FeedFault::Ack(fault)),
        }
    }
}

impl From<ResponseFault> for NoMessage {
    ghost use Rattle.std.specs.Prelude.{◌≡◌};
    ghost use Rattle.frame_feed.specs.Faults.{no_response};

    ghost from_gives = { λ fault e. e ≡ no_response fault };

    fn from(fault: ResponseFault) -> NoMessage {
        match fault {
            ResponseFault::Short => NoMessage::Short,
            ResponseFault::Memory => NoMessage::Memory,
            _ => NoMessage::Refused(FeedFault::Response(fault)),
        }
    }
}

impl From<AnswerFault> for NoMessage {
    ghost use Rattle.std.specs.Prelude.{◌≡◌};
    ghost use Rattle.frame_feed.specs.Faults.{no_answer};

    ghost from_gives = { λ fault e. e ≡ no_answer fault };

    fn from(fault: AnswerFault) -> NoMessage {
        match fault {
            AnswerFault::Short => NoMessage::Short,
            AnswerFault::Memory => NoMessage::Memory,
            _ => NoMessage::Refused(FeedFault::Recovery(fault)),
        }
    }
}
