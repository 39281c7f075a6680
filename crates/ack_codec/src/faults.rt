//! Why bytes are no ack, read status or response.

use proto_fields::{FieldsFault, FrameFault, WireFault};
use std::alloc::AllocError;
use thiserror::Error;

/// Why bytes are no ack or read status, in the order in which it is tried: the faults of the
/// message's length, `TooLong`, `Short` for the message, `Wire`, `Missing`, `Replies`.
#[derive(Clone, Copy, Debug, PartialEq, Eq, Error)]
pub enum AckFault {
    /// The bytes end before the message does.
    #[error("the bytes end inside an ack")]
    Short,
    /// The message has over 65,536 bytes.
    #[error("a message of {length} bytes")]
    TooLong { length: u64 },
    /// A field, or a varint of a packed list, is not whole and lawful: the first of the message
    /// itself, then of its replies, then of its flags. A place in a list counts from the list's
    /// first byte. A length of more than ten bytes is `LongVarint` at 0.
    #[error("{0}")]
    Wire(WireFault),
    /// A required field isn't there.
    #[error("field {field} is missing")]
    Missing { field: u32 },
    /// There are over 16 replies.
    #[error("{count} replies")]
    Replies { count: u64 },
}

impl From<FrameFault> for AckFault {
    ghost use Rattle.std.specs.Prelude.{◌≡◌};
    ghost use Rattle.ack_codec.specs.Acks.{ack_frame_cause};

    ghost from_gives = { λ fault e. e ≡ ack_frame_cause fault };

    fn from(fault: FrameFault) -> AckFault {
        match fault {
            FrameFault::Short => AckFault::Short,
            FrameFault::TooLong { length } => AckFault::TooLong { length },
            FrameFault::LongPrefix => AckFault::Wire(WireFault::LongVarint { at: 0 }),
        }
    }
}

impl From<WireFault> for AckFault {
    ghost use Rattle.std.specs.Prelude.{◌≡◌};
    ghost use Rattle.ack_codec.specs.declared.faults.AckFault.TheVariants.{Wire};

    ghost from_gives = { λ fault e. e ≡ Wire fault };

    fn from(fault: WireFault) -> AckFault {
        AckFault::Wire(fault)
    }
}

/// Why bytes are no response, in the order in which it is tried: the faults of the message's
/// length, `TooLong`, `Short` for the message, `Wire`, `Missing`. `Memory` may come at any place.
#[derive(Clone, Copy, Debug, PartialEq, Eq, Error)]
pub enum ResponseFault {
    /// The bytes end before the message does.
    #[error("the bytes end inside a response")]
    Short,
    /// The message has over 65,536 bytes.
    #[error("a message of {length} bytes")]
    TooLong { length: u64 },
    /// A field is not whole and lawful: the first of the message itself, then of checksumResponse,
    /// then of readOpChecksumInfo, then of the checksum in it. The place counts from the first
    /// byte of that message, all its parts joined. A length of more than ten bytes is
    /// `LongVarint` at 0.
    #[error("{0}")]
    Wire(WireFault),
    /// A required field isn't there, by its number in its own message.
    #[error("field {field} is missing")]
    Missing { field: u32 },
    /// Memory ran out.
    #[error("out of memory")]
    Memory,
}

impl From<FrameFault> for ResponseFault {
    ghost use Rattle.std.specs.Prelude.{◌≡◌};
    ghost use Rattle.ack_codec.specs.Responses.{response_frame_cause};

    ghost from_gives = { λ fault e. e ≡ response_frame_cause fault };

    fn from(fault: FrameFault) -> ResponseFault {
        match fault {
            FrameFault::Short => ResponseFault::Short,
            FrameFault::TooLong { length } => ResponseFault::TooLong { length },
            FrameFault::LongPrefix => ResponseFault::Wire(WireFault::LongVarint { at: 0 }),
        }
    }
}

impl From<WireFault> for ResponseFault {
    ghost use Rattle.std.specs.Prelude.{◌≡◌};
    ghost use Rattle.ack_codec.specs.declared.faults.ResponseFault.TheVariants.{Wire};

    ghost from_gives = { λ fault e. e ≡ Wire fault };

    fn from(fault: WireFault) -> ResponseFault {
        ResponseFault::Wire(fault)
    }
}

impl From<FieldsFault> for ResponseFault {
    ghost use Rattle.std.specs.Prelude.{◌≡◌};
    ghost use Rattle.proto_fields.specs.Framed.{fields_cause};
    ghost use Rattle.ack_codec.specs.declared.faults.ResponseFault.TheVariants as response;

    ghost from_gives = { λ fault e. e ≡ fields_cause response.Memory response.Wire fault };

    fn from(fault: FieldsFault) -> ResponseFault {
        match fault {
            FieldsFault::Wire(fault) => ResponseFault::Wire(fault),
            FieldsFault::Memory => ResponseFault::Memory,
        }
    }
}

impl From<AllocError> for ResponseFault {
    ghost use Rattle.std.specs.Prelude.{◌≡◌};
    ghost use Rattle.ack_codec.specs.declared.faults.ResponseFault.TheVariants.{Memory};

    ghost from_gives = { λ _ e. e ≡ Memory };

    fn from(_error: AllocError) -> ResponseFault {
        ResponseFault::Memory
    }
}
