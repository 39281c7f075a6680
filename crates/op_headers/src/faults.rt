//! Why bytes are no request and no answer of a recovery.

use crate::paths::FieldPath;
use proto_fields::{FieldsFault, FrameFault, WireFault};
use std::alloc::AllocError;
use thiserror::Error;

/// Why bytes are no request, in the order in which it is tried: `Version`, `Opcode`, the faults of
/// the message's length, `TooLong`, `Short` for the message, `Wire`, `Missing`. `Short` comes
/// before a fault of what isn't wholly there, and `Memory` may come at any place.
#[derive(Clone, Copy, Debug, PartialEq, Eq, Error)]
pub enum OpFault {
    /// The bytes end before the request does.
    #[error("the bytes end inside a request")]
    Short,
    /// The version isn't 28.
    #[error("version {got}")]
    Version { got: u16 },
    /// No request has this opcode.
    #[error("opcode {got}")]
    Opcode { got: u8 },
    /// The message has over 65,536 bytes.
    #[error("a message of {length} bytes")]
    TooLong { length: u64 },
    /// A field is not whole and lawful: the first of the message itself, and then of the messages
    /// within, those under a lower field number first, and of one number an earlier one. The place
    /// counts from the first byte of that message, all its parts joined. A length of more than ten
    /// bytes is `LongVarint` at 3.
    #[error("{0}")]
    Wire(WireFault),
    /// The first required field that isn't there, by the field numbers that lead to it from the
    /// top, filled with zeros.
    #[error("field {place} is missing", place = FieldPath(*path))]
    Missing { path: [u8; 4] },
    /// Memory ran out.
    #[error("out of memory")]
    Memory,
}

impl From<FrameFault> for OpFault {
    ghost use Rattle.std.specs.Prelude.{◌≡◌};
    ghost use Rattle.op_headers.specs.Requests.{op_frame_cause};

    ghost from_gives = { λ fault e. e ≡ op_frame_cause fault };

    fn from(fault: FrameFault) -> OpFault {
        match fault {
            FrameFault::Short => OpFault::Short,
            FrameFault::TooLong { length } => OpFault::TooLong { length },
            FrameFault::LongPrefix => OpFault::Wire(WireFault::LongVarint { at: 3 }),
        }
    }
}

impl From<FieldsFault> for OpFault {
    ghost use Rattle.std.specs.Prelude.{◌≡◌};
    ghost use Rattle.proto_fields.specs.Framed.{fields_cause};
    ghost use Rattle.op_headers.specs.declared.faults.OpFault.TheVariants as op;

    ghost from_gives = { λ fault e. e ≡ fields_cause op.Memory op.Wire fault };

    fn from(fault: FieldsFault) -> OpFault {
        match fault {
            FieldsFault::Wire(fault) => OpFault::Wire(fault),
            FieldsFault::Memory => OpFault::Memory,
        }
    }
}

impl From<AllocError> for OpFault {
    ghost use Rattle.std.specs.Prelude.{◌≡◌};
    ghost use Rattle.op_headers.specs.declared.faults.OpFault.TheVariants.{Memory};

    ghost from_gives = { λ _ e. e ≡ Memory };

    fn from(_error: AllocError) -> OpFault {
        OpFault::Memory
    }
}

/// Why bytes are no answer of a recovery, in the order in which it is tried: the faults of the
/// message's length, `TooLong`, `Short` for the message, `Wire`, `Missing`. `Memory` may come at
/// any place.
#[derive(Clone, Copy, Debug, PartialEq, Eq, Error)]
pub enum AnswerFault {
    /// The bytes end before the message does.
    #[error("the bytes end inside an answer")]
    Short,
    /// The message has over 65,536 bytes.
    #[error("a message of {length} bytes")]
    TooLong { length: u64 },
    /// A field is not whole and lawful. A length of more than ten bytes is `LongVarint` at 0.
    #[error("{0}")]
    Wire(WireFault),
    /// A required field isn't there.
    #[error("field {field} is missing")]
    Missing { field: u32 },
    /// Memory ran out.
    #[error("out of memory")]
    Memory,
}

impl From<FrameFault> for AnswerFault {
    ghost use Rattle.std.specs.Prelude.{◌≡◌};
    ghost use Rattle.op_headers.specs.Answers.{answer_frame_cause};

    ghost from_gives = { λ fault e. e ≡ answer_frame_cause fault };

    fn from(fault: FrameFault) -> AnswerFault {
        match fault {
            FrameFault::Short => AnswerFault::Short,
            FrameFault::TooLong { length } => AnswerFault::TooLong { length },
            FrameFault::LongPrefix => AnswerFault::Wire(WireFault::LongVarint { at: 0 }),
        }
    }
}

impl From<FieldsFault> for AnswerFault {
    ghost use Rattle.std.specs.Prelude.{◌≡◌};
    ghost use Rattle.proto_fields.specs.Framed.{fields_cause};
    ghost use Rattle.op_headers.specs.declared.faults.AnswerFault.TheVariants as answer;

    ghost from_gives = { λ fault e. e ≡ fields_cause answer.Memory answer.Wire fault };

    fn from(fault: FieldsFault) -> AnswerFault {
        match fault {
            FieldsFault::Wire(fault) => AnswerFault::Wire(fault),
            FieldsFault::Memory => AnswerFault::Memory,
        }
    }
}

impl From<AllocError> for AnswerFault {
    ghost use Rattle.std.specs.Prelude.{◌≡◌};
    ghost use Rattle.op_headers.specs.declared.faults.AnswerFault.TheVariants.{Memory};

    ghost from_gives = { λ _ e. e ≡ Memory };

    fn from(_error: AllocError) -> AnswerFault {
        AnswerFault::Memory
    }
}
