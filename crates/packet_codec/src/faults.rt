//! Why bytes are no packet.

use proto_fields::WireFault;
use std::alloc::AllocError;
use thiserror::Error;

/// Why bytes are no packet, in the order in which it is tried: `Short` for the first six bytes,
/// `Length`, `Short` for the rest, `Header`, `SumCount`.
#[derive(Clone, Copy, Debug, PartialEq, Eq, Error)]
pub enum PacketFault {
    /// The bytes end before the frame does.
    #[error("the bytes end inside a packet")]
    Short,
    /// The payload's length is under 4, or payload and header have over 16,777,216 bytes.
    #[error("a payload of {payload} bytes under a header of {header}")]
    Length { payload: u32, header: u16 },
    /// The header isn't whole and lawful, or lacks a required field.
    #[error("the packet's header: {cause}")]
    Header { cause: HeaderCause },
    /// The sums' length, which is what the body leaves of the payload, is negative or no multiple
    /// of 4, or the body's length is negative.
    #[error("{rest} bytes are no sums")]
    SumCount { rest: i64 },
    /// Memory ran out.
    #[error("out of memory")]
    Memory,
}

/// Why a packet's header isn't read.
#[derive(Clone, Copy, Debug, PartialEq, Eq, Error)]
pub enum HeaderCause {
    /// The first field that is not whole and lawful has this fault.
    #[error("{0}")]
    Wire(WireFault),
    /// The first required field that isn't there, by its number.
    #[error("field {field} is missing")]
    Missing { field: u32 },
}

impl From<WireFault> for HeaderCause {
    ghost use Rattle.std.specs.Prelude.{◌≡◌};
    ghost use Rattle.packet_codec.specs.declared.faults.HeaderCause.TheVariants.{Wire};

    ghost from_gives = { λ fault e. e ≡ Wire fault };

    fn from(fault: WireFault) -> HeaderCause {
        HeaderCause::Wire(fault)
    }
}

impl From<HeaderCause> for PacketFault {
    ghost use Rattle.std.specs.Prelude.{◌≡◌};
    ghost use Rattle.packet_codec.specs.declared.faults.PacketFault.TheVariants.{Header};

    ghost from_gives = { λ cause e. e ≡ Header cause };

    fn from(cause: HeaderCause) -> PacketFault {
        PacketFault::Header { cause }
    }
}

impl From<AllocError> for PacketFault {
    ghost use Rattle.std.specs.Prelude.{◌≡◌};
    ghost use Rattle.packet_codec.specs.declared.faults.PacketFault.TheVariants.{Memory};

    ghost from_gives = { λ _ e. e ≡ Memory };

    fn from(_error: AllocError) -> PacketFault {
        PacketFault::Memory
    }
}
