//! Messages behind their length, one after the other in a stream of bytes.

ghost use Rattle.std.specs.Prelude.{◌≡◌, ◌+◌, ◌≤◌, ℕ, List, Ok, Err, IfOk, IfErr, length, take, drop};
ghost use Rattle.hd_base.specs.Results.{with_value};
ghost use Rattle.proto_fields.specs.Frames.{HasFrame, IsNoFrame, frame_at, frame_value};
ghost use Rattle.proto_fields.specs.declared.frames.FrameFault.{FrameFault};

use crate::varints::{VarintFault, read_varint};
use thiserror::Error;

/// Why there is no frame at the front of bytes, in the order in which it is tried.
#[derive(Clone, Copy, Debug, PartialEq, Eq, Error)]
pub enum FrameFault {
    /// The length begins with ten bytes that have their high bit.
    #[error("a length of more than ten bytes")]
    LongPrefix,
    /// The message has over 65,536 bytes.
    #[error("a message of {length} bytes")]
    TooLong { length: u64 },
    /// The bytes end before the message does.
    #[error("the bytes end inside a message")]
    Short,
}

impl From<VarintFault> for FrameFault {
    ghost use Rattle.std.specs.Prelude.{◌≡◌};
    ghost use Rattle.proto_fields.specs.Frames.{prefix_fault};

    ghost from_gives = { λ fault e. e ≡ prefix_fault fault };

    fn from(fault: VarintFault) -> FrameFault {
        match fault {
            VarintFault::Short => FrameFault::Short,
            VarintFault::Long => FrameFault::LongPrefix,
        }
    }
}

/// The most bytes that a message has.
pub const MAX_MESSAGE_SIZE: u64 = 65_536;

/// The message of the frame at the front of the bytes, which is its length as a varint and so many
/// bytes, at most 65,536, and how many bytes the frame has. It takes no memory.
pub fn read_frame(bytes: &[u8]) -> Result<(&[u8], usize), FrameFault>
    // What is read stands there, and what stands there is read.
    ensures found { IfOk result (λ f. HasFrame bytes.now f.0.now) }
    ensures within { IfOk result (λ f. f.1 ≤ length bytes.now) }
    ensures only { (message : List ℕ) → (f : HasFrame bytes.now message)
        → with_value frame_value result ≡ Ok (message, length f.prefix + length message) }

    // The fault is the one that stands there, and the one that stands there comes.
    ensures refused { IfErr result (λ e. IsNoFrame e bytes.now) }
    ensures refuses { (e : FrameFault) → IsNoFrame e bytes.now → result ≡ Err e }

    // The same as a function of the bytes.
    ensures exact { with_value frame_value result ≡ frame_at bytes.now }
{
    frame_of(bytes)
}

/// Reads the length, and takes as many bytes.
#[tactic(auto, unfolding(crate::specs::Frames::frame_at))]
fn frame_of(bytes: &[u8]) -> Result<(&[u8], usize), FrameFault>
    ensures { with_value frame_value result ≡ frame_at bytes.now }
{
    let (length, rest) = read_varint(bytes)?;
    if length > MAX_MESSAGE_SIZE {
        return Err(FrameFault::TooLong { length });
    }
    let len = length as usize;
    if rest.len() < len {
        return Err(FrameFault::Short);
    }
    let (message, _) = rest.split_at(len);
    Ok((message, bytes.len() - rest.len() + len))
}
