//! Why the office refuses a call.

use hd_base::Stamp;
use std::alloc::{AllocError, AllocFailed};
use std::fmt;
use thiserror::Error;

/// Why the office refuses a call. A refusal keeps what the office has of the block, and changes
/// nothing.
#[derive(Clone, Copy, Debug, PartialEq, Eq, Error)]
pub enum OfficeFault {
    /// The block is known already.
    #[error("the block is known")]
    Known,
    /// The block isn't known.
    #[error("the block isn't known")]
    Unknown,
    /// The block is closed.
    #[error("the block is closed")]
    NotOpen,
    /// The block is open.
    #[error("the block is open")]
    NotClosed,
    /// A block recovery began, so that the writer has lost the block's lease.
    #[error("the lease is lost to the recovery {}", .recovery.0)]
    LeaseLost { recovery: Stamp },
    /// The stamp isn't above the committed one, or, of a block that is completed, is below it.
    #[error("the committed stamp is {}", .committed.0)]
    OldStamp { committed: Stamp },
    /// The recovery isn't the latest one, if any began.
    #[error("the latest recovery is {}", Latest(*.latest))]
    OldRecovery { latest: Option<Stamp> },
    /// The block is longer than an append allows.
    #[error("the length {length} is too long for an append")]
    TooLong { length: u64 },
    /// No memory was left. This alone may come at any time.
    #[error("out of memory")]
    Memory,
}

impl From<AllocError> for OfficeFault {
    ghost use Rattle.std.specs.Prelude.{◌≡◌};
    ghost use Rattle.name_core.specs.declared.faults.OfficeFault.TheVariants.{Memory};

    ghost from_gives = { λ _ fault. fault ≡ Memory };

    fn from(_error: AllocError) -> OfficeFault {
        OfficeFault::Memory
    }
}

impl<T: Drop> From<AllocFailed<T>> for OfficeFault {
    ghost use Rattle.std.specs.Prelude.{◌≡◌};
    ghost use Rattle.name_core.specs.declared.faults.OfficeFault.TheVariants.{Memory};

    ghost from_gives = { λ _ fault. fault ≡ Memory };

    fn from(_failed: AllocFailed<T>) -> OfficeFault {
        OfficeFault::Memory
    }
}

/// The latest recovery, or `none`.
#[derive(Clone, Copy)]
struct Latest(Option<Stamp>);

impl fmt::Display for Latest {
    fn fmt<W: fmt::Write>(&self, f: &mut fmt::Formatter<W>) -> fmt::Result {
        match self.0 {
            Some(stamp) => write!(f, "{}", stamp.0),
            None => f.write_str("none"),
        }
    }
}
