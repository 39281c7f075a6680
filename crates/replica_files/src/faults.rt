//! Why a call on a book doesn't succeed.

ghost use Rattle.std.specs.Prelude.{◌≡◌};

use hd_base::{FileError, Receipt};
use replica_core::Refusal;
use std::alloc::AllocError;
use thiserror::Error;

/// Why a call on a book doesn't succeed.
#[derive(Clone, Copy, Debug, PartialEq, Eq, Error)]
pub enum BookFault {
    /// The replica refuses the event; the receipt is that of its entry.
    #[error("{0}")]
    Refused(Refusal, Receipt),
    /// A call on the files failed, and the replica is broken; the receipt is that of the event's entry.
    #[error("a call on the replica's files failed")]
    File(Receipt),
    /// Memory ran out; nothing changed.
    #[error("out of memory")]
    Memory,
}

/// Why the book of what a restart found isn't made.
#[derive(Clone, Copy, Debug, PartialEq, Eq, Error)]
pub enum FoundFault {
    /// A call on the replica's files failed.
    #[error("a call on the replica's files failed")]
    File,
    /// Memory ran out.
    #[error("out of memory")]
    Memory,
}

impl From<FileError> for FoundFault {
    ghost use Rattle.replica_files.specs.Finding.{found_fault};

    ghost from_gives = { λ error fault. fault ≡ found_fault error };

    fn from(error: FileError) -> FoundFault {
        match error {
            FileError::Memory => FoundFault::Memory,
            FileError::Absent | FileError::Failed => FoundFault::File,
        }
    }
}

/// Why the sum of a replica's bytes isn't told. Nothing changed.
#[derive(Clone, Copy, Debug, PartialEq, Eq, Error)]
pub enum SumFault {
    /// A call on the replica's files failed.
    #[error("a call on the replica's files failed")]
    Files,
    /// Memory ran out.
    #[error("out of memory")]
    Memory,
}

impl From<FileError> for SumFault {
    ghost use Rattle.replica_files.specs.Summing.{sum_fault};

    ghost from_gives = { λ error fault. fault ≡ sum_fault error };

    fn from(error: FileError) -> SumFault {
        match error {
            FileError::Memory => SumFault::Memory,
            FileError::Absent | FileError::Failed => SumFault::Files,
        }
    }
}

impl From<AllocError> for BookFault {
    ghost use Rattle.replica_files.specs.declared.faults.BookFault.TheVariants as book_fault;

    ghost from_gives = { λ _ e. e ≡ book_fault.Memory };

    fn from(_: AllocError) -> BookFault {
        BookFault::Memory
    }
}
