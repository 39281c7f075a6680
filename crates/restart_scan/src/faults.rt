//! Why a scan doesn't end.

ghost use Rattle.std.specs.Prelude.{◌≡◌};

use hd_base::FileError;
use std::alloc::AllocError;
use thiserror::Error;

/// Why a scan doesn't end.
#[derive(Clone, Copy, Debug, PartialEq, Eq, Error)]
pub enum ScanFault {
    /// A call on the shelf or on a block's files failed, and its count rose.
    #[error("a call on the files failed")]
    File,
    /// Memory ran out.
    #[error("out of memory")]
    Memory,
}

impl From<FileError> for ScanFault {
    ghost use Rattle.restart_scan.specs.Faults.{scan_fault};

    ghost from_gives = { λ error fault. fault ≡ scan_fault error };

    fn from(error: FileError) -> ScanFault {
        match error {
            FileError::Memory => ScanFault::Memory,
            FileError::Absent | FileError::Failed => ScanFault::File,
        }
    }
}

impl From<AllocError> for ScanFault {
    ghost use Rattle.restart_scan.specs.declared.faults.ScanFault.TheVariants as fault;

    ghost from_gives = { λ _ e. e ≡ fault.Memory };

    fn from(_: AllocError) -> ScanFault {
        ScanFault::Memory
    }
}
