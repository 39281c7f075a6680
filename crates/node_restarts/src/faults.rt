//! Why a node's books aren't made again.

ghost use Rattle.std.specs.Prelude.{◌≡◌};
ghost use Rattle.node_restarts.specs.Faults.{of_scan, of_found};

use replica_files::FoundFault;
use restart_scan::ScanFault;
use std::alloc::AllocError;
use thiserror::Error;

/// Why a node's books aren't made again.
#[derive(Clone, Copy, Debug, PartialEq, Eq, Error)]
pub enum RestartFault {
    /// A call on the node's files failed, and the count of its shelf rose.
    #[error("a call on the node's files failed")]
    Files,
    /// Memory ran out.
    #[error("out of memory")]
    Memory,
}

impl From<AllocError> for RestartFault {
    ghost use Rattle.node_restarts.specs.declared.faults.RestartFault.TheVariants as fault;

    ghost from_gives = { λ _ e. e ≡ fault.Memory };

    fn from(_: AllocError) -> RestartFault {
        RestartFault::Memory
    }
}

/// The fault of a scan that didn't end.
pub(crate) fn of_scan(fault: ScanFault) -> RestartFault
    ensures { result ≡ of_scan fault }
{
    match fault {
        ScanFault::File => RestartFault::Files,
        ScanFault::Memory => RestartFault::Memory,
    }
}

/// The fault of a book that wasn't made.
pub(crate) fn of_found(fault: FoundFault) -> RestartFault
    ensures { result ≡ of_found fault }
{
    match fault {
        FoundFault::File => RestartFault::Files,
        FoundFault::Memory => RestartFault::Memory,
    }
}
