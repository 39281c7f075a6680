//! Why a node doesn't start.

ghost use Rattle.std.specs.Prelude.{◌≡◌};
ghost use Rattle.node_starts.specs.Faults.{roads_fault, shelf_fault};

use hd_base::RoadError;
use node_restarts::RestartFault;
use thiserror::Error;

/// Why a node doesn't start.
#[derive(Clone, Copy, Debug, PartialEq, Eq, Error)]
pub enum StartFault {
    /// The roads failed, and their count rose.
    #[error("the roads failed")]
    RoadsFailed,
    /// The node's shelf failed, and its count rose.
    #[error("the node's shelf failed")]
    ShelfFailed,
    /// Memory ran out.
    #[error("out of memory")]
    Memory,
}

/// The fault of roads that failed.
pub(crate) fn roads_fault(error: RoadError) -> StartFault
    ensures { result ≡ roads_fault error }
{
    match error {
        RoadError::Memory => StartFault::Memory,
        RoadError::NotListening | RoadError::Failed => StartFault::RoadsFailed,
    }
}

/// The fault of books that weren't made again.
pub(crate) fn shelf_fault(fault: RestartFault) -> StartFault
    ensures { result ≡ shelf_fault fault }
{
    match fault {
        RestartFault::Files => StartFault::ShelfFailed,
        RestartFault::Memory => StartFault::Memory,
    }
}
