//! Why the nodes of a play aren't opened.

ghost use Rattle.std.specs.Prelude.{◌≡◌};
ghost use Rattle.node_opening.specs.Emptiness.{shelf_fault};
ghost use Rattle.node_opening.specs.Listening.{road_fault};

use hd_base::{FileError, FileName, NodeId, RoadError};
use std::alloc::AllocError;
use thiserror::Error;

/// Why the nodes of a play aren't opened.
#[derive(Debug, Drop, Error)]
pub enum OpenFault {
    /// The roads failed, and their count rose.
    #[error("the roads failed")]
    RoadFault,
    /// The shelf of a node failed, and its count rose.
    #[error("the shelf of node {} failed", .node.0)]
    ShelfFault { node: NodeId },
    /// The shelf of a node has files. This is the first of them by its name.
    #[error("the shelf of node {} has the file {name:?}", .node.0)]
    NotEmpty { node: NodeId, name: FileName },
    /// Memory ran out.
    #[error("out of memory")]
    Memory,
}

impl From<AllocError> for OpenFault {
    ghost use Rattle.std.specs.Prelude.{◌≡◌};
    ghost use Rattle.node_opening.specs.declared.faults.OpenFault.TheVariants as fault;

    ghost from_gives = { λ _ e. e ≡ fault.Memory };

    fn from(_: AllocError) -> OpenFault {
        OpenFault::Memory
    }
}

/// The fault of roads that failed.
pub(crate) fn road_fault(error: RoadError) -> OpenFault
    ensures { result ≡ road_fault error }
{
    match error {
        RoadError::Memory => OpenFault::Memory,
        RoadError::NotListening | RoadError::Failed => OpenFault::RoadFault,
    }
}

/// The fault of a node's shelf that failed.
pub(crate) fn shelf_fault(node: NodeId, error: FileError) -> OpenFault
    ensures { result ≡ shelf_fault node error }
{
    match error {
        FileError::Memory => OpenFault::Memory,
        FileError::Absent | FileError::Failed => OpenFault::ShelfFault { node },
    }
}
