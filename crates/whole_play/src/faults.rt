//! Why a script wasn't played to its end.

ghost use Rattle.std.specs.Prelude.{◌≡◌};

use completing_lines::PlayFault;
use hd_base::{FileName, NodeId};
use play_report::{OpenFault, ReportFault};
use std::alloc::AllocError;
use thiserror::Error;

/// Why a script wasn't played to its end.
#[derive(Debug, Drop, Error)]
pub enum RunFault {
    /// The roads or a link failed, and their count rose.
    #[error("the roads failed")]
    RoadFault,
    /// The shelf of a node, or the drawer of one of its replicas, failed, and its count rose.
    #[error("the shelf of node {} failed", .node.0)]
    ShelfFault { node: NodeId },
    /// The shelf of a node isn't empty. This is the first of its files by name.
    #[error("the shelf of node {} has the file {name:?}", .node.0)]
    NotEmpty { node: NodeId, name: FileName },
    /// Memory ran out.
    #[error("out of memory")]
    Memory,
}

impl From<AllocError> for RunFault {
    ghost use Rattle.std.specs.Prelude.{◌≡◌};
    ghost use Rattle.whole_play.specs.declared.faults.RunFault.TheVariants.{Memory};

    ghost from_gives = { λ _ fault. fault ≡ Memory };

    fn from(_: AllocError) -> RunFault {
        RunFault::Memory
    }
}

impl From<OpenFault> for RunFault {
    ghost use Rattle.std.specs.Prelude.{◌≡◌};
    ghost use Rattle.whole_play.specs.Faults.{of_opening};

    ghost from_gives = { λ why fault. fault ≡ of_opening why };

    fn from(why: OpenFault) -> RunFault {
        match why {
            OpenFault::RoadFault => RunFault::RoadFault,
            OpenFault::ShelfFault { node } => RunFault::ShelfFault { node },
            OpenFault::NotEmpty { node, name } => RunFault::NotEmpty { node, name },
            OpenFault::Memory => RunFault::Memory,
        }
    }
}

impl From<PlayFault> for RunFault {
    ghost use Rattle.std.specs.Prelude.{◌≡◌};
    ghost use Rattle.whole_play.specs.Faults.{of_play};

    ghost from_gives = { λ why fault. fault ≡ of_play why };

    fn from(why: PlayFault) -> RunFault {
        match why {
            PlayFault::RoadFault => RunFault::RoadFault,
            PlayFault::ShelfFault { node } => RunFault::ShelfFault { node },
            PlayFault::Memory => RunFault::Memory,
        }
    }
}

impl From<ReportFault> for RunFault {
    ghost use Rattle.std.specs.Prelude.{◌≡◌};
    ghost use Rattle.whole_play.specs.Faults.{of_report};

    ghost from_gives = { λ why fault. fault ≡ of_report why };

    fn from(why: ReportFault) -> RunFault {
        match why {
            ReportFault::ShelfFault { node } => RunFault::ShelfFault { node },
            ReportFault::Memory => RunFault::Memory,
        }
    }
}
