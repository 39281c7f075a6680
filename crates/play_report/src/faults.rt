//! Why a report isn't written.

use hd_base::NodeId;
use std::alloc::AllocError;
use thiserror::Error;

/// Why a report isn't written.
#[derive(Clone, Copy, Debug, PartialEq, Eq, Error)]
pub enum ReportFault {
    /// The files of a node failed, and their count rose.
    #[error("the files of node {} failed", .node.0)]
    ShelfFault { node: NodeId },
    /// Memory ran out.
    #[error("out of memory")]
    Memory,
}

impl From<AllocError> for ReportFault {
    ghost use Rattle.std.specs.Prelude.{◌≡◌};
    ghost use Rattle.play_report.specs.declared.faults.ReportFault.TheVariants as fault;

    ghost from_gives = { λ _ e. e ≡ fault.Memory };

    fn from(_: AllocError) -> ReportFault {
        ReportFault::Memory
    }
}
