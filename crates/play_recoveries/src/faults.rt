//! Why an event of the recoveries isn't done.

ghost use Rattle.std.specs.Prelude.{◌≡◌};
ghost use Rattle.play_recoveries.specs.Faults.{of_primary, of_server};

use hd_base::NodeId;
use play_primaries::PrimaryFault;
use play_servers::RecoveryFault;
use thiserror::Error;

/// Why an event of the recoveries isn't done.
#[derive(Clone, Copy, Debug, PartialEq, Eq, Error)]
pub enum RecoveriesFault {
    /// A link failed, and the count of its end rose.
    #[error("a link failed")]
    LinkFailed,
    /// The roads failed, and their count rose.
    #[error("the roads failed")]
    RoadsFailed,
    /// A call on files of a node failed, and the count of a drawer of it rose.
    #[error("a call on files of node {} failed", .node.0)]
    FilesFailed { node: NodeId },
    /// Memory ran out.
    #[error("out of memory")]
    Memory,
}

/// The fault of a primary.
pub(crate) fn of_primary(fault: PrimaryFault) -> RecoveriesFault
    ensures { result ≡ of_primary fault }
{
    match fault {
        PrimaryFault::LinkFailed => RecoveriesFault::LinkFailed,
        PrimaryFault::RoadsFailed => RecoveriesFault::RoadsFailed,
        PrimaryFault::Memory => RecoveriesFault::Memory,
    }
}

/// The fault of a lower end.
pub(crate) fn of_server(fault: RecoveryFault) -> RecoveriesFault
    ensures { result ≡ of_server fault }
{
    match fault {
        RecoveryFault::LinkFailed => RecoveriesFault::LinkFailed,
        RecoveryFault::RoadsFailed => RecoveriesFault::RoadsFailed,
        RecoveryFault::Memory => RecoveriesFault::Memory,
    }
}
