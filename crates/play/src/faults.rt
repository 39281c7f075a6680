//! Why a play stops.

ghost use Rattle.std.specs.Prelude.{◌≡◌};
ghost use Rattle.play.specs.Faults.{of_nodes, of_client, of_reads, of_recoveries, of_start};

use hd_base::NodeId;
use node_starts::StartFault;
use node_stops::NodesFault;
use play_dues::{ClientFault, ReadsFault, RecoveriesFault};
use thiserror::Error;

/// Why a play stops.
#[derive(Clone, Copy, Debug, PartialEq, Eq, Error)]
pub enum PlayFault {
    /// A link or the roads failed, and a count of theirs rose.
    #[error("the roads failed")]
    RoadFault,
    /// The files of a node failed, and the count of a drawer of it rose.
    #[error("the files of node {} failed", .node.0)]
    ShelfFault { node: NodeId },
    /// Memory ran out.
    #[error("out of memory")]
    Memory,
}

/// Why a play stops in which an event of the nodes isn't done.
pub(crate) fn of_nodes(fault: NodesFault) -> PlayFault
    ensures { result ≡ of_nodes fault }
{
    match fault {
        NodesFault::LinkFailed | NodesFault::RoadsFailed => PlayFault::RoadFault,
        NodesFault::FilesFailed { node } => PlayFault::ShelfFault { node },
        NodesFault::Memory => PlayFault::Memory,
    }
}

/// Why a play stops in which an event of a client isn't done.
pub(crate) fn of_client(fault: ClientFault) -> PlayFault
    ensures { result ≡ of_client fault }
{
    match fault {
        ClientFault::LinkFailed | ClientFault::RoadsFailed => PlayFault::RoadFault,
        ClientFault::Memory => PlayFault::Memory,
    }
}

/// Why a play stops in which an event of the reads isn't done. Bytes are missing only where files aren't told, and no reads
/// are played there.
pub(crate) fn of_reads(fault: ReadsFault) -> PlayFault
    ensures { result ≡ of_reads fault }
{
    match fault {
        ReadsFault::LinkFailed | ReadsFault::RoadsFailed => PlayFault::RoadFault,
        ReadsFault::FilesFailed { node } | ReadsFault::BytesMissing { node } => {
            PlayFault::ShelfFault { node }
        }
        ReadsFault::Memory => PlayFault::Memory,
    }
}

/// Why a play stops in which an event of the recoveries isn't done.
pub(crate) fn of_recoveries(fault: RecoveriesFault) -> PlayFault
    ensures { result ≡ of_recoveries fault }
{
    match fault {
        RecoveriesFault::LinkFailed | RecoveriesFault::RoadsFailed => PlayFault::RoadFault,
        RecoveriesFault::FilesFailed { node } => PlayFault::ShelfFault { node },
        RecoveriesFault::Memory => PlayFault::Memory,
    }
}

/// Why a play stops in which a node doesn't start.
pub(crate) fn of_start(fault: StartFault, node: NodeId) -> PlayFault
    ensures { result ≡ of_start node fault }
{
    match fault {
        StartFault::RoadsFailed => PlayFault::RoadFault,
        StartFault::ShelfFailed => PlayFault::ShelfFault { node },
        StartFault::Memory => PlayFault::Memory,
    }
}
