//! Why an event of the reads isn't done.

ghost use Rattle.std.specs.Prelude.{◌≡◌};
ghost use Rattle.play_reads.specs.Faults.{of_reader, of_server};

use hd_base::NodeId;
use play_primaries::ReaderFault;
use play_servers::ServeFault;
use thiserror::Error;

/// Why an event of the reads isn't done.
#[derive(Clone, Copy, Debug, PartialEq, Eq, Error)]
pub enum ReadsFault {
    /// A link failed, and the count of its end rose.
    #[error("a link failed")]
    LinkFailed,
    /// The roads failed, and their count rose.
    #[error("the roads failed")]
    RoadsFailed,
    /// A call on files of a node failed, and the count of a drawer of it rose.
    #[error("a call on files of node {} failed", .node.0)]
    FilesFailed { node: NodeId },
    /// The files of a replica of a node, which are not observable, gave fewer bytes than the replica has.
    #[error("files of node {} gave too few bytes", .node.0)]
    BytesMissing { node: NodeId },
    /// Memory ran out.
    #[error("out of memory")]
    Memory,
}

/// The fault of a reader.
pub(crate) fn of_reader(fault: ReaderFault) -> ReadsFault
    ensures { result ≡ of_reader fault }
{
    match fault {
        ReaderFault::LinkFailed => ReadsFault::LinkFailed,
        ReaderFault::RoadsFailed => ReadsFault::RoadsFailed,
        ReaderFault::Memory => ReadsFault::Memory,
    }
}

/// The fault of a lower end at this node.
pub(crate) fn of_server(node: NodeId, fault: ServeFault) -> ReadsFault
    ensures { result ≡ of_server node fault }
{
    match fault {
        ServeFault::LinkFailed => ReadsFault::LinkFailed,
        ServeFault::RoadsFailed => ReadsFault::RoadsFailed,
        ServeFault::BytesMissing => ReadsFault::BytesMissing { node },
        ServeFault::Memory => ReadsFault::Memory,
    }
}
