//! Why an event of the nodes isn't done.

ghost use Rattle.std.specs.Prelude.{◌≡◌};
ghost use Rattle.play_nodes.specs.Faults.{fault_at};

use hd_base::NodeId;
use member_events::MemberFault;
use thiserror::Error;

/// Why an event of the nodes isn't done.
#[derive(Clone, Copy, Debug, PartialEq, Eq, Error)]
pub enum NodesFault {
    /// A link failed, and the count of its end rose.
    #[error("a link failed")]
    LinkFailed,
    /// The roads failed, and their count rose.
    #[error("the roads failed")]
    RoadsFailed,
    /// A call on files of a node failed, and the count of a drawer of it rose.
    #[error("a call on files of node {} failed", .node.0)]
    FilesFailed { node: NodeId },
    /// Memory ran out.
    #[error("out of memory")]
    Memory,
}

/// The fault of a member at this node.
pub(crate) fn fault_at(node: NodeId, fault: MemberFault) -> NodesFault
    ensures { result ≡ fault_at node fault }
{
    match fault {
        MemberFault::LinkFailed => NodesFault::LinkFailed,
        MemberFault::RoadsFailed => NodesFault::RoadsFailed,
        MemberFault::FilesFailed => NodesFault::FilesFailed { node },
        MemberFault::Memory => NodesFault::Memory,
    }
}
