//! Why an event of a member isn't done.

ghost use Rattle.std.specs.Prelude.{◌≡◌};
ghost use Rattle.member_events.specs.Faults.{road_fault};

use hd_base::RoadError;
use thiserror::Error;

/// Why an event of a member isn't done.
#[derive(Clone, Copy, Debug, PartialEq, Eq, Error)]
pub enum MemberFault {
    /// A link of the member failed, and the count of its end rose. Both ends were brought back.
    #[error("a link of a member failed")]
    LinkFailed,
    /// The roads failed, and their count rose.
    #[error("the roads failed")]
    RoadsFailed,
    /// A call on the replica's files failed, and the drawer's count rose.
    #[error("a call on a replica's files failed")]
    FilesFailed,
    /// Memory ran out.
    #[error("out of memory")]
    Memory,
}

/// Why an exchange with the roads failed.
pub(crate) fn road_fault(error: RoadError) -> MemberFault
    ensures { result ≡ road_fault error }
{
    match error {
        RoadError::Memory => MemberFault::Memory,
        RoadError::Failed | RoadError::NotListening => MemberFault::RoadsFailed,
    }
}
