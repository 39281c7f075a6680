//! Why an event of a node that serves a read isn't done.

ghost use Rattle.std.specs.Prelude.{◌≡◌};
ghost use Rattle.serving_events.specs.Faults.{road_fault};

use hd_base::RoadError;
use thiserror::Error;

/// Why an event of a node that serves a read isn't done.
#[derive(Clone, Copy, Debug, PartialEq, Eq, Error)]
pub enum ServeFault {
    /// The link to the reader failed, and the count of its end rose. The end was brought back.
    #[error("the link to a reader failed")]
    LinkFailed,
    /// The roads failed, and their count rose.
    #[error("the roads failed")]
    RoadsFailed,
    /// The replica's files, which are not observable, gave fewer bytes than the replica has. The end was brought back.
    #[error("a replica's files gave too few bytes")]
    BytesMissing,
    /// Memory ran out.
    #[error("out of memory")]
    Memory,
}

/// Why an exchange with the roads failed.
pub(crate) fn road_fault(error: RoadError) -> ServeFault
    ensures { result ≡ road_fault error }
{
    match error {
        RoadError::Memory => ServeFault::Memory,
        RoadError::Failed | RoadError::NotListening => ServeFault::RoadsFailed,
    }
}
