//! Why an event of a primary isn't done.

ghost use Rattle.std.specs.Prelude.{◌≡◌};
ghost use Rattle.primary_events.specs.Faults.{road_fault};

use hd_base::RoadError;
use thiserror::Error;

/// Why an event of a primary isn't done.
#[derive(Clone, Copy, Debug, PartialEq, Eq, Error)]
pub enum PrimaryFault {
    /// The link to a member failed, and the count of its end rose. The end was brought back.
    #[error("a link of a primary failed")]
    LinkFailed,
    /// The roads failed, and their count rose.
    #[error("the roads failed")]
    RoadsFailed,
    /// Memory ran out.
    #[error("out of memory")]
    Memory,
}

/// Why an exchange with the roads failed.
pub(crate) fn road_fault(error: RoadError) -> PrimaryFault
    ensures { result ≡ road_fault error }
{
    match error {
        RoadError::Memory => PrimaryFault::Memory,
        RoadError::Failed | RoadError::NotListening => PrimaryFault::RoadsFailed,
    }
}
